// Rows of the turn.
ghost use Rattle.std.specs.Prelude.{◌≡◌, ℕ, ◌^◌, ◌<◌, ◌≤◌, true, List, [], ◌∷◌, ◌++◌, map, length, vec_len, Some, IfOk, IfSome};
ghost use Rattle.std.specs.Option.{ForSome};
ghost use Rattle.osc_turn.specs.History.{own};
ghost use Rattle.osc_turn.specs.Rule.{opening, number_of};
ghost use Rattle.osc_turn.specs.Passes.{view, IsPassOf};

use osc_turn::{GuestRefusal, Job, Kept, Pass, StillOut, Tried, Turn};
use std::alloc::{AllocError, Global};
use std::sync::Wait;
use std::test::Fail;

// A list of byte lists, each an entry of its own.
#[derive(Drop)]
struct Log {
    lines: Vec<Vec<u8>>,
    ghost few: { vec_len lines < 2 ^ 62 },
}

impl Kept for Log {
    ghost use Rattle.std.proofs.Common.{ap, sym, ◌∙◌, arith};
    ghost use Rattle.std.proofs.lemmas.List.{length-map};

    ghost stands = { λ x h. h ≡ map (λ line. line.items) x.lines.items };

    ghost kind = { λ x. [] };

    ghost history = { λ x. map (λ line. line.items) x.lines.items };

    ghost one_length = { λ x g h p q. ap length p ∙ sym (ap length q) };

    ghost short = { λ x h p. Prim.omega
        (arith, ap length p, length-map x.lines.items (λ line. line.items), x.few) };

    fn entries(&self) -> u64 {
        self.lines.len() as u64
    }
}

// Appends its line, if it has one, and says how many stood before.
#[derive(Drop)]
struct Append {
    line: Option<Vec<u8>>,
    stood: usize,
}

impl Job<Log> for Append {
    ghost base_kind = { λ j. [] };

    ghost base = { λ j. [] };

    ghost did = { λ j j' before after. j'.stood ≡ length before };

    fn run(&mut self, state: &mut Log) -> bool {
        self.stood = state.lines.len();
        if self.stood >= 1 << 60 {
            return false;
        }
        match self.line.take() {
            Some(line) => state.lines.push(line).is_ok(),
            None => false,
        }
    }
}

fn appending(line: Vec<u8>) -> Append
    ensures { result.line ≡ Some line }
{
    Append {
        line: Some(line),
        stood: 0,
    }
}

// A turn over an empty log, its first pass and a guest.
fn opened(alloc: Global) -> Result<(Turn<Log>, Pass), AllocError>
    ensures { IfOk result (λ t. IsPassOf t.0 t.1 × (view t.1 ≡ opening [])) }
{
    let empty = Log {
        lines: Vec::new(alloc),
    };
    match Turn::open(alloc, empty) {
        Ok(opened) => Ok(opened),
        Err((none, _)) => Err(none),
    }
}

// A job that tries to take the turn while it is held.
#[derive(Drop)]
struct Meddle<'a> {
    turn: &'a Turn<Log>,
    pass: Option<Pass>,
    answer: Option<Tried>,
    ghost ours: { ForSome pass (λ p. IsPassOf turn.now p × ((view p).kind ≡ [])) },
}

impl<'a> Job<Log> for Meddle<'a> {
    ghost base_kind = { λ j. [] };

    ghost base = { λ j. [] };

    ghost did = { λ j j' before after. after ≡ before };

    fn run(&mut self, state: &mut Log) -> bool {
        let _ = state;
        if let Some(pass) = self.pass.take() {
            let mut idle = Append {
                line: None,
                stood: 0,
            };
            let (_, tried) = self.turn.try_act(pass, &mut idle);
            self.answer = Some(tried);
        }
        false
    }
}

fn meddling(turn: &Turn<Log>, pass: Pass) -> Meddle<'_>
    requires ours { IsPassOf turn.now pass }
    requires kind { (view pass).kind ≡ [] }
{
    Meddle {
        turn,
        pass: Some(pass),
        answer: None,
    }
}

#[test]
fn a_job_finds_its_own_turn_taken(rt: HostRuntime) -> Result<(), Fail> {
    let (turn, pass) = opened(rt.alloc())?;
    let (pass, guest) = turn.guest(pass);
    let guest = guest.ok().expect(&rt, "there is room");
    let mut job = meddling(&turn, guest);
    let (_, ran) = turn.act(&rt, pass, &mut job);
    assert_eq!(rt; (ran, job.answer), (false, Some(Tried::Busy { found: 1 })));
    Ok(())
}

#[test]
fn there_is_an_end_to_guests(rt: HostRuntime) -> Result<(), Fail> {
    let (turn, mut pass) = opened(rt.alloc())?;
    for _ in 0..65_535u32 {
        let (first, guest) = turn.guest(pass);
        pass = first;
        assert!(rt; guest.is_ok());
    }
    let (pass, full) = turn.guest(pass);
    assert_eq!(rt; full.err(), Some(GuestRefusal::Full { limit: 65_536 }));
    let (_, ran) = turn.act(&rt, pass, &mut appending(vec![in rt.alloc(); 1]?));
    assert!(rt; ran);
    Ok(())
}

// The first pass adds two lines, and then tells the guest, which was made before them.
fn told_of_two<R: Wait>(
    rt: &R,
    turn: &Turn<Log>,
    pass: Pass,
    lines: (Vec<u8>, Vec<u8>),
) -> Option<(Pass, Pass)>
    requires ours { IsPassOf turn.now pass }
    requires first { view pass ≡ opening [] }
    ensures ours { IfSome result (λ both. IsPassOf turn.now both.0 × IsPassOf turn.now both.1) }
    ensures first { IfSome result (λ both. number_of (view both.0) ≡ 0) }
    ensures few { IfSome result (λ both. (view both.0).made ≡ 2) }
    ensures two { IfSome result (λ both. 2 ≤ length (view both.1).seen) }
    ensures none_own { IfSome result
        (λ both. own (number_of (view both.1)) (view both.1).seen ≡ []) }
{
    let (pass, guest) = turn.guest(pass);
    let guest = guest.ok()?;
    let (pass, first) = turn.act(rt, pass, &mut appending(lines.0));
    let (pass, second) = turn.act(rt, pass, &mut appending(lines.1));
    if first && second {
        return Some(turn.meet(pass, guest));
    }
    None
}

#[test]
fn a_guest_is_told_and_both_are_handed_in(rt: HostRuntime) -> Result<(), Fail> {
    let (turn, pass) = opened(rt.alloc())?;
    let lines = (vec![in rt.alloc(); 7, 0]?, vec![in rt.alloc(); 7, 1]?);
    let (pass, guest) = told_of_two(&rt, &turn, pass, lines).expect(&rt, "both lines are added");
    let (guest, entries) = turn.front(guest);
    assert_eq!(rt; entries, 2);
    let mut passes = Vec::new(rt.alloc());
    passes.push(pass)?;
    match turn.close(passes) {
        Err(
            StillOut {
                made,
                handed,
                turn,
                mut passes,
            },
        ) => {
            assert_eq!(rt; (made, handed), (2, 1));
            passes.push(guest)?;
            let log = turn.close(passes).ok().expect(&rt, "all passes are in");
            assert_eq!(rt; log.lines, lines_of(rt.alloc(), 7, 2)?);
            let (turn, pass) = Turn::reopen(rt.alloc(), log)
                .ok()
                .expect(&rt, "there is memory");
            let (_, entries) = turn.front(pass);
            assert_eq!(rt; entries, 2);
        }
        Ok(_) => panic!(rt; "a pass is out"),
    }
    Ok(())
}

fn lines_of(alloc: Global, author: u8, count: u8) -> Result<Vec<Vec<u8>>, AllocError> {
    let mut lines = Vec::new(alloc);
    for number in 0..count {
        lines.push(vec![in alloc; author, number]?)?;
    }
    Ok(lines)
}
