// A visitor that is there.
ghost use Rattle.std.specs.Prelude.{◌≡◌, None, true, nat_lt};
ghost use Rattle.osc_hall.specs.declared.limits.TheConstants.{PATIENCE};
ghost use Rattle.osc_hall.specs.Visits.{text_of};
ghost use Rattle.osc_hall.specs.Turns.{just_come, longer, SeesSo, IsSeen};
ghost use Rattle.osc_hall.specs.Turns.{Hears, IsHeard, Tells, IsTold};

use crate::limits::{PATIENCE, PIECE};
use crate::visit::Visit;
use osc_door::{Said, Took, Visitor};
use std::alloc::Global;
use std::marker::Model;

/// A visitor that is there, what was heard of it and what it has been told.
#[derive(Drop)]
pub(crate) struct Guest<V: Visitor> {
    visitor: V,
    visit: Visit,
    /// For how many rounds it has been there.
    rounds: u32,
}

impl<V: Visitor> Model for Guest<V> {
    ghost use Rattle.std.specs.Prelude.{option_map};
    ghost use Rattle.osc_hall.specs.Turns.{Seen, seen_code};

    ghost Value = { Seen V };

    ghost coded = { seen_code V.code };

    ghost view = { λ g. record {
      visitor = g.visitor;
      heard = g.visit.heard.items;
      answer = option_map (λ text. text.items) g.visit.answer;
      told = g.visit.told;
      rounds = g.rounds;
    } };
}

impl<V: Visitor> Guest<V> {
    /// A visitor that has just come.
    pub(crate) fn open(alloc: Global, visitor: V) -> Guest<V>
        ensures { result ≡ just_come visitor }
    {
        Guest {
            visitor,
            visit: Visit::open(alloc),
            rounds: 0,
        }
    }

    /// Hears or tells the visitor once. Answers whether it stays.
    pub(crate) fn stays(&mut self, alloc: Global, page: &[u8], state: &[u8]) -> bool
        ensures { SeesSo V.left V.taken page.now state.now (nat_lt self.old.rounds PATIENCE)
            self.old self.new result }
    {
        if self.rounds >= PATIENCE {
            return false;
        }
        self.visits(alloc, page, state)
    }

    /// Hears the visitor, if it has no answer yet, and tells it, if it has one. Answers whether it
    /// stays.
    fn visits(&mut self, alloc: Global, page: &[u8], state: &[u8]) -> bool
        requires { nat_lt self.old.rounds PATIENCE ≡ true }
        ensures { IsSeen V.left V.taken page.now state.now self.old self.new result }
    {
        self.stay_longer();
        self.hears(alloc, page, state) && self.tells()
    }

    /// It stays for a round more.
    fn stay_longer(&mut self)
        requires { nat_lt self.old.rounds PATIENCE ≡ true }
        ensures { self.new ≡ longer self.old }
    {
        self.rounds += 1;
    }

    /// Hears the visitor once, where it has no answer yet. Answers whether it goes on.
    fn hears(&mut self, alloc: Global, page: &[u8], state: &[u8]) -> bool
        ensures { Hears V.left V.taken page.now state.now self.old.answer self.old self.new result }
    {
        if self.visit.answer.is_some() {
            return true;
        }
        self.listens(alloc, page, state)
    }

    /// Hears the visitor once. Answers whether it goes on.
    fn listens(&mut self, alloc: Global, page: &[u8], state: &[u8]) -> bool
        requires { self.old.answer ≡ None }
        ensures { IsHeard V.left V.taken page.now state.now self.old self.new result }
    {
        let mut piece = [0u8; PIECE];
        match self.visitor.read(&mut piece) {
            Said::Bytes(count) => self.visit.hear(alloc, &piece[..count], page, state).is_ok(),
            Said::Quiet => true,
            Said::Gone => false,
        }
    }

    /// Tells the visitor once, where it has an answer. Answers whether it goes on.
    fn tells(&mut self) -> bool
        ensures { Tells V.left V.taken self.old.answer self.old self.new result }
    {
        if self.visit.answer.is_none() {
            return true;
        }
        self.speaks()
    }

    /// Tells the visitor once. Answers whether it goes on.
    fn speaks(&mut self) -> bool
        ensures { IsTold V.left V.taken (text_of self.old.answer) self.old self.new result }
    {
        match self.visitor.write(self.visit.share()) {
            Took::Bytes(count) => {
                self.visit.took(count);
                !self.visit.rest().is_empty()
            }
            Took::Quiet => true,
            Took::Gone => false,
        }
    }
}
