// How often a history has each kind of entry.
ghost use Rattle.std.specs.Prelude.{◌≡◌, ◌≤◌, ◌<◌, ◌+◌, ◌*◌, ◌^◌, map, length};
ghost use Rattle.osc_model.specs.Recordings.{hits_in};
ghost use Rattle.osc_record.specs.Shown.{event_of, answer_of};
ghost use Rattle.osc_record.specs.Left.{placed_of, entries_left};
ghost use Rattle.osc_record.specs.Reading.{unplaced};
ghost use Rattle.osc_model.specs.Events;
ghost use Rattle.osc_replay.specs.Counted;
ghost use Rattle.osc_replay.specs.Counted.{no_counts, one_more, more_counted, weight, IsAtMost};

use osc_record::{Answer, Entries, Entry, Event};

/// How often a history has each kind of entry, and how many calls its releases make.
#[derive(Clone, Copy)]
pub(crate) struct Counts {
    pub(crate) entries: u64,
    pub(crate) submits: u64,
    /// Submits that were queued, and those that weren't.
    pub(crate) queued: u64,
    pub(crate) refused: u64,
    pub(crate) adds: u64,
    pub(crate) removes: u64,
    pub(crate) ticks: u64,
    pub(crate) releases: u64,
    pub(crate) calls: u64,
}

impl Counts {
    fn none() -> Counts
        ensures { result ≡ no_counts }
    {
        Counts {
            entries: 0,
            submits: 0,
            queued: 0,
            refused: 0,
            adds: 0,
            removes: 0,
            ticks: 0,
            releases: 0,
            calls: 0,
        }
    }

    /// Counts one more entry.
    fn add(&mut self, entry: &Entry<'_>)
        requires { IsAtMost (2 ^ 62) self.old }
        ensures { self.new ≡ one_more self.old (placed_of entry.now).entry }
    {
        let submitted = is_submit(entry.event);
        let queued = is_queued(entry.answer);
        self.entries += 1;
        self.submits += u64::from(submitted);
        self.queued += u64::from(submitted && queued);
        self.refused += u64::from(submitted && !queued);
        self.adds += u64::from(is_added(entry.answer));
        self.removes += u64::from(is_removed(entry.answer));
        self.ticks += u64::from(is_ticked(entry.answer));
        self.releases += u64::from(is_released(entry.answer));
        self.calls += hit_count(entry.answer);
    }
}

/// Counts the entries that are left.
pub(crate) fn count_entries(entries: Entries<'_>) -> Counts
    requires { weight (unplaced (entries_left entries)) ≤ 2 ^ 62 }
    ensures { result ≡ more_counted no_counts (unplaced (entries_left entries.entry)) }
{
    let mut counts = Counts::none();
    for entry in entries {
        counts.add(&entry);
    }
    counts
}

fn is_submit(event: Event<'_>) -> bool
    ensures { result ≡ Counted.is_submit (event_of event.entry) }
{
    matches!(event, Event::Submit(_))
}

fn is_queued(answer: Answer<'_>) -> bool
    ensures { result ≡ Counted.is_queued (answer_of answer.entry) }
{
    matches!(answer, Answer::Queued { .. })
}

pub(crate) fn is_added(answer: Answer<'_>) -> bool
    ensures { result ≡ Events.is_added (answer_of answer.entry) }
{
    matches!(answer, Answer::Added(_))
}

fn is_removed(answer: Answer<'_>) -> bool
    ensures { result ≡ Events.is_removed (answer_of answer.entry) }
{
    matches!(answer, Answer::Removed(_))
}

fn is_ticked(answer: Answer<'_>) -> bool
    ensures { result ≡ Counted.is_ticked (answer_of answer.entry) }
{
    matches!(answer, Answer::Ticked)
}

fn is_released(answer: Answer<'_>) -> bool
    ensures { result ≡ Counted.is_released (answer_of answer.entry) }
{
    matches!(answer, Answer::Released { .. })
}

/// How many hits an answer has.
fn hit_count(answer: Answer<'_>) -> u64
    ensures value { result ≡ Counted.hit_count (answer_of answer.entry) }
    ensures small { result < 2 ^ 62 }
{
    match answer {
        Answer::Released { hits, .. } => whole_hits(hits),
        _ => 0,
    }
}

/// How many hits the bytes have.
fn whole_hits(hits: &[u8]) -> u64
    ensures value { result ≡ length (hits_in hits.now) }
    ensures small { result < 2 ^ 62 }
{
    hits.len() as u64 / 8
}
