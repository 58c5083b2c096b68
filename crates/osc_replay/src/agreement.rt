// Whether the answer that is kept is the one that is computed.
ghost use Rattle.std.specs.Prelude.{◌≡◌, ◌↔◌, ◌%◌, length, IsTrue};
ghost use Rattle.osc_model.specs.Events.{released};
ghost use Rattle.osc_model.specs.Recordings.{hits_in};
ghost use Rattle.osc_record.specs.Shown.{answer_of, HasWholeHits};

use osc_record::Answer;

/// Whether two answers have one text.
#[inline(always)]
pub(crate) fn agree(kept: Answer<'_>, computed: Answer<'_>) -> bool
    requires kept { HasWholeHits kept }
    requires computed { HasWholeHits computed }
    ensures { IsTrue result ↔ (answer_of kept.entry ≡ answer_of computed.entry) }
{
    match kept {
        Answer::Released { unit, hits } => is_released(computed, unit, hits),
        _ => kept == computed,
    }
}

/// Whether the answer is the release of a unit with these hits.
fn is_released(answer: Answer<'_>, unit: u64, hits: &[u8]) -> bool
    requires answer { HasWholeHits answer }
    requires hits { length hits.now % 8 ≡ 0 }
    ensures { IsTrue result ↔ (released unit (hits_in hits.now) ≡ answer_of answer.entry) }
{
    match answer {
        Answer::Released {
            unit: own,
            hits: own_hits,
        } => own == unit && are_same(hits, own_hits),
        _ => false,
    }
}

/// Whether the bytes of some hits are those of others.
fn are_same(hits: &[u8], others: &[u8]) -> bool
    requires hits { length hits.now % 8 ≡ 0 }
    requires others { length others.now % 8 ≡ 0 }
    ensures { IsTrue result ↔ (hits_in hits.now ≡ hits_in others.now) }
{
    osc_record::laws::whole_hits_are_their_bytes();
    hits == others
}
