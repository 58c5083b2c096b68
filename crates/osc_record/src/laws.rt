//! What the definitions of recordings say of each other. These functions do nothing; their
//! contracts are the laws.
ghost use Rattle.std.specs.Prelude.{◌≡◌, ℕ, ◌%◌, ◌≤◌, List, [], ◌∷◌, ◌++◌, length, codes, Ok, Some};
ghost use Rattle.osc_atoms.specs.Atoms.{AreBytes};
ghost use Rattle.osc_model.specs.Samples.{usual_limits};
ghost use Rattle.osc_model.specs.Events.{Event, Answer, submit, queued, tick, ticked};
ghost use Rattle.osc_model.specs.Limits.{AreInRange, Limits, header_size, max_recording};
ghost use Rattle.osc_model.specs.Events.{Entry as Recorded};
ghost use Rattle.osc_model.specs.Recordings.{IsRecordable, FitsRow, row_of, entry_size, entry_text};
ghost use Rattle.osc_model.specs.Recordings.{hits_text, hits_in, header_text, record_text};
ghost use Rattle.osc_record.specs.declared.version.Version.TheVariants.{First, Second};
ghost use Rattle.osc_record.specs.Versions.{header_text_in, text_in};
ghost use Rattle.osc_record.specs.Reading.{entry_in, record_read, placed_from, IsRecord};

/// A recording that is written is read again: its limits, and its entries, each at its place.
pub fn written_is_read_again()
    ensures { (limits : Limits) (entries : List Recorded) → IsRecord limits entries
        → record_read Second (record_text limits entries)
        ≡ Ok (limits, placed_from header_size entries) }
{}

/// No two recordings have one text: the bytes determine the limits and the entries.
pub fn texts_differ()
    ensures { (limits other : Limits) (entries others : List Recorded) → IsRecord limits entries
        → IsRecord other others → record_text limits entries ≡ record_text other others
        → (limits ≡ other) × (entries ≡ others) }
{}

/// An entry that is written is read again, whatever follows it.
pub fn a_written_entry_is_read_again()
    ensures { (caller : ℕ) (event : Event) (answer : Answer) (rest : List ℕ)
        → IsRecordable caller event answer
        → length (entry_text caller event answer) ≤ max_recording →
        entry_in (entry_text caller event answer ++ rest)
        ≡ Some (record { caller = caller; event = event; answer = answer }) }
{}

/// Each entry has its own text: no two entries have one, and no entry's text is a proper front of
/// another's.
pub fn entries_have_their_own_texts()
    ensures same { (one other : Recorded) →
        IsRecordable one.caller one.event one.answer →
        IsRecordable other.caller other.event other.answer →
        entry_text one.caller one.event one.answer ≡
        entry_text other.caller other.event other.answer →
        one ≡ other }
    ensures no_front { (one other : Recorded) (rest : List ℕ) →
        IsRecordable one.caller one.event one.answer →
        IsRecordable other.caller other.event other.answer →
        entry_text one.caller one.event one.answer ≡
        entry_text other.caller other.event other.answer ++ rest →
        rest ≡ [] }
{}

/// No two limits have one header.
pub fn headers_differ()
    ensures { (limits other : Limits) → AreInRange limits → AreInRange other
        → header_text limits ≡ header_text other → limits ≡ other }
{}

/// How many bytes an entry has, whatever it is answered: but a release's size counts its hits.
pub fn sizes()
    ensures header { (limits : Limits) → length (header_text limits) ≡ header_size }
    ensures entry { (caller : ℕ) (event : Event) (answer : Answer)
        → FitsRow (row_of caller event answer)
        → length (entry_text caller event answer) ≡ entry_size event answer }
{}

/// Bytes that are eights are the text of the hits that stand in them.
pub fn whole_hits_are_their_bytes()
    ensures { (bytes : List ℕ) → AreBytes bytes → length bytes % 8 ≡ 0 →
        hits_text (hits_in bytes) ≡ bytes }
{}

/// A header and an entry, byte by byte.
pub fn examples()
    ensures header { header_text
        (usual_limits 1)
        ≡ 0 ∷ 0 ∷ 0 ∷ 0x38 ∷ codes "/osc/rec" ++ 0 ∷ 0 ∷ 0 ∷ 0 ∷ codes ",iiiiiiii"
        ++ 0 ∷ 0 ∷ 0 ∷ 0 ∷ 0 ∷ 0 ∷ 2 ∷ 0 ∷ 0 ∷ 0x10 ∷ 0 ∷ 0 ∷ 0 ∷ 0x40 ∷ 0 ∷ 0 ∷ 0 ∷ 4 ∷ 0 ∷ 0
        ∷ 0 ∷ 0x10 ∷ 0 ∷ 0 ∷ 0 ∷ 0 ∷ 1 ∷ 4 ∷ 0 ∷ 0 ∷ 0 ∷ 0 ∷ 0 ∷ 0 ∷ 0 ∷ [] }
    ensures entry { entry_text 0 (tick 5) ticked
        ≡ 0 ∷ 0 ∷ 0 ∷ 0x2c ∷ codes "/osc/tick" ++ 0 ∷ 0 ∷ 0 ∷ codes ",itit"
        ++ 0 ∷ 0 ∷ 0 ∷ 0 ∷ 0 ∷ 0 ∷ 0 ∷ 0 ∷ 0 ∷ 0 ∷ 0 ∷ 0 ∷ 0 ∷ 0 ∷ 5 ∷ 0 ∷ 0 ∷ 0 ∷ 0 ∷ 0 ∷ 0 ∷ 0 ∷ 0
        ∷ 0 ∷ 0 ∷ 0 ∷ 5 ∷ [] }
{}

/// A header and a submit of the first version, byte by byte.
pub fn old_examples()
    ensures header { header_text_in First
        (usual_limits 1)
        ≡ 0 ∷ 0 ∷ 0 ∷ 0x34 ∷ codes "/osc/rec" ++ 0 ∷ 0 ∷ 0 ∷ 0 ∷ codes ",iiiiiii"
        ++ 0 ∷ 0 ∷ 0 ∷ 0 ∷ 0 ∷ 0 ∷ 0 ∷ 1 ∷ 0 ∷ 0 ∷ 0x10 ∷ 0 ∷ 0 ∷ 0 ∷ 0x40 ∷ 0 ∷ 0 ∷ 0 ∷ 4 ∷ 0 ∷ 0
        ∷ 0 ∷ 0x10 ∷ 0 ∷ 0 ∷ 0 ∷ 0 ∷ 1 ∷ 4 ∷ 0 ∷ 0 ∷ 0 ∷ [] }
    ensures entry { text_in First 0 (submit (codes "/a" ++ 0 ∷ 0 ∷ [])) (queued 0 1 0)
        ≡ 0 ∷ 0 ∷ 0 ∷ 0x30 ∷ codes "/osc/submit" ++ 0 ∷ codes ",ibihi"
        ++ 0 ∷ 0 ∷ 0 ∷ 0 ∷ 0 ∷ 0 ∷ 0 ∷ 0 ∷ 0 ∷ 4 ∷ codes "/a" ++ 0 ∷ 0 ∷ 0 ∷ 0 ∷ 0 ∷ 0 ∷ 0 ∷ 0
        ∷ 0 ∷ 0 ∷ 0 ∷ 0 ∷ 0 ∷ 0 ∷ 0 ∷ 0 ∷ 0 ∷ 1 ∷ [] }
{}
