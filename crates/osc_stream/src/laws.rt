//! Laws of the definitions that the contracts cite. A call takes no time and gives nothing: its clauses are the law.
ghost use Rattle.std.specs.Prelude.{◌≡◌, ℕ, List, [], ◌∷◌, ◌++◌, length, IsTrue};
ghost use Rattle.osc_stream.specs.Frames.{Frames, frames, with_packets, Broken, Cut, Clean};
ghost use Rattle.osc_stream.specs.Feeding.{StreamView, at_start};
ghost use Rattle.osc_stream.specs.Runs.{Feed, IsRun, bytes_taken, packets_answered};
ghost use Rattle.osc_stream.specs.Written.{written, are_lawful};

/// However bytes are cut into pieces, a stream answers exactly the packets of the bytes' frames. Whatever comes then,
/// the frames go on with what is held and what comes.
pub fn any_pieces()
    ensures packets { (feeds : List Feed) (stream : StreamView) → IsRun at_start feeds stream
        → packets_answered feeds ≡ (Frames (bytes_taken feeds)).packets }
    ensures frames { (feeds : List Feed) (stream : StreamView) (more : List ℕ)
        → IsRun at_start feeds stream → Frames (bytes_taken feeds ++ more)
        ≡ with_packets (packets_answered feeds) (frames stream.place (stream.held ++ more)) }
{}

/// Packets that are written one after the other, each after its size, are the first packets of the frames.
pub fn written_packets()
    ensures { (packets : List (List ℕ)) (rest : List ℕ) → IsTrue (are_lawful packets)
        → Frames (written packets ++ rest)
        ≡ with_packets packets (frames (length (written packets)) rest) }
{}

/// The frames of bytes: the two packets of a stream of 20 bytes, a word that is no size, a size that is too great, an
/// empty packet, and ends within a word and within a packet.
pub fn some_frames()
    ensures whole { Frames (0 ∷ 0 ∷ 0 ∷ 4 ∷ 47 ∷ 97 ∷ 0 ∷ 0 ∷ 0 ∷ 0 ∷ 0 ∷ 8
        ∷ 47 ∷ 97 ∷ 0 ∷ 0 ∷ 44 ∷ 0 ∷ 0 ∷ 0 ∷ [])
        ≡ record {
          packets = (47 ∷ 97 ∷ 0 ∷ 0 ∷ [])
              ∷ (47 ∷ 97 ∷ 0 ∷ 0 ∷ 44 ∷ 0 ∷ 0 ∷ 0 ∷ []) ∷ [];
          ending = Clean;
        } }
    ensures broken { Frames (0 ∷ 0 ∷ 0 ∷ 4 ∷ 47 ∷ 97 ∷ 0 ∷ 0 ∷ 0 ∷ 0 ∷ 0 ∷ 3 ∷ [])
        ≡ record { packets = (47 ∷ 97 ∷ 0 ∷ 0 ∷ []) ∷ []; ending = Broken 8 3 } }
    ensures great { Frames (0 ∷ 0 ∷ 255 ∷ 228 ∷ [])
        ≡ record { packets = []; ending = Broken 0 65508 } }
    ensures greatest { Frames (0 ∷ 0 ∷ 255 ∷ 224 ∷ [])
        ≡ record { packets = []; ending = Cut 0 } }
    ensures empty { Frames (0 ∷ 0 ∷ 0 ∷ 0 ∷ 0 ∷ [])
        ≡ record { packets = [] ∷ []; ending = Cut 4 } }
    ensures nothing { Frames [] ≡ record { packets = []; ending = Clean } }
{}
