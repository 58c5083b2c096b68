// What a page shows of a recording, whatever the pieces are in which it comes. The recording was
// written out by its format, in Python, and so was the state that it leaves.
use osc_board::Watcher;
use osc_page::state_text;
use osc_story::Progress;
use std::process::Abort;
use std::test::*;

/// The header of 2 units, blocks, methods and nodes, of 1 caller and of up to 1,000 bytes; then
/// caller 0 adds `/a` and `/b`, submits a bundle for the first second that calls `/a` with a text
/// and a float, and one for the ninth that calls `/b`, ticks to the second second, and releases the
/// first bundle.
const RECORDING: [u8; 412] =
    *b"\0\0\08/osc/rec\0\0\0\0,iiiiiiii\0\0\0\0\0\0\x02\0\0\0\x02\0\0\0\x02\0\0\0\x02\0\0\0\x02\
      \0\0\0\x01\0\0\x03\xe8\0\0\0\0\0\0\0(/osc/add\0\0\0\0,isiii\0\0\0\0\0\0/a\0\0\0\0\0\0\0\0\
      \0\0\0\0\0\0\0\0\0(/osc/add\0\0\0\0,isiii\0\0\0\0\0\0/b\0\0\0\0\0\0\0\0\0\x01\0\0\0\0\0\0\
      \0T/osc/submit\0,ibihii\0\0\0\0\0\0\0\0$#bundle\0\0\0\0\x01\0\0\0\0\0\0\0\x10/a\0\0,sf\0g\
      \"o\0?\0\0\0\0\0\0\0\0\0\0\0\0\0\0\0\0\0\0\x01\0\0\0\0\0\0\0H/osc/submit\0,ibihii\0\0\0\0\
      \0\0\0\0\x18#bundle\0\0\0\0\x09\0\0\0\0\0\0\0\x04/b\0\0\0\0\0\0\0\0\0\0\0\0\0\x01\0\0\0\
      \x01\0\0\0\0\0\0\0,/osc/tick\0\0\0,itit\0\0\0\0\0\0\0\0\0\0\x02\0\0\0\0\0\0\0\0\0\0\0\x02\
      \0\0\0\0\0\0\00/osc/release\0\0\0\0,ihb\0\0\0\0\0\0\0\0\0\0\0\0\0\0\0\0\0\0\0\x08\0\0\0\0\
      \0\0\0\0";

/// What a browser gets then.
const STATE: &[u8] =
    b"{\"clock\":2000,\"counts\":{\"entries\":6,\"messages\":1,\"calls\":1,\"unheard\":0,\"discarde\
      d\":0,\"refused\":0,\"waiting\":1},\"methods\":[{\"id\":0,\"address\":\"/a\",\"calls\":1,\"at\":2\
      000,\"words\":\" s:g\\\"o f:3f000000\"},{\"id\":1,\"address\":\"/b\",\"calls\":0,\"at\":0,\"words\
      \":\"\"}],\"waits\":[{\"unit\":1,\"due\":9000,\"messages\":1,\"first\":\"/b\"}]}";

/// Takes a piece and follows it.
fn take<A: Abort>(rt: &A, watcher: &mut Watcher, piece: &[u8]) {
    assert!(rt; watcher.take(piece).is_ok());
    let progress = watcher.follow();
    assert!(rt; progress == Progress::CaughtUp || progress == Progress::NoHeader);
}

#[test]
fn a_cut_at_any_byte_makes_no_difference(rt: HostRuntime) -> Result<(), Fail> {
    for cut in 0..=RECORDING.len() {
        let (first, second) = RECORDING.split_at(cut);
        let mut watcher = Watcher::open(rt.alloc());
        take(&rt, &mut watcher, first);
        assert_eq!(rt; watcher.board()?.is_some(), cut >= 60);
        take(&rt, &mut watcher, second);
        let board = watcher.board()?.ok_or("no header")?;
        let text = state_text(rt.alloc(), &board)?;
        assert_eq!(rt; text.as_slice(), STATE);
    }
    Ok(())
}

/// How the state begins once the same entries came once more, as those of the recording after it:
/// each count is twice what it was, but what waits is that of the last.
const TWICE: &[u8] =
    b"{\"clock\":2000,\"counts\":{\"entries\":12,\"messages\":2,\"calls\":2,\"unheard\":0,\"discard\
      ed\":0,\"refused\":0,\"waiting\":1},\"methods\":[{\"id\":0,\"address\":\"/a\",\"calls\":2,\"at\":\
      2000,\"words\":\" s:g\\\"o f:3f000000\"},{\"id\":1,\"address\":\"/b\",\"calls\":0,";

/// How it stands once the methods of the next one are there, of which none is called yet.
const ADDED: &[u8] =
    b"\"address\":\"/a\",\"calls\":1,\"at\":2000,\"words\":\" s:g\\\"o f:3f000000\"}";

#[test]
fn a_show_goes_on_in_the_next_recording(rt: HostRuntime) -> Result<(), Fail> {
    let mut watcher = Watcher::open(rt.alloc());
    take(&rt, &mut watcher, &RECORDING);
    watcher.go_on()?;
    assert!(rt; watcher.board()?.is_none());
    // The header, and the add of `/a`.
    take(&rt, &mut watcher, &RECORDING[..104]);
    let board = watcher.board()?.ok_or("no header")?;
    let text = state_text(rt.alloc(), &board)?;
    assert!(rt; text.windows(ADDED.len()).any(|part| part == ADDED));
    take(&rt, &mut watcher, &RECORDING[104..]);
    let board = watcher.board()?.ok_or("no header")?;
    let text = state_text(rt.alloc(), &board)?;
    assert!(rt; text.starts_with(TWICE));
    Ok(())
}
