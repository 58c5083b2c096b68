// The sink to a file, on the file system that the test runs on.
use osc_edge::{FileSink, Put, Sink};
use std::alloc::Global;
use std::{fs, io};

fn sink_at(rt: &HostRuntime, path: &str) -> io::Result<FileSink> {
    let alloc: Global = rt.alloc();
    Ok(FileSink::at(rt, String::from_str(alloc, path)?))
}

fn holds(rt: &HostRuntime, path: &str, bytes: &[u8]) -> io::Result<bool> {
    Ok(fs::read(rt, path)?.as_slice() == bytes)
}

#[test]
fn a_file_is_made_at_the_first_write_and_holds_what_was_taken(rt: HostRuntime) -> io::Result<()> {
    let path = "file-sink.rec";
    let mut sink = sink_at(&rt, path)?;
    assert!(rt; fs::read(&rt, path).is_err());
    assert_eq!(rt; sink.write(b"/osc"), Put::Took(4));
    assert_eq!(rt; sink.write(b"/rec"), Put::Took(4));
    assert!(rt; holds(&rt, path, b"/osc/rec")?);
    let mut again = sink_at(&rt, path)?;
    assert_eq!(rt; again.write(b"x"), Put::Took(1));
    assert!(rt; holds(&rt, path, b"x")?);
    fs::remove_file(&rt, path)
}

#[test]
fn a_file_that_cannot_be_made_is_a_fault(rt: HostRuntime) -> io::Result<()> {
    let mut sink = sink_at(&rt, "no-such-folder/file-sink.rec")?;
    assert_eq!(rt; sink.write(b"x"), Put::Failed);
    assert_eq!(rt; sink.write(b"x"), Put::Failed);
    Ok(())
}
