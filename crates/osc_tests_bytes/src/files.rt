// A source that reads a file, on the file system that the test runs on.
use osc_edge::{FileSource, Source, Taken};
use std::alloc::Global;
use std::{fs, io};

fn source_at(rt: &HostRuntime, path: &str) -> io::Result<FileSource> {
    let alloc: Global = rt.alloc();
    Ok(FileSource::at(rt, String::from_str(alloc, path)?))
}

/// What a read into a slice of five zeros answers, and the slice then.
fn read(source: &mut FileSource) -> (Taken, [u8; 5]) {
    let mut into = [0; 5];
    (source.read(&mut into), into)
}

#[test]
fn a_file_gives_its_bytes_and_then_the_end(rt: HostRuntime) -> io::Result<()> {
    let path = "file-source.rec";
    let mut source = source_at(&rt, path)?;
    assert_eq!(rt; read(&mut source).0, Taken::Failed);
    fs::write(&rt, path, b"/osc/rec")?;
    assert_eq!(rt; read(&mut source), (Taken::Bytes(5), *b"/osc/"));
    assert_eq!(rt; read(&mut source), (Taken::Bytes(3), *b"rec\0\0"));
    assert_eq!(rt; read(&mut source).0, Taken::Bytes(0));
    fs::remove_file(&rt, path)
}
