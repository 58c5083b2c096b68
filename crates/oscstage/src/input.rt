// The word that ends a show.
use osc_console::Shutdown;
use std::alloc::Global;
use std::io::{IsTerminal, Read};
use std::os::unix::fs::FileTypeExt;
use std::sync::Arc;
use std::thread::Threads;
use std::{fs, thread};

/// The line that ends a show.
const END: &[u8] = b"end";

/// Ends the show at the line `end` on standard input, and at its end, unless that is a device such
/// as /dev/null. A thread waits for it, which the program doesn't wait for.
pub(crate) fn watch_input<W: Threads>(
    rt: &HostRuntime,
    threads: &W,
    shutdown: Arc<Shutdown, Global>,
) {
    let rt = *rt;
    let _ = thread::spawn(threads, move || read_until_end(&rt, &shutdown));
}

fn read_until_end(rt: &HostRuntime, shutdown: &Shutdown) {
    let mut stdin = rt.stdin();
    let mut line = [0; 16];
    let mut used = 0usize;
    let mut byte = [0; 1];
    // No input has more bytes.
    for _ in 0..u64::MAX {
        match stdin.read(&mut byte) {
            Ok(1) => {}
            _ => break,
        }
        if byte[0] == b'\n' {
            if line.get(..used).unwrap_or(&[]).trim_ascii() == END {
                shutdown.ask();
                return;
            }
            used = 0;
        } else if used < line.len() {
            line[used] = byte[0];
            used += 1;
        }
    }
    if ends_with_input(rt) {
        shutdown.ask();
    }
}

/// Whether the end of standard input ends the show: that of a pipe, a file or a terminal does.
fn ends_with_input(rt: &HostRuntime) -> bool {
    match fs::metadata(rt, "/dev/stdin") {
        Ok(facts) => rt.stdin().is_terminal() || !facts.file_type().is_char_device(),
        Err(_) => false,
    }
}
