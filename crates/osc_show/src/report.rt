// What is reported on standard error.
use crate::asked::Paging;

/// Reports that a page can't be served there.
pub(crate) fn report_door(rt: &HostRuntime, paging: &Paging) {
    let (address, port) = (paging.address, paging.port);
    eprintln!(rt;
        "oscstage: port {port} of {address} can't be had: another program may have it, or say another --port"
    ).ok();
}

/// Reports where a page is served.
pub(crate) fn report_page(rt: &HostRuntime, paging: &Paging) {
    let (address, port) = (paging.address, paging.port);
    let file = match paging.files.last() {
        Some(file) => file.as_str(),
        None => "nothing",
    };
    eprintln!(rt; "oscstage: http://{address}:{port}/ shows {file}, until Ctrl-C").ok();
}

/// Reports that a word is no time.
pub(crate) fn report_time(rt: &HostRuntime, word: &str) {
    eprintln!(rt;
        "oscstage: {word} is no time: write 20:00, 20:00:05.5 or 2026-11-29T20:00:00"
    ).ok();
}

/// Reports that a word is no pattern of addresses.
pub(crate) fn report_pattern(rt: &HostRuntime, word: &str) {
    eprintln!(rt;
        "oscstage: {word} is no pattern: write /light/front or /light/*, with each [ and {{ closed"
    ).ok();
}

/// Reports that a file can't be read.
pub fn report_unread(rt: &HostRuntime, file: &str) {
    eprintln!(rt; "oscstage: {file} can't be read").ok();
}

/// Reports that a file is no recording.
pub fn report_malformed(rt: &HostRuntime, file: &str) {
    eprintln!(rt; "oscstage: {file} is no recording of a server").ok();
}

/// Reports by which entry, counted from 0, a file isn't one of this server.
pub fn report_unlike(rt: &HostRuntime, file: &str, entry: u32) {
    eprintln!(rt;
        "oscstage: {file} wasn't recorded by this server, as its entry {entry} shows"
    ).ok();
}

/// Reports that the show goes on in another recording.
pub fn report_part(rt: &HostRuntime, name: &str) {
    eprintln!(rt; "oscstage: goes on in {name}").ok();
}
