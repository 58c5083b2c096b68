// Heads of requests, and the statuses of their answers.
use osc_page::{Heard, hear_head, reply};
use std::test::*;

/// What comes, and the first line of the answer.
const ANSWERS: [(&[u8], &[u8]); 9] = [
    (b"GET / HTTP/1.1\r\n\r\n", b"HTTP/1.1 200 OK\r\n"),
    (b"GET /state.json HTTP/1.0\r\n\r\n", b"HTTP/1.1 200 OK\r\n"),
    (
        b"GET / HTTP/1.1\r\nHost: a\r\nAccept: */*\r\n\r\nmore",
        b"HTTP/1.1 200 OK\r\n",
    ),
    (b"GET /x HTTP/1.1\r\n\r\n", b"HTTP/1.1 404 Not Found\r\n"),
    (
        b"GET /state.json?a HTTP/1.1\r\n\r\n",
        b"HTTP/1.1 404 Not Found\r\n",
    ),
    (
        b"POST / HTTP/1.1\r\n\r\n",
        b"HTTP/1.1 405 Method Not Allowed\r\n",
    ),
    (
        b"get / HTTP/1.1\r\n\r\n",
        b"HTTP/1.1 405 Method Not Allowed\r\n",
    ),
    (b"\x16\x03\x01\x02\0\x01", b"HTTP/1.1 400 Bad Request\r\n"),
    (
        b"GET / HTTP/1.1\r\nA: b",
        b"HTTP/1.1 431 Request Header Fields Too Large\r\n",
    ),
];

#[test]
fn a_head_is_answered_by_what_it_asks_for(rt: HostRuntime) -> Result<(), Fail> {
    for (said, line) in ANSWERS {
        let text = reply(rt.alloc(), b"page", b"state", hear_head(said))?;
        assert!(rt; text.starts_with(line));
    }
    Ok(())
}

/// A whole head.
const HEAD: &[u8] = b"GET /state.json HTTP/1.1\r\nHost: stage:8080\r\n\r\n";

#[test]
fn no_front_of_a_head_is_answered(rt: HostRuntime) {
    for cut in 0..HEAD.len() {
        assert_eq!(rt; hear_head(&HEAD[..cut]), Heard::More);
    }
    assert!(rt; hear_head(HEAD) != Heard::More);
}
