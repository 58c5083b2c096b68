//! What a visitor is answered.
ghost use Rattle.std.specs.Prelude.{◌≡◌, ◌++◌, ◌∷◌, codes, IfOk, OnOk};
ghost use Rattle.httparse.specs.Ascii.{space, crlf_bytes};
ghost use Rattle.httparse.specs.Grammar.{print_field};
ghost use Rattle.osc_page.specs.Replies.{field, answer, reply_to};
ghost use Rattle.osc_page.specs.Added.{Grows};

use crate::request::{Heard, Want};
use itoa::Buffer;
use std::alloc::{AllocError, Global};

/// The fields of each answer, and the end of its head.
const STANDING: &[u8] = b"Connection: close\r\nAllow: GET\r\nCache-Control: no-store\r\n\
    X-Content-Type-Options: nosniff\r\n\
    Content-Security-Policy: default-src 'none'; script-src 'unsafe-inline'; \
    style-src 'unsafe-inline'; img-src data:; connect-src 'self'; base-uri 'none'; \
    form-action 'none'; frame-ancestors 'none'\r\n\r\n";

/// The answer to what was heard, with this page and this state. Before a request is whole, it is
/// answered as one that is too large. An `Err` is out of memory.
pub fn reply(alloc: Global, page: &[u8], state: &[u8], heard: Heard) -> Result<Vec<u8>, AllocError>
    ensures { IfOk result (λ text. text.items ≡ reply_to page.now state.now heard) }
{
    match heard {
        Heard::Asks(Want::Page) => text(alloc, b"200", b"OK", b"text/html; charset=utf-8", page),
        Heard::Asks(Want::State) => text(alloc, b"200", b"OK", b"application/json", state),
        Heard::Asks(Want::Other) => {
            text(alloc, b"404", b"Not Found", b"text/plain", b"not found")
        }
        Heard::Asks(Want::Act) => {
            text(
                alloc,
                b"405",
                b"Method Not Allowed",
                b"text/plain",
                b"only GET",
            )
        }
        Heard::Bad => text(alloc, b"400", b"Bad Request", b"text/plain", b"no request"),
        Heard::More | Heard::Large => text(
            alloc,
            b"431",
            b"Request Header Fields Too Large",
            b"text/plain",
            b"too large",
        ),
    }
}

/// An answer with this status and this body.
fn text(
    alloc: Global,
    status: &[u8],
    reason: &[u8],
    kind: &[u8],
    body: &[u8],
) -> Result<Vec<u8>, AllocError>
    ensures { IfOk result
        (λ text. text.items ≡ answer status.now reason.now kind.now body.now) }
{
    let mut out = Vec::new(alloc);
    write_line(&mut out, status, reason)?;
    write_field(&mut out, b"Content-Type", kind)?;
    write_field(
        &mut out,
        b"Content-Length",
        Buffer::new().format(body.len()).as_bytes(),
    )?;
    write_bytes(&mut out, STANDING)?;
    write_bytes(&mut out, body)?;
    Ok(out)
}

/// Adds the first line.
fn write_line(out: &mut Vec<u8>, status: &[u8], reason: &[u8]) -> Result<(), AllocError>
    ensures { OnOk result (Grows out.old.items out.new.items
        (codes "HTTP/1.1 " ++ status.now ++ (space ∷ reason.now) ++ crlf_bytes)) }
{
    out.extend_from_slice(b"HTTP/1.1 ")?;
    out.extend_from_slice(status)?;
    out.extend_from_slice(b" ")?;
    out.extend_from_slice(reason)?;
    out.extend_from_slice(b"\r\n")?;
    Ok(())
}

/// Adds a field.
fn write_field(out: &mut Vec<u8>, name: &[u8], value: &[u8]) -> Result<(), AllocError>
    ensures { OnOk result (Grows out.old.items out.new.items
        (print_field (field name.now value.now))) }
{
    out.extend_from_slice(name)?;
    out.extend_from_slice(b": ")?;
    out.extend_from_slice(value)?;
    out.extend_from_slice(b"\r\n")?;
    Ok(())
}

/// Adds bytes.
fn write_bytes(out: &mut Vec<u8>, bytes: &[u8]) -> Result<(), AllocError>
    ensures { OnOk result (Grows out.old.items out.new.items bytes.now) }
{
    out.extend_from_slice(bytes)?;
    Ok(())
}
