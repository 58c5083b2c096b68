//! What a request asks for.
ghost use Rattle.std.specs.Prelude.{◌≡◌, ◌≤◌, ℕ, List, length};
ghost use Rattle.httparse.specs.Grammar.{RequestHead, ReadsRequest};
ghost use Rattle.osc_page.specs.declared.limits.TheConstants.{MAX_FIELDS};
ghost use Rattle.osc_page.specs.declared.request.Heard.{Heard};
ghost use Rattle.osc_page.specs.Requests.{wanted, Says};

use crate::limits::MAX_FIELDS;
use httparse::spans::{EMPTY_HEADER_SPAN, parse_request};
use httparse::{Error, Status};

/// What a request asks for.
#[derive(Clone, Copy, Debug, PartialEq, Eq)]
pub enum Want {
    /// The page.
    Page,
    /// The state, as JSON.
    State,
    /// Something that isn't there.
    Other,
    /// Something else than to get.
    Act,
}

/// What was heard so far.
#[derive(Clone, Copy, Debug, PartialEq, Eq)]
pub enum Heard {
    /// No whole head yet.
    More,
    /// A request.
    Asks(Want),
    /// No request, whatever follows.
    Bad,
    /// More fields than a head may have.
    Large,
}

/// What the bytes that have come so far say. A head whose fields are no more than there may be is
/// heard, as what it asks for and as nothing else.
pub fn hear_head(bytes: &[u8]) -> Heard
    ensures says { Says bytes.now result }
    ensures exact { (head : RequestHead) (rest : List ℕ) → ReadsRequest bytes.now head rest
        → length head.fields ≤ MAX_FIELDS → result ≡ Heard.Asks (wanted head.method head.target) }
{
    let mut fields = [EMPTY_HEADER_SPAN; MAX_FIELDS];
    match parse_request(bytes, &mut fields) {
        Ok(Status::Complete(head)) => {
            Heard::Asks(want_of(head.method.of(bytes), head.path.of(bytes)))
        }
        Ok(Status::Partial) => Heard::More,
        Err(Error::TooManyHeaders) => Heard::Large,
        Err(_) => Heard::Bad,
    }
}

/// What a method and a target ask for.
#[tactic(auto, unfolding(crate::specs::Requests::wanted))]
fn want_of(method: &[u8], target: &[u8]) -> Want
    ensures { result ≡ wanted method.now target.now }
{
    if method == b"GET".as_slice() {
        if target == b"/".as_slice() {
            Want::Page
        } else if target == b"/state.json".as_slice() {
            Want::State
        } else {
            Want::Other
        }
    } else {
        Want::Act
    }
}
