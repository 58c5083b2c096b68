//! Laws of the definitions that the contracts cite. A call takes no time and gives nothing: its
//! clauses are the law.
ghost use Rattle.std.specs.Prelude.{◌^◌, ◌<◌, ℕ, List, length};
ghost use Rattle.osc_page.specs.declared.request.Heard.{Heard};
ghost use Rattle.osc_page.specs.Replies.{reply_to, status_of, body_of, IsResponse};

/// Each answer is read as a response of HTTP with its status and its body, and nothing is left.
pub fn answers_are_responses()
    ensures { (page state : List ℕ) (heard : Heard) → length page < 2 ^ 64 → length state < 2 ^ 64
        → IsResponse (reply_to page state heard) (status_of heard) (body_of page state heard) }
{}
