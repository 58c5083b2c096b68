//! What holds of a link and of the ticker in every history that goes on from what its token has
//! seen.
ghost use Rattle.std.specs.Prelude.{◌≡◌, ℕ, List, [], ◌∷◌, Some, None};
ghost use Rattle.osc_turn.specs.History.{own};
ghost use Rattle.osc_turn.specs.declared.view.Entry.{Entry};
ghost use Rattle.osc_model.specs.Limits.{Limits};
ghost use Rattle.osc_live.specs.declared.caller.Caller.{Caller};
ghost use Rattle.osc_life.specs.Holders.{seen_by, holder_of, Onward, Holder};
ghost use Rattle.osc_lanes.specs.Shares.{ended};
ghost use Rattle.osc_links.specs.declared.link_work.Over.TheVariants.{Idle};
ghost use Rattle.osc_links.specs.declared.link_work.LinkEnd.{LinkEnd};
ghost use Rattle.osc_links.specs.declared.served.Bounds.{Bounds};
ghost use Rattle.osc_links.specs.declared.served.TickerEnd.{TickerEnd};
ghost use Rattle.osc_links.specs.Links.{PlaysTurns, ServesLink, LinkOf, link_account, stop_by};
ghost use Rattle.osc_links.specs.Ticks.{ClockRead, Reads, Ticks, TickOf, round_lines, tick_line};
ghost use Rattle.osc_links.specs.Ticks.{pump_line};

use osc_edge::Link;
use osc_method::Method;

/// A link's share is its share of every history that goes on with no further entry of its token,
/// where the token came in with none.
pub fn a_link_keeps_its_share<M: Method, L: Link>()
    ensures { (holder : Holder) (bounds : Bounds) (from : L) (end : LinkEnd L)
        (here there history : List Entry)
        → (served : ServesLink M.keep M.heard L.left L.faults holder bounds from end here there)
        → own holder.token here ≡ [] → Onward holder.token there history
        → LinkOf M.keep M.heard holder bounds served.turns end.over
        (link_account end.faults.items (stop_by end.over)) history }
{}

/// The ticker's share is its share of every history that goes on with no further entry of its
/// token, where the token came in with none.
pub fn a_ticker_keeps_its_share<M: Method>()
    ensures { (caps : Limits) (before after : Caller) (tokens : List (List Entry))
        (clock : ClockRead) (end : TickerEnd) (history : List Entry)
        → Ticks M.keep M.heard (holder_of caps before) tokens clock end (seen_by before)
        (seen_by after)
        → own (holder_of caps before).token (seen_by before) ≡ []
        → Onward (holder_of caps before).token (seen_by after) history
        → TickOf M.keep M.heard (holder_of caps before) tokens clock end history }
{}

/// Two quiets in a row end a link that may have so many, and a datagram between them starts their
/// count anew; a moment is handed in that is the first or greater than the last; a clock's last
/// moment stays; and faults stand link by link.
pub fn examples()
    ensures quiets { (holder : Holder) (here : List Entry) → PlaysTurns {M = ℕ}
        (λ _. record { most = 0; name = []; outlets = [] }) (λ _. None) holder
        (record { count = 3; idle = 2 }) 0 0 (None ∷ None ∷ []) Idle (ended [] None) here here }
    ensures first { round_lines None 5 ≡ tick_line 5 ∷ pump_line ∷ [] }
    ensures same { round_lines (Some 5) 5 ≡ pump_line ∷ [] }
    ensures later { round_lines (Some 5) 6 ≡ tick_line 6 ∷ pump_line ∷ [] }
    ensures reads { Reads (Some (5 ∷ 7 ∷ [])) (5 ∷ 7 ∷ 7 ∷ []) (Some (7 ∷ [])) }
{}
