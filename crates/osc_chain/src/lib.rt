//! A show in one recording after another: stages, each of which carries the one before it on.
#![tactic(auto)]

mod part;
mod reels;
mod relays;
mod room;
mod seam;
mod show;
mod turnover;

pub use part::ShowEnd;
pub use reels::Reels;
pub use room::{carried_most, has_room};
pub use seam::{Seam, SeamFault};
pub use show::play_show;
pub use turnover::turn_over;
