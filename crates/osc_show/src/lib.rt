//! Shows recordings: their lines, a picture of them, and a page in a browser while they grow.
#![tactic(auto)]

mod asked;
mod browser;
mod drawing;
mod files;
mod follower;
mod recording;
mod report;
mod tape;
mod view;
mod window;

pub use asked::{Paging, Showing, Zone};
pub use browser::serve_page;
pub use drawing::draw_recordings;
pub use files::{is_there, part_name, read_recording};
pub use follower::follow;
pub use recording::{Page, show_recordings};
pub use report::{report_malformed, report_part, report_unlike, report_unread};
pub use view::{look_at, setting_at_offset, time_of, zone_offset};
