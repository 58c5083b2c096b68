//! A picture of a recording, as plain SVG: what is drawn of it, and the text.
#![tactic(auto)]

mod bundle;
mod caption;
mod column;
mod curve;
mod element;
mod frame;
mod heading;
mod layout;
mod legend;
mod picture;
mod row;
mod said;
mod scale;
mod shelf;
mod stay;
mod strip;
mod style;
mod svg;
mod thinning;
mod wait;

pub use bundle::Bundle;
pub use frame::Frame;
pub use picture::Picture;
pub use row::{Bound, Call, Row, Sort};
pub use said::Said;
pub use stay::Stay;
pub use svg::add_svg;
