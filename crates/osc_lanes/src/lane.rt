// A lane that is being played.
use crate::part::LaneTold;
use std::vec::IntoIter;

#[derive(Drop)]
pub(crate) struct Lane<M> {
    pub(crate) number: u32,
    /// The boxes that no line has taken.
    pub(crate) boxes: IntoIter<M>,
    pub(crate) told: LaneTold<M>,
}
