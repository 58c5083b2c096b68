//! How a program ends.

use osc_method::Method;

/// How a program ends.
#[derive(Drop)]
pub struct Ended {
    /// The exit status: 0 done, 1 script or recording refused, 2 words refused, 3 out of memory, 4
    /// the source failed, 5 a sink failed, 6 the recording was full, 7 a link or the clock failed,
    /// 8 more adds than boxes, 9 more callers than the limits allow (docs/FORMATS.md, "Programs").
    pub status: u8,
    /// The id of each method that was added with its box, ascending, the removed ones among them.
    pub heard: Vec<(u32, Box<dyn Method + Send>)>,
    /// The other boxes: those of adds that were refused, in the order of the lines, and those after
    /// the last add.
    pub left: Vec<Box<dyn Method + Send>>,
}
