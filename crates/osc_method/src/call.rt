//! A call of a method.
use osc_message::Message;

/// What a method is invoked with.
#[derive(Drop)]
pub struct Call<'a> {
    /// The number of the released unit.
    pub unit: u64,
    /// Which of the unit's messages it is, counted from 0.
    pub index: u32,
    /// The message itself.
    pub message: Message<'a>,
}
