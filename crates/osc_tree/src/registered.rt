// A registered method.
use osc_pattern::Address;

/// A method, by its id and its address.
#[derive(Drop)]
pub(crate) struct Registered {
    pub(crate) id: u32,
    pub(crate) address: Address,
}
