//! A call of a method in C.

/// A call: the unit, the method's id, which message of the unit it is, and its size.
#[repr(C)]
#[derive(Clone, Copy, Debug, PartialEq, Eq)]
pub struct Called {
    pub unit: u64,
    pub method: u32,
    pub index: u32,
    pub size: u32,
}
