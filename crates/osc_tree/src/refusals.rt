//! Why a method isn't added or removed.
use osc_atoms::Room;

/// Why an address can't be added: the first of these that applies.
#[derive(Clone, Copy, Debug, PartialEq, Eq)]
pub enum TreeRefusal {
    /// The method with this id has the address.
    Taken(u32),
    /// The method with this id has a proper prefix of the address.
    UnderMethod(u32),
    /// A method lies below the address.
    IsContainer,
    /// The tree has as many methods as it may, which is this number.
    MethodsFull(u32),
    /// The address needs more new nodes than are free.
    NodesFull(Room),
}

/// No method has the address.
#[derive(Clone, Copy, Debug, PartialEq, Eq)]
pub struct NotThere;
