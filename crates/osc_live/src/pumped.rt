//! What a pump is answered.
ghost use Rattle.std.specs.Prelude.{◌≡◌};
ghost use Rattle.std.specs.Option.{option_map};
ghost use Rattle.osc_model.specs.Events.{room_in};
ghost use Rattle.osc_record.specs.Shown.{room_of};
ghost use Rattle.osc_live.specs.Pumps.{end_of};

use osc_atoms::Room;

/// Why a pump ended: what its last release was answered.
#[derive(Clone, Copy, Debug, PartialEq, Eq)]
pub enum PumpEnd {
    /// No unit is due. `next` is the least due moment in the queue, `None` where the queue is
    /// empty.
    NothingDue { next: Option<u64> },
    /// The entry of the release has more bytes than the recording has left.
    RecordFull(Room),
}

impl PumpEnd {
    /// How much the entry needs and how much is free, where the recording had no room for it.
    pub fn stop(&self) -> Option<Room>
        ensures { option_map room_of result ≡ room_in (end_of self.now) }
    {
        match self {
            PumpEnd::RecordFull(room) => Some(*room),
            PumpEnd::NothingDue { .. } => None,
        }
    }
}

/// How many units a pump released, and how many calls they made.
#[derive(Clone, Copy, Debug, PartialEq, Eq)]
pub struct Pumped {
    /// How many units were released.
    pub released: u32,
    /// How many calls they made, over all of them.
    pub calls: u64,
    /// Why no more were released.
    pub end: PumpEnd,
}
