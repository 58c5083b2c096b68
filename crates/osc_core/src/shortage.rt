// How much room the recording lacks.
ghost use Rattle.osc_core.specs.Recorded.{TellsRoom};

use osc_atoms::Room;
use osc_record::Recorder;

/// How much room an entry of so many bytes needs, where fewer bytes are free.
pub(crate) fn shortage(recorder: &Recorder, size: u64) -> Option<Room>
    ensures { TellsRoom result recorder.now size }
{
    if recorder.fits(size) {
        return None;
    }
    Some(Room::new(size, recorder.free()))
}
