//! A server's recording, played again and printed.
ghost use Rattle.osc_replay.specs.Answers.{IsTextUnlessShort};
ghost use Rattle.osc_replay.specs.Printed.{printed};

use osc_core::Core;
use osc_method::Method;
use osc_print::Text;
use osc_replay::{ReplayFault, replay};
use std::alloc::Global;

/// What the server has recorded, as text (docs/FORMATS.md, "Printed text"). The `Err` means out of memory, and never
/// another: a replay computes from the recording alone what the server has answered and called.
pub fn printed_history<M: Method>(alloc: Global, core: &Core<M>) -> Result<Text, ReplayFault>
    ensures { IsTextUnlessShort result
        (printed core.now.performance.caps core.now.performance.history) }
{
    osc_model::laws::a_legal_history_is_recordable();
    replay(alloc, core.bytes())
}
