//! Why a flow does not go on.

use fx_num::{NoMemory, Text};
use script_lines::LineRefusal;

/// Why a flow does not go on.
#[derive(Drop)]
pub enum FlowRefusal {
    /// A line of this file cannot be read. The refusal is never want of memory.
    Line(Text, LineRefusal),
    /// The line of this file and number would be one more than a run may have.
    Budget(Text, u32),
    /// The file has no line with this label.
    NoLabel(Text),
    /// As many includes are open as may be.
    IncludeTooDeep,
    /// Out of memory.
    NoMemory,
}

impl From<NoMemory> for FlowRefusal {
    ghost use Rattle.std.specs.Prelude.{◌≡◌};
    ghost use Rattle.control_flow.specs.declared.refusals.FlowRefusal.TheVariants as refusal;

    ghost from_gives = { λ _ out. out ≡ refusal.NoMemory };

    fn from(_error: NoMemory) -> FlowRefusal {
        FlowRefusal::NoMemory
    }
}
