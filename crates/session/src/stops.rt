//! Why a script does not go on at a line.
ghost use Rattle.session.specs.Stops.{stop_of, unread_stop};
ghost use Rattle.std.specs.Prelude.{◌≡◌};

use control_flow::FlowRefusal;
use fx_num::Text;
use meaning::{Code, Refusal};
use script_lines::LineRefusal;

/// Why a script does not go on at a line.
#[derive(Drop)]
pub(crate) enum Stop {
    /// The command of the line was not carried out.
    Command(Refusal),
    /// The line of this file and number is refused.
    Refused(Code, Text, u32),
    /// The line of this file and number is one more than a script may run.
    Budget(Text, u32),
}

/// Why a script does not go on whose line of this file cannot be read.
fn unread(file: Text, why: LineRefusal) -> Stop
    ensures { result ≡ unread_stop file why }
{
    match why {
        LineRefusal::UnclosedQuote(line) => Stop::Refused(Code::UnclosedQuote, file, line),
        LineRefusal::ContinuationAtEnd(line) => Stop::Refused(Code::ContinuationAtEnd, file, line),
        LineRefusal::QuoteTail(line) => Stop::Refused(Code::QuoteTail, file, line),
        LineRefusal::NoMemory => Stop::Command(Refusal::NoMemory),
    }
}

/// Why a script does not go on whose flow does not.
pub(crate) fn stop_of(why: FlowRefusal) -> Stop
    ensures { result ≡ stop_of why }
{
    match why {
        FlowRefusal::Line(file, why) => unread(file, why),
        FlowRefusal::Budget(file, line) => Stop::Budget(file, line),
        FlowRefusal::NoLabel(_) => Stop::Command(Refusal::Code(Code::NoLabel)),
        FlowRefusal::IncludeTooDeep => Stop::Command(Refusal::Code(Code::IncludeTooDeep)),
        FlowRefusal::NoMemory => Stop::Command(Refusal::NoMemory),
    }
}
