//! How a call of the program ends.
ghost use Rattle.session.specs.Ends.{number_of};
ghost use Rattle.std.specs.Prelude.{◌≡◌};

use box_geo::FaultKey;
use fx_num::Text;
use meaning::Code;

/// How a call of the program ends.
#[derive(Drop)]
pub enum Status {
    /// The script was run to its end or to `quit`.
    Done,
    /// A line of the script is refused, line 0 for the script as a whole.
    ScriptRefused { code: Code, file: Text, line: u32 },
    /// A quantity left its range at this step; the key says which.
    RangeFault { key: FaultKey, step: u64 },
    /// The shelf failed.
    ReadFault,
    /// The press failed.
    WriteFault,
    /// The disk failed.
    DiskFault,
    /// Out of memory.
    NoMemory,
    /// The words are no command line: the place of the first wrong word, or the number of words where one is missing.
    Usage { place: u64 },
    /// A line is one more than a script may run.
    Budget { file: Text, line: u32 },
    /// A command of this line is not built yet.
    NotBuilt { file: Text, line: u32 },
}

impl Status {
    /// The number with which the program exits.
    pub fn number(&self) -> u8
        ensures { result ≡ number_of self.now }
    {
        match self {
            Status::Done => 0,
            Status::ScriptRefused { .. } => 1,
            Status::RangeFault { .. } => 2,
            Status::ReadFault => 3,
            Status::WriteFault => 4,
            Status::DiskFault => 5,
            Status::NoMemory => 6,
            Status::Usage { .. } => 7,
            Status::Budget { .. } => 8,
            Status::NotBuilt { .. } => 9,
        }
    }
}
