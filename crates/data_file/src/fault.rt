//! Why a data file is refused.

use fx_num::NoMemory;
use thiserror::Error;

/// What is wrong with a line of a data file. Of several faults of a line the first in this order is
/// told.
#[derive(Clone, Copy, Debug, PartialEq, Eq, Error)]
pub enum DataFault {
    /// It is no header line, no title of a section and no row.
    #[error("no header line, section or row")]
    NotALine,
    /// The number of its words.
    #[error("wrong number of words")]
    Count,
    /// A word that is no number.
    #[error("not a number")]
    Number,
    /// A number outside its limits.
    #[error("a number outside its limits")]
    Limit,
    /// A header line, a section, or an id or a type of a section is given again; or a bond or an angle
    /// has an atom twice.
    #[error("given twice")]
    Twice,
    /// An id that no atom has.
    #[error("no such atom")]
    NoSuch,
    /// A position outside the box, along an axis that does not wrap.
    #[error("a position outside the box")]
    Outside,
    /// A section that the atom style does not have.
    #[error("a section that the atom style does not have")]
    Style,
    /// A row, a header line or a section is missing before this line.
    #[error("something is missing before this line")]
    Missing,
}

/// Why a data file is not read.
#[derive(Clone, Copy, Debug, PartialEq, Eq, Error)]
pub enum DataRefusal {
    /// The first line, from 1, that the format does not allow after the lines before it. Where something
    /// is missing at the end, it is the last line plus 1.
    #[error("line {0}: {1}")]
    Line(u32, DataFault),
    /// The allocator refused.
    #[error("out of memory")]
    NoMemory,
}

/// Why a line is not taken.
#[derive(Clone, Copy, Debug, PartialEq, Eq)]
pub(crate) enum Stop {
    /// Its fault.
    Fault(DataFault),
    /// The allocator refused.
    NoMemory,
}

impl From<DataFault> for Stop {
    ghost use Rattle.std.specs.Prelude.{◌≡◌};
    ghost use Rattle.data_file.specs.declared.fault.Stop.TheVariants as stop;

    ghost from_gives = { λ fault out. out ≡ stop.Fault fault };

    fn from(fault: DataFault) -> Stop {
        Stop::Fault(fault)
    }
}

impl From<NoMemory> for Stop {
    ghost use Rattle.std.specs.Prelude.{◌≡◌};
    ghost use Rattle.data_file.specs.declared.fault.Stop.TheVariants as stop;

    ghost from_gives = { λ _ out. out ≡ stop.NoMemory };

    fn from(_error: NoMemory) -> Stop {
        Stop::NoMemory
    }
}

impl From<NoMemory> for DataRefusal {
    ghost use Rattle.std.specs.Prelude.{◌≡◌};
    ghost use Rattle.data_file.specs.declared.fault.DataRefusal.TheVariants as refusal;

    ghost from_gives = { λ _ out. out ≡ refusal.NoMemory };

    fn from(_error: NoMemory) -> DataRefusal {
        DataRefusal::NoMemory
    }
}
