//! Why a command was not carried out.
ghost use Rattle.meaning.specs.Sends.{put_refusal};
ghost use Rattle.std.specs.Prelude.{◌≡◌};

use crate::code::Code;
use box_geo::FaultKey;
use fx_num::NoMemory;
use outside::PutRefusal;

/// Why a command was not carried out. File and line are added once, where the script is played.
#[derive(Clone, Copy, Debug)]
pub enum Refusal {
    /// The script is refused.
    Code(Code),
    /// A quantity left its range at this step.
    Range(FaultKey, u64),
    /// The shelf failed.
    ReadFault,
    /// The press failed.
    WriteFault,
    /// The disk failed.
    DiskFault,
    /// Out of memory.
    NoMemory,
    /// The command is not built yet.
    NotBuilt,
}

/// Why a command ends whose piece was not put.
pub fn put_refusal(why: PutRefusal) -> Refusal
    ensures { result ≡ put_refusal why }
{
    match why {
        PutRefusal::Faulted => Refusal::WriteFault,
        PutRefusal::NoMemory => Refusal::NoMemory,
    }
}

/// Why a command that changes settings alone was not carried out. The settings are as they were.
#[derive(Clone, Copy, Debug, PartialEq, Eq)]
pub enum SettingsRefusal {
    /// The script is refused.
    Code(Code),
    /// Out of memory.
    NoMemory,
}

impl From<NoMemory> for SettingsRefusal {
    ghost use Rattle.meaning.specs.declared.refusal.SettingsRefusal.TheVariants as refusal;

    ghost from_gives = { λ _ out. out ≡ refusal.NoMemory };

    fn from(_error: NoMemory) -> SettingsRefusal {
        SettingsRefusal::NoMemory
    }
}

impl From<Code> for SettingsRefusal {
    ghost use Rattle.meaning.specs.declared.refusal.SettingsRefusal.TheVariants as refusal;

    ghost from_gives = { λ code out. out ≡ refusal.Code code };

    fn from(code: Code) -> SettingsRefusal {
        SettingsRefusal::Code(code)
    }
}
