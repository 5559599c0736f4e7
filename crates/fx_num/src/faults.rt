//! Why a variable or a formula has no value.
ghost use Rattle.std.specs.Prelude.{◌≡◌};

use crate::memory::NoMemory;
use crate::text::Text;

/// Why a formula has no value. A place counts the bytes of the formula's text from 0.
#[derive(Drop)]
pub enum FormulaFault {
    /// No formula begins with the text up to this byte, this one included; or the text ends too early.
    Syntax(u32),
    /// Nothing has this name, or it has no value now.
    Unknown(Text),
    /// The text of the variable of this name is no number.
    NotNumber(Text),
    /// The operator here divides by zero.
    DivideByZero(u32),
    /// The value of what stands here is out of range.
    Range(u32),
    /// More levels are open than there may be.
    TooDeep,
    /// Out of memory.
    NoMemory,
}

/// Why a variable has no text, or no next value.
#[derive(Drop)]
pub enum VarFault {
    /// No variable has this name.
    UnknownVariable(Text),
    /// The variable of this name has no next value together with those before it.
    Mixed(Text),
    /// The variable of this name has a value for each atom and no text.
    NotText(Text),
    /// The formula has no value. The fault is never [`FormulaFault::NoMemory`].
    Formula(FormulaFault),
    /// Out of memory.
    NoMemory,
}

impl From<NoMemory> for FormulaFault {
    ghost use Rattle.fx_num.specs.declared.faults.FormulaFault.TheVariants as fault;

    ghost from_gives = { λ _ out. out ≡ fault.NoMemory };

    fn from(_error: NoMemory) -> FormulaFault {
        FormulaFault::NoMemory
    }
}

impl From<NoMemory> for VarFault {
    ghost use Rattle.fx_num.specs.declared.faults.VarFault.TheVariants as fault;

    ghost from_gives = { λ _ out. out ≡ fault.NoMemory };

    fn from(_error: NoMemory) -> VarFault {
        VarFault::NoMemory
    }
}
