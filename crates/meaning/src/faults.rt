//! Faults of variables and formulas as codes.
ghost use Rattle.meaning.specs.Answers.{Gets, is_absence};
ghost use Rattle.meaning.specs.Variables.{fault_code, fault_refusal, formula_code, valued};
ghost use Rattle.script_lines.specs.Table.{is_no_memory};
ghost use Rattle.std.specs.Prelude.{◌≡◌, false, ℤ, Result};
ghost use Rattle.variable_values.specs.Values.{Answers as IsAnswer};

use crate::code::Code;
use crate::refusal::SettingsRefusal;
use fx_num::{FormulaFault, VarFault};

/// The code of a formula's fault.
fn formula_code(fault: &FormulaFault) -> Code
    ensures is { result ≡ formula_code fault.now }
    ensures no_file { is_absence result ≡ false }
{
    match fault {
        FormulaFault::Syntax(_) | FormulaFault::NoMemory => Code::Syntax,
        FormulaFault::Unknown(_) => Code::UnknownName,
        FormulaFault::DivideByZero(_) => Code::DivideByZero,
        FormulaFault::Range(_) => Code::FormulaRange,
        FormulaFault::NotNumber(_) => Code::NotNumber,
        FormulaFault::TooDeep => Code::TooDeep,
    }
}

/// The code of a variable's fault.
pub fn fault_code(fault: &VarFault) -> Code
    ensures is { result ≡ fault_code fault.now }
    ensures no_file { is_absence result ≡ false }
{
    match fault {
        VarFault::UnknownVariable(_) | VarFault::NoMemory => Code::UnknownName,
        VarFault::Mixed(_) => Code::Mixed,
        VarFault::NotText(_) => Code::NotText,
        VarFault::Formula(fault) => formula_code(fault),
    }
}

/// Whether a fault is want of memory.
fn is_no_memory(fault: &VarFault) -> bool
    ensures { result ≡ is_no_memory fault.now }
{
    match fault {
        VarFault::NoMemory => true,
        VarFault::Formula(FormulaFault::NoMemory) => true,
        _ => false,
    }
}

/// A fault as a refusal: the code of a fault, or want of memory.
pub fn fault_refusal(fault: &VarFault) -> SettingsRefusal
    ensures { result ≡ fault_refusal fault.now }
{
    if is_no_memory(fault) {
        return SettingsRefusal::NoMemory;
    }
    SettingsRefusal::Code(fault_code(fault))
}

/// A value of a variable or a formula, or the refusal of its fault.
#[tactic(auto, using(crate::proofs::FaultLemmas::fault_gets))]
pub fn valued(value: Result<i64, VarFault>) -> Result<i64, SettingsRefusal>
    ensures { (meant : Result ℤ VarFault) → IsAnswer value meant → Gets (valued meant) result }
{
    match value {
        Ok(value) => Ok(value),
        Err(fault) => Err(fault_refusal(&fault)),
    }
}
