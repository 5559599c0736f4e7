//! The values of variables and formulas.
ghost use Rattle.std.specs.Prelude.{◌≡◌, ◌+◌, ◌^◌, ◌≤◌, ℕ, unsigned_abs, IfErr, IfOk};
ghost use Rattle.box_geo.specs.declared.limits.TheConstants.{MAX_FORMULA_DEPTH};
ghost use Rattle.formula.specs.Asked.{asked, fault_by, valued_by};
ghost use Rattle.formula.specs.ByName.{Valued, a_level_in};
ghost use Rattle.formula.specs.Operands.{operands};
ghost use Rattle.fx_num.specs.Decimal.{read_number};
ghost use Rattle.var_table.specs.Told.{told};
ghost use Rattle.variable_values.specs.Known.{numbers_of};
ghost use Rattle.variable_values.specs.Steps.{Gives, as_operand};
ghost use Rattle.variable_values.specs.Values.{Answers, IsOutright, formula_by, formula_value, in_formula, known_value, number_under, number_value, operand_value, value_held, value_of, within};

use crate::known::{Known, in_units};
use arrayvec::ArrayString;
use box_geo::limits::MAX_FORMULA_DEPTH;
use formula::{EvalFault, Expr, NamedOperand, eval, operands, parse};
use fx_num::{
    FormulaFault, NoMemory, NumError, Numbers, Text, VarFault, print_whole, read_decimal,
};
use std::alloc::Global;
use var_table::{Source, Vars};

/// What the operands of a formula have, up to the first that has a fault.
#[derive(Drop)]
struct Asked {
    /// Their values, from left to right.
    values: Vec<i128>,
    /// The fault of the operand behind them, if one has a fault.
    fault: Option<FormulaFault>,
}

/// The value of a variable whose text is a number.
fn number_value(alloc: Global, name: &[u8], text: &[u8]) -> Result<i64, FormulaFault>
    ensures is { Gives result (number_value name.now (read_number text.now)) }
    ensures bound { IfOk result (λ v. unsigned_abs v ≤ 2 ^ 62) }
{
    match read_decimal(text) {
        Ok(v) => Ok(v),
        Err(NumError::OutOfRange) => Err(FormulaFault::Range(0)),
        Err(NumError::NotNumber) | Err(NumError::TooManyDigits) => {
            Err(FormulaFault::NotNumber(Text::from_bytes(alloc, name)?))
        }
    }
}

/// The value of a keyword or of `c_ID`, as an operand.
fn known_value(alloc: Global, known: &Known<'_>, keyword: &[u8]) -> Result<i128, FormulaFault>
    ensures { Gives result (as_operand (known_value keyword.now (number_under (numbers_of known.now) keyword.now))) }
{
    match known.number(keyword) {
        Some(number) => Ok(in_units(keyword, number)),
        None => Err(FormulaFault::Unknown(Text::from_bytes(alloc, keyword)?)),
    }
}

/// The value of a formula that a variable holds, asked for where `depth` levels are open.
#[cycle(values)]
fn entered(
    alloc: Global,
    vars: &Vars,
    known: &Known<'_>,
    formula: &[u8],
    depth: u32,
) -> Result<i64, FormulaFault>
    ensures is { (levels : ℕ) → MAX_FORMULA_DEPTH ≤ levels + depth → Gives result (a_level_in (within levels vars.now (numbers_of known.now) formula.now) depth) }
    ensures bound { IfOk result (λ v. unsigned_abs v ≤ 2 ^ 62) }
{
    if depth >= MAX_FORMULA_DEPTH {
        return Err(FormulaFault::TooDeep);
    }
    formula_number(alloc, vars, known, formula, depth + 1)
}

/// The value of what a variable holds, asked for where `depth` levels are open.
#[cycle(values)]
fn held_value(
    alloc: Global,
    vars: &Vars,
    known: &Known<'_>,
    name: &[u8],
    source: Source<'_>,
    depth: u32,
) -> Result<i64, FormulaFault>
    ensures is { (levels : ℕ) → MAX_FORMULA_DEPTH ≤ levels + depth → Gives result (value_held (within levels vars.now) (numbers_of known.now) name.now (told source.entry) depth) }
    ensures bound { IfOk result (λ v. unsigned_abs v ≤ 2 ^ 62) }
{
    match source {
        Source::Text(text) => number_value(alloc, name, text),
        Source::Number(number) => {
            let mut digits = ArrayString::new();
            print_whole(u64::from(number), &mut digits);
            number_value(alloc, name, digits.as_str().as_bytes())
        }
        Source::Equal(formula) => entered(alloc, vars, &known.without_atom(), formula, depth),
        Source::AtomWise(formula) => entered(alloc, vars, known, formula, depth),
    }
}

/// The value of an operand with a name.
#[cycle(values)]
fn operand_value(
    alloc: Global,
    vars: &Vars,
    known: &Known<'_>,
    operand: &NamedOperand,
) -> Result<i128, FormulaFault>
    ensures { (levels : ℕ) → MAX_FORMULA_DEPTH ≤ levels + operand.now.depth → Gives result (as_operand (operand_value (within levels vars.now) vars.now (numbers_of known.now) operand.now.name operand.now.depth)) }
{
    let name = operand.name.as_bytes();
    if !name.starts_with(b"v_") {
        return known_value(alloc, known, name);
    }
    let variable = &name[2..];
    match vars.source(variable) {
        Some(source) => {
            let value = held_value(alloc, vars, known, variable, source, operand.depth)?;
            Ok(i128::from(value))
        }
        None => Err(FormulaFault::Unknown(Text::from_bytes(alloc, name)?)),
    }
}

/// An answer that is not want of memory.
fn settled(value: Result<i128, FormulaFault>) -> Result<Result<i128, FormulaFault>, NoMemory>
    ensures { (meant : Valued) → Gives value meant → IfOk result (λ r. r ≡ meant) }
{
    match value {
        Ok(value) => Ok(Ok(value)),
        Err(FormulaFault::NoMemory) => Err(NoMemory),
        Err(why) => Ok(Err(why)),
    }
}

/// What the operands of a formula have that begins where `depth` levels are open.
#[cycle(values)]
fn ask_operands(
    alloc: Global,
    vars: &Vars,
    known: &Known<'_>,
    tree: &Expr,
    depth: u32,
) -> Result<Asked, NoMemory>
    ensures { IfOk result (λ a. (levels : ℕ) → MAX_FORMULA_DEPTH ≤ levels + depth → asked (operand_value (within levels vars.now) vars.now (numbers_of known.now)) (operands tree.now depth) ≡ record { values = a.values.items; fault = a.fault }) }
{
    let operands = operands(alloc, tree, depth)?;
    let mut values = Vec::new(alloc);
    for operand in operands.as_slice() {
        match settled(operand_value(alloc, vars, known, operand))? {
            Ok(value) => values.push(value)?,
            Err(why) => {
                return Ok(Asked {
                    values,
                    fault: Some(why),
                });
            }
        }
    }
    Ok(Asked {
        values,
        fault: None,
    })
}

/// The fault of a formula: where an operand has no value, the one that it was asked for with.
fn fault_by(why: EvalFault, asked: Option<FormulaFault>) -> FormulaFault
    ensures { result ≡ fault_by why asked }
{
    match why {
        EvalFault::DivideByZero(place) => FormulaFault::DivideByZero(place),
        EvalFault::Range(place) => FormulaFault::Range(place),
        EvalFault::TooDeep => FormulaFault::TooDeep,
        EvalFault::Operand => asked.unwrap_or(FormulaFault::NoMemory),
    }
}

/// The value of a formula by that of its tree and the fault of the operand that was asked for last.
fn valued_by(
    value: Result<i64, EvalFault>,
    asked: Option<FormulaFault>,
) -> Result<i64, FormulaFault>
    requires { IfOk value (λ v. unsigned_abs v ≤ 2 ^ 62) }
    ensures is { result ≡ valued_by value asked }
    ensures bound { IfOk result (λ v. unsigned_abs v ≤ 2 ^ 62) }
{
    match value {
        Ok(value) => Ok(value),
        Err(why) => Err(fault_by(why, asked)),
    }
}

/// The value of a formula's text that begins where `depth` levels are open.
#[cycle(values)]
fn formula_number(
    alloc: Global,
    vars: &Vars,
    known: &Known<'_>,
    text: &[u8],
    depth: u32,
) -> Result<i64, FormulaFault>
    ensures is { (levels : ℕ) → MAX_FORMULA_DEPTH ≤ levels + depth → Gives result (formula_by (within levels vars.now) vars.now (numbers_of known.now) text.now depth) }
    ensures bound { IfOk result (λ v. unsigned_abs v ≤ 2 ^ 62) }
{
    let tree = parse(alloc, text)?;
    let Asked { values, fault } = ask_operands(alloc, vars, known, &tree, depth)?;
    valued_by(eval(&tree, &values, depth), fault)
}

/// The value of a formula as that of a variable.
fn in_variable(value: Result<i64, FormulaFault>) -> Result<i64, VarFault>
    requires { IfOk value (λ v. unsigned_abs v ≤ 2 ^ 62) }
    ensures is { (meant : Valued) → Gives value meant → Answers result (in_formula meant) }
    ensures bound { IfOk result (λ v. unsigned_abs v ≤ 2 ^ 62) }
    ensures outright { IfErr result IsOutright }
{
    match value {
        Ok(value) => Ok(value),
        Err(FormulaFault::NoMemory) => Err(VarFault::NoMemory),
        Err(why) => Err(VarFault::Formula(why)),
    }
}

/// The value of the variable of this name, asked for where `depth` levels are open, in units. A variable
/// without a formula has the number that its text is.
///
/// # Errors
///
/// `UnknownVariable` exactly where the name is not there. `Formula` with the first fault, operands from left
/// to right: `NotNumber` and `Range` also of the variable's own text, `TooDeep` where a formula would begin
/// at a depth above [`MAX_FORMULA_DEPTH`](box_geo::limits::MAX_FORMULA_DEPTH). `NoMemory`.
#[tactic(auto, unfolding(crate::specs::Values::value_of))]
pub fn value_of(
    alloc: Global,
    vars: &Vars,
    name: &[u8],
    known: &Known<'_>,
    depth: u32,
) -> Result<i64, VarFault>
    ensures is { Answers result (value_of vars.now (numbers_of known.now) name.now depth) }
    ensures bound { IfOk result (λ v. unsigned_abs v ≤ 2 ^ 62) }
    ensures outright { IfErr result IsOutright }
{
    match vars.source(name) {
        Some(source) => in_variable(held_value(alloc, vars, known, name, source, depth)),
        None => Err(VarFault::UnknownVariable(Text::from_bytes(alloc, name)?)),
    }
}

/// The value of a formula's text that begins where `depth` levels are open, in units, where no atom is
/// asked about.
///
/// # Errors
///
/// `Formula` with the first fault: that of the text, then operands from left to right. `NoMemory`.
#[tactic(auto, unfolding(crate::specs::Values::formula_value))]
pub fn formula_value(
    alloc: Global,
    vars: &Vars,
    text: &[u8],
    state: &Numbers,
    depth: u32,
) -> Result<i64, VarFault>
    ensures is { Answers result (formula_value vars.now state.now text.now depth) }
    ensures bound { IfOk result (λ v. unsigned_abs v ≤ 2 ^ 62) }
    ensures outright { IfErr result IsOutright }
{
    in_variable(formula_number(alloc, vars, &Known::of_state(state), text, depth))
}
