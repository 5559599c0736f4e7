//! The operands of a formula that have names.
ghost use Rattle.std.specs.Prelude.{◌≡◌, ◌≤◌, ◌++◌, ℕ, All, IfOk, OnOk};
ghost use Rattle.formula.specs.Operands.{operands};

use crate::tree::Expr;
use fx_num::{NoMemory, Seq, Text};
use std::alloc::Global;

/// An operand with a name, as it is written, and how many levels are open where it stands.
#[derive(Drop)]
pub struct NamedOperand {
    /// A keyword, `v_NAME` or `c_ID`.
    pub name: Text,
    /// The depth at which it stands.
    pub depth: u32,
}

/// Operands from left to right.
pub type Operands = Seq<NamedOperand>;

/// The operands that have names, from left to right, each with the depth at which it stands where the formula
/// begins at `depth`. A tree of more levels than a word counts is answered as want of memory.
pub fn operands(alloc: Global, expr: &Expr, depth: u32) -> Result<Operands, NoMemory>
    ensures is { IfOk result (λ list. list ≡ operands expr.now depth) }
    ensures deeper { IfOk result (λ list. All (λ o. depth ≤ o.depth) list) }
{
    let mut list = Seq::new(alloc);
    collect(alloc, expr, depth, &mut list)?;
    Ok(list)
}

/// Appends the operands of a part of a formula.
fn collect(alloc: Global, tree: &Expr, depth: u32, list: &mut Operands) -> Result<(), NoMemory>
    ensures is { OnOk result (list.new ≡ list.old ++ operands tree.now depth) }
    ensures deeper { (base : ℕ) → base ≤ depth → All (λ o. base ≤ o.depth) list.old → OnOk result (All (λ o. base ≤ o.depth) list.new) }
{
    match tree {
        Expr::Number(_, _) => Ok(()),
        Expr::Named(_, name) => {
            let name = name.copy(alloc)?;
            list.push(NamedOperand { name, depth })?;
            Ok(())
        }
        Expr::Group(inner) | Expr::Call(_, _, inner) => {
            let deeper = depth.checked_add(1).ok_or(NoMemory)?;
            collect(alloc, inner.get(), deeper, list)?;
            Ok(())
        }
        Expr::Signed(_, inner) => {
            collect(alloc, inner.get(), depth, list)?;
            Ok(())
        }
        Expr::Binary(_, _, left, right) => {
            collect(alloc, left.get(), depth, list)?;
            collect(alloc, right.get(), depth, list)?;
            Ok(())
        }
    }
}
