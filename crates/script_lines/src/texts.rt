//! What names and formulas stand for.

use fx_num::{Text, VarFault};
use std::alloc::Global;

/// A table of texts for names and formulas.
pub trait Texts {
    ghost use Rattle.script_lines.specs.Table.{Table, Answers};

    ghost table: { Self → Table };

    /// The text that a name stands for.
    ///
    /// # Errors
    ///
    /// Why it has none, or want of memory.
    fn name_text(&self, alloc: Global, name: &[u8]) -> Result<Text, VarFault>
        ensures { Answers result ((table self.now).names name.now) };

    /// The text of a formula's value.
    ///
    /// # Errors
    ///
    /// Why it has none, or want of memory.
    fn formula_text(&self, alloc: Global, formula: &[u8]) -> Result<Text, VarFault>
        ensures { Answers result ((table self.now).formulas formula.now) };
}
