//! What a variable holds now.
ghost use Rattle.std.specs.Prelude.{◌≡◌, decimal, IfErr, IfOk};
ghost use Rattle.var_table.specs.Told.{told};
ghost use Rattle.var_table.specs.Variables.{text_held, IsTextFault};

use arrayvec::ArrayString;
use fx_num::{NoMemory, Text, VarFault, print_whole};
use std::alloc::Global;

/// What a variable holds now.
#[derive(Clone, Copy)]
pub enum Source<'a> {
    /// A text: the present value of an index variable, or that of a string.
    Text(&'a [u8]),
    /// The present number of a loop.
    Number(u32),
    /// The formula of an equal variable.
    Equal(&'a [u8]),
    /// The formula of an atom variable.
    AtomWise(&'a [u8]),
}

/// A number in decimal digits.
fn digits(alloc: Global, number: u32) -> Result<Text, NoMemory>
    ensures { IfOk result (λ text. text ≡ decimal number) }
{
    let mut out = ArrayString::new();
    print_whole(u64::from(number), &mut out);
    Text::from_bytes(alloc, out.as_str().as_bytes())
}

/// The text that the variable of this name holds.
pub(crate) fn text_held(alloc: Global, name: &[u8], source: Source<'_>) -> Result<Text, VarFault>
    ensures text { IfOk result (λ text. text_held name.now (told source.entry) ≡ Ok text) }
    ensures refused { IfErr result (λ why. IsTextFault why (text_held name.now (told source.entry))) }
{
    match source {
        Source::Text(text) => Ok(Text::from_bytes(alloc, text)?),
        Source::Number(number) => Ok(digits(alloc, number)?),
        Source::Equal(_) | Source::AtomWise(_) => {
            Err(VarFault::NotText(Text::from_bytes(alloc, name)?))
        }
    }
}
