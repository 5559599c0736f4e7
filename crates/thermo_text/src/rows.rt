//! The header, the lines and the footer of thermo output.
ghost use Rattle.std.specs.Prelude.{◌≡◌, IfOk};
ghost use Rattle.thermo_text.specs.Thermo.{header_text, line_text, footer_text, HasEachNumber};

use crate::cells::{push_name, push_number};
use crate::columns::Columns;
use fx_num::{NoMemory, Numbers, Text};
use itoa::Buffer;
use std::alloc::Global;

/// The header: the names of the columns, set right in the columns' places, as one line with its
/// line feed.
pub fn header(alloc: Global, columns: &Columns) -> Result<Text, NoMemory>
    ensures { IfOk result (λ t. t ≡ header_text columns.now) }
{
    let mut row = Text::new(alloc);
    for (place, keyword) in columns.as_slice().iter().enumerate() {
        push_name(alloc, &mut row, place, keyword)?;
    }
    row.push(b"\n")?;
    Ok(row)
}

/// A line: the numbers of the columns, set right in the columns' places, with its line feed. Whole
/// numbers are printed as they are, numbers in units with eight decimals.
pub fn line(alloc: Global, columns: &Columns, numbers: &Numbers) -> Result<Text, NoMemory>
    requires { HasEachNumber numbers.now columns.now }
    ensures { IfOk result (λ t. t ≡ line_text columns.now numbers.now) }
{
    let mut row = Text::new(alloc);
    for (place, keyword) in columns.as_slice().iter().enumerate() {
        push_number(alloc, &mut row, place, keyword, numbers)?;
    }
    row.push(b"\n")?;
    Ok(row)
}

/// The footer of a run, with its line feed: how many pairs of atoms were nearer than the greatest
/// cutoff and the skin when the neighbour list was last built, and how often it was built after
/// the set-up.
pub fn footer(alloc: Global, pairs: u64, builds: u64) -> Result<Text, NoMemory>
    ensures { IfOk result (λ t. t ≡ footer_text pairs builds) }
{
    let mut buffer = Buffer::new();
    let mut text = Text::from_bytes(alloc, b"Neighbor pairs ")?;
    text.push(buffer.format(pairs).as_bytes())?;
    text.push(b" builds ")?;
    text.push(buffer.format(builds).as_bytes())?;
    text.push(b"\n")?;
    Ok(text)
}

#[cfg(test)]
mod tests;
