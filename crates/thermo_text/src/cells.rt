//! Cells of a row of thermo output, set right and parted by a space.
ghost use Rattle.std.specs.Prelude.{◌≡◌, ◌≤◌, ◌++◌, ◌^◌, [], length, replicate, unsigned_abs, IfOk, OnOk};
ghost use Rattle.thermo_text.specs.Thermo.{separator_at, padded, number_text, number_of, name_cell, number_cell, HasNumber};

use crate::columns::Keyword;
use arrayvec::ArrayString;
use fx_num::{NoMemory, Numbers, Text, print_fix};
use itoa::Buffer;
use std::alloc::Global;

/// As many spaces as the widest cell has places.
const SPACES: [u8; 20] = [b' '; 20];

/// Appends the header's cell of a column to a row, at a place counted from 0.
pub fn push_name(
    alloc: Global,
    row: &mut Text,
    place: usize,
    keyword: &Keyword,
) -> Result<(), NoMemory>
    ensures { OnOk result (row.new ≡ row.old ++ separator_at place ++ name_cell keyword.now) }
{
    let name = keyword.name(alloc)?;
    push_cell(row, place, keyword.width(), name.as_bytes())
}

/// Appends a line's cell of a column to a row, at a place counted from 0.
pub fn push_number(
    alloc: Global,
    row: &mut Text,
    place: usize,
    keyword: &Keyword,
    numbers: &Numbers,
) -> Result<(), NoMemory>
    requires { HasNumber numbers.now keyword.now }
    ensures { OnOk result (row.new ≡ row.old ++ separator_at place ++ number_cell numbers.now keyword.now) }
{
    let value = number_of(alloc, numbers, keyword)?;
    let mut text = ArrayString::new();
    print_number(keyword, value, &mut text);
    push_cell(row, place, keyword.width(), text.as_str().as_bytes())
}

/// The number of a column.
fn number_of(alloc: Global, numbers: &Numbers, keyword: &Keyword) -> Result<i128, NoMemory>
    requires { HasNumber numbers.now keyword.now }
    ensures is { IfOk result (λ v. v ≡ number_of numbers.now keyword.now) }
    ensures magnitude { IfOk result (λ v. unsigned_abs v ≤ 2 ^ 98) }
{
    let key = keyword.text(alloc)?;
    Ok(numbers.value_of(key.as_bytes()).unwrap())
}

/// Prints the number of a column: a whole number as it is, one in units with eight decimals.
fn print_number(keyword: &Keyword, value: i128, out: &mut ArrayString<64>)
    requires empty { out.old.bytes ≡ [] }
    requires magnitude { unsigned_abs value ≤ 2 ^ 98 }
    ensures { out.new.bytes ≡ number_text keyword.now value }
{
    if keyword.is_whole() {
        let mut buffer = Buffer::new();
        out.push_str(buffer.format(value));
    } else {
        print_fix(value, out);
    }
}

/// Appends a cell to a row, at a place counted from 0: a space before all but the first, then the
/// text set right.
fn push_cell(row: &mut Text, place: usize, width: usize, text: &[u8]) -> Result<(), NoMemory>
    requires { width ≤ 20 }
    ensures { OnOk result (row.new ≡ row.old ++ separator_at place ++ padded width text.now) }
{
    push_separator(row, place)?;
    push_padded(row, width, text)
}

/// Appends the space that parts the cell at a place from the one before it.
fn push_separator(row: &mut Text, place: usize) -> Result<(), NoMemory>
    ensures { OnOk result (row.new ≡ row.old ++ separator_at place) }
{
    if place == 0 {
        return Ok(());
    }
    row.push(b" ")
}

/// Appends a text set right in a number of places; a longer text takes what it needs.
fn push_padded(row: &mut Text, width: usize, text: &[u8]) -> Result<(), NoMemory>
    requires { width ≤ 20 }
    ensures { OnOk result (row.new ≡ row.old ++ padded width text.now) }
{
    row.push(spaces(width.saturating_sub(text.len())))?;
    row.push(text)
}

/// As many spaces.
fn spaces(count: usize) -> &'static [u8]
    requires { count ≤ 20 }
    ensures { result.now ≡ replicate count 32 }
{
    &SPACES[..count]
}
