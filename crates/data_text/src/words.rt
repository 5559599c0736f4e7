//! The words of a line: whole numbers, and fixed numbers with eight decimals.
ghost use Rattle.std.specs.Prelude.{◌≡◌, ◌++◌, ◌∷◌, decimal, OnOk};
ghost use Rattle.std.specs.Fmt.{signed_decimal};
ghost use Rattle.fx_num.specs.Print.{fix_text};
ghost use Rattle.data_text.specs.DataText.{image_words, spaced, vector_words};

use arrayvec::ArrayString;
use fx_num::{NoMemory, Text, V3, print_fix};
use itoa::Buffer;

/// Appends a whole number.
pub(crate) fn push_whole(text: &mut Text, n: u64) -> Result<(), NoMemory>
    ensures { OnOk result (text.new ≡ text.old ++ decimal n) }
{
    let mut buffer = Buffer::new();
    text.push(buffer.format(n).as_bytes())
}

/// Appends a number in units, with eight decimals.
pub(crate) fn push_fixed(text: &mut Text, v: i64) -> Result<(), NoMemory>
    ensures { OnOk result (text.new ≡ text.old ++ fix_text v) }
{
    let mut out = ArrayString::new();
    print_fix(i128::from(v), &mut out);
    text.push(out.as_str().as_bytes())
}

/// Appends a space and a whole number.
pub(crate) fn push_next_whole(text: &mut Text, n: u64) -> Result<(), NoMemory>
    ensures { OnOk result (text.new ≡ text.old ++ 32 ∷ decimal n) }
{
    text.push(b" ")?;
    push_whole(text, n)
}

/// Appends a space and a number in units, with eight decimals.
pub(crate) fn push_next_fixed(text: &mut Text, v: i64) -> Result<(), NoMemory>
    ensures { OnOk result (text.new ≡ text.old ++ 32 ∷ fix_text v) }
{
    text.push(b" ")?;
    push_fixed(text, v)
}

/// Appends a space and a whole number that may be negative.
fn push_next_count(text: &mut Text, n: i64) -> Result<(), NoMemory>
    ensures { OnOk result (text.new ≡ text.old ++ 32 ∷ signed_decimal n) }
{
    let mut buffer = Buffer::new();
    text.push(b" ")?;
    text.push(buffer.format(n).as_bytes())
}

/// Appends the three components of a vector in units, each behind a space.
pub(crate) fn push_vector(text: &mut Text, v: &V3) -> Result<(), NoMemory>
    ensures { OnOk result (text.new ≡ text.old ++ spaced (vector_words v.now)) }
{
    push_next_fixed(text, v[0])?;
    push_next_fixed(text, v[1])?;
    push_next_fixed(text, v[2])
}

/// Appends the three image counts of an atom, each behind a space.
pub(crate) fn push_images(text: &mut Text, image: &[i64; 3]) -> Result<(), NoMemory>
    ensures { OnOk result (text.new ≡ text.old ++ spaced (image_words image.now)) }
{
    push_next_count(text, image[0])?;
    push_next_count(text, image[1])?;
    push_next_count(text, image[2])
}
