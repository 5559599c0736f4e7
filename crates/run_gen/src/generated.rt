//! The text of the generated script.
ghost use Rattle.std.specs.Prelude.{◌≡◌, ◌+◌, ◌++◌, ◌≤◌, decimal, length, IfOk, OnOk};
ghost use Rattle.run_gen.specs.Script.{line_text, lines_text, region_line, run_lines, script_text, velocity_line};

use arrayvec::ArrayString;
use fx_num::{NoMemory, Text, print_whole};
use std::alloc::Global;

/// The least number of lattice cells along an edge.
pub const MIN_CELLS: u32 = 4;
/// The greatest number of lattice cells along an edge: its crystal has as many atoms as a system may have.
pub const MAX_CELLS: u32 = 64;

/// The limits as numbers: a law, which does nothing when it runs.
pub fn cell_limits_are_these_numbers()
    ensures least { MIN_CELLS ≡ 4 }
    ensures greatest { MAX_CELLS ≡ 64 }
{}

/// The generated script, as one text: a cube of `cells` lattice cells along each edge, four atoms in a
/// cell, with velocities drawn by `seed`, runs for 20 steps, and prints a summary.
///
/// # Errors
///
/// [`NoMemory`] where memory is refused.
pub fn script(alloc: Global, cells: u32, seed: u32) -> Result<Text, NoMemory>
    ensures is { IfOk result (λ text. text ≡ script_text cells seed) }
    ensures short { IfOk result (λ text. length text ≤ 1000) }
{
    let mut text = Text::new(alloc);
    text.push(b"units lj\nlattice fcc 0.8442\n")?;
    push_region(&mut text, cells)?;
    text.push(b"create_box 1 box\ncreate_atoms 1 box\nmass 1 1.0\n")?;
    push_velocity(&mut text, seed)?;
    push_run(&mut text)?;
    Ok(text)
}

/// Appends a whole number.
fn push_whole(text: &mut Text, n: u32) -> Result<(), NoMemory>
    ensures is { OnOk result (text.new ≡ text.old ++ decimal n) }
    ensures short { length (decimal n) ≤ 20 }
{
    let mut digits = ArrayString::new();
    print_whole(u64::from(n), &mut digits);
    text.push(digits.as_bytes())
}

/// Appends the line of the region of the box.
#[tactic(auto, unfolding(crate::specs::Script::region_line))]
fn push_region(text: &mut Text, cells: u32) -> Result<(), NoMemory>
    ensures is { OnOk result (text.new ≡ text.old ++ line_text (region_line cells)) }
    ensures short { OnOk result (length text.new ≤ length text.old + 100) }
{
    text.push(b"region box block 0 ")?;
    push_whole(text, cells)?;
    text.push(b" 0 ")?;
    push_whole(text, cells)?;
    text.push(b" 0 ")?;
    push_whole(text, cells)?;
    text.push(b"\n")
}

/// Appends the line that draws the velocities.
#[tactic(auto, unfolding(crate::specs::Script::velocity_line))]
fn push_velocity(text: &mut Text, seed: u32) -> Result<(), NoMemory>
    ensures is { OnOk result (text.new ≡ text.old ++ line_text (velocity_line seed)) }
    ensures short { OnOk result (length text.new ≤ length text.old + 100) }
{
    text.push(b"velocity all create 3.0 ")?;
    push_whole(text, seed)?;
    text.push(b"\n")
}

/// Appends the lines of the pairs, of the run, and of its summary.
fn push_run(text: &mut Text) -> Result<(), NoMemory>
    ensures is { OnOk result (text.new ≡ text.old ++ lines_text run_lines) }
    ensures short { OnOk result (length text.new ≤ length text.old + 200) }
{
    text.push(
        b"pair_style lj/cut 2.5\npair_coeff 1 1 1.0 1.0\nfix 1 all nve\nthermo 10\nrun 20\nprint \"atoms $(atoms) step $(step) etotal $(etotal)\"\n",
    )
}
