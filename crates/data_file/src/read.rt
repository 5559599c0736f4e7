//! A whole data file.
ghost use Rattle.std.specs.Prelude.{◌≡◌, ◌≤◌, ◌+◌, ◌^◌, ℕ, length, Ok, Err, IfOk};
ghost use Rattle.data_file.specs.Data.{contents_of, data_of, finished, is_there, is_whole, judge_line, read_text, refusal_of, Ends, ReadsText, Takes};
ghost use Rattle.data_file.specs.declared.fault.DataFault.{DataFault};
ghost use Rattle.script_lines.specs.Physical.{physical_lines};
ghost use Rattle.data_file.specs.Sound.{IsSoundSet};
ghost use Rattle.data_file.specs.Tables.{masses_of};

use crate::contents::DataSet;
use crate::fault::{DataFault, DataRefusal, Stop};
use crate::reading::{Reading, rows_of};
use crate::sections::Section;
use crate::side::Dim;
use crate::tables::ById;
use crate::words::without_comment;
use box_geo::{AtomStyle, Masses};
use fx_num::NoMemory;
use script_lines::{PhysicalLine, first_line};
use std::alloc::Global;

/// The masses of so many types, 0 where there is none.
fn masses_of(alloc: Global, kinds: u8, masses: &ById<i64>) -> Result<Masses, NoMemory>
    ensures { IfOk result (λ list. list ≡ masses_of kinds masses.now) }
{
    let mut list = Masses::new(alloc);
    for kind in 0..u32::from(kinds) {
        list.push(masses.get(kind + 1).unwrap_or(0))?;
    }
    Ok(list)
}

/// Whether a section is there that is needed where its count is above 0.
fn is_there(section: Section, reading: &Reading) -> bool
    ensures { result ≡ is_there section reading.now }
{
    reading.begun.has(section) || rows_of(section, &reading.header) == 0
}

/// Whether nothing is missing at the end.
fn is_whole(reading: &Reading) -> bool
    ensures { result ≡ is_whole reading.now }
{
    let full = reading.header.is_complete() && reading.is_full();
    let atoms = is_there(Section::Atoms, reading);
    let bonds = is_there(Section::Bonds, reading);
    let angles = is_there(Section::Angles, reading);
    full && atoms && bonds && angles
}

/// The contents at the end of the file.
#[tactic(auto, unfolding(crate::specs::Data::finished))]
fn finished(alloc: Global, reading: Reading) -> Result<DataSet, Stop>
    ensures { Ends (finished reading) result }
{
    if !is_whole(&reading) {
        return Err(Stop::Fault(DataFault::Missing));
    }
    let Some(cell) = reading.header.cell(reading.dim.number()) else {
        return Err(Stop::Fault(DataFault::Missing));
    };
    let kinds = [
        reading.header.atom_types.unwrap_or(0),
        reading.header.bond_types.unwrap_or(0),
        reading.header.angle_types.unwrap_or(0),
    ];
    let mass = masses_of(alloc, kinds[0], &reading.masses)?;
    let atoms = reading.atoms.atoms(alloc, &reading.velocities)?;
    Ok(DataSet {
        cell,
        kinds,
        mass,
        atoms,
        bonds: reading.bonds,
        angles: reading.angles,
        pair: reading.pair,
        has_bond: reading.begun.has(Section::BondCoeffs),
        bond: reading.bond,
        has_angle: reading.begun.has(Section::AngleCoeffs),
        angle: reading.angle,
    })
}

/// Takes a line of a number: the first one is skipped.
fn take_line(alloc: Global, reading: &mut Reading, number: u32, line: &[u8]) -> Result<(), Stop>
    ensures { Takes (judge_line number reading.old line.now) result reading.new }
{
    if number == 1 {
        return Ok(());
    }
    reading.take(alloc, without_comment(line))
}

/// The refusal of a line.
fn refusal(number: u32, why: Stop) -> DataRefusal
    ensures { result ≡ refusal_of number why }
{
    match why {
        Stop::Fault(fault) => DataRefusal::Line(number, fault),
        Stop::NoMemory => DataRefusal::NoMemory,
    }
}

/// What a text says behind what is read.
fn read_from(alloc: Global, bytes: &[u8], reading: Reading) -> Result<DataSet, DataRefusal>
    requires { length bytes.now ≤ 2 ^ 30 }
    ensures { ReadsText (read_text reading (physical_lines bytes.now)) result }
{
    let mut reading = reading;
    let mut number = 1;
    let mut rest = bytes;
    'lines: while !rest.is_empty() {
        let PhysicalLine {
            bytes: line,
            after,
            ..
        } = first_line(rest);
        match take_line(alloc, &mut reading, number, line) {
            Ok(()) => {}
            Err(why) => return Err(refusal(number, why)),
        }
        number += 1;
        rest = after;
    }
    match finished(alloc, reading) {
        Ok(data) => Ok(data),
        Err(why) => Err(refusal(number, why)),
    }
}

/// What a text says as a data file, for atoms of a style in a box of 2 or 3 dimensions that is periodic
/// along these axes. A position outside is brought into the box along the axes that are periodic, but
/// not along z in two dimensions.
///
/// # Errors
///
/// `Line` with the first line that the format does not allow after the lines before it, which is the
/// last line plus 1 where something is missing at the end, and its first fault; and `NoMemory`.
pub fn read_data(
    alloc: Global,
    bytes: &[u8],
    style: AtomStyle,
    periodic: [bool; 3],
    dim: u8,
) -> Result<DataSet, DataRefusal>
    requires dim { (2 ≤ dim) × (dim ≤ 3) }
    requires short { length bytes.now ≤ 2 ^ 30 }
    ensures read { IfOk result (λ d. data_of style periodic dim bytes.now ≡ Ok (contents_of d)) }
    ensures refused { (n : ℕ) (f : DataFault) → result ≡ Err (DataRefusal.Line n f)
        → data_of style periodic dim bytes.now ≡ Err (n, f) }
    ensures sound { IfOk result (λ d. IsSoundSet style dim (contents_of d)) }
{
    read_from(
        alloc,
        bytes,
        Reading::new(alloc, style, periodic, Dim::of(dim)),
    )
}
