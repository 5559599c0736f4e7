//! The calls: velocities that are drawn, scaled, stilled or set.
ghost use Rattle.std.specs.Prelude.{◌≡◌, ◌≤◌, ◌^◌, ◌≤ℤ◌, pos, unsigned_abs, All, length, map, None, OnOk, OnErr};
ghost use Rattle.box_geo.specs.Ids.{Rises};
ghost use Rattle.computes.specs.Quantities.{IsSlow};
ghost use Rattle.velocity_make.specs.Change.{rest_of};
ghost use Rattle.velocity_make.specs.Group.{IsCalm, IsWeighed};
ghost use Rattle.velocity_make.specs.Make.{TellsOf, answer_of, created, finished, scaled, settled, set_to, stilled, too_fast};

use crate::changes::{Change, change_all, write_all};
use crate::draws::draw_all;
use crate::groups::mean;
use crate::temperature::scaling_to;
use box_geo::Atom;
use box_geo::limits::{MAX_ATOMS, MAX_TEMPERATURE};
use std::alloc::Global;
use thiserror::Error;

/// Why velocities stay as they are.
#[derive(Clone, Copy, Debug, PartialEq, Eq, Error)]
pub enum VelocityRefusal {
    /// An atom would have a component beyond [`box_geo::limits::MAX_SPEED`]; the least id of such atoms.
    #[error("the velocity of atom {0} is out of range")]
    SpeedRange(u32),
    /// Memory is refused.
    #[error("out of memory")]
    NoMemory,
}

/// How velocities are drawn.
#[derive(Clone, Copy, Debug)]
pub struct Drawing {
    /// The temperature that the group is brought to, in units.
    pub temperature: i64,
    /// The seed.
    pub seed: u32,
    /// Whether the mean velocity of the group is taken off.
    pub still: bool,
}

/// Draws the velocity of each atom of a group by the seed and the atom's id, takes the group's mean off if asked,
/// and scales to the temperature. `mass` has the mass of each type, in units; `ids` are those of the group.
///
/// # Errors
///
/// [`VelocityRefusal::SpeedRange`] exactly where an atom of the group would be too fast, and
/// [`VelocityRefusal::NoMemory`]; the atoms are then as before.
pub fn create(
    alloc: Global,
    atoms: &mut [Atom],
    mass: &[i64],
    dim: u8,
    ids: &[u32],
    drawing: Drawing,
) -> Result<(), VelocityRefusal>
    requires rising { Rises ids.now }
    requires few { length atoms.old ≤ MAX_ATOMS }
    requires masses { All (IsWeighed mass.now ids.now) atoms.old }
    requires speeds { All IsSlow atoms.old }
    requires dim { (2 ≤ dim) × (dim ≤ 3) }
    requires temperature { (pos 0 ≤ℤ drawing.temperature) × (drawing.temperature ≤ℤ MAX_TEMPERATURE) }
    ensures made { OnOk result (atoms.new ≡ created mass.now dim ids.now drawing atoms.old) }
    ensures in_range { OnOk result (too_fast ids.now (created mass.now dim ids.now drawing atoms.old) ≡ None) }
    ensures speed_range { TellsOf result (too_fast ids.now (created mass.now dim ids.now drawing atoms.old)) }
    ensures unchanged { OnErr result (atoms.new ≡ atoms.old) }
    ensures slow { All IsSlow atoms.new }
    ensures others { map rest_of atoms.new ≡ map rest_of atoms.old }
{
    match draw_all(alloc, atoms, mass, dim, ids, drawing.seed) {
        Ok(mut draws) => finish(atoms, &mut draws, mass, dim, ids, &drawing),
        Err(_) => Err(VelocityRefusal::NoMemory),
    }
}

/// Gives atoms what becomes of their draws, unless one would be too fast.
fn finish(
    atoms: &mut [Atom],
    draws: &mut [Atom],
    mass: &[i64],
    dim: u8,
    ids: &[u32],
    drawing: &Drawing,
) -> Result<(), VelocityRefusal>
    requires rising { Rises ids.now }
    requires few { length draws.old ≤ MAX_ATOMS }
    requires many { length draws.old ≡ length atoms.old }
    requires masses { All (IsWeighed mass.now ids.now) draws.old }
    requires calm { All (IsCalm ids.now) draws.old }
    requires dim { (2 ≤ dim) × (dim ≤ 3) }
    requires temperature { (pos 0 ≤ℤ drawing.now.temperature) × (drawing.now.temperature ≤ℤ MAX_TEMPERATURE) }
    ensures answer { result ≡ answer_of (too_fast ids.now (finished mass.now dim ids.now drawing.now draws.old)) }
    ensures made { OnOk result (atoms.new ≡ finished mass.now dim ids.now drawing.now draws.old) }
    ensures unchanged { OnErr result (atoms.new ≡ atoms.old) }
    ensures slow { OnOk result (All IsSlow atoms.new) }
    ensures others { map rest_of draws.old ≡ map rest_of atoms.old → map rest_of atoms.new ≡ map rest_of atoms.old }
{
    settle(draws, mass, ids, drawing.still);
    match scale(draws, mass, dim, ids, drawing.temperature) {
        Ok(()) => {}
        Err(why) => return Err(why),
    }
    atoms.copy_from_slice(draws);
    Ok(())
}

/// Takes the mean velocity of a group off its draws, if asked.
fn settle(draws: &mut [Atom], mass: &[i64], ids: &[u32], is_still: bool)
    requires rising { Rises ids.now }
    requires few { length draws.old ≤ MAX_ATOMS }
    requires masses { All (IsWeighed mass.now ids.now) draws.old }
    requires calm { All (IsCalm ids.now) draws.old }
    ensures is { draws.new ≡ settled mass.now ids.now is_still draws.old }
    ensures masses { All (IsWeighed mass.now ids.now) draws.new }
    ensures slow { All IsSlow draws.new }
    ensures others { map rest_of draws.new ≡ map rest_of draws.old }
{
    if !is_still {
        return;
    }
    still(draws, mass, ids);
}

/// Takes the mean velocity of a group off its atoms, which are as slow as draws.
fn still(atoms: &mut [Atom], mass: &[i64], ids: &[u32])
    requires rising { Rises ids.now }
    requires few { length atoms.old ≤ MAX_ATOMS }
    requires masses { All (IsWeighed mass.now ids.now) atoms.old }
    requires calm { All (IsCalm ids.now) atoms.old }
    ensures { atoms.new ≡ stilled mass.now ids.now atoms.old }
{
    let u = mean(atoms, mass, ids);
    write_all(atoms, ids, &Change::TakeOff(u));
}

/// Scales the velocities of a group to a temperature in units: with no degree of freedom to 0. Where the group
/// hardly moves, they stay.
///
/// # Errors
///
/// [`VelocityRefusal::SpeedRange`] exactly where an atom of the group would be too fast; the atoms are then as before.
pub fn scale(
    atoms: &mut [Atom],
    mass: &[i64],
    dim: u8,
    ids: &[u32],
    temperature: i64,
) -> Result<(), VelocityRefusal>
    requires rising { Rises ids.now }
    requires few { length atoms.old ≤ MAX_ATOMS }
    requires masses { All (IsWeighed mass.now ids.now) atoms.old }
    requires speeds { All IsSlow atoms.old }
    requires dim { (2 ≤ dim) × (dim ≤ 3) }
    requires temperature { (pos 0 ≤ℤ temperature) × (temperature ≤ℤ MAX_TEMPERATURE) }
    ensures answer { result ≡ answer_of (too_fast ids.now (scaled mass.now dim ids.now temperature atoms.old)) }
    ensures made { OnOk result (atoms.new ≡ scaled mass.now dim ids.now temperature atoms.old) }
    ensures unchanged { OnErr result (atoms.new ≡ atoms.old) }
    ensures slow { All IsSlow atoms.new }
    ensures others { map rest_of atoms.new ≡ map rest_of atoms.old }
{
    let change = scaling_to(atoms, mass, dim, ids, temperature);
    change_all(atoms, ids, &change)
}

/// Takes the mean velocity of a group, by mass, off the velocity of each of its atoms.
///
/// # Errors
///
/// [`VelocityRefusal::SpeedRange`] exactly where an atom of the group would be too fast; the atoms are then as before.
pub fn zero(atoms: &mut [Atom], mass: &[i64], ids: &[u32]) -> Result<(), VelocityRefusal>
    requires rising { Rises ids.now }
    requires few { length atoms.old ≤ MAX_ATOMS }
    requires masses { All (IsWeighed mass.now ids.now) atoms.old }
    requires speeds { All IsSlow atoms.old }
    ensures answer { result ≡ answer_of (too_fast ids.now (stilled mass.now ids.now atoms.old)) }
    ensures made { OnOk result (atoms.new ≡ stilled mass.now ids.now atoms.old) }
    ensures unchanged { OnErr result (atoms.new ≡ atoms.old) }
    ensures slow { All IsSlow atoms.new }
    ensures others { map rest_of atoms.new ≡ map rest_of atoms.old }
{
    let u = mean(atoms, mass, ids);
    change_all(atoms, ids, &Change::TakeOff(u))
}

/// Sets the components that are given, in units, of the velocity of each atom of a group.
///
/// # Errors
///
/// [`VelocityRefusal::SpeedRange`] exactly where an atom of the group would be too fast; the atoms are then as before.
#[tactic(auto, unfolding(crate::specs::Make::set_to))]
pub fn set(atoms: &mut [Atom], ids: &[u32], given: [Option<i64>; 3]) -> Result<(), VelocityRefusal>
    requires { Rises ids.now }
    ensures answer { result ≡ answer_of (too_fast ids.now (set_to ids.now given atoms.old)) }
    ensures made { OnOk result (atoms.new ≡ set_to ids.now given atoms.old) }
    ensures unchanged { OnErr result (atoms.new ≡ atoms.old) }
    ensures slow { All IsSlow atoms.old → All IsSlow atoms.new }
    ensures others { map rest_of atoms.new ≡ map rest_of atoms.old }
{
    change_all(atoms, ids, &Change::Set(given))
}
