//! The numbers that formulas know.
ghost use Rattle.computes.specs.Quantities.{mass_at};
ghost use Rattle.box_geo.specs.Sides.{edge, volume_of, x_of, y_of, z_of};
ghost use Rattle.meaning.specs.Known.{atom_numbers, box_numbers, kind_numbers, known_in, motion_numbers, number, size_numbers};
ghost use Rattle.meaning.specs.Sound.{IsSoundBody};
ghost use Rattle.std.specs.Prelude.{◌≡◌, ◌++◌, ◌∷◌, ◌*ℤ◌, [], codes, length, pos, IfOk, IfSome, OnOk};

use crate::settings::{Body, Settings};
use box_geo::{Atom, Sides, SimBox};
use fx_num::{NoMemory, Number, Numbers, Text, V3};
use std::alloc::Global;

/// Appends a number under its keyword.
///
/// # Errors
///
/// `NoMemory`.
pub fn put_number(
    alloc: Global,
    numbers: &mut Numbers,
    keyword: &[u8],
    value: &i128,
) -> Result<(), NoMemory>
    ensures { OnOk result (numbers.new ≡ numbers.old ++ number keyword.now value.now ∷ []) }
{
    numbers.push(Text::from_bytes(alloc, keyword)?, *value)
}

/// Appends copies of numbers.
fn put_all(alloc: Global, numbers: &mut Numbers, others: &[Number]) -> Result<(), NoMemory>
    ensures { OnOk result (numbers.new ≡ numbers.old ++ others.now) }
{
    for other in others {
        put_number(alloc, numbers, other.keyword.as_bytes(), &other.value)?;
    }
    Ok(())
}

/// Appends a whole number, or one of so many units.
fn put_count(
    alloc: Global,
    numbers: &mut Numbers,
    keyword: &[u8],
    value: u64,
) -> Result<(), NoMemory>
    ensures { OnOk result (numbers.new ≡ numbers.old ++ number keyword.now (pos value) ∷ []) }
{
    put_number(alloc, numbers, keyword, &i128::from(value))
}

/// Appends a number in units.
fn put_units(
    alloc: Global,
    numbers: &mut Numbers,
    keyword: &[u8],
    value: &i64,
) -> Result<(), NoMemory>
    ensures { OnOk result (numbers.new ≡ numbers.old ++ number keyword.now value.now ∷ []) }
{
    put_number(alloc, numbers, keyword, &i128::from(*value))
}

/// Appends the three parts of a vector under the keywords `x`, `y` and `z`.
#[tactic(auto, using(std::proofs::lemmas::List::append_assoc))]
fn put_vector(
    alloc: Global,
    numbers: &mut Numbers,
    x: &[u8],
    y: &[u8],
    z: &[u8],
    vector: &V3,
) -> Result<(), NoMemory>
    ensures { OnOk result (numbers.new ≡ numbers.old ++ number x.now (x_of vector.now) ∷ number y.now (y_of vector.now) ∷ number z.now (z_of vector.now) ∷ []) }
{
    put_units(alloc, numbers, x, &vector[0])?;
    put_units(alloc, numbers, y, &vector[1])?;
    put_units(alloc, numbers, z, &vector[2])?;
    Ok(())
}

/// The volume of a box.
fn volume(body: &Body) -> i64
    requires { IsSoundBody body.now }
    ensures { result ≡ pos (volume_of body.now.sides) }
{
    SimBox::from_sides(body.sides).volume()
}

/// The edges of a box.
fn edges(body: &Body) -> V3
    requires { IsSoundBody body.now }
    ensures { result ≡ edge body.now.sides.x ∷ edge body.now.sides.y ∷ edge body.now.sides.z ∷ [] }
{
    let Sides { x, y, z, .. } = body.sides;
    [x.edge(), y.edge(), z.edge()]
}

/// Appends the volume and the edges of a box.
#[tactic(auto, using(std::proofs::lemmas::List::append_assoc))]
fn put_sizes(alloc: Global, numbers: &mut Numbers, body: &Body) -> Result<(), NoMemory>
    requires { IsSoundBody body.now }
    ensures { OnOk result (numbers.new ≡ numbers.old ++ size_numbers body.now) }
{
    put_units(alloc, numbers, b"vol", &volume(body))?;
    put_vector(alloc, numbers, b"lx", b"ly", b"lz", &edges(body))?;
    Ok(())
}

/// Appends the step and the number of atoms.
#[tactic(auto, using(std::proofs::lemmas::List::append_assoc))]
fn put_counts(alloc: Global, numbers: &mut Numbers, body: &Body) -> Result<(), NoMemory>
    requires { IsSoundBody body.now }
    ensures { OnOk result (numbers.new ≡ numbers.old ++ number (codes "step") (pos body.now.step) ∷ number (codes "atoms") (pos (length body.now.atoms)) ∷ []) }
{
    put_count(alloc, numbers, b"step", body.step)?;
    put_count(alloc, numbers, b"atoms", body.atoms.len() as u64)?;
    Ok(())
}

/// The time at a step, in units.
fn time(step: u64, dt: &i64) -> i128
    ensures { result ≡ pos step *ℤ dt.now }
{
    i128::from(step) * i128::from(*dt)
}

/// Appends what is known of what is in a box, where the timestep is `dt`.
#[tactic(auto, using(std::proofs::lemmas::List::append_assoc))]
fn put_box(alloc: Global, numbers: &mut Numbers, body: &Body, dt: &i64) -> Result<(), NoMemory>
    requires { IsSoundBody body.now }
    ensures { OnOk result (numbers.new ≡ numbers.old ++ box_numbers dt.now body.now) }
{
    put_counts(alloc, numbers, body)?;
    put_number(alloc, numbers, b"time", &time(body.step, dt))?;
    put_sizes(alloc, numbers, body)?;
    Ok(())
}

/// The numbers by keyword that hold in a state: `step` and `atoms` are whole, the others in units.
///
/// # Errors
///
/// `NoMemory`.
pub fn known_in(alloc: Global, settings: &Settings) -> Result<Numbers, NoMemory>
    requires { IfSome settings.now.body IsSoundBody }
    ensures { IfOk result (λ numbers. numbers ≡ known_in settings.now) }
{
    let mut numbers = Numbers::new(alloc);
    let dt = &settings.setup.timestep;
    put_units(alloc, &mut numbers, b"dt", dt)?;
    if let Some(body) = &settings.body {
        put_box(alloc, &mut numbers, body, dt)?;
    }
    put_all(alloc, &mut numbers, settings.known.as_slice())?;
    Ok(numbers)
}

/// The mass of a type, by the masses of the types.
fn mass_of(mass: &[i64], kind: u8) -> i64
    ensures { result ≡ mass_at mass.now kind }
{
    let place = usize::from(kind).saturating_sub(1);
    if place < mass.len() { mass[place] } else { 1 }
}

/// Appends the position and the velocity of an atom.
#[tactic(auto, using(std::proofs::lemmas::List::append_assoc))]
fn put_motion(alloc: Global, numbers: &mut Numbers, atom: &Atom) -> Result<(), NoMemory>
    ensures { OnOk result (numbers.new ≡ numbers.old ++ motion_numbers atom.now) }
{
    put_vector(alloc, numbers, b"x", b"y", b"z", &atom.x)?;
    put_vector(alloc, numbers, b"vx", b"vy", b"vz", &atom.v)?;
    Ok(())
}

/// Appends the id, the type and the mass of an atom.
#[tactic(auto, using(std::proofs::lemmas::List::append_assoc))]
fn put_kind(alloc: Global, numbers: &mut Numbers, mass: &[i64], atom: &Atom) -> Result<(), NoMemory>
    ensures { OnOk result (numbers.new ≡ numbers.old ++ kind_numbers mass.now atom.now) }
{
    put_count(alloc, numbers, b"id", u64::from(atom.id))?;
    put_count(alloc, numbers, b"type", u64::from(atom.kind))?;
    put_units(alloc, numbers, b"mass", &mass_of(mass, atom.kind))?;
    Ok(())
}

/// The numbers of an atom by keyword: `id` and `type` are whole, the others in units. `mass` has the mass of each atom
/// type.
///
/// # Errors
///
/// `NoMemory`.
pub fn atom_numbers(alloc: Global, mass: &[i64], atom: &Atom) -> Result<Numbers, NoMemory>
    ensures { IfOk result (λ numbers. numbers ≡ atom_numbers mass.now atom.now) }
{
    let mut numbers = Numbers::new(alloc);
    put_kind(alloc, &mut numbers, mass, atom)?;
    put_motion(alloc, &mut numbers, atom)?;
    Ok(numbers)
}
