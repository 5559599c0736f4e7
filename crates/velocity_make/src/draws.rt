//! The velocity that an atom is given by a draw.
ghost use Rattle.std.specs.Prelude.{◌≡◌, ◌==◌, cond, ◌≤◌, ◌<◌, ◌^◌, ◌/◌, ◌-ℤ◌, ◌*ℤ◌, pos, unsigned_abs, All, IfOk};
ghost use Rattle.fx_num.specs.Rounding.{div_rounded};
ghost use Rattle.fx_num.specs.Roots.{sqrt_of};
ghost use Rattle.computes.specs.Quantities.{IsSlow};
ghost use Rattle.box_geo.specs.Ids.{Rises};
ghost use Rattle.velocity_make.specs.Draw.{after_word, component_of, draw_of, first_word, generator_of};
ghost use Rattle.box_geo.specs.Sides.{IsWithin};
ghost use Rattle.velocity_make.specs.Group.{IsCalm, IsWeighed};
ghost use Rattle.velocity_make.specs.Make.{drawn, drawn_all};

use crate::changes::with_velocity;
use crate::groups::{is_member, mass_of};
use box_geo::Atom;
use fx_num::{V3, rdiv, rsqrt};
use rand_core::utils::NextWord;
use rand_pcg::Lcg64Xsh32;
use std::alloc::{AllocError, Global};

/// The atoms, each of a group with the velocity of its draw.
pub(crate) fn draw_all(
    alloc: Global,
    atoms: &[Atom],
    mass: &[i64],
    dim: u8,
    ids: &[u32],
    seed: u32,
) -> Result<Vec<Atom>, AllocError>
    requires rising { Rises ids.now }
    requires masses { All (IsWeighed mass.now ids.now) atoms.now }
    requires speeds { All IsSlow atoms.now }
    ensures is { IfOk result (λ made. made.items ≡ drawn_all mass.now dim ids.now seed atoms.now) }
    ensures calm { IfOk result (λ made. All (IsCalm ids.now) made.items) }
{
    let mut made = Vec::new(alloc);
    for atom in atoms {
        made.push(drawn(atom, mass, dim, ids, seed))?;
    }
    Ok(made)
}

/// The atom with the velocity of its draw, if it is of the group.
fn drawn(atom: &Atom, mass: &[i64], dim: u8, ids: &[u32], seed: u32) -> Atom
    requires rising { Rises ids.now }
    requires mass { IsWeighed mass.now ids.now atom.now }
    requires speed { IsSlow atom.now }
    ensures is { result ≡ drawn mass.now dim ids.now seed atom.now }
    ensures calm { IsCalm ids.now result }
{
    if !is_member(ids, atom) {
        return *atom;
    }
    with_velocity(atom, draw(dim, seed, atom.id, mass_of(atom, mass)))
}

/// The draw for an id, by the words of a generator of its own.
fn draw(dim: u8, seed: u32, id: u32, mass: u64) -> V3
    requires { (2 ^ 14 ≤ mass) × (mass ≤ 2 ^ 30) }
    ensures is { result ≡ draw_of dim seed id (pos mass) }
    ensures calm { IsWithin (2 ^ 29) result }
{
    let mut words = generator(seed, id);
    let root = root_of(mass);
    let x = component(word(&mut words), root);
    let y = component(word(&mut words), root);
    let z = component(word(&mut words), root);
    [x, y, along_z(dim, &z)]
}

/// The generator of an id.
fn generator(seed: u32, id: u32) -> Lcg64Xsh32
    ensures { result ≡ generator_of seed id }
{
    Lcg64Xsh32::new(u64::from(seed), u64::from(id))
}

/// The word that comes next.
fn word(words: &mut Lcg64Xsh32) -> u32
    ensures word { result ≡ first_word words.old }
    ensures rest { words.new ≡ after_word words.old }
{
    words.next_word()
}

/// A component along z: 0 in two dimensions.
fn along_z(dim: u8, z: &i64) -> i64
    requires { unsigned_abs z.now ≤ 2 ^ 29 }
    ensures is { result ≡ cond (dim == 2) (pos 0) z.now }
    ensures bound { unsigned_abs result ≤ 2 ^ 29 }
{
    if dim == 2 { 0 } else { *z }
}

/// The square root of a mass, in units of 2^-12.
fn root_of(mass: u64) -> u64
    requires { (2 ^ 14 ≤ mass) × (mass ≤ 2 ^ 30) }
    ensures is { result ≡ sqrt_of mass }
    ensures bounds { (2 ^ 7 ≤ result) × (result ≤ 2 ^ 15) }
{
    rsqrt(u128::from(mass))
}

/// A component of a draw, by a word and the root of the mass.
fn component(word: u32, root: u64) -> i64
    requires { (2 ^ 7 ≤ root) × (root ≤ 2 ^ 15) }
    ensures is { result ≡ component_of root word }
    ensures bound { unsigned_abs result ≤ 2 ^ 29 }
{
    rdiv(dividend(word), i128::from(root)) as i64
}

/// The high bits of a word as a number from -1 to 1, in units of 2^-36.
fn dividend(word: u32) -> i128
    ensures is { result ≡ (pos (word / 128) -ℤ pos (2 ^ 24)) *ℤ pos (2 ^ 12) }
    ensures bound { unsigned_abs result ≤ 2 ^ 36 }
{
    (i128::from(word / 128) - (1 << 24)) * (1 << 12)
}
