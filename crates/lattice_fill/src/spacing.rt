//! The spacings of a lattice, from its number density.
ghost use Rattle.std.specs.Prelude.{◌≡◌, ◌*◌, ◌^◌, ◌<◌, ◌≤◌};
ghost use Rattle.fx_num.specs.Rounding.{nearest_of};
ghost use Rattle.fx_num.specs.Roots.{cbrt_of, sqrt_of};
ghost use Rattle.lattice_fill.specs.Lattice.{cubic, square, hexagonal, even, IsFair, IsFairAlong};

use fx_num::{nearest, rcbrt, rsqrt};

/// The length of a cell of a lattice along each axis, in units.
#[derive(Clone, Copy, Debug, PartialEq, Eq)]
pub struct Spacing {
    pub x: u64,
    pub y: u64,
    pub z: u64,
}

/// The spacing of a cubic lattice of so many atoms a cell, at a density in units.
pub(crate) fn cubic(atoms: u128, density: u128) -> Spacing
    requires atoms { (1 ≤ atoms) × (atoms ≤ 8) }
    requires density { (2 ^ 10 ≤ density) × (density ≤ 2 ^ 30) }
    ensures is { result ≡ cubic atoms density }
    ensures fair { IsFair result }
{
    even(cubic_edge(cell_volume(atoms, density)))
}

/// The spacing of a square lattice of so many atoms a cell, at a density in units.
pub(crate) fn square(atoms: u128, density: u128) -> Spacing
    requires atoms { (1 ≤ atoms) × (atoms ≤ 2) }
    requires density { (2 ^ 10 ≤ density) × (density ≤ 2 ^ 30) }
    ensures is { result ≡ square atoms density }
    ensures fair { IsFair result }
{
    even(square_edge(cell_area(atoms, density)))
}

/// The spacing of a hexagonal lattice at a density in units.
pub(crate) fn hexagonal(density: u128) -> Spacing
    requires density { (2 ^ 10 ≤ density) × (density ≤ 2 ^ 30) }
    ensures is { result ≡ hexagonal density }
    ensures fair { IsFair result }
{
    let a = square_edge(square_of_edge(density));
    Spacing {
        x: a,
        y: hexagonal_height(a),
        z: a,
    }
}

/// The same spacing along all axes.
fn even(a: u64) -> Spacing
    ensures { result ≡ even a }
{
    Spacing { x: a, y: a, z: a }
}

/// The volume of a cell, in multiples of 2^-72.
#[tactic(auto, using(crate::proofs::SpacingLemmas::nearest_between))]
fn cell_volume(atoms: u128, density: u128) -> u128
    requires atoms { (1 ≤ atoms) × (atoms ≤ 8) }
    requires density { (2 ^ 10 ≤ density) × (density ≤ 2 ^ 30) }
    ensures is { result ≡ nearest_of (atoms * 2 ^ 96) density }
    ensures bounds { (2 ^ 66 ≤ result) × (result ≤ 2 ^ 89) }
{
    nearest(atoms * (1 << 96), density)
}

/// The area of a cell, in multiples of 2^-48.
fn cell_area(atoms: u128, density: u128) -> u128
    requires atoms { (1 ≤ atoms) × (atoms ≤ 2) }
    requires density { (2 ^ 10 ≤ density) × (density ≤ 2 ^ 30) }
    ensures is { result ≡ nearest_of (atoms * 2 ^ 72) density }
    ensures bounds { (2 ^ 42 ≤ result) × (result ≤ 2 ^ 64) }
{
    nearest(atoms * (1 << 72), density)
}

/// The square of the edge along x of a hexagonal cell, in multiples of 2^-48.
fn square_of_edge(density: u128) -> u128
    requires density { (2 ^ 10 ≤ density) × (density ≤ 2 ^ 30) }
    ensures is { result ≡ nearest_of (2 * 2 ^ 96) (sqrt_of (3 * 2 ^ 48) * density) }
    ensures bounds { (2 ^ 42 ≤ result) × (result ≤ 2 ^ 64) }
{
    nearest(2 * (1 << 96), root_of_three() * density)
}

/// The square root of 3, in units.
fn root_of_three() -> u128
    ensures is { result ≡ sqrt_of (3 * 2 ^ 48) }
    ensures bounds { (2 ^ 24 ≤ result) × (result ≤ 2 ^ 25) }
{
    u128::from(rsqrt(3 * (1 << 48)))
}

/// The edge of a cube of this volume.
fn cubic_edge(volume: u128) -> u64
    requires { (2 ^ 66 ≤ volume) × (volume ≤ 2 ^ 89) }
    ensures is { result ≡ cbrt_of volume }
    ensures fair { IsFairAlong result }
{
    rcbrt(volume)
}

/// The edge of a square of this area.
fn square_edge(area: u128) -> u64
    requires { (2 ^ 42 ≤ area) × (area ≤ 2 ^ 64) }
    ensures is { result ≡ sqrt_of area }
    ensures bounds { (2 ^ 20 ≤ result) × (result ≤ 2 ^ 32) }
{
    rsqrt(area)
}

/// The edge along y of a hexagonal cell, by that along x.
fn hexagonal_height(a: u64) -> u64
    requires { (2 ^ 20 ≤ a) × (a ≤ 2 ^ 32) }
    ensures is { result ≡ sqrt_of (3 * (a * a)) }
    ensures fair { IsFairAlong result }
{
    let a = u128::from(a);
    rsqrt(3 * (a * a))
}
