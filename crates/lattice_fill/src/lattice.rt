//! A lattice: its style and its spacings.
ghost use Rattle.std.specs.Prelude.{◌≡◌, ◌^◌, ◌≤◌, pos, ◌≤ℤ◌, unsigned_abs};
ghost use Rattle.lattice_fill.specs.Lattice.{dim_of, spacing_of, lengths, IsFair};

use crate::spacing::{Spacing, cubic, hexagonal, square};
use box_geo::LatticeStyle;
use fx_num::V3;

/// A lattice that has one of its points at the origin.
#[derive(Clone, Copy, Debug)]
pub struct Lattice {
    /// The style.
    pub style: LatticeStyle,
    /// The length of a cell along each axis.
    pub spacings: Spacing,
    pub ghost fair: { IsFair spacings },
}

impl Lattice {
    /// The lattice of a style of this dimension, with a number density in units.
    pub fn new(style: LatticeStyle, rho: i64, _dim: u8) -> Lattice
        requires density { (pos (2 ^ 10) ≤ℤ rho) × (rho ≤ℤ pos (2 ^ 30)) }
        requires dimension { _dim ≡ dim_of style }
        ensures style { result.style ≡ style }
        ensures spacing { result.spacings ≡ spacing_of style (unsigned_abs rho) }
    {
        Lattice {
            style,
            spacings: spacing_of(style, rho as u128),
        }
    }

    /// The length of a cell along each axis, in units.
    pub fn spacing(&self) -> V3
        ensures { result ≡ lengths self.now.spacings }
    {
        let Spacing { x, y, z } = self.spacings;
        [x as i64, y as i64, z as i64]
    }
}

/// The spacing of a style at a density in units.
#[tactic(auto, unfolding(crate::specs::Lattice::spacing_of))]
fn spacing_of(style: LatticeStyle, density: u128) -> Spacing
    requires density { (2 ^ 10 ≤ density) × (density ≤ 2 ^ 30) }
    ensures is { result ≡ spacing_of style density }
    ensures fair { IsFair result }
{
    match style {
        LatticeStyle::Sc => cubic(1, density),
        LatticeStyle::Bcc => cubic(2, density),
        LatticeStyle::Fcc => cubic(4, density),
        LatticeStyle::Diamond => cubic(8, density),
        LatticeStyle::Sq => square(1, density),
        LatticeStyle::Sq2 => square(2, density),
        LatticeStyle::Hex => hexagonal(density),
    }
}
