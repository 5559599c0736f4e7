//! Where the atoms of a cell are.
ghost use Rattle.std.specs.Prelude.{◌≡◌};
ghost use Rattle.std.specs.List.{All};
ghost use Rattle.lattice_fill.specs.Lattice.{basis_of, AreQuarters};

use box_geo::LatticeStyle;

/// A place in a cell: so many quarters of the spacing along each axis.
#[derive(Clone, Copy, Debug, PartialEq, Eq)]
pub struct Quarters {
    pub x: u8,
    pub y: u8,
    pub z: u8,
}

const CORNER: &[Quarters] = &[Quarters { x: 0, y: 0, z: 0 }];

const CENTRED: &[Quarters] = &[Quarters { x: 0, y: 0, z: 0 }, Quarters { x: 2, y: 2, z: 2 }];

const FACES: &[Quarters] = &[
    Quarters { x: 0, y: 0, z: 0 },
    Quarters { x: 0, y: 2, z: 2 },
    Quarters { x: 2, y: 0, z: 2 },
    Quarters { x: 2, y: 2, z: 0 },
];

const FLAT: &[Quarters] = &[Quarters { x: 0, y: 0, z: 0 }, Quarters { x: 2, y: 2, z: 0 }];

const DIAMOND: &[Quarters] = &[
    Quarters { x: 0, y: 0, z: 0 },
    Quarters { x: 0, y: 2, z: 2 },
    Quarters { x: 2, y: 0, z: 2 },
    Quarters { x: 2, y: 2, z: 0 },
    Quarters { x: 1, y: 1, z: 1 },
    Quarters { x: 1, y: 3, z: 3 },
    Quarters { x: 3, y: 1, z: 3 },
    Quarters { x: 3, y: 3, z: 1 },
];

/// The basis of a style.
pub(crate) fn basis(style: LatticeStyle) -> &'static [Quarters]
    ensures is { result.now ≡ basis_of style }
    ensures within { All AreQuarters result.now }
{
    match style {
        LatticeStyle::Sc | LatticeStyle::Sq => CORNER,
        LatticeStyle::Bcc => CENTRED,
        LatticeStyle::Fcc => FACES,
        LatticeStyle::Diamond => DIAMOND,
        LatticeStyle::Sq2 | LatticeStyle::Hex => FLAT,
    }
}
