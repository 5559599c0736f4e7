//! A side of the box, within the limits.

use box_geo::Extent;
use std::marker::Model;

/// An axis of the box whose bounds and edge are within the limits. Contracts see the extent.
#[derive(Drop)]
pub(crate) struct Side {
    extent: Extent,
}

impl Model for Side {
    ghost use Rattle.box_geo.specs.declared.sim_box.Extent.{Extent};
    ghost use Rattle.box_geo.specs.Sides.{IsSoundExtent};

    ghost Value = { Extent };

    ghost view = { λ s. s.extent };

    ghost invariant = { λ s. IsSoundExtent s.extent };
}

impl Side {
    ghost use Rattle.std.specs.Prelude.{◌≡◌};
    ghost use Rattle.box_geo.specs.Sides.{IsSoundExtent};

    /// A side of an extent within the limits.
    pub(crate) fn of(extent: Extent) -> Side
        requires { IsSoundExtent extent }
        ensures { result ≡ extent }
    {
        Side { extent }
    }

    /// Its extent.
    pub(crate) fn extent(&self) -> Extent
        ensures is { result ≡ self.now }
        ensures sound { IsSoundExtent result }
    {
        self.extent
    }
}

/// A number of dimensions: two or three. Contracts see the number.
#[derive(Drop)]
pub(crate) struct Dim {
    number: u8,
}

impl Model for Dim {
    ghost use Rattle.std.specs.Prelude.{◌≤◌, ℕ};

    ghost Value = { ℕ };

    ghost view = { λ d. d.number };

    ghost invariant = { λ d. (2 ≤ d.number) × (d.number ≤ 3) };
}

impl Dim {
    ghost use Rattle.std.specs.Prelude.{◌≡◌, ◌≤◌};

    /// So many dimensions.
    pub(crate) fn of(number: u8) -> Dim
        requires { (2 ≤ number) × (number ≤ 3) }
        ensures { result ≡ number }
    {
        Dim { number }
    }

    /// How many there are.
    pub(crate) fn number(&self) -> u8
        ensures is { result ≡ self.now }
        ensures range { (2 ≤ result) × (result ≤ 3) }
    {
        self.number
    }
}
