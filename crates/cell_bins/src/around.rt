//! The walk through the cells round a position.
ghost use Rattle.std.specs.Prelude.{◌^◌, ◌≤◌};
ghost use Rattle.std.specs.Iterator.{YieldsFirst, YieldsFirstRef, item_count};

use crate::bins::Bins;
use box_geo::Site;

/// The sites of the cells round a position, cell by cell.
#[derive(Drop)]
pub struct CellsAround<'a> {
    pub(crate) bins: &'a Bins,
    // The cells before the position's along x, y and z.
    pub(crate) x: u64,
    pub(crate) y: u64,
    pub(crate) z: u64,
    // How many of the 27 cells have been passed.
    pub(crate) next: u64,
    ghost near: { (x ≤ 2 ^ 37) × (y ≤ 2 ^ 37) × (z ≤ 2 ^ 37) },
    ghost few: { next ≤ 27 },
}

/// The places of the sites of the cells round a position.
#[derive(Drop)]
pub struct Around<'a> {
    // The sites that are left of the present cell, and the cells after it.
    pub(crate) cell: &'a [Site],
    pub(crate) cells: CellsAround<'a>,
}

impl<'a> Iterator for CellsAround<'a> {
    ghost use Rattle.cell_bins.specs.Around.{cells_left};

    type Item = &'a [Site];

    ghost next_gives = { YieldsFirstRef cells_left };

    ghost remaining = { item_count cells_left };

    fn next(&mut self) -> Option<&'a [Site]> {
        if self.next == 27 {
            return None;
        }
        let k = self.next;
        let bins = self.bins;
        let number = bins
            .cells
            .number(self.x + k % 3, self.y + k / 3 % 3, self.z + k / 9);
        self.next = k + 1;
        Some(bins.cell(number))
    }
}

impl<'a> Iterator for Around<'a> {
    ghost use Rattle.cell_bins.specs.Around.{places_left};

    type Item = u32;

    ghost next_gives = { YieldsFirst places_left };

    ghost remaining = { item_count places_left };

    fn next(&mut self) -> Option<u32> {
        loop {
            match self.cell.split_first() {
                Some((first, rest)) => {
                    self.cell = rest;
                    return Some(first.place);
                }
                None => match self.cells.next() {
                    Some(cell) => self.cell = cell,
                    None => return None,
                },
            }
        }
    }
}
