//! Half neighbour lists in compressed rows.
ghost use Rattle.std.specs.Prelude.{◌≡◌, ◌+◌, ◌^◌, ◌<◌, ◌≤◌, ℕ, pos, ◌<ℤ◌, ◌≤ℤ◌, unsigned_abs, IfOk, length, slice_index, slice_index_or};
ghost use Rattle.std.specs.List.{All};
ghost use Rattle.std.specs.List.Sorted.{IsPermutation};
ghost use Rattle.box_geo.specs.declared.atoms.Site.{Site};
ghost use Rattle.cell_bins.specs.Near.{IsSmall};
ghost use Rattle.half_list.specs.Neighbours.{neighbours};

use crate::rows::rows;
use box_geo::Sites;
use cell_bins::{Bins, MAX_REACH};
use fx_num::NoMemory;
use std::alloc::Global;

/// A half neighbour list. Contracts see its rows.
#[derive(Drop)]
pub struct List {
    // Row k goes from the k-th start to the next.
    pub(crate) starts: Vec<usize>,
    pub(crate) places: Vec<u32>,
    ghost order: { (k : ℕ) → k + 1 < length starts.items → slice_index starts.items k ≤ slice_index starts.items (k + 1) },
    ghost within: { (k : ℕ) → k < length starts.items → slice_index starts.items k ≤ length places.items },
}

impl List {
    ghost use Rattle.half_list.specs.Lists.{row_count, row_of};

    /// The list of these own sites, with a row for each: the places of those of all sites that have a
    /// greater id and are nearer than the reach, in units. Components of positions are of a
    /// magnitude of at most [`cell_bins::MAX_COORDINATE`].
    ///
    /// # Errors
    ///
    /// [`NoMemory`] where memory is refused.
    pub fn build(alloc: Global, own: &Sites, all: &Sites, reach: i64) -> Result<List, NoMemory>
        requires own_few { length own.now < 2 ^ 32 }
        requires own_small { All (λ s. IsSmall s.x) own.now }
        requires few { length all.now < 2 ^ 32 }
        requires small { All (λ s. IsSmall s.x) all.now }
        requires reach { (pos 0 <ℤ reach) × (reach ≤ℤ MAX_REACH) }
        ensures count { IfOk result (λ l. row_count l ≡ length own.now) }
        ensures rows { IfOk result (λ l. (k : ℕ) (d : Site) → k < length own.now
            → IsPermutation (neighbours (unsigned_abs reach) (slice_index_or own.now k d) all.now) (row_of l k)) }
    {
        let bins = Bins::fill(alloc, all, reach)?;
        let (starts, places) = rows(alloc, &bins, own.as_slice(), reach as u64)?;
        Ok(List { starts, places })
    }

    /// The places of the neighbours of the own site with this number in its list.
    pub fn row(&self, k: u32) -> &[u32]
        requires { k < row_count self.now }
        ensures { result.now ≡ row_of self.now k }
    {
        let start = self.starts[k as usize];
        let end = self.starts[k as usize + 1];
        &self.places[start..end]
    }
}
