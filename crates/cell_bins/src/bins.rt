//! Bins: sites by cells.
ghost use Rattle.std.specs.Prelude.{◌≡◌, ◌+◌, ◌*◌, ◌^◌, ◌<◌, ◌≤◌, ◌==◌, ℕ, pos, ◌<ℤ◌, ◌≤ℤ◌, unsigned_abs, IfOk, length, slice_index};
ghost use Rattle.std.specs.List.{All, Contains, IsDistinct, filter};
ghost use Rattle.std.specs.List.Sorted.{IsPermutation};
ghost use Rattle.box_geo.specs.declared.atoms.Site.{Site};
ghost use Rattle.cell_bins.specs.Cells.{count_of, is_in};
ghost use Rattle.cell_bins.specs.Near.{HaveOwnPlaces, IsNear, IsSmall, Meets, MeetsPlaces};
ghost use Rattle.sums.specs.Sorting.{part};

use crate::around::{Around, CellsAround};
use crate::cells::Cells;
use crate::extent::cells_for;
use crate::limits::MAX_REACH;
use crate::sorting::sorted;
use box_geo::{Site, Sites};
use fx_num::{NoMemory, V3};
use std::alloc::Global;

/// Sites sorted by cells. Contracts see the sites, in some order, and the reach.
#[derive(Drop)]
pub struct Bins {
    pub(crate) cells: Cells,
    pub(crate) starts: Vec<u32>,
    pub(crate) sites: Vec<Site>,
    ghost long: { length starts.items ≡ count_of cells + 1 },
    ghost order: { (b : ℕ) → b < count_of cells → slice_index starts.items b ≤ slice_index starts.items (b + 1) },
    ghost within: { (b : ℕ) → b ≤ count_of cells → slice_index starts.items b ≤ length sites.items },
    ghost parts: { (b : ℕ) → b < count_of cells → part starts.items sites.items b ≡ filter (is_in cells b) sites.items },
}

impl Bins {
    ghost use Rattle.cell_bins.specs.Around.{cells_left, joined, places_left};
    ghost use Rattle.cell_bins.specs.Bins.{cells_of, reach_of, sites_of};

    /// The bins of these sites, for a reach in units. Components of positions are of a magnitude of at
    /// most [`crate::MAX_COORDINATE`].
    ///
    /// # Errors
    ///
    /// [`NoMemory`] where memory is refused.
    pub fn fill(alloc: Global, sites: &Sites, reach: i64) -> Result<Bins, NoMemory>
        requires few { length sites.now < 2 ^ 32 }
        requires small { All (λ s. IsSmall s.x) sites.now }
        requires reach { (pos 0 <ℤ reach) × (reach ≤ℤ MAX_REACH) }
        ensures sites { IfOk result (λ b. IsPermutation sites.now (sites_of b)) }
        ensures reach { IfOk result (λ b. reach_of b ≡ unsigned_abs reach) }
        ensures cells { IfOk result (λ b. count_of (cells_of b) ≤ 2 * length sites.now + 64) }
    {
        let sites = sites.as_slice();
        let cells = cells_for(sites, reach as u64);
        let (starts, sites) = sorted(alloc, &cells, sites)?;
        Ok(Bins {
            cells,
            starts,
            sites,
        })
    }

    /// The sites of the 27 cells round a position, cell by cell: every site that is nearer than the reach
    /// along each axis is met, each once, and some that are not.
    pub fn cells_around(&self, x: V3) -> CellsAround<'_>
        requires { IsSmall x }
        ensures { Meets (reach_of self.now) x (sites_of self.now) (joined (cells_left result)) }
    {
        CellsAround {
            bins: self,
            x: self.cells.before(&x[0]),
            y: self.cells.before(&x[1]),
            z: self.cells.before(&x[2]),
            next: 0,
        }
    }

    /// The places of the sites of the 27 cells round a position: every site that is nearer than the reach
    /// along each axis is met, each once, and some that are not.
    pub fn around(&self, x: V3) -> Around<'_>
        requires { IsSmall x }
        ensures met { MeetsPlaces (reach_of self.now) x (sites_of self.now) (places_left result) }
        ensures each { (s : Site) → Contains (sites_of self.now) s → IsNear (reach_of self.now) x s.x → Contains (places_left result) s.place }
        ensures once { HaveOwnPlaces (sites_of self.now) → IsDistinct (λ a b. a == b) (places_left result) }
    {
        Around {
            cell: &[],
            cells: self.cells_around(x),
        }
    }

    /// The sites of the cells with a number.
    pub(crate) fn cell(&self, number: usize) -> &[Site]
        requires { number < count_of self.now.cells }
        ensures { result.now ≡ filter (is_in self.now.cells number) (sites_of self.now) }
    {
        let start = self.starts[number] as usize;
        let end = self.starts[number + 1] as usize;
        &self.sites[start..end]
    }
}
