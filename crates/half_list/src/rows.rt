//! Rows of neighbours, appended one after another.
ghost use Rattle.std.specs.Prelude.{◌≡◌, ◌^◌, ◌≤◌, ◌++◌, IfOk, OnOk, length, unsigned_abs};
ghost use Rattle.std.specs.List.{All};
ghost use Rattle.cell_bins.specs.Bins.{reach_of, sites_of};
ghost use Rattle.cell_bins.specs.Near.{IsSmall};
ghost use Rattle.half_list.specs.Neighbours.{neighbours};
ghost use Rattle.half_list.specs.Rows.{AppendsRow, HasRows};

use crate::near::is_listed;
use box_geo::Site;
use cell_bins::{Bins, MAX_REACH};
use fx_num::NoMemory;
use std::alloc::Global;

/// Appends the places of the neighbours among the sites of a cell.
fn push_cell(places: &mut Vec<u32>, own: &Site, cell: &[Site], reach: u64) -> Result<(), NoMemory>
    requires { reach ≤ unsigned_abs MAX_REACH }
    ensures { OnOk result (places.new.items ≡ places.old.items ++ neighbours reach own.now cell.now) }
{
    for site in cell {
        if is_listed(own, site, reach) {
            places.push(site.place)?;
        }
    }
    Ok(())
}

/// Appends the places of the neighbours of a site.
pub(crate) fn push_row(
    places: &mut Vec<u32>,
    bins: &Bins,
    own: &Site,
    reach: u64,
) -> Result<(), NoMemory>
    requires few { reach ≤ unsigned_abs MAX_REACH }
    requires reach { reach_of bins.now ≡ reach }
    requires small { IsSmall own.now.x }
    ensures { OnOk result (AppendsRow reach own.now (sites_of bins.now) places.old.items places.new.items) }
{
    for cell in bins.cells_around(own.x) {
        push_cell(places, own, cell, reach)?;
    }
    Ok(())
}

/// The rows of the own sites, one after another, and where each starts and the last ends.
pub(crate) fn rows(
    alloc: Global,
    bins: &Bins,
    own: &[Site],
    reach: u64,
) -> Result<(Vec<usize>, Vec<u32>), NoMemory>
    requires few { reach ≤ unsigned_abs MAX_REACH }
    requires reach { reach_of bins.now ≡ reach }
    requires small { All (λ s. IsSmall s.x) own.now }
    ensures { IfOk result (λ r. HasRows reach own.now (sites_of bins.now) (length own.now) r.0.items r.1.items) }
{
    let mut starts: Vec<usize> = Vec::new(alloc);
    let mut places: Vec<u32> = Vec::new(alloc);
    starts.push(0)?;
    for site in own {
        push_row(&mut places, bins, site, reach)?;
        starts.push(places.len())?;
    }
    Ok((starts, places))
}
