//! Special weights: for each atom that bonds join to another, a row of the weights of the atoms that
//! are at most three bonds away.
ghost use Rattle.std.specs.Prelude.{◌≡◌, ◌==◌, ◌||◌, ℕ, cond, Some, is_some, IfOk, OnOk};
ghost use Rattle.std.specs.BTreeMap.{get};
ghost use Rattle.std.specs.Ordering.{nat_cmp};
ghost use Rattle.bonded.specs.Rows.{has, weight_of, AreRows, HasWeights, IsRow};

use crate::links::Links;
use box_geo::limits::FULL_WEIGHT;
use box_geo::{Atoms, Bonds};
use fx_num::NoMemory;
use std::alloc::Global;
use std::collections::BTreeMap;

/// The weight of atoms that no path of one, two or three bonds joins.
const WHOLE: u32 = FULL_WEIGHT as u32;

/// The weights of the atoms near one atom, by id.
type Row = BTreeMap<u32, u32>;

/// The special weights of a system: a row for each atom that bonds join to another. Contracts see the
/// weight of each two ids, by `weight_of`.
#[derive(Drop)]
pub struct Specials {
    rows: BTreeMap<u32, Row>,
}

impl Specials {
    /// The special weights of the atoms that these bonds join. `weights` are those of two atoms one,
    /// two and three bonds apart, in units from 0 to [`FULL_WEIGHT`]. Only the bonds tell who is
    /// near, so atoms without bonds take no room.
    ///
    /// # Errors
    ///
    /// [`NoMemory`] where memory is refused.
    pub fn build(
        alloc: Global,
        _atoms: &Atoms,
        bonds: &Bonds,
        weights: [u32; 3],
    ) -> Result<Specials, NoMemory>
        ensures { IfOk result (HasWeights bonds.now weights) }
    {
        let bonds = bonds.as_slice();
        let links = Links::of(alloc, bonds)?;
        let mut rows = BTreeMap::new(alloc);
        for bond in bonds {
            put_row(alloc, &mut rows, &links, &weights, bond.a)?;
            put_row(alloc, &mut rows, &links, &weights, bond.b)?;
        }
        Ok(Specials { rows })
    }

    /// The special weight of two atoms, by their ids, in units: that of the shortest path of bonds
    /// between them, [`FULL_WEIGHT`] where it has none or more than three, or where there is no path.
    pub fn weight(&self, a: u32, b: u32) -> u32
        ensures { result ≡ weight_of self.now a b }
    {
        match self.rows.get(&b) {
            Some(row) => row.get(&a).copied().unwrap_or(WHOLE),
            None => WHOLE,
        }
    }
}

/// Makes the row of an atom, where it is not there yet.
fn put_row(
    alloc: Global,
    rows: &mut BTreeMap<u32, Row>,
    links: &Links,
    weights: &[u32; 3],
    id: u32,
) -> Result<(), NoMemory>
    requires { AreRows links.now.neighbours weights.now rows.old }
    ensures rows { OnOk result (AreRows links.now.neighbours weights.now rows.new) }
    ensures ids { OnOk result ((other : ℕ) → is_some (get nat_cmp rows.new other)
        ≡ ((id == other) || is_some (get nat_cmp rows.old other))) }
{
    if rows.contains_key(&id) {
        return Ok(());
    }
    let row = row_of(alloc, links, weights, id)?;
    rows.insert(id, row)?;
    Ok(())
}

/// The row of an atom: what is further away first, so that what is nearer replaces it.
fn row_of(alloc: Global, links: &Links, weights: &[u32; 3], id: u32) -> Result<Row, NoMemory>
    ensures { IfOk result (IsRow links.now.neighbours weights.now id) }
{
    let one = links.next(alloc, &[id])?;
    let two = links.next(alloc, &one)?;
    let three = links.next(alloc, &two)?;
    let mut row = BTreeMap::new(alloc);
    put_all(&mut row, &three, weights[2])?;
    put_all(&mut row, &two, weights[1])?;
    put_all(&mut row, &one, weights[0])?;
    put_all(&mut row, &[id], WHOLE)?;
    Ok(row)
}

/// Gives each of these atoms a weight.
fn put_all(row: &mut Row, ids: &[u32], weight: u32) -> Result<(), NoMemory>
    ensures { OnOk result ((other : ℕ) → get nat_cmp row.new other
        ≡ cond (has other ids.now) (Some weight) (get nat_cmp row.old other)) }
{
    for id in ids {
        row.insert(*id, weight)?;
    }
    Ok(())
}
