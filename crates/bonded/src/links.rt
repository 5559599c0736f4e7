//! Which atoms are joined by bonds: a list of neighbours for each atom.
ghost use Rattle.std.specs.Prelude.{◌≡◌, ◌==◌, ◌&&◌, ◌||◌, ℕ, IfOk, OnOk};
ghost use Rattle.std.specs.List.{flat_map};
ghost use Rattle.bonded.specs.Rows.{has, neighbours, AreLinks};

use box_geo::Bond;
use fx_num::{NoMemory, Seq};
use std::alloc::Global;
use std::collections::BTreeMap;

/// The neighbours of each atom that bonds join to another, by id.
#[derive(Drop)]
pub(crate) struct Links {
    neighbours: BTreeMap<u32, Seq<u32>>,
}

impl Links {
    /// The links of some bonds, each in both directions.
    pub(crate) fn of(alloc: Global, bonds: &[Bond]) -> Result<Links, NoMemory>
        ensures { IfOk result (λ l. AreLinks bonds.now l.neighbours) }
    {
        let mut links = Links {
            neighbours: BTreeMap::new(alloc),
        };
        for bond in bonds {
            links.add(alloc, bond.a, bond.b)?;
            links.add(alloc, bond.b, bond.a)?;
        }
        Ok(links)
    }

    /// One more neighbour of an atom.
    fn add(&mut self, alloc: Global, from: u32, to: u32) -> Result<(), NoMemory>
        ensures { OnOk result ((a b : ℕ) → has b (neighbours self.new.neighbours a)
            ≡ (((from == a) && (to == b)) || has b (neighbours self.old.neighbours a))) }
    {
        if let Some(ids) = self.neighbours.get_mut(&from) {
            ids.push(to)?;
            return Ok(());
        }
        let mut ids = Seq::new(alloc);
        ids.push(to)?;
        self.neighbours.insert(from, ids)?;
        Ok(())
    }

    /// The neighbours of an atom.
    fn neighbours(&self, id: u32) -> &[u32]
        ensures { result.now ≡ neighbours self.now.neighbours id }
    {
        match self.neighbours.get(&id) {
            Some(ids) => ids.as_slice(),
            None => &[],
        }
    }

    /// Where one bond more leads from these atoms.
    pub(crate) fn next(&self, alloc: Global, ids: &[u32]) -> Result<Vec<u32>, NoMemory>
        ensures { IfOk result (λ v. v.items ≡ flat_map (neighbours self.now.neighbours) ids.now) }
    {
        let mut found = Vec::new(alloc);
        for id in ids {
            found.extend_from_slice(self.neighbours(*id))?;
        }
        Ok(found)
    }
}
