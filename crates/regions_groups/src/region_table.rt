//! The table of regions.
ghost use Rattle.std.specs.Prelude.{◌≡◌, ◌∷◌, [], None, true, IfErr, IfOk, IsOkAnd, OnErr, OnOk};
ghost use Rattle.regions_groups.specs.Regions.{add_fault, block_of, is_there, IsRefusal};

use crate::kept_regions::{Kept, block_of, is_there, places_of};
use crate::point_test::RegionTest;
use crate::shapes::{ClosedBlock, Region};
use fx_num::{NoMemory, Seq, Text};
use std::alloc::Global;
use std::marker::Model;

/// Why a region was not taken.
#[derive(Drop)]
pub enum RegionRefusal {
    /// No region has this name, which the region is made of.
    UnknownRegion(Text),
    /// A region has the name.
    NameExists,
    /// The allocator refused.
    NoMemory,
}

/// The regions of a script. Contracts see the list of them under their names, the latest first.
#[derive(Drop)]
pub struct Regions {
    items: Seq<Kept>,
}

impl From<NoMemory> for RegionRefusal {
    ghost use Rattle.regions_groups.specs.declared.region_table.RegionRefusal.TheVariants as refusal;

    ghost from_gives = { λ _ out. out ≡ refusal.NoMemory };

    fn from(_error: NoMemory) -> RegionRefusal {
        RegionRefusal::NoMemory
    }
}

impl Model for Regions {
    ghost use Rattle.std.specs.Prelude.{List, reverse};
    ghost use Rattle.regions_groups.specs.Kept.{latest_first, ArePlaced};
    ghost use Rattle.regions_groups.specs.Regions.{NamedRegion};

    ghost Value = { List NamedRegion };

    ghost view = { λ r. latest_first r.items };

    ghost invariant = { λ r. ArePlaced (reverse r.items) };
}

impl Regions {
    /// The table without regions.
    ///
    /// # Errors
    ///
    /// None today: an empty table takes no memory.
    pub fn new(alloc: Global) -> Result<Regions, NoMemory>
        ensures { IsOkAnd result (λ regions. regions ≡ []) }
    {
        Ok(Regions {
            items: Seq::new(alloc),
        })
    }

    /// Defines a region, which may be made of regions that are there.
    ///
    /// # Errors
    ///
    /// `UnknownRegion` with the first name of a region that it is made of and that is not there. Where all
    /// are there, `NameExists` where its own name is. `NoMemory`. The table then stays as it was.
    pub fn add(&mut self, alloc: Global, name: Text, region: Region) -> Result<(), RegionRefusal>
        ensures added { OnOk result (self.new ≡ record { name = name; region = region } ∷ self.old) }
        ensures sound { OnOk result (add_fault self.old name region ≡ None) }
        ensures refused { IfErr result (λ why. IsRefusal why (add_fault self.old name region)) }
        ensures unchanged { OnErr result (self.new ≡ self.old) }
    {
        let places = places_of(alloc, self.items.as_slice(), region.names())?;
        if self.is_there(&name) {
            return Err(RegionRefusal::NameExists);
        }
        self.items.push(Kept {
            name,
            region,
            places,
        })?;
        Ok(())
    }

    /// Whether a region has this name.
    pub fn is_there(&self, name: &Text) -> bool
        ensures { result ≡ is_there self.now name.now }
    {
        is_there(self.items.as_slice(), name)
    }

    /// The block of this name, what `create_box` makes a box of: there is one exactly where the region is
    /// the inside of a block with no open side. Its sides may be reversed.
    pub fn block_of(&self, name: &Text) -> Option<ClosedBlock>
        ensures { result ≡ block_of self.now name.now }
    {
        block_of(self.items.as_slice(), name)
    }

    /// A test of points against the region of this name.
    ///
    /// # Errors
    ///
    /// [`NoMemory`] where memory is refused.
    pub fn test<'a>(&'a self, alloc: Global, name: &'a Text) -> Result<RegionTest<'a>, NoMemory>
        requires { is_there self.now name.now ≡ true }
        ensures { IfOk result (λ test. test ≡ record { regions = self.now; name = name.now }) }
    {
        RegionTest::new(alloc, self.items.as_slice(), name)
    }
}
