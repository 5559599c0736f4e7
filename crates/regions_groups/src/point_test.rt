//! Whether points are in a region.
ghost use Rattle.std.specs.Prelude.{◌≡◌, reverse, true, IfOk};
ghost use Rattle.regions_groups.specs.Kept.{latest_first, ArePlaced};
ghost use Rattle.regions_groups.specs.Regions.{holds, is_there};

use crate::kept_regions::{Kept, answer, place_of};
use fx_num::{NoMemory, Text, V3};
use std::alloc::Global;
use std::marker::Model;

/// A test of points against one region of a table. It is made once, and then takes no memory. Contracts
/// see what it asks: of which regions, by which name.
#[derive(Drop)]
pub struct RegionTest<'a> {
    kept: &'a [Kept],
    name: &'a Text,
    place: usize,
    answers: Vec<bool>,
}

impl<'a> Model for RegionTest<'a> {
    ghost use Rattle.std.specs.Prelude.{◌≡◌, length, reverse, Some};
    ghost use Rattle.regions_groups.specs.Kept.{latest_first, place_in, ArePlaced};
    ghost use Rattle.regions_groups.specs.Regions.{Question};

    ghost Value = { Question };

    ghost view = { λ t. record { regions = latest_first t.kept.now; name = t.name.now } };

    ghost invariant = { λ t.
        ArePlaced (reverse t.kept.now)
        × (place_in (latest_first t.kept.now) t.name.now ≡ Some t.place)
        × (length t.answers.items ≡ length t.kept.now) };
}

impl<'a> RegionTest<'a> {
    /// A test of points against the region of a name among those that are kept.
    pub(crate) fn new(
        alloc: Global,
        kept: &'a [Kept],
        name: &'a Text,
    ) -> Result<RegionTest<'a>, NoMemory>
        requires there { is_there (latest_first kept.now) name.now ≡ true }
        requires placed { ArePlaced (reverse kept.now) }
        ensures { IfOk result (λ test. test ≡ record { regions = latest_first kept.now; name = name.now }) }
    {
        let answers = vec![in alloc; false; kept.len()]?;
        Ok(RegionTest {
            kept,
            name,
            place: place_of(kept, name).unwrap_or(0),
            answers,
        })
    }

    /// Whether the region holds a point. The time is that of going once through the parts of all regions of
    /// the table, however deep they are made of one another.
    pub fn holds(&mut self, x: &V3) -> bool
        ensures is { result ≡ holds self.old.regions self.old.name x.now }
        ensures same { self.new ≡ self.old }
    {
        answer(self.kept, &mut self.answers, self.place, x)
    }
}
