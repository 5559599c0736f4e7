//! The table of groups.
ghost use Rattle.std.specs.Prelude.{◌≡◌, ◌≤◌, ◌↔◌, false, length, IfOk, IfSome, OnErr, OnOk};
ghost use Rattle.std.specs.Option.{option_copied};
ghost use Rattle.regions_groups.specs.Groups.{added, all_alone, is_there, members, place_from, AllRise};
ghost use Rattle.box_geo.specs.Ids.{Rises};

use crate::id_sets::union_of;
use box_geo::Ids;
use box_geo::limits::MAX_GROUPS;
use fx_num::{NoMemory, Seq, Text};
use std::alloc::{AllocFailed, Global};
use std::marker::Model;
use thiserror::Error;

/// A group under its name.
#[derive(Drop)]
pub struct NamedGroup {
    /// The name.
    pub name: Text,
    /// The ids of its atoms, in strictly rising order.
    pub ids: Ids,
}

/// The groups of a script in the order of their definition, the first of them `all`. Contracts see the list
/// of names, each with the ids of its atoms.
#[derive(Drop)]
pub struct Groups {
    items: Vec<NamedGroup>,
}

/// Why a group was not taken.
#[derive(Clone, Copy, Debug, PartialEq, Eq, Error)]
pub enum GroupRefusal {
    /// There are as many groups as there may be.
    #[error("too many groups")]
    TooMany,
    /// The allocator refused.
    #[error("out of memory")]
    NoMemory,
}

impl From<NoMemory> for GroupRefusal {
    ghost use Rattle.regions_groups.specs.declared.group_table.GroupRefusal.TheVariants as refusal;

    ghost from_gives = { λ _ out. out ≡ refusal.NoMemory };

    fn from(_error: NoMemory) -> GroupRefusal {
        GroupRefusal::NoMemory
    }
}

impl<T: Drop> From<AllocFailed<T>> for GroupRefusal {
    ghost use Rattle.regions_groups.specs.declared.group_table.GroupRefusal.TheVariants as refusal;

    ghost from_gives = { λ _ out. out ≡ refusal.NoMemory };

    fn from(_error: AllocFailed<T>) -> GroupRefusal {
        GroupRefusal::NoMemory
    }
}

impl Model for Groups {
    ghost use Rattle.std.specs.Prelude.{◌≤◌, length, List};
    ghost use Rattle.box_geo.specs.declared.limits.TheConstants.{MAX_GROUPS};
    ghost use Rattle.regions_groups.specs.Groups.{AllRise};
    ghost use Rattle.regions_groups.specs.declared.group_table.NamedGroup.{NamedGroup};

    ghost Value = { List NamedGroup };

    ghost view = { λ g. g.items.items };

    ghost invariant = { λ g. AllRise g.items.items × (length g.items.items ≤ MAX_GROUPS) };
}

/// Where the group of this name stands.
fn place_of(groups: &[NamedGroup], name: &Text) -> Option<usize>
    ensures { result ≡ place_from 0 groups.now name.now }
{
    for (i, group) in groups.iter().enumerate() {
        if group.name.same(name) {
            return Some(i);
        }
    }
    None
}

impl Groups {
    /// The table with the group `all`, without ids.
    ///
    /// # Errors
    ///
    /// [`NoMemory`] where memory is refused.
    pub fn new(alloc: Global) -> Result<Groups, NoMemory>
        ensures { IfOk result (λ groups. groups ≡ all_alone) }
    {
        let name = Text::from_bytes(alloc, b"all")?;
        let mut items = Vec::new(alloc);
        items.push(NamedGroup {
            name,
            ids: Seq::new(alloc),
        })?;
        Ok(Groups { items })
    }

    /// Adds ids in strictly rising order to the group of this name, which is made where it isn't there.
    ///
    /// # Errors
    ///
    /// `TooMany` exactly where the group isn't there and as many are as there may be. `NoMemory`. The table
    /// then stays as it was.
    pub fn add(&mut self, alloc: Global, name: Text, ids: Ids) -> Result<(), GroupRefusal>
        requires { Rises ids }
        ensures added { OnOk result (self.new ≡ added self.old name ids) }
        ensures unchanged { OnErr result (self.new ≡ self.old) }
        ensures too_many { (result ≡ Err GroupRefusal.TooMany) ↔ (is_there self.old name ≡ false) × (MAX_GROUPS ≤ length self.old) }
    {
        match place_of(&self.items, &name) {
            Some(i) => {
                let united = union_of(alloc, self.items[i].ids.as_slice(), ids.as_slice())?;
                self.items[i].ids = united;
            }
            None => {
                if self.items.len() >= MAX_GROUPS as usize {
                    return Err(GroupRefusal::TooMany);
                }
                self.items.push(NamedGroup { name, ids })?;
            }
        }
        Ok(())
    }

    /// The groups, in the order of their definition.
    pub fn as_slice(&self) -> &[NamedGroup]
        ensures is { result.now ≡ self.now }
        ensures rise { AllRise self.now }
    {
        &self.items
    }

    /// Whether there is a group of this name.
    pub fn is_there(&self, name: &Text) -> bool
        ensures { result ≡ is_there self.now name.now }
    {
        self.items.iter().any(|group| group.name.same(name))
    }

    /// The ids of the group of this name, in strictly rising order; `None` exactly where there is no such
    /// group.
    pub fn members(&self, name: &Text) -> Option<&Ids>
        ensures is { option_copied result ≡ members self.now name.now }
        ensures rises { IfSome result (λ ids. Rises ids.now) }
    {
        for group in &self.items {
            if group.name.same(name) {
                return Some(&group.ids);
            }
        }
        None
    }
}
