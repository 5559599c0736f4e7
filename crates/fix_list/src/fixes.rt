//! A fix, and the list of a run's fixes under their names.
ghost use Rattle.std.specs.Prelude.{◌≡◌, ◌≤◌, ◌↔◌, ◌++◌, [], ◌∷◌, ℕ, true, false, IfSome, IsSomeAnd, IsOkAnd, OnOk, OnErr};
ghost use Rattle.box_geo.specs.Ids.{Rises};
ghost use Rattle.fix_list.specs.Fixes.{fix_moves, has_name, moves, movers, without, ids_of, AllRise};
ghost use Rattle.fix_list.specs.Least.{least_among};

use box_geo::Ids;
use fx_num::{NoMemory, Text};
use std::alloc::{AllocFailed, Global};
use std::marker::Model;
use thiserror::Error;

/// What a fix does. Fixes on forces (setforce, addforce, enforce2d, external) and averages become
/// further variants here.
#[derive(Drop)]
pub enum Fix {
    /// `nve`: time integration at constant energy of the atoms with these ids.
    Nve(Ids),
}

/// A fix under its name, the fix ID of a script.
#[derive(Drop)]
pub struct NamedFix {
    /// The name.
    pub name: Text,
    /// What the fix does.
    pub fix: Fix,
}

/// The fixes of a run, in the order in which they were defined. Contracts see the list.
#[derive(Drop)]
pub struct FixList {
    items: Vec<NamedFix>,
}

/// Why a fix was not taken.
#[derive(Clone, Copy, Debug, PartialEq, Eq, Error)]
pub enum FixRefusal {
    /// A fix has the name.
    #[error("a fix has this name")]
    NameExists,
    /// The allocator refused.
    #[error("out of memory")]
    NoMemory,
}

impl<T: Drop> From<AllocFailed<T>> for FixRefusal {
    ghost use Rattle.fix_list.specs.declared.fixes.FixRefusal.TheVariants as refusal;

    ghost from_gives = { λ _ out. out ≡ refusal.NoMemory };

    fn from(_error: AllocFailed<T>) -> FixRefusal {
        FixRefusal::NoMemory
    }
}

impl Model for FixList {
    ghost use Rattle.std.specs.Prelude.{List};
    ghost use Rattle.fix_list.specs.Fixes.{AllRise};
    ghost use Rattle.fix_list.specs.declared.fixes.NamedFix.{NamedFix};

    ghost Value = { List NamedFix };

    ghost view = { λ l. l.items.items };

    ghost invariant = { λ l. AllRise l.items.items };
}

impl Fix {
    /// Whether the fix, whose ids are in strictly rising order, moves the atom of this id.
    pub fn moves(&self, id: u32) -> bool
        requires { Rises (ids_of self.now) }
        ensures { result ≡ fix_moves self.now id }
    {
        self.ids().binary_search(&id).is_ok()
    }

    /// The ids of the atoms that the fix moves.
    fn ids(&self) -> &[u32]
        ensures { result.now ≡ ids_of self.now }
    {
        match self {
            Fix::Nve(ids) => ids.as_slice(),
        }
    }
}

impl FixList {
    /// The list without fixes.
    pub fn new(alloc: Global) -> Result<FixList, NoMemory>
        ensures { IsOkAnd result (λ list. list ≡ []) }
    {
        Ok(FixList {
            items: Vec::new(alloc),
        })
    }

    /// The list of these fixes, the ids of each in strictly rising order.
    pub fn from_vec(items: Vec<NamedFix>) -> FixList
        requires { AllRise items.items }
        ensures { result ≡ items.items }
    {
        FixList { items }
    }

    /// Appends a fix, whose ids are in strictly rising order. It is refused with `NameExists` exactly
    /// where a fix has the name. A refusal leaves the list as it was.
    pub fn put(&mut self, name: Text, fix: Fix) -> Result<(), FixRefusal>
        requires { Rises (ids_of fix) }
        ensures appended { OnOk result (self.new ≡ self.old ++ record { name = name; fix = fix } ∷ []) }
        ensures unchanged { OnErr result (self.new ≡ self.old) }
        ensures name_exists { (result ≡ Err FixRefusal.NameExists) ↔ (has_name self.old name ≡ true) }
    {
        if self.has_name(&name) {
            return Err(FixRefusal::NameExists);
        }
        self.items.push(NamedFix { name, fix })?;
        Ok(())
    }

    /// Removes the fix of this name, and tells whether there was one. The others stay in order.
    pub fn remove(&mut self, name: &Text) -> bool
        ensures was_there { result ≡ has_name self.old name.now }
        ensures others { self.new ≡ without self.old name.now }
        ensures unchanged { result ≡ false → self.new ≡ self.old }
    {
        let was_there = self.has_name(name);
        self.items.retain(|named| !named.name.same(name));
        was_there
    }

    /// Whether a fix moves the atom of this id, by a binary search in each.
    pub fn moves(&self, id: u32) -> bool
        ensures { result ≡ moves self.now id }
    {
        for named in &self.items {
            if named.fix.moves(id) {
                return true;
            }
        }
        false
    }

    /// The least id that two fixes move, where there is one. For n ids in k fixes the time grows as
    /// n k log n; with fewer than two fixes it is constant.
    pub fn moved_twice(&self) -> Option<u32>
        ensures twice { IfSome result (λ id. 2 ≤ movers self.now id) }
        ensures least { (id : ℕ) → 2 ≤ movers self.now id → IsSomeAnd result (λ least. least ≤ id) }
    {
        if self.items.len() < 2 {
            return None;
        }
        let mut least = None;
        for named in &self.items {
            least = self.least_among(named.fix.ids(), least);
        }
        least
    }

    /// The least of `least` and those of `ids` that two fixes move.
    fn least_among(&self, ids: &[u32], least: Option<u32>) -> Option<u32>
        ensures { result ≡ least_among self.now ids.now least }
    {
        let mut least = least;
        for id in ids {
            if self.movers(*id) >= 2 {
                least = Some(least.unwrap_or(*id).min(*id));
            }
        }
        least
    }

    /// How many fixes move the atom of this id.
    fn movers(&self, id: u32) -> usize
        ensures { result ≡ movers self.now id }
    {
        let mut count = 0;
        for named in &self.items {
            if named.fix.moves(id) {
                count += 1;
            }
        }
        count
    }

    /// Whether a fix has this name.
    fn has_name(&self, name: &Text) -> bool
        ensures { result ≡ has_name self.now name.now }
    {
        for named in &self.items {
            if named.name.same(name) {
                return true;
            }
        }
        false
    }
}
