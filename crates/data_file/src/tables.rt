//! Tables of what was read, by ids or types. A call takes time of the order of the logarithm of the size.
ghost use Rattle.std.specs.Prelude.{◌≡◌, is_some, length, map, unwrap_or, [], IfOk, OnOk};
ghost use Rattle.data_file.specs.Tables.{add, is_met, put, under, with_velocity};

use box_geo::{Atom, Atoms};
use fx_num::{NoMemory, V3};
use std::alloc::Global;
use std::collections::{BTreeMap, BTreeSet};
use std::marker::Model;

/// Ids or types that were met. Contracts see them in strictly rising order.
#[derive(Drop)]
pub(crate) struct Keys {
    keys: BTreeSet<u32>,
}

impl Model for Keys {
    ghost use Rattle.std.specs.Prelude.{List, ℕ};

    ghost Value = { List ℕ };

    ghost view = { λ k. k.keys.keys };
}

impl Keys {
    /// None.
    pub(crate) fn new(alloc: Global) -> Keys
        ensures { result ≡ [] }
    {
        Keys {
            keys: BTreeSet::new(alloc),
        }
    }

    /// How many there are.
    pub(crate) fn len(&self) -> usize
        ensures { result ≡ length self.now }
    {
        self.keys.len()
    }

    /// Whether a key is among them.
    pub(crate) fn has(&self, key: u32) -> bool
        ensures { result ≡ is_met key self.now }
    {
        self.keys.contains(&key)
    }

    /// Adds a key.
    ///
    /// # Errors
    ///
    /// `NoMemory` where the allocator refuses.
    pub(crate) fn add(&mut self, key: u32) -> Result<(), NoMemory>
        ensures { OnOk result (self.new ≡ add self.old key) }
    {
        self.keys.insert(key)?;
        Ok(())
    }
}

/// A value for each of some ids. Contracts see the pairs, in strictly rising order of id.
#[derive(Drop)]
pub(crate) struct ById<T: Copy> {
    values: BTreeMap<u32, T>,
}

impl<T: Copy> Model for ById<T> {
    ghost use Rattle.std.specs.Prelude.{List, ℕ};

    ghost Value = { List (ℕ × T) };

    ghost view = { λ b. b.values.entries };
}

impl<T: Copy> ById<T> {
    /// No values.
    pub(crate) fn new(alloc: Global) -> ById<T>
        ensures { result ≡ [] }
    {
        ById {
            values: BTreeMap::new(alloc),
        }
    }

    /// The value of an id, if it has one.
    pub(crate) fn get(&self, id: u32) -> Option<T>
        ensures { result ≡ under id self.now }
    {
        self.values.get(&id).copied()
    }

    /// Whether an id has a value.
    pub(crate) fn has(&self, id: u32) -> bool
        ensures { result ≡ is_some (under id self.now) }
    {
        self.values.contains_key(&id)
    }

    /// Gives an id its value.
    ///
    /// # Errors
    ///
    /// `NoMemory` where the allocator refuses.
    pub(crate) fn put(&mut self, id: u32, value: T) -> Result<(), NoMemory>
        ensures { OnOk result (self.new ≡ put self.old id value) }
    {
        self.values.insert(id, value)?;
        Ok(())
    }
}

/// An atom with the velocity of its id, 0 without one.
fn with_velocity(atom: &Atom, id: u32, velocities: &ById<V3>) -> Atom
    ensures { result ≡ with_velocity velocities.now (id, atom.now) }
{
    let Atom {
        mol,
        kind,
        x,
        f,
        image,
        ..
    } = *atom;
    let v = velocities.get(id).unwrap_or([0; 3]);
    Atom {
        id: atom.id,
        mol,
        kind,
        x,
        v,
        f,
        image,
    }
}

impl ById<Atom> {
    /// The atoms in rising order of id, each with the velocity of its id, 0 without one.
    ///
    /// # Errors
    ///
    /// `NoMemory` where the allocator refuses.
    pub(crate) fn atoms(&self, alloc: Global, velocities: &ById<V3>) -> Result<Atoms, NoMemory>
        ensures { IfOk result (λ atoms. atoms ≡ map (with_velocity velocities.now) self.now) }
    {
        let mut atoms = Atoms::new(alloc);
        for (id, atom) in &self.values {
            atoms.push(with_velocity(atom, *id, velocities))?;
        }
        Ok(atoms)
    }
}
