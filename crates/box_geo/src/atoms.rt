//! Atoms, what binds them, and the lists that systems are made of.

ghost use Rattle.std.specs.Prelude.{◌≡◌, IfOk};

use crate::sim_box::SimBox;
use fx_num::{NoMemory, Seq, V3};
use std::alloc::Global;

/// An atom. Lengths, velocities and forces are in units.
#[derive(Clone, Copy, Debug)]
pub struct Atom {
    /// The id, 1 to [`crate::limits::MAX_ID`].
    pub id: u32,
    /// The molecule, 0 for none.
    pub mol: u32,
    /// The atom type, from 1.
    pub kind: u8,
    /// The position, inside the box.
    pub x: V3,
    /// The velocity.
    pub v: V3,
    /// The force at the last evaluation.
    pub f: V3,
    /// How many edges the atom has gone beyond the box, per axis.
    pub image: [i64; 3],
}

/// A bond of two atoms, by their ids.
#[derive(Clone, Copy, Debug)]
pub struct Bond {
    /// The bond type, from 1.
    pub kind: u8,
    /// One atom's id.
    pub a: u32,
    /// The other atom's id.
    pub b: u32,
}

/// An angle of three atoms, by their ids.
#[derive(Clone, Copy, Debug)]
pub struct Angle {
    /// The angle type, from 1.
    pub kind: u8,
    /// One outer atom's id.
    pub a: u32,
    /// The centre's id.
    pub b: u32,
    /// The other outer atom's id.
    pub c: u32,
}

/// A position with the id of its atom and its place in a list: what neighbour lists are made of.
#[derive(Clone, Copy, Debug)]
pub struct Site {
    /// The position, or that of an image.
    pub x: V3,
    /// The atom's id.
    pub id: u32,
    /// The place in the list that the site was made for.
    pub place: u32,
}

/// Atoms in strictly rising order of id.
pub type Atoms = Seq<Atom>;
/// Bonds, in the order in which they were given.
pub type Bonds = Seq<Bond>;
/// Angles, in the order in which they were given.
pub type Angles = Seq<Angle>;
/// Ids in strictly rising order.
pub type Ids = Seq<u32>;
/// A mass for each atom type, in units, 0 where it is not set.
pub type Masses = Seq<i64>;
/// Points, in units.
pub type Points = Seq<V3>;
/// Sites of a neighbour list.
pub type Sites = Seq<Site>;

/// A system: all that a step reads and changes.
#[derive(Drop)]
pub struct System {
    /// The number of the step.
    pub step: u64,
    /// The timestep, in units.
    pub dt: i64,
    /// The simulation box.
    pub cell: SimBox,
    /// The mass of each atom type.
    pub mass: Masses,
    /// The atoms.
    pub atoms: Atoms,
    /// The bonds. Their ids exist.
    pub bonds: Bonds,
    /// The angles. Their ids exist.
    pub angles: Angles,
}

impl System {
    /// A system of the same parts.
    ///
    /// # Errors
    ///
    /// [`NoMemory`] where memory is refused.
    pub fn copy(&self, alloc: Global) -> Result<System, NoMemory>
        ensures { IfOk result (λ s. s ≡ self.now) }
    {
        Ok(System {
            step: self.step,
            dt: self.dt,
            cell: self.cell,
            mass: copy_of(alloc, &self.mass)?,
            atoms: copy_of(alloc, &self.atoms)?,
            bonds: copy_of(alloc, &self.bonds)?,
            angles: copy_of(alloc, &self.angles)?,
        })
    }
}

/// A list of the same items.
fn copy_of<T: Copy>(alloc: Global, list: &Seq<T>) -> Result<Seq<T>, NoMemory>
    ensures { IfOk result (λ l. l ≡ list.now) }
{
    Ok(Seq::from_vec(Vec::from_slice(alloc, list.as_slice())?))
}
