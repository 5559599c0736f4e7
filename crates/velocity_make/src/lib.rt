//! Velocities of the atoms of a group: drawn at a temperature, scaled to one, with the mean motion taken off, or
//! set.
//!
//! `specs/Draw.antt` has the draw of an atom, `specs/Group.antt` the sums over a group, `specs/Change.antt` what a
//! change makes of velocities, and `specs/Make.antt` what each call makes of all atoms.
#![tactic(auto)]

mod calls;
mod changes;
mod draws;
mod groups;
mod laws;
mod temperature;

pub use calls::{Drawing, VelocityRefusal, create, scale, set, zero};
pub use changes::Change;
pub use laws::{
    draws_depend_on_ids, order_does_not_matter, the_refusal_is_the_least,
    without_ids_nothing_changes,
};
