//! The commands that change settings alone: a function a command, whose contract is its meaning. A refusal leaves the
//! settings as they were. A family of commands has one file here, of the same name as its definitions.
#![tactic(auto)]

mod fixes;
mod lattice;
mod masses_groups;
mod members;
mod neighbors;
mod pairs;
mod runs;
mod scaling;
mod setup;
mod sites;
mod system_files;
mod thermo;
mod value_groups;
mod velocity;

pub use fixes::{add_fix, remove_fix};
pub use lattice::{add_region, create_atoms, create_box, set_lattice};
pub use masses_groups::set_masses;
pub use members::change_group;
pub use neighbors::{set_comm_cutoff, set_skin};
pub use pairs::{set_pair_coefficients, set_pair_style};
pub use runs::reset_timestep;
pub use setup::{set_atom_style, set_boundary, set_dimension, set_processors, set_timestep};
pub use system_files::take_data;
pub use thermo::set_thermo;
pub use value_groups::group_by_values;
pub use velocity::change_velocities;
