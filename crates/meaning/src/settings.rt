//! The state of a script.

use crate::force::Force;
use crate::named::Named;
use crate::output::Output;
use crate::setup::Setup;
use box_geo::{Angles, Atoms, Bonds, Masses, Sides};
use fx_num::Numbers;
use var_table::Vars;

/// What there is once there is a box. The timestep is a setting, as it may be set before.
#[derive(Drop)]
pub struct Body {
    /// The number of the step.
    pub step: u64,
    /// The extents of the simulation box.
    pub sides: Sides,
    /// The mass of each atom type, in units, 0 where it is not set.
    pub mass: Masses,
    /// The atoms, in strictly rising order of id.
    pub atoms: Atoms,
    /// The bonds.
    pub bonds: Bonds,
    /// The angles.
    pub angles: Angles,
}

/// The state of a script: all that its commands have set.
#[derive(Drop)]
pub struct Settings {
    /// The box and what is in it, once there is one.
    pub body: Option<Body>,
    /// What is set up before there is a box, and the timestep.
    pub setup: Setup,
    /// What forces rest on.
    pub force: Force,
    /// What the script gave names to.
    pub named: Named,
    /// What it shows, and where.
    pub output: Output,
    /// Its variables.
    pub vars: Vars,
    /// The numbers of the last run's last thermo line, by keyword, as long as no command behind it changed the system.
    pub known: Numbers,
}
