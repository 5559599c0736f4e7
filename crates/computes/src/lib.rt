//! Thermodynamic quantities: temperature, pressure, and energies as they are shown.
#![tactic(auto)]

mod energy;
mod kinetic;
mod pressure;

pub use energy::share;
pub use kinetic::{kinetic_share, kinetic_sum, temp};
pub use pressure::press;
