//! The disk of the outside: files that are written at any place and outlive a crash.
//!
//! A [`Disk`] gives and changes files by name. A contract sees what a read gives and what a crash may leave, now and
//! at any moment since a given one. [`MemDisk`] tells it all, fails at given calls, and a crash may tear each of its
//! calls. [`SureDisk`] keeps nothing and never fails.
#![tactic(auto)]

mod calls;
mod disk;
mod memory;
mod sure;

pub use disk::{Disk, DiskRefusal, Failed, MAX_READ, read_limit_is_this_number};
pub use memory::MemDisk;
pub use sure::SureDisk;
