//! The disk over real files: a trusted edge of the program.
//!
//! No contract can say what a real file holds, or what a crash leaves of it, so this form tells nothing. It counts its
//! failures, and is proved against the trait of `disk_outside`.
#![tactic(auto)]

mod file_disk;
mod reading;
mod writing;

pub use file_disk::FileDisk;
