//! The outside of the program: what it reads and where it writes.
//!
//! A [`Shelf`] gives files by name and a [`Press`] takes pieces of files. Each is a trait, so that
//! the same program runs over real files and over memory. A contract sees what an object tells: a
//! form in memory tells its content, a real device tells none, and both count their failures.
#![tactic(auto)]

mod files;
mod gate;
mod memory;
mod press;
mod shelf;
mod sure;

pub use files::{File, Files};
pub use gate::{Gate, OpenGate};
pub use memory::{Calls, Cut, Cuts, MemPress, MemShelf};
pub use press::{Piece, Press, PutRefusal, SCREEN, screen_has_this_name};
pub use shelf::{FetchRefusal, MAX_FETCHED, Shelf, fetch_limit_is_this_number};
pub use sure::{SurePress, SureShelf};
