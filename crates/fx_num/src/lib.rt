//! Numbers and their texts.
//!
//! Every length, velocity, force and energy is a whole number of *units*, multiples of 2^-24. This
//! crate has the roundings that all arithmetic goes through, the texts that numbers are read from
//! and printed as, and the small types that every other crate names.
#![tactic(auto)]

mod decimal;
mod faults;
mod memory;
mod numbers;
mod print;
mod quotient;
mod roots;
mod rounding;
mod seq;
mod steps;
mod text;

pub use decimal::{MAX_UNITS, NumError, decimal_text_form, read_decimal, read_whole};
pub use faults::{FormulaFault, VarFault};
pub use memory::NoMemory;
pub use numbers::{Number, Numbers};
pub use print::{print_fix, print_scaled, print_value, print_whole, printed_reads_back};
pub use quotient::{guess_float, guess_whole, is_nearest, nearest_by_guess};
pub use roots::{rcbrt, roots_are_the_nearest, rsqrt};
pub use rounding::{nearest, nearest_shift, rdiv, rounding_is_odd, rounding_is_the_nearest, rsh};
pub use seq::Seq;
pub use steps::Steps;
pub use text::Text;

/// A vector in units, by axis: x, y, z.
pub type V3 = [i64; 3];

/// Texts in order: the words of a line, the values of a variable.
pub type Words = Seq<Text>;

/// One unit is 2^-24, so this many units are 1.
pub const UNIT: i64 = 1 << 24;
