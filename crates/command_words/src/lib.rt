//! Commands from words: each word of a line is compared with the forms of the command that its first
//! word names, and its words and numbers make the command.
#![tactic(auto)]

mod bonds;
mod branches;
mod command;
mod computes;
mod dumps;
mod fixes;
mod flow;
mod forms;
mod lattice;
mod laws;
mod limits;
mod masses_groups;
mod neighbors;
mod options;
mod output;
mod pairs;
mod places;
mod ranges;
mod read;
mod refusal;
mod restarts;
mod runs;
mod session;
mod setup;
mod system_files;
mod thermo;
mod values;
mod variables;
mod velocity;
mod vocabulary;

pub use bonds::{AngleCoeff, BondCoeff};
pub use command::Command;
pub use computes::{ComputeStyle, NewCompute};
pub use dumps::{DumpChange, DumpStyle, NewDump};
pub use fixes::{Averages, FixStyle, NewFix};
pub use flow::{Branch, Choice, Jump};
pub use lattice::{
    Block, Creation, CreationSites, LatticeSetting, NewBox, NewRegion, Shape, SinglePoint, Sphere,
};
pub use laws::{
    bad_words_are_told_at_the_first_word_that_begins_no_form, commands_keep_their_limits,
    words_begin_a_form_where_further_words_give_them_one,
};
pub use limits::{
    MAX_DENSITY, MAX_LOOP, MAX_REPEAT, MAX_SEED, MIN_DENSITY, command_limits_are_these_numbers,
};
pub use masses_groups::{GroupChange, MassSetting, Members};
pub use pairs::{PairChange, PairCoeff};
pub use ranges::{IdRange, KindRange};
pub use read::read_command;
pub use refusal::WordRefusal;
pub use restarts::{RestartFiles, Saves};
pub use runs::Run;
pub use thermo::Columns;
pub use variables::{LoopRange, NewVariable, VariableStyle};
pub use velocity::{Components, Draws, VelocityAction, VelocityChange};
