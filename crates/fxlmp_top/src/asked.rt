//! What the words of the command line ask for.

use fx_num::{Seq, Text, Words};

/// The script's name, and its place among the words.
#[derive(Drop)]
pub struct ScriptName {
    /// The place, from 0.
    pub place: u64,
    /// The name.
    pub name: Text,
}

/// The script that is run.
#[derive(Drop)]
pub enum Source {
    /// That of a file.
    File(ScriptName),
    /// The generated one.
    Generated {
        /// How many lattice cells there are along an edge.
        cells: u32,
        /// The seed of the velocities.
        seed: u32,
    },
}

/// Where the log goes.
#[derive(Drop)]
pub enum LogChoice {
    /// The words don't say.
    Default,
    /// To this file.
    File(Text),
    /// Nowhere.
    Nowhere,
}

/// A variable with its values.
#[derive(Drop)]
pub struct Definition {
    /// The name.
    pub name: Text,
    /// The values, at least one.
    pub values: Words,
}

/// What the words ask for.
#[derive(Drop)]
pub struct Asked {
    /// The script.
    pub script: Option<Source>,
    /// Where the log goes.
    pub log: LogChoice,
    /// Whether the log goes to the screen too.
    pub screen: bool,
    /// The variables, in order.
    pub vars: Seq<Definition>,
}

/// What the next word is to be.
#[derive(Drop)]
pub enum Wanted {
    /// An option.
    Flag,
    /// The script's name.
    Script,
    /// How many lattice cells the generated script has along an edge.
    Cells,
    /// The seed of the generated script, which has so many lattice cells along an edge.
    Seed(u32),
    /// The log's name, or `none`.
    Log,
    /// `none`.
    Screen,
    /// A variable's name.
    Variable,
    /// A value of a variable, or an option where it has one.
    Values(Definition),
}
