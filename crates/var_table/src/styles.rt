//! What a variable holds.

use fx_num::{Text, Words};

/// What a variable holds.
#[derive(Drop)]
pub enum VarStyle {
    /// `index`: these values one after another, the first of them first.
    Index(Words),
    /// `loop`: the numbers from `first` to `last`.
    Loop {
        /// The present number.
        first: u32,
        /// The last number.
        last: u32,
    },
    /// `equal`: a formula.
    Equal(Text),
    /// `atom`: a formula that has a value for each atom.
    AtomWise(Text),
    /// `string`: a text.
    Plain(Text),
}
