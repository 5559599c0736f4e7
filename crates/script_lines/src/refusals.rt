//! Why a line, or what stands for the names in its words, cannot be read.

use fx_num::{NoMemory, VarFault};
use thiserror::Error;

/// Why a line cannot be read. Each has the number of the line, that of its first physical line, from 1.
#[derive(Clone, Copy, Debug, PartialEq, Eq, Error)]
pub enum LineRefusal {
    /// A quote does not close.
    #[error("a quote of line {0} does not close")]
    UnclosedQuote(u32),
    /// The last physical line of the text goes on by `&`.
    #[error("line {0} goes on behind the end")]
    ContinuationAtEnd(u32),
    /// A closing mark is followed by neither a blank, a comment nor the end.
    #[error("a quote of line {0} has a tail")]
    QuoteTail(u32),
    /// Out of memory.
    #[error("out of memory")]
    NoMemory,
}

impl From<NoMemory> for LineRefusal {
    ghost use Rattle.std.specs.Prelude.{◌≡◌};
    ghost use Rattle.script_lines.specs.declared.refusals.LineRefusal.TheVariants as refusal;

    ghost from_gives = { λ _ out. out ≡ refusal.NoMemory };

    fn from(_error: NoMemory) -> LineRefusal {
        LineRefusal::NoMemory
    }
}

/// Why there is no text for a word.
#[derive(Drop)]
pub enum ExpandRefusal {
    /// The `$` at this byte of the word, from 0, begins no name and no formula.
    BadDollar(usize),
    /// What a name or formula stands for has no text. The fault is never want of memory.
    Inner(VarFault),
    /// Out of memory.
    NoMemory,
}

impl From<NoMemory> for ExpandRefusal {
    ghost use Rattle.std.specs.Prelude.{◌≡◌};
    ghost use Rattle.script_lines.specs.declared.refusals.ExpandRefusal.TheVariants as refusal;

    ghost from_gives = { λ _ out. out ≡ refusal.NoMemory };

    fn from(_error: NoMemory) -> ExpandRefusal {
        ExpandRefusal::NoMemory
    }
}
