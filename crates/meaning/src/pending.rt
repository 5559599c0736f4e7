//! Texts of commands that are still to run.
ghost use Rattle.std.specs.Prelude.{◌≡◌, ◌++◌, [], ◌∷◌, reverse, MatchOption, OnOk};

use fx_num::{NoMemory, Seq, Text};
use std::alloc::Global;
use std::marker::Model;

/// Texts of commands that are still to run, in order.
#[derive(Drop)]
pub struct Pending {
    /// The last text first.
    texts: Vec<Text>,
}

impl Model for Pending {
    ghost use Rattle.std.specs.Prelude.{List, reverse, ℕ};

    ghost Value = { List (List ℕ) };

    ghost view = { λ p. reverse p.texts.items };
}

impl Pending {
    /// No texts.
    pub fn new(alloc: Global) -> Pending
        ensures { result ≡ [] }
    {
        Pending {
            texts: Vec::new(alloc),
        }
    }

    /// Takes the first text off.
    pub fn pop(&mut self) -> Option<Text>
        ensures { MatchOption result ((self.old ≡ []) × (self.new ≡ [])) (λ first. self.old ≡ first ∷ self.new) }
    {
        self.texts.pop()
    }

    /// Puts texts before the others. Where memory is wanting, some of the last of them are put.
    pub fn put(&mut self, texts: Seq<Text>) -> Result<(), NoMemory>
        ensures { OnOk result (self.new ≡ texts ++ self.old) }
    {
        put(&mut self.texts, texts.into_vec())
    }
}

/// Puts texts, the last first, behind others that stand so.
fn put(reversed: &mut Vec<Text>, texts: Vec<Text>) -> Result<(), NoMemory>
    ensures { OnOk result (reverse reversed.new.items ≡ texts.items ++ reverse reversed.old.items) }
{
    let mut texts = texts;
    while let Some(text) = texts.pop() {
        reversed.push(text)?;
    }
    Ok(())
}
