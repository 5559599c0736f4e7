//! A stack of flags.
ghost use Rattle.std.specs.Prelude.{◌≡◌, [], ◌∷◌, ◌++◌, reverse, option_to_list, IfNone, OnOk};

use fx_num::NoMemory;
use std::alloc::Global;
use std::marker::Model;

/// A stack of flags. Contracts see the list of them, the top first.
#[derive(Drop)]
pub(crate) struct Flags {
    bits: Vec<bool>,
}

impl Model for Flags {
    ghost use Rattle.std.specs.Prelude.{Bool, List, reverse};

    ghost Value = { List Bool };

    ghost view = { λ f. reverse f.bits.items };
}

impl Flags {
    pub(crate) fn new(alloc: Global) -> Flags
        ensures { result ≡ [] }
    {
        Flags {
            bits: Vec::new(alloc),
        }
    }

    pub(crate) fn push(&mut self, flag: bool) -> Result<(), NoMemory>
        ensures pushed { OnOk result (self.new ≡ flag ∷ self.old) }
    {
        self.bits.push(flag)?;
        Ok(())
    }

    pub(crate) fn pop(&mut self) -> Option<bool>
        ensures top { self.old ≡ option_to_list result ++ self.new }
        ensures none { IfNone result (self.old ≡ []) }
    {
        self.bits.pop()
    }

    pub(crate) fn clear(&mut self)
        ensures { self.new ≡ [] }
    {
        self.bits.clear();
    }
}
