//! The fixes that a script defines.
ghost use Rattle.meaning.specs.Fixes.{fixes_without, has_fix};
ghost use Rattle.std.specs.Prelude.{◌≡◌, ◌++◌, [], ◌∷◌, OnErr, OnOk};

use command_words::NewFix;
use fx_num::{NoMemory, Text};
use std::alloc::Global;
use std::marker::Model;

/// The fixes that a script defines, in order of definition. Contracts see the list.
#[derive(Drop)]
pub struct FixSettings {
    items: Vec<NewFix>,
}

impl Model for FixSettings {
    ghost use Rattle.std.specs.Prelude.{List};
    ghost use Rattle.command_words.specs.declared.fixes.NewFix.{NewFix};

    ghost Value = { List NewFix };

    ghost view = { λ f. f.items.items };
}

impl FixSettings {
    /// No fix.
    pub fn new(alloc: Global) -> FixSettings
        ensures { result ≡ [] }
    {
        FixSettings {
            items: Vec::new(alloc),
        }
    }

    /// The fixes, in order.
    pub fn as_slice(&self) -> &[NewFix]
        ensures { result.now ≡ self.now }
    {
        &self.items
    }

    /// Whether a fix has this ID.
    pub fn has(&self, id: &Text) -> bool
        ensures { result ≡ has_fix self.now id.now }
    {
        for fix in &self.items {
            if fix.id.same(id) {
                return true;
            }
        }
        false
    }

    /// Appends a fix. A refusal leaves the list as it was.
    pub fn push(&mut self, fix: NewFix) -> Result<(), NoMemory>
        ensures appended { OnOk result (self.new ≡ self.old ++ fix ∷ []) }
        ensures unchanged { OnErr result (self.new ≡ self.old) }
    {
        self.items.push(fix)?;
        Ok(())
    }

    /// Takes out the fixes of an ID, and leaves the others in order.
    pub fn remove(&mut self, id: &Text)
        ensures { self.new ≡ fixes_without id.now self.old }
    {
        self.items.retain(|fix| !fix.id.same(id));
    }
}
