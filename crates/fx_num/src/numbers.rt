//! Numbers by keyword, as formulas and thermo lines read them.
ghost use Rattle.std.specs.Prelude.{◌≡◌, [], ◌∷◌, ◌++◌, OnErr, OnOk};

use crate::memory::NoMemory;
use crate::text::Text;
use std::alloc::Global;
use std::marker::Model;

/// A number under its keyword: whole for `step`, `atoms`, `id` and `type`, otherwise in units.
#[derive(Drop)]
pub struct Number {
    pub keyword: Text,
    pub value: i128,
}

/// Numbers under their keywords. Contracts see the list.
#[derive(Drop)]
pub struct Numbers {
    items: Vec<Number>,
}

impl Model for Numbers {
    ghost use Rattle.std.specs.Prelude.{List};
    ghost use Rattle.fx_num.specs.declared.numbers.Number.{Number};

    ghost Value = { List Number };

    ghost view = { λ n. n.items.items };
}

impl Numbers {
    ghost use Rattle.fx_num.specs.Numbers.{value_under};

    /// No numbers.
    pub fn new(alloc: Global) -> Numbers
        ensures { result ≡ [] }
    {
        Numbers {
            items: Vec::new(alloc),
        }
    }

    /// Appends a number. A refusal leaves the list as it was.
    pub fn push(&mut self, keyword: Text, value: i128) -> Result<(), NoMemory>
        ensures appended { OnOk result (self.new ≡ self.old ++ record { keyword = keyword; value = value } ∷ []) }
        ensures unchanged { OnErr result (self.new ≡ self.old) }
    {
        self.items.push(Number { keyword, value })?;
        Ok(())
    }

    /// The first number under this keyword.
    pub fn value_of(&self, keyword: &[u8]) -> Option<i128>
        ensures { result ≡ value_under self.now keyword.now }
    {
        for number in &self.items {
            if number.keyword.as_bytes() == keyword {
                return Some(number.value);
            }
        }
        None
    }

    /// The numbers, in order.
    pub fn as_slice(&self) -> &[Number]
        ensures { result.now ≡ self.now }
    {
        &self.items
    }
}
