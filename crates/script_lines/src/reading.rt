//! How a line is read that may go on.
ghost use Rattle.std.specs.Prelude.{◌≡◌, ◌++◌, ◌∷◌, ℕ, List, [], false, OnOk};
ghost use Rattle.script_lines.specs.declared.modes.Mode.TheVariants as mode;
ghost use Rattle.script_lines.specs.Modes.{is_formula, is_triple, mode_after};
ghost use Rattle.script_lines.specs.Reading.{is_dollar, mode_behind, open_behind, GoesPast};

use crate::flags::Flags;
use crate::modes::{Mode, is_triple, next};
use fx_num::NoMemory;
use std::alloc::Global;

/// How a line is read behind the bytes so far. Its open parentheses are carried, so that it can go on.
#[derive(Drop)]
pub(crate) struct Reading {
    pub(crate) mode: Mode,
    pub(crate) opened: Flags,
    ghost plain: { is_formula mode ≡ false },
}

fn is_dollar(mode: Mode) -> bool
    ensures { result ≡ is_dollar mode }
{
    matches!(mode, Mode::Dollar)
}

impl Reading {
    /// Before the first byte of a line.
    pub(crate) fn new(alloc: Global) -> Reading
        ensures mode { result.mode ≡ mode.Between }
        ensures opened { result.opened ≡ [] }
    {
        Reading {
            mode: Mode::Between,
            opened: Flags::new(alloc),
        }
    }

    /// Goes past a byte.
    #[tactic(auto, using(crate::proofs::ReadingLemmas::plain_depth))]
    fn step(&mut self, byte: u8) -> Result<(), NoMemory>
        ensures mode { OnOk result (self.new.mode ≡ mode_behind self.old.mode self.old.opened byte) }
        ensures opened { OnOk result (self.new.opened ≡ open_behind self.old.mode self.old.opened byte) }
    {
        let mode = next(self.mode, byte, false);
        match byte {
            b'(' => self.opened.push(is_dollar(self.mode))?,
            b')' => {
                if self.opened.pop().unwrap_or(false) {
                    self.mode = Mode::Word;
                    return Ok(());
                }
            }
            b'#' => self.opened.clear(),
            _ => {}
        }
        self.mode = mode;
        Ok(())
    }

    /// Goes past these bytes.
    pub(crate) fn read(&mut self, bytes: &[u8]) -> Result<(), NoMemory>
        ensures { OnOk result (GoesPast bytes.now self.old.mode self.old.opened self.new.mode self.new.opened) }
    {
        for byte in bytes {
            self.step(*byte)?;
        }
        Ok(())
    }

    /// Whether the line stands in triple quotes.
    pub(crate) fn is_triple(&self) -> bool
        ensures { result ≡ is_triple self.now.mode }
    {
        is_triple(self.mode)
    }
}
