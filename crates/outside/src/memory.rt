//! The forms in memory that fail at given calls.
ghost use Rattle.std.specs.Prelude.{◌≡◌, ◌≤◌, [], Some, IfOk, take};
ghost use Rattle.outside.specs.Memory.{fails_at, kept_at, shelf_after, is_fault, Puts};
ghost use Rattle.outside.specs.Sent.{piece_of};
ghost use Rattle.outside.specs.Stock.{content, Fetches, IsDistinctNames};

use crate::files::Files;
use crate::press::{Piece, Press, PutRefusal, append_piece};
use crate::shelf::{FetchRefusal, Shelf};
use fx_num::{NoMemory, Text};
use std::alloc::Global;
use std::marker::Model;

/// Numbers of calls, the first call being 0. Contracts see the list.
#[derive(Drop)]
pub struct Calls {
    items: Vec<u64>,
}

impl Model for Calls {
    ghost use Rattle.std.specs.Prelude.{List, ℕ};

    ghost Value = { List ℕ };

    ghost view = { λ c. c.items.items };
}

impl Calls {
    /// The numbers of a vector.
    pub fn new(items: Vec<u64>) -> Calls
        ensures { result ≡ items.items }
    {
        Calls { items }
    }

    /// The vector of the numbers.
    pub fn into_vec(self) -> Vec<u64>
        ensures { result.items ≡ self }
    {
        self.items
    }

    /// Whether the call with this number is one of them.
    pub fn fails_at(&self, call: u64) -> bool
        ensures { result ≡ fails_at self.now call }
    {
        self.items.iter().any(|n| *n == call)
    }
}

/// A put that fails: the number of the call, the first being 0, and how many bytes it keeps.
#[derive(Clone, Copy, Debug, PartialEq, Eq)]
pub struct Cut {
    /// The number of the call.
    pub call: u64,
    /// This many of the bytes are still written; where there are fewer, all.
    pub kept: u64,
}

/// A list of cuts. Contracts see the list.
#[derive(Drop)]
pub struct Cuts {
    items: Vec<Cut>,
}

impl Model for Cuts {
    ghost use Rattle.std.specs.Prelude.{List};
    ghost use Rattle.outside.specs.declared.memory.Cut.{Cut};

    ghost Value = { List Cut };

    ghost view = { λ c. c.items.items };
}

impl Cuts {
    /// The cuts of a vector.
    pub fn new(items: Vec<Cut>) -> Cuts
        ensures { result ≡ items.items }
    {
        Cuts { items }
    }

    /// The vector of the cuts.
    pub fn into_vec(self) -> Vec<Cut>
        ensures { result.items ≡ self }
    {
        self.items
    }

    /// How many bytes the call with this number keeps, by the first cut of it. `None` where the
    /// call does not fail.
    pub fn kept_at(&self, call: u64) -> Option<u64>
        ensures { result ≡ kept_at self.now call }
    {
        self.items.iter().find(|c| c.call == call).map(|c| c.kept)
    }
}

/// A shelf in memory that fails at the calls of a list. Contracts see its state.
#[derive(Drop)]
pub struct MemShelf {
    files: Files,
    fail: Calls,
    calls: u64,
    faults: u64,
    absent: u64,
}

impl Model for MemShelf {
    ghost use Rattle.outside.specs.Memory.{ShelfState};

    ghost Value = { ShelfState };

    ghost view = { λ s. record { files = s.files; fail = s.fail; calls = s.calls; faults = s.faults; absent = s.absent } };
}

impl MemShelf {
    /// A shelf with these files, whose calls of these numbers fail. The only error is want of
    /// memory.
    pub fn new(_alloc: Global, files: Files, fail: Calls) -> Result<MemShelf, NoMemory>
        requires { IsDistinctNames files }
        ensures { IfOk result (λ shelf. shelf ≡ record { files = files; fail = fail; calls = 0; faults = 0; absent = 0 }) }
    {
        Ok(MemShelf {
            files,
            fail,
            calls: 0,
            faults: 0,
            absent: 0,
        })
    }
}

impl Shelf for MemShelf {
    ghost seen = { λ shelf. record { stock = Some shelf.files; faults = shelf.faults; absent = shelf.absent } };

    /// A call of the list answers `Faulted`; any other answers by the files.
    fn fetch(&mut self, alloc: Global, name: &Text) -> Result<Text, FetchRefusal>
        ensures stays { self.new.files ≡ self.old.files }
        ensures told { Fetches (content self.old.files name.now) result }
        ensures fails { is_fault result ≡ fails_at self.old.fail self.old.calls }
        ensures after { self.new ≡ shelf_after self.old result }
        ensures faults_kept { self.old.faults ≤ self.new.faults }
        ensures absent_kept { self.old.absent ≤ self.new.absent }
    {
        let call = self.calls;
        self.calls = call.saturating_add(1);
        if self.fail.fails_at(call) {
            self.faults = self.faults.saturating_add(1);
            return Err(FetchRefusal::Faulted);
        }
        match self.files.fetch(alloc, name) {
            Ok(bytes) => Ok(bytes),
            Err(refusal) => {
                if refusal.is_absence() {
                    self.absent = self.absent.saturating_add(1);
                }
                Err(refusal)
            }
        }
    }
}

/// A press in memory that fails at the calls of a list. Contracts see its state.
#[derive(Drop)]
pub struct MemPress {
    sent: Vec<Piece>,
    fail: Cuts,
    calls: u64,
    faults: u64,
}

impl Model for MemPress {
    ghost use Rattle.outside.specs.Memory.{PressState};

    ghost Value = { PressState };

    ghost view = { λ p. record { sent = p.sent.items; fail = p.fail; calls = p.calls; faults = p.faults } };
}

impl MemPress {
    /// A press that was sent nothing, whose calls of these cuts fail. The only error is want of
    /// memory.
    pub fn new(alloc: Global, fail: Cuts) -> Result<MemPress, NoMemory>
        ensures { IfOk result (λ press. press ≡ record { sent = []; fail = fail; calls = 0; faults = 0 }) }
    {
        Ok(MemPress {
            sent: Vec::new(alloc),
            fail,
            calls: 0,
            faults: 0,
        })
    }

    /// The pieces sent so far, in order. The last may be cut.
    pub fn pieces(&self) -> &[Piece]
        ensures { result.now ≡ self.now.sent }
    {
        &self.sent
    }
}

impl Press for MemPress {
    ghost seen = { λ press. record { sent = Some press.sent; faults = press.faults } };

    /// A call of the list of cuts appends the prefix of the piece that its cut keeps, and answers
    /// `Faulted`; any other appends the piece. `NoMemory` appends nothing.
    fn put(
        &mut self,
        alloc: Global,
        name: &Text,
        fresh: bool,
        bytes: &[u8],
    ) -> Result<(), PutRefusal>
        ensures after { Puts self.old (piece_of name.now fresh bytes.now) result self.new }
        ensures faults_kept { self.old.faults ≤ self.new.faults }
    {
        let call = self.calls;
        self.calls = call.saturating_add(1);
        match self.fail.kept_at(call) {
            None => {
                append_piece(&mut self.sent, alloc, name, fresh, bytes)?;
                Ok(())
            }
            Some(kept) => {
                append_piece(&mut self.sent, alloc, name, fresh, front_of(bytes, kept))?;
                self.faults = self.faults.saturating_add(1);
                Err(PutRefusal::Faulted)
            }
        }
    }
}

/// The first `kept` of the bytes; where there are fewer, all.
fn front_of(bytes: &[u8], kept: u64) -> &[u8]
    ensures { result.now ≡ take kept bytes.now }
{
    if kept < bytes.len() as u64 {
        &bytes[..kept as usize]
    } else {
        bytes
    }
}
