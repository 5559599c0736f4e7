//! The forms in memory that never fail.
ghost use Rattle.std.specs.Prelude.{◌≡◌, [], Some, IfOk};
ghost use Rattle.outside.specs.Stock.{IsDistinctNames};

use crate::files::Files;
use crate::press::{Piece, Press, PutRefusal, append_piece};
use crate::shelf::{FetchRefusal, Shelf};
use fx_num::{NoMemory, Text};
use std::alloc::Global;
use std::marker::Model;

/// A shelf in memory that never fails. Contracts see its files.
#[derive(Drop)]
pub struct SureShelf {
    files: Files,
}

impl Model for SureShelf {
    ghost use Rattle.std.specs.Prelude.{List};
    ghost use Rattle.outside.specs.declared.files.File.{File};

    ghost Value = { List File };

    ghost view = { λ s. s.files };
}

impl SureShelf {
    /// A shelf with these files. The only error is want of memory.
    pub fn new(_alloc: Global, files: Files) -> Result<SureShelf, NoMemory>
        requires { IsDistinctNames files }
        ensures { IfOk result (λ shelf. shelf ≡ files) }
    {
        Ok(SureShelf { files })
    }
}

impl Shelf for SureShelf {
    ghost seen = { λ files. record { stock = Some files; faults = 0; absent = 0 } };

    fn fetch(&mut self, alloc: Global, name: &Text) -> Result<Text, FetchRefusal> {
        self.files.fetch(alloc, name)
    }
}

/// A press in memory that never fails. Contracts see the pieces that it was sent.
#[derive(Drop)]
pub struct SurePress {
    sent: Vec<Piece>,
}

impl Model for SurePress {
    ghost use Rattle.std.specs.Prelude.{List};
    ghost use Rattle.outside.specs.declared.press.Piece.{Piece};

    ghost Value = { List Piece };

    ghost view = { λ p. p.sent.items };
}

impl SurePress {
    /// A press that was sent nothing. The only error is want of memory.
    pub fn new(alloc: Global) -> Result<SurePress, NoMemory>
        ensures { IfOk result (λ press. press ≡ []) }
    {
        Ok(SurePress {
            sent: Vec::new(alloc),
        })
    }

    /// The pieces sent so far, in order.
    pub fn pieces(&self) -> &[Piece]
        ensures { result.now ≡ self.now }
    {
        &self.sent
    }
}

impl Press for SurePress {
    ghost seen = { λ pieces. record { sent = Some pieces; faults = 0 } };

    fn put(
        &mut self,
        alloc: Global,
        name: &Text,
        fresh: bool,
        bytes: &[u8],
    ) -> Result<(), PutRefusal> {
        append_piece(&mut self.sent, alloc, name, fresh, bytes)?;
        Ok(())
    }
}
