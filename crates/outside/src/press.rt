//! Where pieces of files are written.
ghost use Rattle.std.specs.Prelude.{◌≡◌, ◌≤◌, ◌++◌, [], ◌∷◌, OnOk, OnErr, IsErrOf, codes};
ghost use Rattle.outside.specs.Sent.{plus, piece_of, Pressed, PutsCut};
ghost use Rattle.outside.specs.Stock.{Rose};
ghost use Rattle.outside.specs.declared.press.PutRefusal.TheVariants.{NoMemory as no_memory};

use fx_num::{NoMemory, Text};
use std::alloc::Global;
use thiserror::Error;

/// Pieces under this name go to the screen: a press puts them into no file.
pub const SCREEN: &[u8] = b"*screen*";

/// The name of the screen, byte by byte: a law, which does nothing when it runs.
pub fn screen_has_this_name()
    ensures { SCREEN.now ≡ codes "*screen*" }
{}

/// A piece of a file.
#[derive(Drop)]
pub struct Piece {
    /// The name of the file, any bytes, or [`SCREEN`].
    pub name: Text,
    /// Whether the file starts anew with this piece; else the piece is appended.
    pub fresh: bool,
    /// The bytes of the piece.
    pub bytes: Text,
}

/// Why a piece was not put as a whole.
#[derive(Clone, Copy, Debug, PartialEq, Eq, Error)]
pub enum PutRefusal {
    /// The device failed. A prefix of the piece may have been written.
    #[error("the piece cannot be written")]
    Faulted,
    /// Out of memory. Nothing was written.
    #[error("out of memory")]
    NoMemory,
}

impl From<NoMemory> for PutRefusal {
    ghost from_gives = { λ _ refusal. refusal ≡ no_memory };

    fn from(_error: NoMemory) -> PutRefusal {
        PutRefusal::NoMemory
    }
}

/// A writer of files, piece by piece.
///
/// Contracts see the pieces so far, `sent`, or `None` where the press does not tell. `faults` counts its
/// failures: it never falls, and stays at any other answer.
pub trait Press {
    ghost seen: { Self → Pressed };

    /// Writes a piece: to a file that starts anew with it where `fresh`, else to the file's end.
    ///
    /// # Errors
    ///
    /// `Faulted` only where `faults` rose; then a prefix of the bytes was written. `NoMemory`, and
    /// then nothing was written.
    fn put(
        &mut self,
        alloc: Global,
        name: &Text,
        fresh: bool,
        bytes: &[u8],
    ) -> Result<(), PutRefusal>
        ensures ok { OnOk result ((seen self.new).sent ≡ plus ((seen self.old).sent) (piece_of name.now fresh bytes.now ∷ [])) }
        ensures faulted { IsErrOf result PutRefusal.Faulted → Rose ((seen self.old).faults) ((seen self.new).faults) }
        ensures cut { IsErrOf result PutRefusal.Faulted → PutsCut ((seen self.old).sent) (piece_of name.now fresh bytes.now) ((seen self.new).sent) }
        ensures no_memory { IsErrOf result PutRefusal.NoMemory → (seen self.new).sent ≡ (seen self.old).sent }
        ensures faults_kept { (seen self.old).faults ≤ (seen self.new).faults }
        ensures faults_stay { (IsErrOf result PutRefusal.Faulted → ⊥) → (seen self.new).faults ≡ (seen self.old).faults };
}

/// Appends a copy of a piece to a list of pieces. A refusal leaves the list as it was.
pub(crate) fn append_piece(
    pieces: &mut Vec<Piece>,
    alloc: Global,
    name: &Text,
    fresh: bool,
    bytes: &[u8],
) -> Result<(), NoMemory>
    ensures appended { OnOk result (pieces.new.items ≡ pieces.old.items ++ piece_of name.now fresh bytes.now ∷ []) }
    ensures unchanged { OnErr result (pieces.new.items ≡ pieces.old.items) }
{
    let piece = Piece {
        name: name.copy(alloc)?,
        fresh,
        bytes: Text::from_bytes(alloc, bytes)?,
    };
    pieces.push(piece)?;
    Ok(())
}
