//! Where files are read: by name, each as a whole.
ghost use Rattle.std.specs.Prelude.{◌≡◌, ◌<◌, ◌≤◌, ℕ, length, IfOk, IfErr, IfSome, IfNone, IsErrOf, IsErrAnd, IsTrue};
ghost use Rattle.outside.specs.Stock.{content, is_absence, Fetches, Rose, IsAbove, Shelved};
ghost use Rattle.outside.specs.declared.shelf.FetchRefusal.TheVariants.{NoMemory as no_memory};

use fx_num::{NoMemory, Text};
use std::alloc::Global;
use thiserror::Error;

/// A fetched file has at most this many bytes: 2^28.
pub const MAX_FETCHED: u64 = 1 << 28;

/// The greatest length of a fetched file as a number: a law, which does nothing when it runs.
pub fn fetch_limit_is_this_number()
    ensures { MAX_FETCHED ≡ 268435456 }
{}

/// Why a file was not fetched.
#[derive(Clone, Copy, Debug, PartialEq, Eq, Error)]
pub enum FetchRefusal {
    /// No file has the name.
    #[error("no such file")]
    Missing,
    /// The file has this many bytes, more than [`MAX_FETCHED`].
    #[error("the file is too long: {0} bytes")]
    TooLong(u64),
    /// The device failed.
    #[error("the file cannot be read")]
    Faulted,
    /// Out of memory.
    #[error("out of memory")]
    NoMemory,
}

impl FetchRefusal {
    /// Whether the file is missing or too long.
    pub fn is_absence(&self) -> bool
        ensures { result ≡ is_absence self.now }
    {
        matches!(self, FetchRefusal::Missing | FetchRefusal::TooLong(_))
    }
}

impl From<NoMemory> for FetchRefusal {
    ghost from_gives = { λ _ refusal. refusal ≡ no_memory };

    fn from(_error: NoMemory) -> FetchRefusal {
        FetchRefusal::NoMemory
    }
}

/// Files that can be read by their names.
///
/// Contracts see what stands on the shelf, the `stock`, or `None` where the shelf does not tell. `faults` counts
/// its failures, and `absent` the files that were missing or too long: the counts never fall, and
/// stay at any other answer.
pub trait Shelf {
    ghost seen: { Self → Shelved };

    /// The bytes of the file with this name.
    ///
    /// # Errors
    ///
    /// `Missing` where no file has the name and `TooLong` where the file has more than
    /// [`MAX_FETCHED`] bytes: exactly there, where the stock is told, and else only where `absent`
    /// rose. `Faulted` only where `faults` rose. `NoMemory`.
    fn fetch(&mut self, alloc: Global, name: &Text) -> Result<Text, FetchRefusal>
        ensures stays { (seen self.new).stock ≡ (seen self.old).stock }
        ensures told { IfSome ((seen self.old).stock) (λ files. Fetches (content files name.now) result) }
        ensures within_limit { IfOk result (λ bytes. length bytes ≤ MAX_FETCHED) }
        ensures above_limit { IfErr result IsAbove }
        ensures missing { IsErrOf result FetchRefusal.Missing → IfNone ((seen self.old).stock) (Rose ((seen self.old).absent) ((seen self.new).absent)) }
        ensures too_long { (n : ℕ) → IsErrOf result (FetchRefusal.TooLong n) → IfNone ((seen self.old).stock) (Rose ((seen self.old).absent) ((seen self.new).absent)) }
        ensures faulted { IsErrOf result FetchRefusal.Faulted → Rose ((seen self.old).faults) ((seen self.new).faults) }
        ensures faults_kept { (seen self.old).faults ≤ (seen self.new).faults }
        ensures absent_kept { (seen self.old).absent ≤ (seen self.new).absent }
        ensures faults_stay { (IsErrOf result FetchRefusal.Faulted → ⊥) → (seen self.new).faults ≡ (seen self.old).faults }
        ensures absent_stay { (IsErrAnd result (λ why. IsTrue (is_absence why)) → ⊥) → (seen self.new).absent ≡ (seen self.old).absent };
}
