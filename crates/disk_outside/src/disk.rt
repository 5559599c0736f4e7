//! Files that outlive a crash.
ghost use Rattle.std.specs.Prelude.{◌≡◌, ◌<◌, ◌≤◌, ℕ, length, take, IsErr, IsErrOf, IfOk, OnOk};
ghost use Rattle.outside.specs.Stock.{Rose};
ghost use Rattle.disk_outside.specs.Disk.{View, IsOrderly, IsSettled, Cut, Reads, Stays, Steps, Torn, Unmoved, size, written};
ghost use Rattle.disk_outside.specs.declared.disk.DiskRefusal.TheVariants.{NoMemory as no_memory};

use fx_num::{NoMemory, Text};
use std::alloc::Global;
use thiserror::Error;

/// A file that is read from a disk has at most this many bytes: 2^28.
pub const MAX_READ: u64 = 1 << 28;

/// The greatest length of a file that is read as a number: a law, which does nothing when it runs.
pub fn read_limit_is_this_number()
    ensures { MAX_READ ≡ 268435456 }
{}

/// The disk failed.
#[derive(Clone, Copy, Debug, PartialEq, Eq, Error)]
#[error("the disk failed")]
pub struct Failed;

/// Why a file was not read.
#[derive(Clone, Copy, Debug, PartialEq, Eq, Error)]
pub enum DiskRefusal {
    /// The file has more than [`MAX_READ`] bytes.
    #[error("the file is too long")]
    TooLong,
    /// The disk failed.
    #[error("the disk failed")]
    Faulted,
    /// Out of memory.
    #[error("out of memory")]
    NoMemory,
}

impl From<NoMemory> for DiskRefusal {
    ghost from_gives = { λ _ refusal. refusal ≡ no_memory };

    fn from(_error: NoMemory) -> DiskRefusal {
        DiskRefusal::NoMemory
    }
}

/// Files by name that are read as a whole, written at any place, cut, and synced.
///
/// A missing file is one without bytes. `view` is what a read gives and what a crash may leave; where `told` does not
/// hold the disk tells nothing of them, and only the count of failures in it has a meaning: it never falls, and stays
/// at any answer but a failure. No call changes a file that it does not name.
///
/// Until the next sync a crash may leave any bytes where was written, and where was cut off, and any length from the
/// least to the greatest since the last sync; after a sync it leaves what a read gives.
pub trait Disk {
    ghost told: { Type 0 };

    ghost view: { Self → View };

    ghost orderly: { (disk : Self) → told → IsOrderly (view disk) };

    /// The bytes of the file with this name.
    ///
    /// # Errors
    ///
    /// `TooLong`, where the content is told exactly where the file has more than [`MAX_READ`] bytes. `Faulted` only
    /// where the count of failures rose. `NoMemory`.
    fn read(&mut self, alloc: Global, name: &Text) -> Result<Text, DiskRefusal>
        ensures reads { told → Reads ((view self.old).seen name.now) result }
        ensures stays { told → Stays (view self.old) (view self.new) }
        ensures within_limit { IfOk result (λ bytes. length bytes ≤ MAX_READ) }
        ensures faulted { IsErrOf result DiskRefusal.Faulted → Rose (view self.old).faults (view self.new).faults }
        ensures faults_kept { (view self.old).faults ≤ (view self.new).faults }
        ensures faults_stay { (IsErrOf result DiskRefusal.Faulted → ⊥) → (view self.new).faults ≡ (view self.old).faults };

    /// Writes the bytes over those of the file from the place on, and past its end. The place is at most its length.
    ///
    /// # Errors
    ///
    /// `Failed` only where the count of failures rose; then a part may have been written.
    fn write_at(&mut self, name: &Text, at: u64, bytes: &[u8]) -> Result<(), Failed>
        requires { told → at ≤ size (view self.old) name.now }
        ensures written { told → OnOk result ((view self.new).seen name.now ≡ written ((view self.old).seen name.now) at bytes.now) }
        ensures change { told → Steps name.now (Torn at (length bytes.now)) (view self.old) (view self.new) }
        ensures failed { IsErr result → Rose (view self.old).faults (view self.new).faults }
        ensures faults_kept { (view self.old).faults ≤ (view self.new).faults }
        ensures faults_stay { OnOk result ((view self.new).faults ≡ (view self.old).faults) };

    /// Cuts the file to its first bytes, this many. The length is at most that of the file.
    ///
    /// # Errors
    ///
    /// `Failed` only where the count of failures rose; then a part may have been cut off.
    fn cut(&mut self, name: &Text, length: u64) -> Result<(), Failed>
        requires { told → length ≤ size (view self.old) name.now }
        ensures cut { told → OnOk result ((view self.new).seen name.now ≡ take length ((view self.old).seen name.now)) }
        ensures change { told → Steps name.now (Cut length) (view self.old) (view self.new) }
        ensures failed { IsErr result → Rose (view self.old).faults (view self.new).faults }
        ensures faults_kept { (view self.old).faults ≤ (view self.new).faults }
        ensures faults_stay { OnOk result ((view self.new).faults ≡ (view self.old).faults) };

    /// Waits until the file is on the disk as a read gives it.
    ///
    /// # Errors
    ///
    /// `Failed` only where the count of failures rose.
    fn sync(&mut self, name: &Text) -> Result<(), Failed>
        ensures seen { told → (view self.new).seen name.now ≡ (view self.old).seen name.now }
        ensures settled { told → OnOk result (IsSettled (view self.new) name.now) }
        ensures change { told → Steps name.now Unmoved (view self.old) (view self.new) }
        ensures failed { IsErr result → Rose (view self.old).faults (view self.new).faults }
        ensures faults_kept { (view self.old).faults ≤ (view self.new).faults }
        ensures faults_stay { OnOk result ((view self.new).faults ≡ (view self.old).faults) };
}
