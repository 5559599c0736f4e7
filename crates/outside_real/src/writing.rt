//! What is done with a file that was opened to be written: its answer, and the count of failures.
ghost use Rattle.std.specs.Prelude.{◌≡◌, ◌≤◌, ◌↔◌, IsErrOf, IsErrAnd, OnOk};
ghost use Rattle.std.specs.Io.KnownBytes.{Appends};
ghost use Rattle.std.specs.IoError.{error_kind};
ghost use Rattle.outside_real.specs.Bytes.{IsWritten};
ghost use Rattle.outside_real.specs.Counts.{put_faults_after};

use outside::PutRefusal;
use std::io::{self, ErrorKind, Write};

/// Writes all bytes to what was opened, and counts a failure.
///
/// # Errors
///
/// `NoMemory` where it was not opened for want of memory: nothing was written then. `Faulted`.
pub(crate) fn put_into<W: Write>(
    faults: &mut u64,
    opened: &mut io::Result<W>,
    bytes: &[u8],
) -> Result<(), PutRefusal>
    ensures written { OnOk result (IsWritten W.contents opened.old opened.new bytes.now) }
    ensures no_memory { IsErrOf result PutRefusal.NoMemory ↔ IsErrAnd opened.old (λ e. error_kind e ≡ ErrorKind.OutOfMemory) }
    ensures counted { faults.new ≡ put_faults_after faults.old result }
    ensures faults_kept { faults.old ≤ faults.new }
{
    let answer = match opened {
        Ok(to) => write_whole(to, bytes),
        Err(error) => Err(refusal_of(error)),
    };
    if answer == Err(PutRefusal::Faulted) {
        *faults = faults.saturating_add(1);
    }
    answer
}

/// Writes all bytes. A write that takes some of them goes on with the rest.
///
/// # Errors
///
/// `Faulted` alone. A front of the bytes may have been written then.
pub(crate) fn write_whole<W: Write>(to: &mut W, bytes: &[u8]) -> Result<(), PutRefusal>
    ensures written { OnOk result (Appends (W.contents to.old) (W.contents to.new) bytes.now) }
    ensures has_memory { IsErrOf result PutRefusal.NoMemory → ⊥ }
{
    if to.write_all(bytes).is_err() {
        return Err(PutRefusal::Faulted);
    }
    match to.flush() {
        Ok(()) => Ok(()),
        Err(_) => Err(PutRefusal::Faulted),
    }
}

/// What a failure to open a file means. Nothing was written then.
fn refusal_of(error: &io::Error) -> PutRefusal
    ensures { (result ≡ PutRefusal.NoMemory) ↔ (error_kind error.now ≡ ErrorKind.OutOfMemory) }
{
    match error.kind() {
        ErrorKind::OutOfMemory => PutRefusal::NoMemory,
        _ => PutRefusal::Faulted,
    }
}
