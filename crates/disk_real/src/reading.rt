//! What is done with a file that was opened to be read.
ghost use Rattle.std.specs.Prelude.{◌≡◌, ◌<◌, ◌≤◌, IsErrOf, IfOk, IfErr, OnOk, ◌⊎◌, length, take};
ghost use Rattle.std.specs.Io.KnownBytes.{Consumes, IsAtEnd};
ghost use Rattle.disk_outside.specs.declared.disk.TheConstants.{MAX_READ};
ghost use Rattle.disk_real.specs.Bytes.{IsReadWhole, IsReadTooFar, LosesTooMany};

use disk_outside::{DiskRefusal, MAX_READ};
use fx_num::Text;
use std::alloc::Global;
use std::io::{self, ErrorKind, Read};

/// A file is read by this many bytes at once.
const CHUNK: usize = 4096;

/// All bytes of what was opened; none where there is no such file.
///
/// # Errors
///
/// `TooLong` where more than [`MAX_READ`] bytes were read. `Faulted`. `NoMemory`.
pub(crate) fn read_opened<F: Read>(
    alloc: Global,
    opened: &mut io::Result<F>,
) -> Result<Text, DiskRefusal>
    ensures whole { IfOk result (λ bytes. IsReadWhole F.remaining opened.old opened.new bytes) }
    ensures within_limit { IfOk result (λ bytes. length bytes ≤ MAX_READ) }
    ensures too_long { IsErrOf result DiskRefusal.TooLong → IsReadTooFar F.remaining opened.old opened.new }
{
    match opened {
        Ok(file) => read_whole(alloc, file),
        Err(error) => match error.kind() {
            ErrorKind::NotFound => Ok(Text::new(alloc)),
            ErrorKind::OutOfMemory => Err(DiskRefusal::NoMemory),
            _ => Err(DiskRefusal::Faulted),
        },
    }
}

/// All bytes of a file. No length is trusted: one that has more than [`MAX_READ`] bytes is left as soon as so many were
/// read.
fn read_whole<F: Read>(alloc: Global, file: &mut F) -> Result<Text, DiskRefusal>
    ensures read { IfOk result (λ bytes. Consumes (F.remaining file.old) (F.remaining file.new) bytes) }
    ensures end { OnOk result (IsAtEnd (F.remaining file.new)) }
    ensures within_limit { IfOk result (λ bytes. length bytes ≤ MAX_READ) }
    ensures too_long { IsErrOf result DiskRefusal.TooLong → LosesTooMany (F.remaining file.old) (F.remaining file.new) }
{
    let mut bytes = Text::new(alloc);
    let mut chunk = [0u8; CHUNK];
    for _ in 0..u64::MAX {
        let count = read_some(file, &mut chunk)?;
        if count == 0 {
            return Ok(bytes);
        }
        let length = bytes.as_bytes().len() as u64 + count as u64;
        if length > MAX_READ {
            return Err(DiskRefusal::TooLong);
        }
        bytes.push(&chunk[..count])?;
    }
    Err(DiskRefusal::Faulted)
}

/// Reads at least one byte into the buffer, or none at the file's end.
fn read_some<F: Read>(file: &mut F, buffer: &mut [u8]) -> Result<usize, DiskRefusal>
    ensures within { IfOk result (λ count. count ≤ length buffer.old) }
    ensures read { IfOk result (λ count. Consumes (F.remaining file.old) (F.remaining file.new) (take count buffer.new)) }
    ensures end { IfOk result (λ count. count ≡ 0 → 0 < length buffer.old → IsAtEnd (F.remaining file.new)) }
    ensures fault { IfErr result (λ why. (why ≡ DiskRefusal.Faulted) ⊎ (why ≡ DiskRefusal.NoMemory)) }
{
    for _ in 0..u64::MAX {
        match file.read(buffer) {
            Ok(count) => return Ok(count),
            Err(error) => match error.kind() {
                ErrorKind::Interrupted => {}
                ErrorKind::OutOfMemory => return Err(DiskRefusal::NoMemory),
                _ => return Err(DiskRefusal::Faulted),
            },
        }
    }
    Err(DiskRefusal::Faulted)
}
