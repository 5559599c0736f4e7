//! What is done with a file that was opened to be read.
ghost use Rattle.std.specs.Prelude.{◌≡◌, ◌<◌, ◌≤◌, ◌↔◌, ℕ, IsErrOf, IsErrAnd, IfOk, IfErr, OnOk, ◌⊎◌, length, take};
ghost use Rattle.std.specs.Io.KnownBytes.{Consumes, IsAtEnd};
ghost use Rattle.std.specs.IoError.{error_kind};
ghost use Rattle.outside.specs.Stock.{IsAbove};
ghost use Rattle.outside.specs.declared.shelf.TheConstants.{MAX_FETCHED};
ghost use Rattle.outside_real.specs.Bytes.{IsReadWhole, IsReadTooFar, LosesTooMany};

use fx_num::Text;
use outside::{FetchRefusal, MAX_FETCHED};
use std::alloc::Global;
use std::fs::OpenFile;
use std::io::{self, ErrorKind, Read};

/// A file is read by this many bytes at once.
const CHUNK: usize = 4096;

/// All bytes of what was opened.
///
/// # Errors
///
/// `Missing` exactly where it was not opened since there is no such file. `TooLong` where more than
/// [`MAX_FETCHED`] bytes were read. `Faulted`. `NoMemory`.
pub(crate) fn read_opened<F: Read + OpenFile>(
    alloc: Global,
    opened: &mut io::Result<F>,
) -> Result<Text, FetchRefusal>
    ensures whole { IfOk result (λ bytes. IsReadWhole F.remaining opened.old opened.new bytes) }
    ensures within_limit { IfOk result (λ bytes. length bytes ≤ MAX_FETCHED) }
    ensures too_long { (n : ℕ) → IsErrOf result (FetchRefusal.TooLong n) → IsReadTooFar F.remaining opened.old opened.new }
    ensures above_limit { IfErr result IsAbove }
    ensures missing { IsErrOf result FetchRefusal.Missing ↔ IsErrAnd opened.old (λ e. error_kind e ≡ ErrorKind.NotFound) }
{
    match opened {
        Ok(file) => match read_whole(alloc, file) {
            Err(FetchRefusal::TooLong(read)) => {
                Err(FetchRefusal::TooLong(length_of(file, read)))
            }
            answer => answer,
        },
        Err(error) => Err(refusal_of(error)),
    }
}

/// All bytes of a file. No length is trusted: one that has more than [`MAX_FETCHED`] bytes is left as
/// soon as so many were read, and the number of those is told.
pub(crate) fn read_whole<F: Read>(alloc: Global, file: &mut F) -> Result<Text, FetchRefusal>
    ensures read { IfOk result (λ bytes. Consumes (F.remaining file.old) (F.remaining file.new) bytes) }
    ensures end { OnOk result (IsAtEnd (F.remaining file.new)) }
    ensures within_limit { IfOk result (λ bytes. length bytes ≤ MAX_FETCHED) }
    ensures too_long { (n : ℕ) → IsErrOf result (FetchRefusal.TooLong n) → LosesTooMany (F.remaining file.old) (F.remaining file.new) }
    ensures above_limit { IfErr result IsAbove }
    ensures there { IsErrOf result FetchRefusal.Missing → ⊥ }
{
    let mut bytes = Text::new(alloc);
    let mut chunk = [0u8; CHUNK];
    for _ in 0..u64::MAX {
        let count = read_some(file, &mut chunk)?;
        if count == 0 {
            return Ok(bytes);
        }
        let length = bytes.as_bytes().len() as u64 + count as u64;
        if length > MAX_FETCHED {
            return Err(FetchRefusal::TooLong(length));
        }
        bytes.push(&chunk[..count])?;
    }
    Err(FetchRefusal::Faulted)
}

/// Reads at least one byte into the buffer, or none at the file's end.
fn read_some<F: Read>(file: &mut F, buffer: &mut [u8]) -> Result<usize, FetchRefusal>
    ensures within { IfOk result (λ count. count ≤ length buffer.old) }
    ensures read { IfOk result (λ count. Consumes (F.remaining file.old) (F.remaining file.new) (take count buffer.new)) }
    ensures end { IfOk result (λ count. count ≡ 0 → 0 < length buffer.old → IsAtEnd (F.remaining file.new)) }
    ensures fault { IfErr result (λ why. (why ≡ FetchRefusal.Faulted) ⊎ (why ≡ FetchRefusal.NoMemory)) }
{
    for _ in 0..u64::MAX {
        match file.read(buffer) {
            Ok(count) => return Ok(count),
            Err(error) => match error.kind() {
                ErrorKind::Interrupted => {}
                ErrorKind::OutOfMemory => return Err(FetchRefusal::NoMemory),
                _ => return Err(FetchRefusal::Faulted),
            },
        }
    }
    Err(FetchRefusal::Faulted)
}

/// The length that the file system tells of a file, and no less than what was read of it.
fn length_of(file: &impl OpenFile, read: u64) -> u64
    ensures { read ≤ result }
{
    match file.metadata() {
        Ok(metadata) => metadata.len().max(read),
        Err(_) => read,
    }
}

/// What a failure to open a file means.
fn refusal_of(error: &io::Error) -> FetchRefusal
    ensures missing { (result ≡ FetchRefusal.Missing) ↔ (error_kind error.now ≡ ErrorKind.NotFound) }
    ensures no_memory { (result ≡ FetchRefusal.NoMemory) ↔ (error_kind error.now ≡ ErrorKind.OutOfMemory) }
    ensures opened { (n : ℕ) → result ≡ FetchRefusal.TooLong n → ⊥ }
{
    match error.kind() {
        ErrorKind::NotFound => FetchRefusal::Missing,
        ErrorKind::OutOfMemory => FetchRefusal::NoMemory,
        _ => FetchRefusal::Faulted,
    }
}
