//! Calls that were made on a disk, and what the files have come to by them.
ghost use Rattle.std.specs.Prelude.{◌≡◌, ◌≤◌, ◌++◌, length, take, min, IfOk};
ghost use Rattle.disk_outside.specs.Disk.{written};
ghost use Rattle.disk_outside.specs.Memory.{changed, first_bytes, ops_of, pool_length, seen_after};

use fx_num::{NoMemory, Text};
use outside::Files;
use std::alloc::Global;

/// What a call does to its file.
#[derive(Clone, Copy)]
pub enum Kind {
    /// Writes bytes at the place.
    Write,
    /// Cuts the file to the length.
    Cut,
    /// Waits until the file is on the disk.
    Sync,
}

/// A call that was done. Its name and its bytes stand elsewhere, one after the other.
#[derive(Clone, Copy)]
pub struct Call {
    /// The number of the call among all of the disk, the first being 0.
    pub number: u64,
    /// What it does.
    pub kind: Kind,
    /// The place of a write, the length of a cut.
    pub at: u64,
    /// How many bytes its name has.
    pub name: usize,
    /// How many bytes it writes.
    pub bytes: usize,
}

/// The bytes of a file after these calls, whose names and bytes lie in the pool one after the other.
pub fn replayed(
    alloc: Global,
    files: &Files,
    calls: &[Call],
    pool: &[u8],
    name: &Text,
) -> Result<Vec<u8>, NoMemory>
    requires { pool_length calls.now ≡ length pool.now }
    ensures { IfOk result (λ v. v.items ≡ seen_after name.now (ops_of calls.now pool.now) (first_bytes files.now name.now)) }
{
    let mut bytes = first_of(alloc, files, name)?;
    let mut left = calls;
    let mut rest = pool;
    while let Some((call, later)) = left.split_first() {
        let (title, behind) = rest.split_at(call.name);
        let (added, behind) = behind.split_at(call.bytes);
        if title == name.as_bytes() {
            bytes = after(alloc, call, &bytes, added)?;
        }
        left = later;
        rest = behind;
    }
    Ok(bytes)
}

/// The bytes under a name in the first files, or none.
fn first_of(alloc: Global, files: &Files, name: &Text) -> Result<Vec<u8>, NoMemory>
    ensures { IfOk result (λ v. v.items ≡ first_bytes files.now name.now) }
{
    match files.content(name) {
        None => Ok(Vec::new(alloc)),
        Some(bytes) => Ok(Vec::from_slice(alloc, bytes.as_bytes())?),
    }
}

/// The bytes of a file after a call on it.
fn after(alloc: Global, call: &Call, old: &[u8], added: &[u8]) -> Result<Vec<u8>, NoMemory>
    ensures { IfOk result (λ v. v.items ≡ changed call.now.kind call.now.at added.now old.now) }
{
    match call.kind {
        Kind::Write => overwritten(alloc, old, within(call.at, old), added),
        Kind::Cut => Ok(Vec::from_slice(alloc, &old[..within(call.at, old)])?),
        Kind::Sync => Ok(Vec::from_slice(alloc, old)?),
    }
}

/// The place, or the length where that is less.
fn within(at: u64, bytes: &[u8]) -> usize
    ensures { result ≡ min at (length bytes.now) }
{
    if at < bytes.len() as u64 {
        at as usize
    } else {
        bytes.len()
    }
}

/// A copy of the old bytes with the added ones over them from the place on.
fn overwritten(alloc: Global, old: &[u8], at: usize, added: &[u8]) -> Result<Vec<u8>, NoMemory>
    requires { at ≤ length old.now }
    ensures { IfOk result (λ v. v.items ≡ written old.now at added.now) }
{
    let mut bytes = Vec::from_slice(alloc, &old[..at])?;
    bytes.extend_from_slice(added)?;
    if added.len() < old.len() - at {
        bytes.extend_from_slice(&old[at + added.len()..])?;
    }
    Ok(bytes)
}
