//! Pieces that are written to files of the program's folder, or to the standard output.
ghost use Rattle.std.specs.Prelude.{◌≡◌, ◌≤◌, IsTrue, None, not};
ghost use Rattle.std.specs.Fs.{asks_append, asks_create, asks_truncate, IsValidOptions};
ghost use Rattle.outside_real.specs.Counts.{put_faults_after};

use crate::writing::put_into;
use fx_num::Text;
use outside::{Press, PutRefusal, SCREEN};
use std::alloc::Global;
use std::fs::OpenOptions;
use std::io::ErrorKind;
use std::marker::Model;
use std::rt::Files;
use std::{io, str};

/// A writer to the files of the program's folder and, under the name [`SCREEN`], to the standard
/// output. Contracts see how often it failed.
#[derive(Drop)]
pub struct FilePress<R: Files + Print + Drop> {
    rt: R,
    faults: u64,
}

impl<R: Files + Print + Drop> Model for FilePress<R> {
    ghost use Rattle.std.specs.Prelude.{ℕ};

    ghost Value = { ℕ };

    ghost view = { λ p. p.faults };
}

impl<R: Files + Print + Drop> FilePress<R> {
    /// A press over the files and the output that the runtime reaches.
    pub fn new(rt: R) -> FilePress<R>
        ensures { result ≡ 0 }
    {
        FilePress { rt, faults: 0 }
    }
}

impl<R: Files + Print + Drop> Press for FilePress<R> {
    ghost seen = { λ faults. record { sent = None; faults = faults } };

    /// Writes a piece. A name that is no UTF-8 text is `Faulted`, as each failure is but want of
    /// memory before the first byte.
    fn put(
        &mut self,
        _alloc: Global,
        name: &Text,
        fresh: bool,
        bytes: &[u8],
    ) -> Result<(), PutRefusal>
        ensures counted { self.new ≡ put_faults_after self.old result }
        ensures faults_kept { self.old ≤ self.new }
    {
        if name.as_bytes() == SCREEN {
            return put_on_screen(&mut self.faults, &self.rt, bytes);
        }
        put_into(&mut self.faults, &mut open(&self.rt, name, fresh), bytes)
    }
}

/// Writes a piece to the standard output, and counts a failure.
pub(crate) fn put_on_screen<R: Print>(
    faults: &mut u64,
    rt: &R,
    bytes: &[u8],
) -> Result<(), PutRefusal>
    ensures counted { faults.new ≡ put_faults_after faults.old result }
    ensures faults_kept { faults.old ≤ faults.new }
{
    put_into(faults, &mut Ok(io::writer(rt)), bytes)
}

/// Opens the file of this name to write a piece of it.
fn open<R: Files>(rt: &R, name: &Text, fresh: bool) -> io::Result<R::File> {
    match str::from_utf8(name.as_bytes()) {
        Ok(path) => options(fresh).open(rt, path),
        Err(_) => Err(io::Error::from(ErrorKind::InvalidInput)),
    }
}

/// How a file is opened: it is made where it is not there, and emptied where it starts anew.
fn options(fresh: bool) -> OpenOptions
    ensures made { IsTrue (asks_create result) }
    ensures emptied { asks_truncate result ≡ fresh }
    ensures appended { asks_append result ≡ not fresh }
    ensures allowed { IsValidOptions result }
{
    let mut options = OpenOptions::new();
    options.create(true);
    if fresh {
        options.write(true).truncate(true);
    } else {
        options.append(true);
    }
    options
}
