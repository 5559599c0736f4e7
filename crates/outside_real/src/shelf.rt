//! Files that are read by name in the program's folder.
ghost use Rattle.std.specs.Prelude.{◌≡◌, ◌≤◌, None, IfOk, IfErr, length};
ghost use Rattle.outside.specs.Stock.{IsAbove};
ghost use Rattle.outside.specs.declared.shelf.TheConstants.{MAX_FETCHED};
ghost use Rattle.outside_real.specs.Counts.{shelf_counts_after};

use crate::reading::read_opened;
use fx_num::Text;
use outside::{FetchRefusal, Shelf};
use std::alloc::Global;
use std::io::ErrorKind;
use std::marker::Model;
use std::rt::Files;
use std::{fs, io, str};

/// The files of the program's folder, by their names. Contracts see what it counts.
#[derive(Drop)]
pub struct FileShelf<R: Files + Drop> {
    files: R,
    faults: u64,
    absent: u64,
}

impl<R: Files + Drop> Model for FileShelf<R> {
    ghost use Rattle.outside_real.specs.Counts.{ShelfCounts};

    ghost Value = { ShelfCounts };

    ghost view = { λ s. record { faults = s.faults; absent = s.absent } };
}

impl<R: Files + Drop> FileShelf<R> {
    /// A shelf over the files that the runtime reaches.
    pub fn new(files: R) -> FileShelf<R>
        ensures { result ≡ record { faults = 0; absent = 0 } }
    {
        FileShelf {
            files,
            faults: 0,
            absent: 0,
        }
    }

    /// The answer of a fetch, counted.
    fn counted(&mut self, answer: Result<Text, FetchRefusal>) -> Result<Text, FetchRefusal>
        ensures same { result ≡ answer }
        ensures counted { self.new ≡ shelf_counts_after self.old answer }
        ensures faults_kept { self.old.faults ≤ self.new.faults }
        ensures absent_kept { self.old.absent ≤ self.new.absent }
    {
        match &answer {
            Err(FetchRefusal::Missing | FetchRefusal::TooLong(_)) => {
                self.absent = self.absent.saturating_add(1);
            }
            Err(FetchRefusal::Faulted) => self.faults = self.faults.saturating_add(1),
            Ok(_) | Err(FetchRefusal::NoMemory) => {}
        }
        answer
    }
}

impl<R: Files + Drop> Shelf for FileShelf<R> {
    ghost seen = { λ counts. record { stock = None; faults = counts.faults; absent = counts.absent } };

    /// Reads a file. A name that is no UTF-8 text is `Missing`; any failure but want of memory and
    /// that there is no such file is `Faulted`.
    fn fetch(&mut self, alloc: Global, name: &Text) -> Result<Text, FetchRefusal>
        ensures within_limit { IfOk result (λ bytes. length bytes ≤ MAX_FETCHED) }
        ensures above_limit { IfErr result IsAbove }
        ensures counted { self.new ≡ shelf_counts_after self.old result }
        ensures faults_kept { self.old.faults ≤ self.new.faults }
        ensures absent_kept { self.old.absent ≤ self.new.absent }
    {
        let answer = read_opened(alloc, &mut open(&self.files, name));
        self.counted(answer)
    }
}

/// Opens the file of this name to read it.
fn open<R: Files>(files: &R, name: &Text) -> io::Result<R::File> {
    match str::from_utf8(name.as_bytes()) {
        Ok(path) => fs::open(files, path),
        Err(_) => Err(io::Error::from(ErrorKind::NotFound)),
    }
}
