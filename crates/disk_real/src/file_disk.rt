//! Files of the program's folder that are written at any place, cut and synced.
ghost use Rattle.std.specs.Prelude.{◌≡◌, ◌≤◌, IfOk, length};
ghost use Rattle.disk_outside.specs.Disk.{untold};
ghost use Rattle.disk_outside.specs.declared.disk.TheConstants.{MAX_READ};
ghost use Rattle.disk_real.specs.Counts.{faults_after, read_faults_after};

use crate::reading::read_opened;
use crate::writing::{cut_opened, options, sync_opened, write_opened};
use disk_outside::{Disk, DiskRefusal, Failed};
use fx_num::Text;
use std::alloc::Global;
use std::io::ErrorKind;
use std::marker::Model;
use std::rt::Files;
use std::{fs, io, str};

/// The files of the program's folder, by their names. Contracts see how often it failed.
///
/// A file that is written, cut or synced is made where it is not there.
#[derive(Drop)]
pub struct FileDisk<R: Files + Drop> {
    files: R,
    faults: u64,
}

impl<R: Files + Drop> Model for FileDisk<R> {
    ghost use Rattle.std.specs.Prelude.{ℕ};

    ghost Value = { ℕ };

    ghost view = { λ d. d.faults };
}

impl<R: Files + Drop> FileDisk<R> {
    /// A disk over the files that the runtime reaches.
    pub fn new(files: R) -> FileDisk<R>
        ensures { result ≡ 0 }
    {
        FileDisk { files, faults: 0 }
    }

    /// The answer of a call that changes a file, counted.
    fn counted(&mut self, answer: Result<(), Failed>) -> Result<(), Failed>
        ensures same { result ≡ answer }
        ensures counted { self.new ≡ faults_after self.old answer }
        ensures faults_kept { self.old ≤ self.new }
    {
        if answer.is_err() {
            self.faults = self.faults.saturating_add(1);
        }
        answer
    }
}

impl<R: Files + Drop> Disk for FileDisk<R> {
    ghost told = { ⊥ };

    ghost view = { λ faults. untold faults };

    ghost orderly = { λ _ told. absurd told };

    /// Reads a file; one that is not there has no bytes. A name that is no UTF-8 text is `Faulted`, as each failure is
    /// but want of memory.
    fn read(&mut self, alloc: Global, name: &Text) -> Result<Text, DiskRefusal>
        ensures within_limit { IfOk result (λ bytes. length bytes ≤ MAX_READ) }
        ensures counted { self.new ≡ read_faults_after self.old result }
        ensures faults_kept { self.old ≤ self.new }
    {
        let answer = read_opened(alloc, &mut open(&self.files, name));
        if let Err(DiskRefusal::Faulted) = &answer {
            self.faults = self.faults.saturating_add(1);
        }
        answer
    }

    fn write_at(&mut self, name: &Text, at: u64, bytes: &[u8]) -> Result<(), Failed>
        ensures counted { self.new ≡ faults_after self.old result }
        ensures faults_kept { self.old ≤ self.new }
    {
        let answer = write_opened(&mut open_to_write(&self.files, name), at, bytes);
        self.counted(answer)
    }

    fn cut(&mut self, name: &Text, length: u64) -> Result<(), Failed>
        ensures counted { self.new ≡ faults_after self.old result }
        ensures faults_kept { self.old ≤ self.new }
    {
        let answer = cut_opened(&open_to_write(&self.files, name), length);
        self.counted(answer)
    }

    /// Waits for the file, and for its name in its folder.
    fn sync(&mut self, name: &Text) -> Result<(), Failed>
        ensures counted { self.new ≡ faults_after self.old result }
        ensures faults_kept { self.old ≤ self.new }
    {
        let answer = sync_both(&self.files, name);
        self.counted(answer)
    }
}

/// Waits for the file, and for its name in its folder.
fn sync_both<R: Files>(files: &R, name: &Text) -> Result<(), Failed> {
    sync_opened(&open_to_write(files, name))?;
    sync_opened(&open_folder(files, name))
}

/// Opens the file of this name to read it.
fn open<R: Files>(files: &R, name: &Text) -> io::Result<R::File> {
    match str::from_utf8(name.as_bytes()) {
        Ok(path) => fs::open(files, path),
        Err(_) => Err(io::Error::from(ErrorKind::InvalidInput)),
    }
}

/// Opens the file of this name to change it.
fn open_to_write<R: Files>(files: &R, name: &Text) -> io::Result<R::File> {
    match str::from_utf8(name.as_bytes()) {
        Ok(path) => options().open(files, path),
        Err(_) => Err(io::Error::from(ErrorKind::InvalidInput)),
    }
}

/// Opens the folder of the file of this name: what stands before the last slash.
fn open_folder<R: Files>(files: &R, name: &Text) -> io::Result<R::File> {
    match str::from_utf8(name.as_bytes()) {
        Ok(path) => match path.rsplit_once('/') {
            Some(("", _)) => fs::open(files, "/"),
            Some((folder, _)) => fs::open(files, folder),
            None => fs::open(files, "."),
        },
        Err(_) => Err(io::Error::from(ErrorKind::InvalidInput)),
    }
}
