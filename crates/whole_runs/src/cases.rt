//! Cases, line by line.
use crate::call::call;
use crate::outer::{self, Outcome};
use crate::print::{print_call, print_outcome};
use crate::system::print_words_read;
use fx_num::{NoMemory, Seq, Text};
use fxlmp_top::Status;
use outside::{Calls, Cut, Cuts, File, Files, SurePress};
use program::Unread;
use std::alloc::Global;
use std::io;
use std::thread::Threads;

/// The case at hand: what its runs find.
#[derive(Drop)]
pub(crate) struct Cases {
    /// The files; the last one grows.
    files: Vec<File>,
    /// The fetches that fail.
    fail: Vec<u64>,
    /// The puts that fail.
    cuts: Vec<Cut>,
    /// At most so many lines of a text are printed.
    most: u64,
}

impl Cases {
    /// No file, and no call that fails.
    pub(crate) fn new(alloc: Global) -> Cases {
        Cases {
            files: Vec::new(alloc),
            fail: Vec::new(alloc),
            cuts: Vec::new(alloc),
            most: u64::MAX,
        }
    }

    /// Does what a line of the input says.
    pub(crate) fn obey<R: AllocGlobal + Print + Threads + Sync>(
        &mut self,
        rt: &R,
        line: &str,
    ) -> io::Result<()> {
        let (word, rest) = line.split_once(' ').unwrap_or((line, ""));
        match word {
            "" | "#" => Ok(()),
            "==" => println!(rt; "{line}"),
            "clear" => {
                *self = Cases::new(rt.alloc());
                Ok(())
            }
            "run" => match words_of(rt.alloc(), rest) {
                Ok(words) => self.run(rt, Ok(words)),
                Err(NoMemory) => println!(rt; "no memory"),
            },
            "given" => match words_of(rt.alloc(), rest) {
                Ok(words) => print_words_read(rt, rt.alloc(), words.as_slice()),
                Err(NoMemory) => println!(rt; "no memory"),
            },
            "call" => self.call(rt, rest),
            "unread" => self.run(rt, Err(Unread::NotText)),
            _ => match self.set(rt.alloc(), word, rest) {
                Ok(Some(())) => Ok(()),
                Ok(None) => println!(rt; "no line of a case: {line}"),
                Err(NoMemory) => println!(rt; "no memory"),
            },
        }
    }

    /// Adds to the case what a line says. `None` where it says nothing that can be added.
    fn set(&mut self, alloc: Global, word: &str, rest: &str) -> Result<Option<()>, NoMemory> {
        match word {
            "file" => self.begin(alloc, rest).map(Some),
            "|" => self.append(&[rest, "\n"]),
            "+" => self.append(&[rest]),
            "fill" => self.fill(rest),
            "copy" => self.append_copy(alloc, rest),
            "fail" => self.add_failing_fetch(rest),
            "cut" => self.add_cut(rest),
            "mend" => {
                self.fail.clear();
                self.cuts.clear();
                Ok(Some(()))
            }
            "lines" => Ok(rest.parse().ok().map(|most| self.most = most)),
            _ => Ok(None),
        }
    }

    /// Begins a file, in place of one of this name.
    fn begin(&mut self, alloc: Global, name: &str) -> Result<(), NoMemory> {
        self.files
            .retain(|file| file.name.as_bytes() != name.as_bytes());
        self.files.push(File {
            name: Text::from_bytes(alloc, name.as_bytes())?,
            bytes: Text::new(alloc),
        })?;
        Ok(())
    }

    /// Appends these texts to the last file.
    fn append(&mut self, texts: &[&str]) -> Result<Option<()>, NoMemory> {
        let Some(file) = self.files.last_mut() else {
            return Ok(None);
        };
        for text in texts {
            file.bytes.push(text.as_bytes())?;
        }
        Ok(Some(()))
    }

    /// Appends a text so many times to the last file.
    fn fill(&mut self, rest: &str) -> Result<Option<()>, NoMemory> {
        let (Some((count, text)), Some(file)) = (number_and(rest), self.files.last_mut()) else {
            return Ok(None);
        };
        for _ in 0..count {
            file.bytes.push(text.as_bytes())?;
        }
        Ok(Some(()))
    }

    /// Appends the bytes of the file of this name to the last file.
    fn append_copy(&mut self, alloc: Global, name: &str) -> Result<Option<()>, NoMemory> {
        let Some(from) = self
            .files
            .iter()
            .find(|file| file.name.as_bytes() == name.as_bytes())
        else {
            return Ok(None);
        };
        let bytes = from.bytes.copy(alloc)?;
        let Some(file) = self.files.last_mut() else {
            return Ok(None);
        };
        file.bytes.push(bytes.as_bytes())?;
        Ok(Some(()))
    }

    /// Adds a fetch that fails.
    fn add_failing_fetch(&mut self, rest: &str) -> Result<Option<()>, NoMemory> {
        let Ok(call) = rest.parse() else {
            return Ok(None);
        };
        self.fail.push(call)?;
        Ok(Some(()))
    }

    /// Adds a put that fails.
    fn add_cut(&mut self, rest: &str) -> Result<Option<()>, NoMemory> {
        let Some((call, kept)) = number_and(rest) else {
            return Ok(None);
        };
        let Ok(kept) = kept.parse() else {
            return Ok(None);
        };
        self.cuts.push(Cut { call, kept })?;
        Ok(Some(()))
    }

    /// Runs the program with these words, or none, and prints what it came to.
    fn run<R: AllocGlobal + Print + Threads + Sync>(
        &self,
        rt: &R,
        read: Result<Seq<Text>, Unread>,
    ) -> io::Result<()> {
        match self.outcome(rt, read) {
            Ok(Some(outcome)) => print_outcome(rt, &outcome, self.most),
            Ok(None) => println!(rt; "two files with one name"),
            Err(NoMemory) => println!(rt; "no memory"),
        }
    }

    /// Makes the top call with these words, and prints what it came to.
    fn call<R: AllocGlobal + Print + Threads + Sync>(&self, rt: &R, rest: &str) -> io::Result<()> {
        match self.called(rt, rest) {
            Ok(Some((status, press))) => print_call(rt, &status, press.pieces(), self.most),
            Ok(None) => println!(rt; "two files with one name"),
            Err(NoMemory) => println!(rt; "no memory"),
        }
    }

    /// What the top call comes to with these words. `None` where two files have one name.
    fn called<R: AllocGlobal + Threads + Sync>(
        &self,
        rt: &R,
        rest: &str,
    ) -> Result<Option<(Status, SurePress)>, NoMemory> {
        let words = words_of(rt.alloc(), rest)?;
        let files = copies_of(rt.alloc(), &self.files)?;
        call(rt, words.as_slice(), Files::new(files))
    }

    /// What the program comes to with these words, or none. `None` where two files have one name.
    fn outcome<R: AllocGlobal + Threads + Sync>(
        &self,
        rt: &R,
        read: Result<Seq<Text>, Unread>,
    ) -> Result<Option<Outcome>, NoMemory> {
        let files = copies_of(rt.alloc(), &self.files)?;
        let fail = Vec::from_slice(rt.alloc(), &self.fail)?;
        let cuts = Vec::from_slice(rt.alloc(), &self.cuts)?;
        outer::run(
            rt,
            read,
            Files::new(files),
            Calls::new(fail),
            Cuts::new(cuts),
        )
    }
}

/// Copies of the files.
fn copies_of(alloc: Global, files: &[File]) -> Result<Vec<File>, NoMemory> {
    let mut copies = Vec::new(alloc);
    for file in files {
        copies.push(File {
            name: file.name.copy(alloc)?,
            bytes: file.bytes.copy(alloc)?,
        })?;
    }
    Ok(copies)
}

/// The number at the start of a text, and what stands behind the blank after it.
fn number_and(text: &str) -> Option<(u64, &str)> {
    let (number, rest) = text.split_once(' ')?;
    Some((number.parse().ok()?, rest))
}

/// The words of a text that are parted by blanks. Two single quotes alone stand for a word without bytes, and `%` for a
/// byte that no text has.
fn words_of(alloc: Global, text: &str) -> Result<Seq<Text>, NoMemory> {
    let mut words = Seq::new(alloc);
    for word in text.split(' ') {
        match word {
            "" => {}
            "''" => words.push(Text::new(alloc))?,
            _ => words.push(word_of(alloc, word)?)?,
        }
    }
    Ok(words)
}

/// A word that has bytes.
fn word_of(alloc: Global, text: &str) -> Result<Text, NoMemory> {
    let mut word = Text::new(alloc);
    for byte in text.as_bytes() {
        word.push(&[if *byte == b'%' { b'\xff' } else { *byte }])?;
    }
    Ok(word)
}
