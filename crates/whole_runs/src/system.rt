//! A system that gives the words of a command line.
use fx_num::{NoMemory, Seq, Text};
use program::{Unread, read_words};
use std::alloc::Global;
use std::env::FillError;
use std::rt::Env;
use std::{io, str};

/// A system that gives these words, the program's name first.
#[derive(Clone, Copy)]
struct System<'a> {
    words: &'a [Text],
}

impl Env for System<'_> {
    fn arg(&self, i: usize, buf: &mut [u8]) -> Result<usize, FillError> {
        let Some(word) = self.words.get(i) else {
            return Err(FillError::NotPresent);
        };
        let word = word.as_bytes();
        if word.len() > buf.len() {
            return Err(FillError::TooLong);
        }
        buf[..word.len()].copy_from_slice(word);
        Ok(word.len())
    }

    fn var(&self, _name: &str, _buf: &mut [u8]) -> Result<usize, FillError> {
        Err(FillError::NotPresent)
    }

    fn var_at(&self, _i: usize, _buf: &mut [u8]) -> Result<usize, FillError> {
        Err(FillError::NotPresent)
    }
}

/// Reads the words of a command line from a system that gives these, and prints them.
pub(crate) fn print_words_read(rt: &impl Print, alloc: Global, words: &[Text]) -> io::Result<()> {
    match read_words(&(System { words }, alloc)) {
        Ok(words) => print_words(rt, words.as_slice()),
        Err(Unread::NotText) => println!(rt; "no text"),
        Err(Unread::NoMemory) => println!(rt; "no memory"),
    }
}

/// Prints the number of the words, and each.
fn print_words(rt: &impl Print, words: &[Text]) -> io::Result<()> {
    let count = words.len();
    println!(rt; "words {count}")?;
    for word in words {
        match str::from_utf8(word.as_bytes()) {
            Ok(word) => println!(rt; "+ {word}")?,
            Err(_) => println!(rt; "(no text)")?,
        }
    }
    Ok(())
}
