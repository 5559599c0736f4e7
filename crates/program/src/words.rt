//! The words of the command line, as the system gives them.
ghost use Rattle.std.specs.Prelude.{◌≡◌, ◌≢◌, ◌↔◌, IfOk, IsOk, IsErrAnd, IsErrOf, drop, map, string_bytes};
ghost use Rattle.std.specs.IoError.{error_kind};
ghost use Rattle.std.specs.Vec.Iter.{into_iter_items};
ghost use Rattle.session.specs.Ends.{number_of};
ghost use Rattle.program.specs.Request.{unread_number};

use fx_num::{NoMemory, Seq, Text};
use fxlmp_top::Status;
use std::alloc::Global;
use std::env::{self, Args};
use std::io::{self, ErrorKind};
use std::rt::Env;

/// Why the words of the command line could not be read.
#[derive(Clone, Copy, Debug, PartialEq, Eq)]
pub enum Unread {
    /// A word is not UTF-8 text, or the system does not tell the words.
    NotText,
    /// Out of memory.
    NoMemory,
}

impl Unread {
    /// How the program ends that could not read its words: they are faulty at place 0.
    pub(crate) fn status(self) -> Status
        ensures { number_of result ≡ unread_number self }
    {
        match self {
            Unread::NotText => Status::Usage { place: 0 },
            Unread::NoMemory => Status::NoMemory,
        }
    }
}

/// The words of the command line, without the program's name. No contract can say which words the
/// system gives.
///
/// # Errors
///
/// `NotText`, `NoMemory`.
pub fn read_words(rt: &(impl Env + AllocGlobal)) -> Result<Seq<Text>, Unread> {
    words_given(rt.alloc(), env::args(rt))
}

/// The words of what the system gave: all but the first, which is the program's name.
///
/// # Errors
///
/// `NotText` exactly where the system gave no words, for another reason than want of memory: the one
/// such reason is a word that is not UTF-8. `NoMemory`.
fn words_given(alloc: Global, given: io::Result<Args>) -> Result<Seq<Text>, Unread>
    ensures words { IfOk given (λ all. IfOk result (λ words. words ≡ map (λ word. string_bytes word) (drop 1 (into_iter_items all)))) }
    ensures not_text { IsErrOf result Unread.NotText ↔ IsErrAnd given (λ e. error_kind e ≢ ErrorKind.OutOfMemory) }
    ensures has_words { IsOk result → IsOk given }
{
    match given {
        Ok(all) => match words_listed(alloc, all) {
            Ok(words) => Ok(words),
            Err(NoMemory) => Err(Unread::NoMemory),
        },
        Err(error) if error.kind() == ErrorKind::OutOfMemory => Err(Unread::NoMemory),
        Err(_) => Err(Unread::NotText),
    }
}

/// The words of all that the system lists: the first is the program's name.
fn words_listed(alloc: Global, all: Args) -> Result<Seq<Text>, NoMemory>
    ensures { IfOk result (λ words. words ≡ map (λ word. string_bytes word) (drop 1 (into_iter_items all))) }
{
    match all.collect::<Vec<_>>(alloc) {
        Ok(all) => words_of(alloc, &all),
        Err(_) => Err(NoMemory),
    }
}

/// The words of a list whose first is the program's name.
fn words_of(alloc: Global, all: &[String]) -> Result<Seq<Text>, NoMemory>
    ensures { IfOk result (λ words. words ≡ map (λ word. string_bytes word) (drop 1 all.now)) }
{
    match all {
        [] => Ok(Seq::new(alloc)),
        [_, words @ ..] => texts_of(alloc, words),
    }
}

/// The texts of these words.
fn texts_of(alloc: Global, words: &[String]) -> Result<Seq<Text>, NoMemory>
    ensures { IfOk result (λ texts. texts ≡ map (λ word. string_bytes word) words.now) }
{
    let mut texts = Seq::new(alloc);
    for word in words {
        texts.push(Text::from_bytes(alloc, word.as_bytes())?)?;
    }
    Ok(texts)
}
