//! Files by name, as a list.
ghost use Rattle.std.specs.Prelude.{◌≡◌, IsErrOf};
ghost use Rattle.std.specs.Option.{option_copied};
ghost use Rattle.outside.specs.Stock.{content, has_distinct_names, has_name, Fetches};

use crate::shelf::{FetchRefusal, MAX_FETCHED};
use fx_num::Text;
use std::alloc::Global;
use std::marker::Model;

/// A file: its name and its bytes.
#[derive(Drop)]
pub struct File {
    /// The name, any bytes.
    pub name: Text,
    /// The content.
    pub bytes: Text,
}

/// A list of files. Contracts see just the list.
#[derive(Drop)]
pub struct Files {
    items: Vec<File>,
}

impl Model for Files {
    ghost use Rattle.std.specs.Prelude.{List};
    ghost use Rattle.outside.specs.declared.files.File.{File};

    ghost Value = { List File };

    ghost view = { λ f. f.items.items };
}

impl Files {
    /// The files of a vector.
    pub fn new(items: Vec<File>) -> Files
        ensures { result ≡ items.items }
    {
        Files { items }
    }

    /// The vector of the files.
    pub fn into_vec(self) -> Vec<File>
        ensures { result.items ≡ self }
    {
        self.items
    }

    /// The files, in their order.
    pub fn as_slice(&self) -> &[File]
        ensures { result.now ≡ self.now }
    {
        &self.items
    }

    /// Whether no two files have one name, as a shelf wants them.
    pub fn has_distinct_names(&self) -> bool
        ensures { result ≡ has_distinct_names self.now }
    {
        let mut rest = self.items.as_slice();
        while let Some((first, others)) = rest.split_first() {
            if has_name(others, &first.name) {
                return false;
            }
            rest = others;
        }
        true
    }

    /// The bytes under a name, or `None` where no file has it.
    pub fn content(&self, name: &Text) -> Option<&Text>
        ensures { option_copied result ≡ content self.now name.now }
    {
        self.items
            .iter()
            .find(|f| f.name.same(name))
            .map(|f| &f.bytes)
    }

    /// A copy of the bytes under a name.
    ///
    /// # Errors
    ///
    /// `Missing` where no file has the name, `TooLong` where its bytes are more than
    /// [`MAX_FETCHED`], and `NoMemory`.
    pub fn fetch(&self, alloc: Global, name: &Text) -> Result<Text, FetchRefusal>
        ensures told { Fetches (content self.now name.now) result }
        ensures no_fault { IsErrOf result FetchRefusal.Faulted → ⊥ }
    {
        match self.content(name) {
            None => Err(FetchRefusal::Missing),
            Some(bytes) => copy_within_limit(alloc, bytes),
        }
    }
}

/// Whether a file has the name.
fn has_name(files: &[File], name: &Text) -> bool
    ensures { result ≡ has_name files.now name.now }
{
    files.iter().any(|f| f.name.same(name))
}

/// A copy of the bytes, if they are not too many.
fn copy_within_limit(alloc: Global, bytes: &Text) -> Result<Text, FetchRefusal>
    ensures told { Fetches (Some bytes.now) result }
    ensures no_fault { IsErrOf result FetchRefusal.Faulted → ⊥ }
{
    let length = bytes.as_bytes().len() as u64;
    if length > MAX_FETCHED {
        return Err(FetchRefusal::TooLong(length));
    }
    Ok(bytes.copy(alloc)?)
}
