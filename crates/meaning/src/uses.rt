//! The uses of file names.
ghost use Rattle.std.specs.Prelude.{◌≡◌, ◌++◌, [], ◌∷◌, false, OnErr, OnOk};
ghost use Rattle.meaning.specs.Answers.{Answers};
ghost use Rattle.meaning.specs.Uses.{begun, begun_at, has_begun, is_same_kind, kind_of, names, code_in};

use crate::code::Code;
use crate::refusal::SettingsRefusal;
use fx_num::{NoMemory, Text};
use names::is_compressed;
use std::alloc::Global;
use std::marker::Model;

/// What a file's name is used for in a call of the program. The first use fixes it.
#[derive(Clone, Copy, PartialEq, Eq, Debug)]
pub enum UseKind {
    /// The file is fetched.
    Fetched,
    /// Pieces are put under the name.
    Put,
    /// Restarts are kept under the name.
    Kept,
    /// The report is put under the name.
    Report,
}

impl UseKind {
    /// Whether the two are one kind.
    pub fn is_same(&self, other: &UseKind) -> bool
        ensures { result ≡ is_same_kind self.now other.now }
    {
        match (self, other) {
            (UseKind::Fetched, UseKind::Fetched) => true,
            (UseKind::Put, UseKind::Put) => true,
            (UseKind::Kept, UseKind::Kept) => true,
            (UseKind::Report, UseKind::Report) => true,
            _ => false,
        }
    }
}

/// A use of a name.
#[derive(Drop)]
pub struct NameUse {
    /// The name.
    pub name: Text,
    /// What it is used for.
    pub kind: UseKind,
    /// Whether a piece was put under it. The next one is fresh where none was.
    pub begun: bool,
}

/// The uses of names since the call began. Contracts see the list.
#[derive(Drop)]
pub struct Uses {
    items: Vec<NameUse>,
}

impl Model for Uses {
    ghost use Rattle.std.specs.Prelude.{List};
    ghost use Rattle.meaning.specs.declared.uses.NameUse.{NameUse};

    ghost Value = { List NameUse };

    ghost view = { λ u. u.items.items };
}

impl Uses {
    /// No uses yet.
    pub fn new(alloc: Global) -> Uses
        ensures { result ≡ [] }
    {
        Uses {
            items: Vec::new(alloc),
        }
    }

    /// The code with which a use of a name is refused: it has another use, or else it stands for a compressed file.
    pub fn refusal_of(&self, kind: UseKind, name: &Text) -> Option<Code>
        ensures { result ≡ code_in (names kind name.now self.now) }
    {
        if let Some(other) = self.kind_of(name)
            && !kind.is_same(&other)
        {
            return Some(Code::NameUse);
        }
        if is_compressed(name.as_bytes()) {
            return Some(Code::CompressedName);
        }
        None
    }

    /// Uses a name: refused where it has another use, and then where it stands for a compressed file.
    pub fn add(&mut self, alloc: Global, kind: UseKind, name: &Text) -> Result<(), SettingsRefusal>
        ensures { Answers (names kind name.now self.old) result self.old self.new }
    {
        let known = self.kind_of(name);
        if let Some(other) = known
            && !kind.is_same(&other)
        {
            return Err(SettingsRefusal::Code(Code::NameUse));
        }
        if is_compressed(name.as_bytes()) {
            return Err(SettingsRefusal::Code(Code::CompressedName));
        }
        if known.is_some() {
            return Ok(());
        }
        let name = name.copy(alloc)?;
        self.push(name, kind)?;
        Ok(())
    }

    /// Appends a use of a name, without judging it.
    pub fn push(&mut self, name: Text, kind: UseKind) -> Result<(), NoMemory>
        ensures appended { OnOk result (self.new ≡ self.old ++ record { name = name; kind = kind; begun = false } ∷ []) }
        ensures unchanged { OnErr result (self.new ≡ self.old) }
    {
        self.items.push(NameUse {
            name,
            kind,
            begun: false,
        })?;
        Ok(())
    }

    /// What a name is used for.
    pub fn kind_of(&self, name: &Text) -> Option<UseKind>
        ensures { result ≡ kind_of self.now name.now }
    {
        for entry in &self.items {
            if entry.name.same(name) {
                return Some(entry.kind);
            }
        }
        None
    }

    /// Whether a piece was put under a name.
    pub fn has_begun(&self, name: &[u8]) -> bool
        ensures { result ≡ has_begun self.now name.now }
    {
        for entry in &self.items {
            if entry.begun && entry.name.as_bytes() == name {
                return true;
            }
        }
        false
    }

    /// Notes that a piece was put under a name.
    pub fn begin(&mut self, name: &[u8])
        ensures { self.new ≡ begun name.now self.old }
    {
        begin(&mut self.items, name)
    }
}

/// Notes that a piece was put under a name.
fn begin(uses: &mut [NameUse], name: &[u8])
    ensures { uses.new ≡ begun name.now uses.old }
{
    for i in 0..uses.len() {
        begin_at(&mut uses[i], name);
    }
}

/// Notes that a piece was put under a name, where the use is of that name.
fn begin_at(entry: &mut NameUse, name: &[u8])
    ensures { entry.new ≡ begun_at name.now entry.old }
{
    if entry.name.as_bytes() == name {
        entry.begun = true;
    }
}
