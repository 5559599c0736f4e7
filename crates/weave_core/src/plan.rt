//! A plan: pieces of work, each a list of adds to force words and at most one key of a fault.
ghost use Rattle.std.specs.Prelude.{◌≡◌, ◌^◌, ◌<◌, length, slice_get, option_copied, ◌==◌};

use std::marker::Model;

/// The adds of a piece, each a force word and a number in units of that word. Contracts see the list.
#[derive(Drop)]
pub struct Adds {
    items: Vec<(u32, i64)>,
}

impl Model for Adds {
    ghost use Rattle.std.specs.Prelude.{List, ℕ, ℤ};

    ghost Value = { List (ℕ × ℤ) };

    ghost view = { λ a. a.items.items };
}

impl Adds {
    /// These adds, in this order. Takes no memory.
    pub fn from_vec(items: Vec<(u32, i64)>) -> Adds
        ensures { result ≡ items.items }
    {
        Adds { items }
    }

    /// The adds as a `Vec` again. Takes no memory.
    pub fn into_vec(self) -> Vec<(u32, i64)>
        ensures { result.items ≡ self }
    {
        let Adds { items } = self;
        items
    }

    /// How many adds there are.
    pub fn len(&self) -> usize
        ensures count { result ≡ length self.now }
        ensures room { result < 2 ^ 63 }
    {
        self.items.len()
    }

    /// Whether there is none.
    pub fn is_empty(&self) -> bool
        ensures { result ≡ (length self.now == 0) }
    {
        self.items.is_empty()
    }

    /// The add at this place, if there is one.
    pub fn get(&self, place: usize) -> Option<(u32, i64)>
        ensures { result ≡ slice_get self.now place }
    {
        self.items.as_slice().get(place).copied()
    }
}

/// A piece of work: its adds, and the key of its least fault, if it has one.
#[derive(Drop)]
pub struct Piece {
    pub adds: Adds,
    pub key: Option<u64>,
}

/// The pieces of a plan, by number. Contracts see the list.
#[derive(Drop)]
pub struct Pieces {
    items: Vec<Piece>,
}

impl Model for Pieces {
    ghost use Rattle.std.specs.Prelude.{List};
    ghost use Rattle.weave_core.specs.declared.plan.Piece.{Piece};

    ghost Value = { List Piece };

    ghost view = { λ p. p.items.items };
}

impl Pieces {
    /// These pieces, in this order. Takes no memory.
    pub fn from_vec(items: Vec<Piece>) -> Pieces
        ensures { result ≡ items.items }
    {
        Pieces { items }
    }

    /// The pieces as a `Vec` again. Takes no memory.
    pub fn into_vec(self) -> Vec<Piece>
        ensures { result.items ≡ self }
    {
        let Pieces { items } = self;
        items
    }

    /// How many pieces there are.
    pub fn len(&self) -> usize
        ensures count { result ≡ length self.now }
        ensures room { result < 2 ^ 63 }
    {
        self.items.len()
    }

    /// Whether there is none.
    pub fn is_empty(&self) -> bool
        ensures { result ≡ (length self.now == 0) }
    {
        self.items.is_empty()
    }

    /// The piece of this number, if there is one.
    pub fn get(&self, piece: usize) -> Option<&Piece>
        ensures { option_copied result ≡ slice_get self.now piece }
    {
        self.items.as_slice().get(piece)
    }
}

/// How many force words there are, and the pieces of work.
#[derive(Drop)]
pub struct Plan {
    pub words: u32,
    pub pieces: Pieces,
}
