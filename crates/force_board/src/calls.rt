//! The calls on a board: each is one atomic step on one word, but `join` and `rewind`, which are two.
ghost use Rattle.std.specs.Prelude.{◌≡◌, ◌+◌, ◌*◌, ◌<◌, ◌≤◌, [], ◌∷◌, ◌++◌, length, pos, All, FitsSigned, IfNone, IfOk, IfSome};
ghost use mir.Syntax.{w64};
ghost use Rattle.weave_core.specs.Parts.{fresh, claimed, added, lowered, collected, unclaimed, unkeyed, giving, both, total_at};
ghost use Rattle.force_board.specs.Steps.{Knows};
ghost use Rattle.force_board.specs.Seats.{pieces_of, words_of, part, IsSeatOf};

use crate::board::{Board, Seat};
use crate::limits::{MAX_ATOMS, WORDS_PER_ATOM};
use crate::rule::{Add, Both, Claim, Collect, Count, Cut, Look, Lower, Number, Unclaim, Unkey};
use atomic_table::Table;
use fx_num::NoMemory;
use std::alloc::Global;
use std::marker::Brand;
use weave_core::{MAX_PIECES, NO_KEY, SHARES};

impl Board {
    /// A board for so many atoms and pieces, and the first seat, which has all shares and nothing else.
    /// Nothing is claimed or added, and there is no key.
    pub fn new(alloc: Global, atoms: u32, pieces: u32) -> Result<(Board, Seat), NoMemory>
        requires atoms { atoms ≤ MAX_ATOMS }
        requires pieces { pieces ≤ MAX_PIECES }
        ensures pieces { IfOk result (λ b. pieces_of b.0 ≡ pieces) }
        ensures words { IfOk result (λ b. words_of b.0 ≡ WORDS_PER_ATOM * atoms) }
        ensures seat { IfOk result (λ b. IsSeatOf b.0 b.1) }
        ensures part { IfOk result (λ b. part b.1 ≡ fresh SHARES) }
    {
        let count = WORDS_PER_ATOM * atoms;
        let mut words = Vec::from_elem(alloc, 0u64, count as usize + 2)?;
        words[1] = NO_KEY;
        let (table, seat) = Table::of_words(alloc, words.as_slice(), &(pieces, count))?;
        Ok((
            Board {
                table,
                pieces,
                count,
            },
            seat,
        ))
    }

    /// Claims the next piece, and answers its number, or `None` once every piece was claimed. A number is
    /// greater than each piece that the seat has. Each claim in vain uses up a share of the seat for misses.
    pub fn claim(&self, seat: &mut Seat) -> Option<u32>
        requires seat { IsSeatOf self.now seat.old }
        requires room { (part seat.old).misses < (part seat.old).shares }
        ensures seat { IsSeatOf self.now seat.new }
        ensures miss { IfNone result (part seat.new ≡ record (part seat.old) { misses = (part seat.old).misses + 1 }) }
        ensures piece { IfSome result (λ n. part seat.new ≡ record (part seat.old) { pieces = (part seat.old).pieces ++ n ∷ [] }) }
        ensures below { IfSome result (λ n. n < pieces_of self.now) }
        ensures greater { IfSome result (λ n. All (λ piece. piece < n) (part seat.old).pieces) }
        ensures known { Knows (pieces_of self.now) (part seat.new) }
    {
        let number = self.draw::<Brand>(seat);
        if number < self.pieces as u64 {
            Some(number as u32)
        } else {
            None
        }
    }

    // The number that a claim draws.
    fn draw<N: Number>(&self, seat: &mut Seat) -> u64
        requires number { N.number ≡ pieces_of self.now }
        requires seat { IsSeatOf self.now seat.old }
        requires room { (part seat.old).misses < (part seat.old).shares }
        ensures seat { IsSeatOf self.now seat.new }
        ensures drawn { part seat.new ≡ claimed (pieces_of self.now) (part seat.old) result }
        ensures greater { All (λ piece. piece < result) (part seat.old).pieces }
        ensures known { Knows (pieces_of self.now) (part seat.new) }
    {
        self.table.shared.fetch_add::<Claim<N>>(seat, 0, 1)
    }

    /// Adds a number to a force word, modulo 2^64.
    pub fn add(&self, seat: &mut Seat, word: u32, value: i64)
        requires seat { IsSeatOf self.now seat.old }
        requires word { word < words_of self.now }
        ensures seat { IsSeatOf self.now seat.new }
        ensures added { part seat.new ≡ added (part seat.old) word value }
    {
        let operand = value.cast_unsigned();
        self.table
            .shared
            .fetch_add::<Add>(seat, word as usize + 2, operand);
    }

    /// Lowers the fault word to a key, unless it is lower already.
    pub fn lower(&self, seat: &mut Seat, key: u64)
        requires seat { IsSeatOf self.now seat.old }
        ensures seat { IsSeatOf self.now seat.new }
        ensures lowered { part seat.new ≡ lowered (part seat.old) key }
    {
        self.table.shared.fetch_min::<Lower>(seat, 1, key);
    }

    /// A new seat with so many of the shares, and nothing else.
    pub fn split(&self, seat: &mut Seat, shares: u32) -> Seat
        requires seat { IsSeatOf self.now seat.old }
        requires some_share { 0 < shares }
        requires room { (part seat.old).misses + shares < (part seat.old).shares }
        ensures seat { IsSeatOf self.now seat.new }
        ensures new { IsSeatOf self.now result }
        ensures kept { part seat.new ≡ giving shares (part seat.old) }
        ensures given { part result ≡ fresh shares }
    {
        self.cut::<Brand>(seat, shares)
    }

    fn cut<N: Number>(&self, seat: &mut Seat, shares: u32) -> Seat
        requires number { shares ≡ N.number }
        requires seat { IsSeatOf self.now seat.old }
        requires some_share { 0 < shares }
        requires room { (part seat.old).misses + shares < (part seat.old).shares }
        ensures seat { IsSeatOf self.now seat.new }
        ensures new { IsSeatOf self.now result }
        ensures kept { part seat.new ≡ giving shares (part seat.old) }
        ensures given { part result ≡ fresh shares }
    {
        self.table.shared.split_seat::<Cut<N>>(seat)
    }

    /// Takes in another seat: its shares, pieces, misses and adds, and the lesser of the keys.
    pub fn join(&self, seat: &mut Seat, other: Seat)
        requires seat { IsSeatOf self.now seat.old }
        requires other { IsSeatOf self.now other }
        ensures seat { IsSeatOf self.now seat.new }
        ensures both { part seat.new ≡ both (part seat.old) (part other) }
        ensures known { Knows (pieces_of self.now) (part seat.new) }
    {
        self.table.shared.join_seat::<Both>(seat, other);
        self.look::<Brand>(seat);
    }

    // What the board knows of a seat.
    fn look<N: Number>(&self, seat: &mut Seat)
        requires number { N.number ≡ pieces_of self.now }
        requires seat { IsSeatOf self.now seat.old }
        ensures seat { IsSeatOf self.now seat.new }
        ensures same { part seat.new ≡ part seat.old }
        ensures known { Knows (pieces_of self.now) (part seat.new) }
    {
        self.table.shared.load::<Look<N>>(seat, 0);
    }

    /// How many claims there were since the last rewind, in vain or not, for the holder of all shares.
    pub fn claims(&self, seat: &mut Seat) -> u64
        requires seat { IsSeatOf self.now seat.old }
        requires all { (part seat.old).shares ≡ SHARES }
        ensures seat { IsSeatOf self.now seat.new }
        ensures count { result ≡ length (part seat.old).pieces + (part seat.old).misses }
        ensures same { part seat.new ≡ part seat.old }
    {
        self.table.shared.load::<Count>(seat, 0)
    }

    /// Takes the total of a force word, and leaves 0, for the holder of all shares.
    pub fn collect(&self, seat: &mut Seat, word: u32) -> i64
        requires seat { IsSeatOf self.now seat.old }
        requires all { (part seat.old).shares ≡ SHARES }
        requires word { word < words_of self.now }
        requires fits { FitsSigned w64 (total_at word (part seat.old).adds) }
        ensures seat { IsSeatOf self.now seat.new }
        ensures total { result ≡ total_at word (part seat.old).adds }
        ensures left { part seat.new ≡ collected (part seat.old) word }
        ensures gone { total_at word (part seat.new).adds ≡ pos 0 }
    {
        let found = self
            .table
            .shared
            .swap::<Collect>(seat, word as usize + 2, 0);
        found.cast_signed()
    }

    /// Takes the least key, and leaves no piece, miss or key, for the holder of all shares. The force words stay.
    pub fn rewind(&self, seat: &mut Seat) -> u64
        requires seat { IsSeatOf self.now seat.old }
        requires all { (part seat.old).shares ≡ SHARES }
        ensures seat { IsSeatOf self.now seat.new }
        ensures key { result ≡ (part seat.old).key }
        ensures left { part seat.new ≡ unkeyed (unclaimed (part seat.old)) }
    {
        self.table.shared.swap::<Unclaim>(seat, 0, 0);
        self.table.shared.swap::<Unkey>(seat, 1, NO_KEY)
    }
}
