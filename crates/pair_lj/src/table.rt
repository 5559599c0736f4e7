//! The table of pair coefficients.
ghost use Rattle.std.specs.Prelude.{◌≡◌, ◌+◌, ◌*◌, ◌^◌, ◌<◌, ◌≤◌, ◌++◌, [], ◌∷◌, map, vec_capacity, length, Some, IfNone, IfSome, IfOk};
ghost use Rattle.std.specs.List.{All};
ghost use Rattle.std.specs.Option.{option_map};
ghost use Rattle.pair_lj.specs.Pairs.{IsSoundPair, IsFirstUnset, numbers_at, numbers_of, replaced, set_pair};
ghost use Rattle.pair_lj.specs.Places.{place, numbers_in, AreFilled, open_below};

use crate::close::Close;
use crate::coefficients::Coefficients;
use crate::evaluate::{evaluate, evaluate_with, guess_for};
use crate::guess::Guess;
use crate::pair_settings::{PairCoefficients, PairSettings, coefficients_of, is_set, replace};
use crate::unset::Unset;
use box_geo::Term;
use box_geo::limits::{FULL_WEIGHT, MAX_CUTOFF, MAX_EPSILON, MAX_KINDS, MAX_SIGMA};
use fx_num::{NoMemory, Steps, V3};
use std::alloc::Global;
use std::marker::Model;
use std::sync::ledger::Ledger;

/// How many places a row has: one for each atom type that there may be.
const ROW: usize = 64;

/// The coefficients of each pair of atom types. A pair has no order: i, j and j, i are one.
///
/// Coefficients are set pair by pair, or all at once. [`PairTable::finish`] then makes the table ready for
/// [`PairTable::term`], and a later change asks for another finish. Contracts see the pairs that are set.
#[derive(Drop)]
pub struct PairTable {
    kinds: u8,
    cut: i64,
    pairs: Vec<PairCoefficients>,
    places: Vec<Option<Coefficients>>,
    finished: bool,
}

impl Model for PairTable {
    ghost use Rattle.std.specs.Prelude.{vec_capacity};
    ghost use Rattle.pair_lj.specs.Places.{IsKept};
    ghost use Rattle.pair_lj.specs.Table.{Table};

    ghost Value = { Table };

    ghost view = { λ t. record { kinds = t.kinds; cutoff = t.cut; pairs = t.pairs.items; finished = t.finished } };

    ghost invariant = { λ t. IsKept t.kinds t.pairs.items (vec_capacity t.pairs) t.places.items t.finished };
}

impl PairTable {
    ghost use Rattle.std.specs.Prelude.{◌≡◌, ◌⊎◌, ◌+◌, ◌<◌, ◌≤◌, ℕ, [], pos, false, min, max, unsigned_abs, ◌<ℤ◌, ◌≤ℤ◌, ◌*ℤ◌, IfOk, IfErr, OnOk, OnErr, IfSome, IfNone, IsSomeAnd, MatchOption};
    ghost use Rattle.std.specs.Option.{option_map};
    ghost use Rattle.box_geo.specs.Sides.{length2};
    ghost use Rattle.box_geo.specs.Terms.{IsDisplacement};
    ghost use Rattle.pair_lj.specs.PairTerm.{HasModerateForce, HasModerateEnergy, HasModerateVirial};
    ghost use Rattle.pair_lj.specs.Pairs.{IsFirstUnset, coefficients_of, numbers_at, set_pair, term_by};
    ghost use Rattle.pair_lj.specs.Places.{numbers_in};
    ghost use Rattle.pair_lj.specs.Table.{IsFinished, IsType};

    /// A table of `kinds` atom types without coefficients, with `cut`, in units, as the cutoff of
    /// the style.
    pub fn new(alloc: Global, kinds: u8, cut: i64) -> Result<PairTable, NoMemory>
        requires some { 1 ≤ kinds }
        requires few { kinds ≤ MAX_KINDS }
        requires acting { pos 0 <ℤ cut }
        requires short { cut ≤ℤ MAX_CUTOFF }
        ensures { IfOk result (λ t. t ≡ record { kinds = kinds; cutoff = cut; pairs = []; finished = false }) }
    {
        PairTable::of(alloc, kinds, cut, &[])
    }

    /// A table of `kinds` atom types with these pairs, which are unfinished.
    pub fn of(
        alloc: Global,
        kinds: u8,
        cut: i64,
        pairs: &[PairCoefficients],
    ) -> Result<PairTable, NoMemory>
        requires some { 1 ≤ kinds }
        requires few { kinds ≤ MAX_KINDS }
        requires acting { pos 0 <ℤ cut }
        requires short { cut ≤ℤ MAX_CUTOFF }
        requires sound { All IsSoundPair pairs.now }
        ensures { IfOk result (λ t. t ≡ record { kinds = kinds; cutoff = cut; pairs = pairs.now; finished = false }) }
    {
        let places = ROW * usize::from(kinds);
        Ok(PairTable {
            kinds,
            cut,
            pairs: with_room(alloc, pairs, places)?,
            places: vec![in alloc; None; places]?,
            finished: false,
        })
    }

    /// The cutoff of the style, in units.
    pub fn cutoff(&self) -> i64
        ensures { result ≡ self.now.cutoff }
    {
        self.cut
    }

    /// Gives the pair of types i and j its coefficients, in units, in place of any that it had. The
    /// table has to be finished again.
    pub fn set(&mut self, i: u8, j: u8, eps: i64, sigma: i64, cut: i64)
        requires i { IsType self.old i }
        requires j { IsType self.old j }
        requires eps_low { pos 0 ≤ℤ eps }
        requires eps_high { eps ≤ℤ MAX_EPSILON }
        requires sigma_low { pos 0 <ℤ sigma }
        requires sigma_high { sigma ≤ℤ MAX_SIGMA }
        requires cut_low { pos 0 <ℤ cut }
        requires cut_high { cut ≤ℤ MAX_CUTOFF }
        requires covered { sigma ≤ℤ (pos 4 *ℤ cut) }
        ensures { self.new ≡ record self.old {
          pairs = set_pair (record { i = min i j; j = max i j; epsilon = eps; sigma = sigma; cutoff = cut }) self.old.pairs;
          finished = false;
        } }
    {
        self.finished = false;
        let pair = PairCoefficients {
            i: i.min(j),
            j: i.max(j),
            epsilon: eps,
            sigma,
            cutoff: cut,
        };
        put(&mut self.pairs, &pair, self.kinds);
    }

    /// Makes the table ready for terms, where each pair of types has coefficients.
    ///
    /// # Errors
    ///
    /// [`Unset`] with the first pair of types that has none; the table keeps its pairs.
    pub fn finish(&mut self) -> Result<(), Unset>
        ensures finished { OnOk result (IsFinished self.new) }
        ensures unset { IfErr result (λ e. IsFirstUnset self.old.kinds self.old.pairs e.0 e.1) }
        ensures unfinished { OnErr result (self.new.finished ≡ false) }
        ensures kept { self.new ≡ record self.old { finished = self.new.finished } }
    {
        self.finished = false;
        if let Some(pair) = fill(self.kinds, &self.pairs, &mut self.places) {
            return Err(pair);
        }
        self.finished = true;
        Ok(())
    }

    /// The coefficients of the pair of types i and j as they were set: epsilon, sigma and the
    /// cutoff, in units. `None` where the pair isn't set.
    pub fn coeff(&self, i: u8, j: u8) -> Option<(i64, i64, i64)>
        requires i { IsType self.now i }
        requires j { IsType self.now j }
        ensures { result ≡ option_map (λ p. (p.epsilon, p.sigma, p.cutoff)) (coefficients_of self.now.pairs i j) }
    {
        match coefficients_of(&self.pairs, i, j) {
            Some(pair) => Some((pair.epsilon, pair.sigma, pair.cutoff)),
            None => None,
        }
    }

    /// The term of an atom of type i and one of type j at the displacement d from the second to the
    /// first, with a special weight in units. It is `None` at the cutoff and beyond. It is called for
    /// every pair of atoms that may be near, and counts one step.
    ///
    /// # Errors
    ///
    /// [`Close`] where the two are at one place, where the square of sigma over the distance is
    /// above 16, or where a component of the force is above [`box_geo::limits::MAX_TERM_FORCE`]; the
    /// weight doesn't change it.
    #[inline(always)]
    pub fn term<L: Ledger>(
        &self,
        i: u8,
        j: u8,
        d: V3,
        weight: i64,
        steps: &mut Steps<L>,
    ) -> Result<Option<Term>, Close>
        requires finished { IsFinished self.now }
        requires i { IsType self.now i }
        requires j { IsType self.now j }
        requires d { IsDisplacement d }
        requires weight_low { pos 0 <ℤ weight }
        requires weight_high { weight ≤ℤ FULL_WEIGHT }
        ensures is { IsSomeAnd (numbers_at self.now.pairs i j) (λ k. result ≡ term_by k (unsigned_abs weight) d) }
        ensures bounded { IfOk result (λ t. IfSome t HasModerateForce) }
        ensures energy { IfOk result (λ t. IfSome t HasModerateEnergy) }
        ensures virial { IfOk result (λ t. IfSome t HasModerateVirial) }
        ensures step { steps.new ≡ steps.old + 1 }
    {
        steps.tick();
        evaluate(self.found(i, j), d, weight.unsigned_abs())
    }

    /// The first half of [`PairTable::term`]: a guess of the quotients, `None` at the cutoff and beyond, where there is
    /// no term whatever the weight. Where the guesses for several pairs are made before their terms, the processor works
    /// on all of them at once. It counts one step where it is `None`, so that each pair counts one, by one half.
    #[inline(always)]
    pub fn guess<L: Ledger>(&self, i: u8, j: u8, d: V3, steps: &mut Steps<L>) -> Option<Guess>
        requires finished { IsFinished self.now }
        requires i { IsType self.now i }
        requires j { IsType self.now j }
        requires d { IsDisplacement d }
        ensures near { IsSomeAnd (numbers_at self.now.pairs i j)
            (λ k. IfSome result (λ g. length2 d < k.cutoff * k.cutoff)) }
        ensures far { IsSomeAnd (numbers_at self.now.pairs i j)
            (λ k. IfNone result (k.cutoff * k.cutoff ≤ length2 d)) }
        ensures none { IsSomeAnd (numbers_at self.now.pairs i j) (λ k. IfNone result
            ((weight : ℕ) → Ok None ≡ term_by k weight d)) }
        ensures steps { MatchOption result (steps.new ≡ steps.old + 1) (λ g. steps.new ≡ steps.old) }
    {
        let guess = guess_for(self.found(i, j), d);
        if guess.is_none() {
            steps.tick();
        }
        guess
    }

    /// The second half of [`PairTable::term`]: the same term, whatever was guessed. A wrong guess only takes longer. It
    /// counts one step.
    ///
    /// # Errors
    ///
    /// As [`PairTable::term`].
    #[inline(always)]
    pub fn term_with<L: Ledger>(
        &self,
        i: u8,
        j: u8,
        d: V3,
        weight: i64,
        guess: Guess,
        steps: &mut Steps<L>,
    ) -> Result<Option<Term>, Close>
        requires finished { IsFinished self.now }
        requires i { IsType self.now i }
        requires j { IsType self.now j }
        requires d { IsDisplacement d }
        requires weight_low { pos 0 <ℤ weight }
        requires weight_high { weight ≤ℤ FULL_WEIGHT }
        ensures is { IsSomeAnd (numbers_at self.now.pairs i j) (λ k. result ≡ term_by k (unsigned_abs weight) d) }
        ensures bounded { IfOk result (λ t. IfSome t HasModerateForce) }
        ensures energy { IfOk result (λ t. IfSome t HasModerateEnergy) }
        ensures virial { IfOk result (λ t. IfSome t HasModerateVirial) }
        ensures step { steps.new ≡ steps.old + 1 }
    {
        steps.tick();
        evaluate_with(self.found(i, j), d, weight.unsigned_abs(), guess)
    }

    /// What is kept of a pair of types.
    #[inline(always)]
    fn found(&self, i: u8, j: u8) -> Coefficients
        requires finished { IsFinished self.now }
        requires i { IsType self.now i }
        requires j { IsType self.now j }
        ensures { numbers_at self.now.pairs i j ≡ Some (numbers_in result) }
    {
        self.places[place(i, j)].unwrap()
    }
}

/// The place of a pair of types.
#[inline(always)]
fn place(i: u8, j: u8) -> usize
    requires i { (1 ≤ i) × (i ≤ 64) }
    requires j { (1 ≤ j) × (j ≤ 64) }
    ensures { result ≡ place i j }
{
    ROW * usize::from(i.min(j) - 1) + usize::from(i.max(j) - 1)
}

/// These pairs, with room for so many more.
fn with_room(
    alloc: Global,
    pairs: &[PairCoefficients],
    more: usize,
) -> Result<Vec<PairCoefficients>, NoMemory>
    requires few { length pairs.now ≤ 2 ^ 60 }
    requires more { more ≤ 4096 }
    ensures items { IfOk result (λ v. v.items ≡ pairs.now) }
    ensures room { IfOk result (λ v. length pairs.now + more ≤ vec_capacity v) }
{
    let mut items = Vec::with_capacity(alloc, pairs.len() + more)?;
    items.extend_from_slice(pairs)?;
    Ok(items)
}

/// Sets a pair of so many types, for which there is room.
fn put(pairs: &mut Vec<PairCoefficients>, pair: &PairCoefficients, kinds: u8)
    requires few { kinds ≤ 64 }
    requires pair { IsSoundPair pair.now }
    requires high { pair.now.j ≤ kinds }
    requires sound { All IsSoundPair pairs.old.items }
    requires room { length pairs.old.items + open_below pairs.old.items (64 * kinds) ≤ vec_capacity pairs.old }
    ensures set { pairs.new.items ≡ set_pair pair.now pairs.old.items }
    ensures sound { All IsSoundPair pairs.new.items }
    ensures room { length pairs.new.items + open_below pairs.new.items (64 * kinds) ≤ vec_capacity pairs.new }
{
    if is_set(pairs, pair.i, pair.j) {
        replace_in(pairs, pair);
        return;
    }
    append(pairs, pair);
}

/// Puts a pair in place of that of the same types.
fn replace_in(pairs: &mut Vec<PairCoefficients>, pair: &PairCoefficients)
    ensures items { pairs.new.items ≡ map (replaced pair.now) pairs.old.items }
    ensures room { vec_capacity pairs.new ≡ vec_capacity pairs.old }
{
    replace(pairs, pair);
}

/// Appends a pair, for which there is room.
fn append(pairs: &mut Vec<PairCoefficients>, pair: &PairCoefficients)
    requires { length pairs.old.items < vec_capacity pairs.old }
    ensures items { pairs.new.items ≡ pairs.old.items ++ pair.now ∷ [] }
    ensures room { vec_capacity pairs.old ≤ vec_capacity pairs.new }
{
    if pairs.push(*pair).is_err() {
        unreachable!();
    }
}

/// Fills the place of each pair of so many types. The first pair without coefficients ends it.
fn fill(
    kinds: u8,
    pairs: &[PairCoefficients],
    places: &mut Vec<Option<Coefficients>>,
) -> Option<Unset>
    requires few { kinds ≤ 64 }
    requires squared { length places.old.items ≡ 64 * kinds }
    requires sound { All IsSoundPair pairs.now }
    ensures squared { length places.new.items ≡ length places.old.items }
    ensures filled { IfNone result (AreFilled kinds pairs.now places.new.items) }
    ensures unset { IfSome result (λ e. IsFirstUnset kinds pairs.now e.0 e.1) }
{
    for n in 0..places.len() {
        let i = (n / ROW) as u8 + 1;
        let j = (n % ROW) as u8 + 1;
        if i <= j && j <= kinds {
            match found(pairs, i, j) {
                Some(kept) => places[n] = Some(kept),
                None => return Some(Unset(i, j)),
            }
        }
    }
    None
}

/// What is kept of a pair of types: `None` where it has no coefficients.
fn found(pairs: &[PairCoefficients], i: u8, j: u8) -> Option<Coefficients>
    requires { All IsSoundPair pairs.now }
    ensures { numbers_at pairs.now i j ≡ option_map numbers_in result }
{
    match coefficients_of(pairs, i, j) {
        Some(pair) => Some(kept(&pair)),
        None => None,
    }
}

/// What is kept of coefficients.
fn kept(pair: &PairCoefficients) -> Coefficients
    requires { IsSoundPair pair.now }
    ensures { numbers_of pair.now ≡ numbers_in result }
{
    Coefficients::new(
        pair.epsilon.unsigned_abs(),
        pair.sigma.unsigned_abs(),
        pair.cutoff.unsigned_abs(),
    )
}
