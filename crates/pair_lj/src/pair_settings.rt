//! The coefficients of pairs of types, as they are set.
ghost use Rattle.pair_lj.specs.Pairs.{are_all_had, are_covered, are_had_with, coefficients_of, is_covered, is_of, is_set, numbers_at, replaced, set_pair, types_from, with_cutoff, with_cutoffs};
ghost use Rattle.std.specs.Prelude.{◌≡◌, ◌≤◌, ◌++◌, is_some, map, [], ◌∷◌, IfOk, OnErr, OnOk};

use box_geo::limits::MAX_KINDS;
use fx_num::NoMemory;
use std::alloc::Global;
use std::marker::Model;

/// The coefficients of a pair of atom types, the lesser type first, in units.
#[derive(Clone, Copy)]
pub struct PairCoefficients {
    /// The lesser type.
    pub i: u8,
    /// The greater type, or the same.
    pub j: u8,
    /// The energy.
    pub epsilon: i64,
    /// The size.
    pub sigma: i64,
    /// The cutoff.
    pub cutoff: i64,
}

impl PairCoefficients {
    /// Whether these are the coefficients of two types, in either order.
    pub fn is_of(&self, i: u8, j: u8) -> bool
        ensures { result ≡ is_of i j self.now }
    {
        self.i == i.min(j) && self.j == i.max(j)
    }

    /// Whether four cutoffs are at least the size.
    pub fn is_covered(&self, cutoff: &i64) -> bool
        ensures { result ≡ is_covered cutoff.now self.now }
    {
        i128::from(self.sigma) <= 4 * i128::from(*cutoff)
    }
}

/// The pairs of types that are set, each once. Contracts see the list.
#[derive(Drop)]
pub struct PairSettings {
    items: Vec<PairCoefficients>,
}

impl Model for PairSettings {
    ghost use Rattle.std.specs.Prelude.{List};
    ghost use Rattle.pair_lj.specs.declared.pair_settings.PairCoefficients.{PairCoefficients};

    ghost Value = { List PairCoefficients };

    ghost view = { λ p. p.items.items };
}

impl PairSettings {
    /// No pair is set.
    pub fn new(alloc: Global) -> PairSettings
        ensures { result ≡ [] }
    {
        PairSettings {
            items: Vec::new(alloc),
        }
    }

    /// The same pairs.
    pub fn copy(&self, alloc: Global) -> Result<PairSettings, NoMemory>
        ensures { IfOk result (λ pairs. pairs ≡ self.now) }
    {
        Ok(PairSettings {
            items: Vec::from_slice(alloc, &self.items)?,
        })
    }

    /// The pairs that are set.
    pub fn as_slice(&self) -> &[PairCoefficients]
        ensures { result.now ≡ self.now }
    {
        &self.items
    }

    /// The coefficients of two types, in either order.
    pub fn of(&self, i: u8, j: u8) -> Option<PairCoefficients>
        ensures { result ≡ coefficients_of self.now i j }
    {
        coefficients_of(&self.items, i, j)
    }

    /// Whether two types are set, in either order.
    pub fn is_set(&self, i: u8, j: u8) -> bool
        ensures { result ≡ is_set self.now i j }
    {
        is_set(&self.items, i, j)
    }

    /// Whether each pair of so many types has coefficients.
    pub fn are_all_had(&self, kinds: u8) -> bool
        requires { kinds ≤ MAX_KINDS }
        ensures { result ≡ are_all_had kinds self.now }
    {
        are_all_had(&self.items, kinds)
    }

    /// Sets a pair: in its place where it was set before, else behind the others. A refusal leaves all as it was.
    pub fn set(&mut self, pair: &PairCoefficients) -> Result<(), NoMemory>
        ensures set { OnOk result (self.new ≡ set_pair pair.now self.old) }
        ensures unchanged { OnErr result (self.new ≡ self.old) }
    {
        if self.is_set(pair.i, pair.j) {
            replace(&mut self.items, pair);
            return Ok(());
        }
        self.items.push(*pair)?;
        Ok(())
    }

    /// Whether four times a cutoff is at least the size of each pair.
    pub fn are_covered(&self, cutoff: &i64) -> bool
        ensures { result ≡ are_covered cutoff.now self.now }
    {
        for pair in &self.items {
            if !pair.is_covered(cutoff) {
                return false;
            }
        }
        true
    }

    /// Gives each pair a cutoff.
    pub fn set_cutoffs(&mut self, cutoff: &i64)
        ensures { self.new ≡ with_cutoffs cutoff.now self.old }
    {
        set_cutoffs(&mut self.items, cutoff);
    }

    /// Unsets all pairs.
    pub fn clear(&mut self)
        ensures { self.new ≡ [] }
    {
        self.items.clear();
    }
}

/// The coefficients of two types, in either order.
pub(crate) fn coefficients_of(pairs: &[PairCoefficients], i: u8, j: u8) -> Option<PairCoefficients>
    ensures { result ≡ coefficients_of pairs.now i j }
{
    for pair in pairs {
        if pair.is_of(i, j) {
            return Some(*pair);
        }
    }
    None
}

/// Whether two types are set, in either order.
pub(crate) fn is_set(pairs: &[PairCoefficients], i: u8, j: u8) -> bool
    ensures { result ≡ is_set pairs.now i j }
{
    for pair in pairs {
        if pair.is_of(i, j) {
            return true;
        }
    }
    false
}

/// Whether each pair of so many types has coefficients.
#[tactic(auto, unfolding(crate::specs::Pairs::are_all_had))]
fn are_all_had(pairs: &[PairCoefficients], kinds: u8) -> bool
    requires { kinds ≤ MAX_KINDS }
    ensures { result ≡ are_all_had kinds pairs.now }
{
    for i in 1..kinds + 1 {
        if !are_had_with(pairs, i, kinds) {
            return false;
        }
    }
    true
}

/// Whether a type has coefficients with each of so many types.
fn are_had_with(pairs: &[PairCoefficients], i: u8, kinds: u8) -> bool
    requires { kinds ≤ MAX_KINDS }
    ensures { result ≡ are_had_with pairs.now i (types_from 1 kinds) }
{
    for j in 1..kinds + 1 {
        if !is_had(pairs, i, j) {
            return false;
        }
    }
    true
}

/// Whether a pair of types has coefficients.
#[tactic(auto, unfolding(crate::specs::Pairs::numbers_at))]
fn is_had(pairs: &[PairCoefficients], i: u8, j: u8) -> bool
    ensures { result ≡ is_some (numbers_at pairs.now i j) }
{
    coefficients_of(pairs, i, j).is_some()
}

/// A pair in place of that of the same types.
fn replaced(pair: &PairCoefficients, old: &PairCoefficients) -> PairCoefficients
    ensures { result ≡ replaced pair.now old.now }
{
    if old.is_of(pair.i, pair.j) {
        *pair
    } else {
        *old
    }
}

/// Puts a pair in place of that of the same types.
pub(crate) fn replace(pairs: &mut [PairCoefficients], pair: &PairCoefficients)
    ensures { pairs.new ≡ map (replaced pair.now) pairs.old }
{
    for i in 0..pairs.len() {
        pairs[i] = replaced(pair, &pairs[i]);
    }
}

/// A pair with another cutoff.
fn with_cutoff(pair: &PairCoefficients, cutoff: &i64) -> PairCoefficients
    ensures { result ≡ with_cutoff cutoff.now pair.now }
{
    PairCoefficients {
        cutoff: *cutoff,
        ..*pair
    }
}

/// Gives each pair a cutoff.
fn set_cutoffs(pairs: &mut [PairCoefficients], cutoff: &i64)
    ensures { pairs.new ≡ with_cutoffs cutoff.now pairs.old }
{
    for i in 0..pairs.len() {
        pairs[i] = with_cutoff(&pairs[i], cutoff);
    }
}
