//! The machine: a counter, a fault word, force words, and workers with pieces in hand.
ghost use Rattle.std.specs.Prelude.{◌≡◌, ℕ, ◌+◌, ◌^◌, ◌<◌, ◌≤◌, false, true, is_some, unwrap_or, length, slice_index, IfOk};
ghost use Rattle.weave_core.specs.Machine.{IsPlan, begin, play, still, drawn, next_add, next_key, past_add, past_key, hand_of};

use crate::event::{Event, Hand};
use crate::limits::{NO_KEY, SHARES};
use crate::plan::Plan;
use fx_num::NoMemory;
use std::alloc::Global;
use std::marker::Model;

/// A plan that is being worked on. Contracts see the machine of `specs/Machine.antt`.
#[derive(Drop)]
pub struct Weave {
    plan: Plan,
    counter: u64,
    fault: u64,
    words: Vec<u64>,
    hands: Vec<Hand>,
}

impl Model for Weave {
    ghost use Rattle.std.specs.Prelude.{◌≡◌, ◌+◌, ◌^◌, ◌<◌, ◌≤◌, length, count_by};
    ghost use Rattle.weave_core.specs.declared.limits.TheConstants.{SHARES};
    ghost use Rattle.weave_core.specs.Machine.{Machine, IsPlan, is_missed};

    ghost Value = { Machine };

    ghost view = { λ w. record {
      plan = w.plan;
      counter = w.counter;
      fault = w.fault;
      words = w.words.items;
      hands = w.hands.items;
    } };

    ghost invariant = { λ w. IsPlan w.plan
        × (length w.plan.pieces < 2 ^ 63)
        × (length w.words.items ≡ w.plan.words)
        × (length w.hands.items ≤ SHARES)
        × (w.counter ≤ length w.plan.pieces + count_by is_missed w.hands.items) };
}

impl Weave {
    /// The machine at the start: nothing is claimed, and the force words are 0.
    pub fn new(alloc: Global, plan: Plan, workers: u32) -> Result<Weave, NoMemory>
        requires workers { (0 < workers) × (workers ≤ SHARES) }
        requires plan { IsPlan plan }
        ensures { IfOk result (λ w. w ≡ begin plan workers) }
    {
        let words = Vec::from_elem(alloc, 0, plan.words as usize)?;
        let hands = Vec::from_elem(alloc, Hand::Free, workers as usize)?;
        let _room = plan.pieces.len();
        Ok(Weave {
            plan,
            counter: 0,
            fault: NO_KEY,
            words,
            hands,
        })
    }

    /// Plays one step, and answers whether it was enabled. A step that is not enabled changes nothing.
    pub fn play(&mut self, event: Event) -> bool
        ensures enabled { result ≡ is_some (play self.old event) }
        ensures played { self.new ≡ unwrap_or (play self.old event) self.old }
    {
        match event {
            Event::Claim(worker) => self.claim(worker),
            Event::Add(worker) => self.add(worker),
            Event::Lower(worker) => self.lower(worker),
        }
    }

    fn claim(&mut self, worker: u32) -> bool
        ensures enabled { result ≡ is_some (play self.old (Event.Claim worker)) }
        ensures played { self.new ≡ unwrap_or (play self.old (Event.Claim worker)) self.old }
    {
        let Hand::Free = self.hand(worker) else {
            return false;
        };
        self.hands[worker as usize] = self.plan.drawn(self.counter);
        self.counter += 1;
        true
    }

    fn add(&mut self, worker: u32) -> bool
        ensures enabled { result ≡ is_some (play self.old (Event.Add worker)) }
        ensures played { self.new ≡ unwrap_or (play self.old (Event.Add worker)) self.old }
    {
        let hand = self.hand(worker);
        let Some((word, value)) = self.plan.next_add(hand) else {
            return false;
        };
        let word = word as usize;
        self.words[word] = self.words[word].wrapping_add(value.cast_unsigned());
        self.hands[worker as usize] = self.plan.past_add(hand);
        true
    }

    fn lower(&mut self, worker: u32) -> bool
        ensures enabled { result ≡ is_some (play self.old (Event.Lower worker)) }
        ensures played { self.new ≡ unwrap_or (play self.old (Event.Lower worker)) self.old }
    {
        let hand = self.hand(worker);
        let Some(key) = self.plan.next_key(hand) else {
            return false;
        };
        self.fault = self.fault.min(key);
        self.hands[worker as usize] = self.plan.past_key(hand);
        true
    }

    /// What a worker has in hand. Who is no worker has missed.
    pub fn hand(&self, worker: u32) -> Hand
        ensures { result ≡ hand_of self.now worker }
    {
        self.hands
            .get(worker as usize)
            .copied()
            .unwrap_or(Hand::Missed)
    }

    /// How many claims there were.
    pub fn counter(&self) -> u64
        ensures { result ≡ self.now.counter }
    {
        self.counter
    }

    /// The least key that was played, or `NO_KEY`.
    pub fn fault(&self) -> u64
        ensures { result ≡ self.now.fault }
    {
        self.fault
    }

    /// The force words, each a sum modulo 2^64.
    pub fn words(&self) -> &[u64]
        ensures { result.now ≡ self.now.words }
    {
        self.words.as_slice()
    }
}
