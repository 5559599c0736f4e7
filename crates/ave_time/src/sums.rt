//! The sums of a window.
ghost use Rattle.std.specs.Prelude.{◌≡◌, ◌<◌, ◌≤◌, ◌*◌, ℕ, ℤ, pos, ◌+ℤ◌, unsigned_abs, All, IfOk, length, replicate};
ghost use Rattle.fx_num.specs.Rounding.{div_rounded};
ghost use Rattle.ave_time.specs.Windows.{IsSmall, averages_of, plus};
ghost use Rattle.ave_time.specs.declared.limits.TheConstants.{MAX_REPEAT, MAX_SAMPLE};

use crate::limits::{MAX_REPEAT, MAX_SAMPLE};
use fx_num::{NoMemory, rdiv};
use std::alloc::Global;
use std::marker::Model;

/// A list of numbers. Contracts see just the list.
#[derive(Drop)]
pub struct Sums {
    items: Vec<i128>,
}

impl Model for Sums {
    ghost use Rattle.std.specs.Prelude.{List, ℤ};

    ghost Value = { List ℤ };

    ghost view = { λ s. s.items.items };
}

impl Sums {
    /// The numbers of a vector.
    pub fn new(items: Vec<i128>) -> Sums
        ensures { result ≡ items.items }
    {
        Sums { items }
    }

    /// The vector of the numbers.
    pub fn into_vec(self) -> Vec<i128>
        ensures { result.items ≡ self }
    {
        self.items
    }

    /// The numbers, in their order.
    pub fn as_slice(&self) -> &[i128]
        ensures { result.now ≡ self.now }
    {
        &self.items
    }

    /// This many zeros. The only error is want of memory.
    pub(crate) fn zeros(alloc: Global, count: usize) -> Result<Sums, NoMemory>
        ensures { IfOk result (λ s. s ≡ replicate count (pos 0)) }
    {
        Ok(Sums {
            items: Vec::from_elem(alloc, 0, count)?,
        })
    }

    /// Adds a value to each sum.
    pub(crate) fn add(&mut self, values: &[i128])
        requires count { length values.now ≡ length self.old }
        requires sums { All (IsSmall MAX_REPEAT) self.old }
        requires values { All (IsSmall 1) values.now }
        ensures { self.new ≡ plus self.old values.now }
    {
        add_all(&mut self.items, values);
    }

    /// The averages of these sums of so many samples.
    pub(crate) fn average(&mut self, sums: &Sums, repeat: u64)
        requires count { length self.old ≡ length sums.now }
        requires some { 0 < repeat }
        requires few { repeat ≤ MAX_REPEAT }
        requires small { All (IsSmall MAX_REPEAT) sums.now }
        ensures { self.new ≡ averages_of repeat sums.now }
    {
        average_all(&mut self.items, &sums.items, repeat);
    }

    /// Makes every number 0.
    pub(crate) fn clear(&mut self)
        ensures { self.new ≡ replicate (length self.old) (pos 0) }
    {
        self.items.fill(0);
    }
}

/// Adds a value to each sum.
fn add_all(sums: &mut [i128], values: &[i128])
    requires count { length values.now ≡ length sums.old }
    requires sums { All (IsSmall MAX_REPEAT) sums.old }
    requires values { All (IsSmall 1) values.now }
    ensures { sums.new ≡ plus sums.old values.now }
{
    for i in 0..sums.len() {
        add_to(&mut sums[i], &values[i]);
    }
}

/// Adds a value to a sum.
fn add_to(sum: &mut i128, value: &i128)
    requires sum { IsSmall MAX_REPEAT sum.old }
    requires value { IsSmall 1 value.now }
    ensures { sum.new ≡ sum.old +ℤ value.now }
{
    *sum += *value;
}

/// Puts the averages of the sums into the list.
fn average_all(list: &mut [i128], sums: &[i128], repeat: u64)
    requires count { length list.old ≡ length sums.now }
    requires some { 0 < repeat }
    requires few { repeat ≤ MAX_REPEAT }
    requires small { All (IsSmall MAX_REPEAT) sums.now }
    ensures { list.new ≡ averages_of repeat sums.now }
{
    for i in 0..list.len() {
        put_average(&mut list[i], &sums[i], repeat);
    }
}

/// Puts the average of a sum in its place.
fn put_average(place: &mut i128, sum: &i128, repeat: u64)
    requires sum { IsSmall MAX_REPEAT sum.now }
    requires some { 0 < repeat }
    requires few { repeat ≤ MAX_REPEAT }
    ensures { place.new ≡ div_rounded sum.now (pos repeat) }
{
    *place = rdiv(*sum, repeat as i128);
}
