//! Windows of averages.
ghost use Rattle.std.specs.Prelude.{◌≡◌, ◌<◌, ◌≤◌, ◌+◌, All, IfOk, length, nat_eq, true};
ghost use Rattle.box_geo.specs.declared.limits.TheConstants.{MAX_STEP};
ghost use Rattle.ave_time.specs.Windows.{IsFirstAfter, IsSchedule, IsSmall, IsWindow, after_push, averages_after, averages_of, first_end, first_window, is_sample, next_window, plus, sampled, samples_below};

use crate::parts::WindowParts;
use crate::sums::Sums;
use box_geo::limits::MAX_STEP;
use fx_num::NoMemory;
use std::alloc::Global;
use std::marker::Model;

/// A window of averages, with room for them. Contracts see its numbers, and the averages of the last window that ended.
#[derive(Drop)]
pub struct Window {
    parts: WindowParts,
    averages: Sums,
}

impl Model for Window {
    ghost use Rattle.std.specs.Prelude.{◌≡◌, length};
    ghost use Rattle.ave_time.specs.Windows.{IsWindow, WindowState};

    ghost Value = { WindowState };

    ghost view = { λ w. record { parts = w.parts; averages = w.averages } };

    ghost invariant = { λ w. IsWindow w.parts × (length w.averages ≡ length w.parts.sums) };
}

impl Window {
    /// The first window whose samples all come after the step, of this many values. The only error is want of memory.
    pub fn new(
        alloc: Global,
        every: u64,
        repeat: u64,
        freq: u64,
        values: u8,
        step: u64,
    ) -> Result<Window, NoMemory>
        requires schedule { IsSchedule every repeat freq }
        requires values { 0 < values }
        requires step { step ≤ MAX_STEP }
        ensures is { IfOk result (λ w. w.parts ≡ first_window every repeat freq values step) }
        ensures first { IfOk result (λ w. IsFirstAfter step w.parts) }
    {
        let parts = WindowParts {
            every,
            repeat,
            freq,
            end: end_after(every, repeat, freq, step),
            samples: 0,
            sums: Sums::zeros(alloc, values as usize)?,
        };
        Window::from_parts(alloc, parts)
    }

    /// The window with these numbers. The only error is want of memory.
    pub fn from_parts(alloc: Global, parts: WindowParts) -> Result<Window, NoMemory>
        requires { IsWindow parts }
        ensures { IfOk result (λ w. w.parts ≡ parts) }
    {
        let averages = Sums::zeros(alloc, parts.sums.as_slice().len())?;
        Ok(Window { parts, averages })
    }

    /// The numbers of the window.
    pub fn parts(&self) -> &WindowParts
        ensures is { result.now ≡ self.now.parts }
        ensures rules { IsWindow result.now }
    {
        &self.parts
    }

    /// Takes the values of a step, and tells whether the window ended with it: then its averages are there, and the
    /// window is the next one. It takes no memory.
    pub fn push(&mut self, step: u64, values: &[i128]) -> bool
        requires step { step ≤ MAX_STEP }
        requires within { step ≤ self.old.parts.end }
        requires samples { self.old.parts.samples ≡ samples_below self.old.parts step }
        requires count { length values.now ≡ length self.old.parts.sums }
        requires small { All (IsSmall 1) values.now }
        ensures ended { result ≡ nat_eq step self.old.parts.end }
        ensures parts { self.new.parts ≡ after_push self.old.parts step values.now }
        ensures averages { self.new.averages ≡ averages_after self.old step values.now }
    {
        if step == self.parts.end {
            end_window(&mut self.parts, values, &mut self.averages);
            return true;
        }
        if is_sample(&self.parts, step) {
            take_sample(&mut self.parts, step, values);
        }
        false
    }

    /// The averages of the last window that ended: each sum over the number of samples, rounded once.
    pub fn averages(&self) -> &[i128]
        ensures { result.now ≡ self.now.averages }
    {
        self.averages.as_slice()
    }
}

/// The end of the first window whose samples all come after the step.
fn end_after(every: u64, repeat: u64, freq: u64, step: u64) -> u64
    requires schedule { IsSchedule every repeat freq }
    requires step { step ≤ MAX_STEP }
    ensures { result ≡ first_end every repeat freq step }
{
    let start = step + (every * repeat - every);
    freq * (start / freq) + freq
}

/// Whether the step is a sample step of the window.
fn is_sample(parts: &WindowParts, step: u64) -> bool
    requires window { IsWindow parts.now }
    requires within { step ≤ parts.now.end }
    ensures { result ≡ is_sample parts.now step }
{
    let gap = parts.end - step;
    if parts.repeat <= gap / parts.every {
        return false;
    }
    gap % parts.every == 0
}

/// Adds a sample, which is not the last of the window.
fn take_sample(parts: &mut WindowParts, step: u64, values: &[i128])
    requires window { IsWindow parts.old }
    requires before { step < parts.old.end }
    requires sample { is_sample parts.old step ≡ true }
    requires samples { parts.old.samples ≡ samples_below parts.old step }
    requires count { length values.now ≡ length parts.old.sums }
    requires small { All (IsSmall 1) values.now }
    ensures is { parts.new ≡ sampled parts.old values.now }
    ensures window { IsWindow parts.new }
{
    parts.sums.add(values);
    parts.samples += 1;
}

/// Adds the last sample, gives the averages, and begins the next window.
fn end_window(parts: &mut WindowParts, values: &[i128], averages: &mut Sums)
    requires window { IsWindow parts.old }
    requires end { parts.old.end ≤ MAX_STEP }
    requires count { length values.now ≡ length parts.old.sums }
    requires room { length averages.old ≡ length parts.old.sums }
    requires small { All (IsSmall 1) values.now }
    ensures is { parts.new ≡ next_window parts.old }
    ensures window { IsWindow parts.new }
    ensures averages { averages.new ≡ averages_of parts.old.repeat (plus parts.old.sums values.now) }
{
    parts.sums.add(values);
    averages.average(&parts.sums, parts.repeat);
    parts.sums.clear();
    parts.end += parts.freq;
    parts.samples = 0;
}
