//! The texts of a run: header, thermo lines and footer.
ghost use Rattle.std.specs.Prelude.{◌≡◌, ◌≤◌, [], IfOk, IsErrOf};
ghost use Rattle.meaning.specs.Runs.{first_shown, line_shown};
ghost use Rattle.meaning.specs.Sends.{Shows};
ghost use Rattle.meaning.specs.Shown.{shown};
ghost use Rattle.meaning.specs.Thermo.{is_due, is_multiple, thermo_header};
ghost use Rattle.outside.specs.Stock.{Rose};
ghost use Rattle.script_runs.specs.Line.{IsShown, footer_now, line_now, sums_in};
ghost use Rattle.step_engine.specs.Engine.{setting_of};
ghost use Rattle.step_engine.specs.Ranges.{AreRules, IsState};
ghost use Rattle.thermo_text.specs.Thermo.{style_one};

use crate::numbers::numbers;
use crate::output::show;
use fx_num::{NoMemory, Text};
use meaning::Output;
use outside::{Press, PutRefusal};
use std::alloc::Global;
use step_engine::{Engine, Tally};
use thermo_text::{Columns, footer, header, line};

/// Shows the header and the line of set-up.
pub(crate) fn show_first<P: Press>(
    alloc: Global,
    columns: &Columns,
    output: &mut Output,
    engine: &Engine,
    tally: &Tally,
    press: &mut P,
) -> Result<(), PutRefusal>
    requires columns { columns.now ≡ style_one }
    requires shown { IsShown engine.now tally.now }
    ensures shows { Shows (first_shown (setting_of engine.now.rules []) output.old engine.now.state (sums_in tally.now) output.old.uses) (P.seen press.old).sent result (P.seen press.new).sent output.new.uses }
    ensures others { output.new ≡ record output.old { uses = output.new.uses } }
    ensures cause { IsErrOf result PutRefusal.Faulted → Rose (P.seen press.old).faults (P.seen press.new).faults }
    ensures kept { (P.seen press.old).faults ≤ (P.seen press.new).faults }
    ensures stays { (IsErrOf result PutRefusal.Faulted → ⊥) → (P.seen press.new).faults ≡ (P.seen press.old).faults }
{
    match show_header(alloc, columns, output, press) {
        Ok(()) => {}
        Err(why) => return Err(why),
    }
    show_line(alloc, columns, output, engine, tally, press)
}

/// Shows the line of a step, if one is due in a run up to this last step.
pub(crate) fn show_due<P: Press>(
    alloc: Global,
    columns: &Columns,
    output: &mut Output,
    last: u64,
    engine: &Engine,
    tally: &Tally,
    press: &mut P,
) -> Result<(), PutRefusal>
    requires columns { columns.now ≡ style_one }
    requires shown { IsShown engine.now tally.now }
    ensures shows { Shows (line_shown (setting_of engine.now.rules []) output.old last engine.now.state (sums_in tally.now) output.old.uses) (P.seen press.old).sent result (P.seen press.new).sent output.new.uses }
    ensures others { output.new ≡ record output.old { uses = output.new.uses } }
    ensures cause { IsErrOf result PutRefusal.Faulted → Rose (P.seen press.old).faults (P.seen press.new).faults }
    ensures kept { (P.seen press.old).faults ≤ (P.seen press.new).faults }
    ensures stays { (IsErrOf result PutRefusal.Faulted → ⊥) → (P.seen press.new).faults ≡ (P.seen press.old).faults }
{
    if !is_due(output.every, last, engine.step()) {
        return Ok(());
    }
    show_line(alloc, columns, output, engine, tally, press)
}

/// Shows the footer of an engine after its last step.
pub(crate) fn show_footer<P: Press>(
    alloc: Global,
    output: &mut Output,
    engine: &Engine,
    press: &mut P,
) -> Result<(), PutRefusal>
    requires rules { AreRules engine.now.rules }
    requires state { IsState engine.now.rules engine.now.state }
    ensures shows { Shows (shown output.old (footer_now engine.now) output.old.uses) (P.seen press.old).sent result (P.seen press.new).sent output.new.uses }
    ensures others { output.new ≡ record output.old { uses = output.new.uses } }
    ensures cause { IsErrOf result PutRefusal.Faulted → Rose (P.seen press.old).faults (P.seen press.new).faults }
    ensures kept { (P.seen press.old).faults ≤ (P.seen press.new).faults }
    ensures stays { (IsErrOf result PutRefusal.Faulted → ⊥) → (P.seen press.new).faults ≡ (P.seen press.old).faults }
{
    let (pairs, builds) = engine.counts();
    match footer(alloc, pairs, builds) {
        Ok(footer) => show(alloc, output, press, footer.as_bytes()),
        Err(_) => Err(PutRefusal::NoMemory),
    }
}

/// Shows the header of thermo output.
fn show_header<P: Press>(
    alloc: Global,
    columns: &Columns,
    output: &mut Output,
    press: &mut P,
) -> Result<(), PutRefusal>
    requires { columns.now ≡ style_one }
    ensures shows { Shows (shown output.old thermo_header output.old.uses) (P.seen press.old).sent result (P.seen press.new).sent output.new.uses }
    ensures others { output.new ≡ record output.old { uses = output.new.uses } }
    ensures cause { IsErrOf result PutRefusal.Faulted → Rose (P.seen press.old).faults (P.seen press.new).faults }
    ensures kept { (P.seen press.old).faults ≤ (P.seen press.new).faults }
    ensures stays { (IsErrOf result PutRefusal.Faulted → ⊥) → (P.seen press.new).faults ≡ (P.seen press.old).faults }
{
    match header(alloc, columns) {
        Ok(header) => show(alloc, output, press, header.as_bytes()),
        Err(_) => Err(PutRefusal::NoMemory),
    }
}

/// Shows the thermo line of an engine after an evaluation of forces.
fn show_line<P: Press>(
    alloc: Global,
    columns: &Columns,
    output: &mut Output,
    engine: &Engine,
    tally: &Tally,
    press: &mut P,
) -> Result<(), PutRefusal>
    requires columns { columns.now ≡ style_one }
    requires shown { IsShown engine.now tally.now }
    ensures shows { Shows (shown output.old (line_now engine.now tally.now) output.old.uses) (P.seen press.old).sent result (P.seen press.new).sent output.new.uses }
    ensures others { output.new ≡ record output.old { uses = output.new.uses } }
    ensures cause { IsErrOf result PutRefusal.Faulted → Rose (P.seen press.old).faults (P.seen press.new).faults }
    ensures kept { (P.seen press.old).faults ≤ (P.seen press.new).faults }
    ensures stays { (IsErrOf result PutRefusal.Faulted → ⊥) → (P.seen press.new).faults ≡ (P.seen press.old).faults }
{
    match thermo_line(alloc, columns, engine, tally) {
        Ok(line) => show(alloc, output, press, line.as_bytes()),
        Err(_) => Err(PutRefusal::NoMemory),
    }
}

/// The thermo line of an engine after an evaluation of forces.
fn thermo_line(
    alloc: Global,
    columns: &Columns,
    engine: &Engine,
    tally: &Tally,
) -> Result<Text, NoMemory>
    requires columns { columns.now ≡ style_one }
    requires shown { IsShown engine.now tally.now }
    ensures { IfOk result (λ text. text ≡ line_now engine.now tally.now) }
{
    let numbers = numbers(alloc, engine, tally)?;
    line(alloc, columns, &numbers)
}

/// Whether a thermo line is due after a step of this number.
fn is_due(every: u64, last: u64, step: u64) -> bool
    ensures { result ≡ is_due every last step }
{
    is_multiple(every, step) || step == last
}

/// Whether the number of a step is a multiple of `every`, where that is not 0.
fn is_multiple(every: u64, step: u64) -> bool
    ensures { result ≡ is_multiple every step }
{
    every != 0 && step % every == 0
}
