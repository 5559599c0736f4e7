//! The run of an engine, from its set-up to its footer.
ghost use Rattle.std.specs.Prelude.{◌≡◌, ◌-◌, ◌<◌, ◌≤◌, IfErr, IfOk, OnOk};
ghost use Rattle.meaning.specs.Causes.{Kept, Rests, Stays, press_alone};
ghost use Rattle.meaning.specs.Runs.{run_from, run_of};
ghost use Rattle.script_runs.specs.Line.{IsShown};
ghost use Rattle.script_runs.specs.Parts.{Begins, Makes, set_up_part, stands, step_part};
ghost use Rattle.serial_step.specs.Rebuild.{positions};
ghost use Rattle.serial_step.specs.Step.{serial_step, set_up};
ghost use Rattle.step_engine.specs.Engine.{setting_of, tally_of};
ghost use Rattle.step_engine.specs.Ranges.{AreRules, IsState};
ghost use Rattle.thermo_text.specs.Thermo.{style_one};

use crate::lines::{show_due, show_first, show_footer};
use box_geo::limits::MAX_STEP;
use fix_list::FixList;
use fx_num::Steps;
use meaning::{Output, Refusal, put_refusal};
use outside::Press;
use std::alloc::Global;
use std::sync::ledger::Ledger;
use step_engine::{Engine, StepEnd, Tally};
use thermo_text::{Columns, style_one};

/// Makes the run of an engine that is new: set-up, and the steps up to the last, with what is due after each. Answers the sums of the last
/// forces.
///
/// # Errors
///
/// `Range` with the key and the step of a fault; `WriteFault` only where the press failed; `NoMemory`.
pub(crate) fn run_engine<P: Press, L: Ledger>(
    alloc: Global,
    output: &mut Output,
    engine: &mut Engine,
    fixes: &FixList,
    last: u64,
    press: &mut P,
    steps: &mut Steps<L>,
) -> Result<Tally, Refusal>
    requires rules { AreRules engine.old.rules }
    requires state { IsState engine.old.rules engine.old.state }
    requires references { engine.old.state.references ≡ positions engine.old.state.atoms }
    requires builds { engine.old.state.builds ≡ 0 }
    requires ahead { engine.old.state.step ≤ last }
    requires last { last ≤ MAX_STEP }
    ensures makes { Makes (run_of (setting_of engine.old.rules fixes.now) output.old last engine.old.state.step engine.old.state.atoms output.old.uses) (P.seen press.old).sent steps.old result (P.seen press.new).sent steps.new output.new.uses engine.new.state }
    ensures others { output.new ≡ record output.old { uses = output.new.uses } }
    ensures rules { OnOk result (engine.new ≡ record engine.old { state = engine.new.state }) }
    ensures ready { OnOk result (IsState engine.new.rules engine.new.state) }
    ensures shown { IfOk result (IsShown engine.new) }
    ensures cause { IfErr result (λ why. Rests why (press_alone (P.seen press.old)) (press_alone (P.seen press.new))) }
    ensures kept { Kept (press_alone (P.seen press.old)) (press_alone (P.seen press.new)) }
    ensures stays { Stays result (press_alone (P.seen press.old)) (press_alone (P.seen press.new)) }
{
    let columns = match style_one(alloc) {
        Ok(columns) => columns,
        Err(_) => return Err(Refusal::NoMemory),
    };
    let first = engine.step();
    let tally = match set_up(alloc, &columns, output, engine, fixes, press, steps) {
        Ok(tally) => tally,
        Err(why) => return Err(why),
    };
    go_on(
        alloc, &columns, output, engine, tally, fixes, first, last, press, steps,
    )
}

/// The forces of set-up, and then the header and the first line. Answers the sums of the forces.
fn set_up<P: Press, L: Ledger>(
    alloc: Global,
    columns: &Columns,
    output: &mut Output,
    engine: &mut Engine,
    fixes: &FixList,
    press: &mut P,
    steps: &mut Steps<L>,
) -> Result<Tally, Refusal>
    requires columns { columns.now ≡ style_one }
    requires rules { AreRules engine.old.rules }
    requires state { IsState engine.old.rules engine.old.state }
    requires references { engine.old.state.references ≡ positions engine.old.state.atoms }
    requires builds { engine.old.state.builds ≡ 0 }
    ensures begins { Begins (set_up_part (setting_of engine.old.rules fixes.now) output.old engine.old.state.step engine.old.state.atoms output.old.uses) (P.seen press.old).sent steps.old result (P.seen press.new).sent steps.new output.new.uses }
    ensures others { output.new ≡ record output.old { uses = output.new.uses } }
    ensures sums { IfOk result (λ tally. tally ≡ tally_of (set_up (setting_of engine.old.rules fixes.now) engine.old.state.step engine.old.state.atoms).sums) }
    ensures state { OnOk result (engine.new ≡ record engine.old { state = (set_up (setting_of engine.old.rules fixes.now) engine.old.state.step engine.old.state.atoms).state }) }
    ensures ready { OnOk result (IsState engine.new.rules engine.new.state) }
    ensures shown { IfOk result (IsShown engine.new) }
    ensures cause { IfErr result (λ why. Rests why (press_alone (P.seen press.old)) (press_alone (P.seen press.new))) }
    ensures kept { Kept (press_alone (P.seen press.old)) (press_alone (P.seen press.new)) }
    ensures stays { Stays result (press_alone (P.seen press.old)) (press_alone (P.seen press.new)) }
{
    let number = engine.step();
    let tally = match engine.forces(fixes, steps) {
        Ok(tally) => tally,
        Err(key) => return Err(Refusal::Range(key, number)),
    };
    match show_first(alloc, columns, output, engine, &tally, press) {
        Ok(()) => Ok(tally),
        Err(why) => Err(put_refusal(why)),
    }
}

/// The steps from a step to the last, each with its line if one is due, and the footer. From the sums of the forces at the first to those
/// at the last.
fn go_on<P: Press, L: Ledger>(
    alloc: Global,
    columns: &Columns,
    output: &mut Output,
    engine: &mut Engine,
    mut tally: Tally,
    fixes: &FixList,
    first: u64,
    last: u64,
    press: &mut P,
    steps: &mut Steps<L>,
) -> Result<Tally, Refusal>
    requires columns { columns.now ≡ style_one }
    requires rules { AreRules engine.old.rules }
    requires state { IsState engine.old.rules engine.old.state }
    requires shown { IsShown engine.old tally }
    requires first { first ≡ engine.old.state.step }
    requires ahead { first ≤ last }
    requires last { last ≤ MAX_STEP }
    ensures makes { Makes (run_from (setting_of engine.old.rules fixes.now) output.old last (last - first) (stands engine.old.state tally) output.old.uses) (P.seen press.old).sent steps.old result (P.seen press.new).sent steps.new output.new.uses engine.new.state }
    ensures others { output.new ≡ record output.old { uses = output.new.uses } }
    ensures rules { OnOk result (engine.new ≡ record engine.old { state = engine.new.state }) }
    ensures ready { OnOk result (IsState engine.new.rules engine.new.state) }
    ensures shown { IfOk result (IsShown engine.new) }
    ensures cause { IfErr result (λ why. Rests why (press_alone (P.seen press.old)) (press_alone (P.seen press.new))) }
    ensures kept { Kept (press_alone (P.seen press.old)) (press_alone (P.seen press.new)) }
    ensures stays { Stays result (press_alone (P.seen press.old)) (press_alone (P.seen press.new)) }
{
    for step in first..last {
        tally = match step_once(
            alloc, columns, output, engine, fixes, step, last, press, steps,
        ) {
            Ok(tally) => tally,
            Err(why) => return Err(why),
        };
    }
    match show_footer(alloc, output, engine, press) {
        Ok(()) => Ok(tally),
        Err(why) => Err(put_refusal(why)),
    }
}

/// The step after the one of this number, and its line if one is due. Answers the sums of its forces.
fn step_once<P: Press, L: Ledger>(
    alloc: Global,
    columns: &Columns,
    output: &mut Output,
    engine: &mut Engine,
    fixes: &FixList,
    step: u64,
    last: u64,
    press: &mut P,
    steps: &mut Steps<L>,
) -> Result<Tally, Refusal>
    requires columns { columns.now ≡ style_one }
    requires rules { AreRules engine.old.rules }
    requires state { IsState engine.old.rules engine.old.state }
    requires step { step ≡ engine.old.state.step }
    requires below { engine.old.state.step < MAX_STEP }
    ensures begins { Begins (step_part (setting_of engine.old.rules fixes.now) output.old last engine.old.state output.old.uses) (P.seen press.old).sent steps.old result (P.seen press.new).sent steps.new output.new.uses }
    ensures others { output.new ≡ record output.old { uses = output.new.uses } }
    ensures sums { IfOk result (λ tally. tally ≡ tally_of (serial_step (setting_of engine.old.rules fixes.now) engine.old.state).sums) }
    ensures state { OnOk result (engine.new ≡ record engine.old { state = (serial_step (setting_of engine.old.rules fixes.now) engine.old.state).state }) }
    ensures ready { OnOk result (IsState engine.new.rules engine.new.state) }
    ensures shown { IfOk result (IsShown engine.new) }
    ensures cause { IfErr result (λ why. Rests why (press_alone (P.seen press.old)) (press_alone (P.seen press.new))) }
    ensures kept { Kept (press_alone (P.seen press.old)) (press_alone (P.seen press.new)) }
    ensures stays { Stays result (press_alone (P.seen press.old)) (press_alone (P.seen press.new)) }
{
    let tally = match engine.advance(fixes, steps) {
        Ok(tally) => tally,
        Err(StepEnd::Range(key)) => return Err(Refusal::Range(key, step + 1)),
        Err(StepEnd::NoMemory) => return Err(Refusal::NoMemory),
    };
    match show_due(alloc, columns, output, last, engine, &tally, press) {
        Ok(()) => Ok(tally),
        Err(why) => Err(put_refusal(why)),
    }
}
