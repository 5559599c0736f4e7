//! `run`: set-up, and the steps, with what is due after each.
ghost use Rattle.std.specs.Prelude.{◌≡◌, ◌≤◌, Some, None, IfErr, OnOk};
ghost use Rattle.meaning.specs.Causes.{Counted, Kept, Rests, Stays, press_alone};
ghost use Rattle.meaning.specs.Fixes.{fixes_over};
ghost use Rattle.meaning.specs.Runs.{after_run, run, run_of, setting_of};
ghost use Rattle.meaning.specs.Sends.{Does};
ghost use Rattle.meaning.specs.Sound.{IsSound};
ghost use Rattle.script_runs.specs.Engines.{IsReady};

use crate::judge::{judged_fixes, last_step};
use crate::numbers::numbers;
use crate::parts::{body_of, engine_of};
use crate::steps::run_engine;
use box_geo::limits::MAX_STEP;
use fix_list::FixList;
use fx_num::Steps;
use meaning::{Body, Code, Refusal, Settings};
use outside::Press;
use std::alloc::Global;
use std::sync::ledger::Ledger;

/// Runs `n` steps, or up to the step of that number. The numbers of the last step are known from then on. It is judged before anything is changed: a code, and coefficients that would have to
/// be mixed, leave the settings as they were.
///
/// # Errors
///
/// `Code` with the code; `NotBuilt` where the coefficients of a pair would have to be mixed; `Range` with the key and the step of a fault,
/// after which output has the uses of names as sent; `WriteFault` only where the press failed; `NoMemory`. After the last three what is in
/// the box may be gone.
pub fn run<P: Press, L: Ledger>(
    alloc: Global,
    settings: &mut Settings,
    upto: bool,
    n: u64,
    press: &mut P,
    steps: &mut Steps<L>,
) -> Result<(), Refusal>
    requires sound { IsSound settings.old }
    requires limit { n ≤ MAX_STEP }
    ensures does { Does (run upto n settings.old) (P.seen press.old).sent result (P.seen press.new).sent settings.new }
    ensures counted { Counted (run upto n settings.old).pairs steps.old result steps.new }
    ensures sound { OnOk result (IsSound settings.new) }
    ensures cause { IfErr result (λ why. Rests why (press_alone (P.seen press.old)) (press_alone (P.seen press.new))) }
    ensures kept { Kept (press_alone (P.seen press.old)) (press_alone (P.seen press.new)) }
    ensures stays { Stays result (press_alone (P.seen press.old)) (press_alone (P.seen press.new)) }
{
    let body = match settings.body.take() {
        Some(body) => body,
        None => return Err(Refusal::Code(Code::NoBox)),
    };
    let fixes = match judged_fixes(alloc, settings, &body, upto, n) {
        Ok(fixes) => fixes,
        Err(why) => {
            settings.body = Some(body);
            return Err(why);
        }
    };
    let last = last_step(upto, n, body.step);
    run_ready(alloc, settings, body, &fixes, last, press, steps)
}

/// Runs a body with its fixes up to a last step, where nothing refuses it.
fn run_ready<P: Press, L: Ledger>(
    alloc: Global,
    settings: &mut Settings,
    body: Body,
    fixes: &FixList,
    last: u64,
    press: &mut P,
    steps: &mut Steps<L>,
) -> Result<(), Refusal>
    requires sound { IsSound (record settings.old { body = Some body }) }
    requires fixes { fixes.now ≡ fixes_over settings.old.named.groups body.atoms settings.old.named.fixes }
    requires ahead { body.step ≤ last }
    requires last { last ≤ MAX_STEP }
    requires ready { IsReady settings.old body }
    ensures does { Does (after_run settings.old body (run_of (setting_of settings.old body) settings.old.output last body.step body.atoms settings.old.output.uses)) (P.seen press.old).sent result (P.seen press.new).sent settings.new }
    ensures counted { Counted (run_of (setting_of settings.old body) settings.old.output last body.step body.atoms settings.old.output.uses).pairs steps.old result steps.new }
    ensures sound { OnOk result (IsSound settings.new) }
    ensures cause { IfErr result (λ why. Rests why (press_alone (P.seen press.old)) (press_alone (P.seen press.new))) }
    ensures kept { Kept (press_alone (P.seen press.old)) (press_alone (P.seen press.new)) }
    ensures stays { Stays result (press_alone (P.seen press.old)) (press_alone (P.seen press.new)) }
{
    let mut engine = match engine_of(alloc, &settings.force, settings.setup.timestep, body) {
        Ok(engine) => engine,
        Err(_) => return Err(Refusal::NoMemory),
    };
    let tally = match run_engine(
        alloc,
        &mut settings.output,
        &mut engine,
        fixes,
        last,
        press,
        steps,
    ) {
        Ok(tally) => tally,
        Err(why) => return Err(why),
    };
    let known = match numbers(alloc, &engine, &tally) {
        Ok(known) => known,
        Err(_) => return Err(Refusal::NoMemory),
    };
    settings.body = Some(body_of(engine));
    settings.known = known;
    Ok(())
}
