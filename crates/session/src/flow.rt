//! Commands that lead a script elsewhere: `next`, `jump`, `include`, `if`.
ghost use Rattle.control_flow.specs.Flow.{included, jumped};
ghost use Rattle.meaning.specs.Answers.{Gets};
ghost use Rattle.meaning.specs.Causes.{Kept, Rests, Stays, shelf_alone};
ghost use Rattle.meaning.specs.Flow.{behind_jump, chosen, chosen_from, if_holds, include, jump, next, script_fetched};
ghost use Rattle.meaning.specs.Sound.{IsSound, IsSoundBody};
ghost use Rattle.outside.specs.declared.files.File.{File};
ghost use Rattle.box_geo.specs.declared.limits.TheConstants.{MAX_SCRIPT_BYTES};
ghost use Rattle.session.specs.Stops.{Fetches, IsIdle, Leads, ScriptRests, StopRests, StopStays, Turns};
ghost use Rattle.std.specs.Prelude.{◌≡◌, ◌≤◌, List, Some, length, IfErr, IfOk, IfSome, OnErr, OnOk};

use crate::answers::widened;
use crate::conditions::condition;
use crate::stops::{Stop, stop_of};
use crate::system_files::fetch_script;
use crate::texts::next_refusal;
use box_geo::limits::MAX_INCLUDES;
use command_words::{Branch, Choice, Jump};
use control_flow::Flow;
use fx_num::{NoMemory, Seq, Text, Words};
use meaning::{Code, Progress, Refusal, Settings, SettingsRefusal, UseKind};
use outside::Shelf;
use std::alloc::Global;

/// `next`: the next value of each variable. Where one had none, the next jump is skipped.
pub(crate) fn next(
    alloc: Global,
    settings: &mut Settings,
    progress: &mut Progress,
    variables: &Words,
) -> Result<(), Stop>
    requires sound { IsSound settings.old }
    ensures turns { Turns (next variables.now settings.old progress.old) result settings.new progress.new }
    ensures sound { OnOk result (IsSound settings.new) }
    ensures stands { OnErr result (progress.new ≡ progress.old) }
    ensures idle { IfErr result IsIdle }
{
    match settings.vars.next(alloc, variables) {
        Ok(true) => {
            progress.flow.skip_next_jump();
            Ok(())
        }
        Ok(false) => Ok(()),
        Err(fault) => Err(Stop::Command(next_refusal(&fault))),
    }
}

/// The text of a script's file. Its name is used, and judged before it is fetched.
fn use_script<S: Shelf>(
    alloc: Global,
    settings: &mut Settings,
    name: &Text,
    shelf: &mut S,
) -> Result<Text, Refusal>
    requires sound { IsSound settings.old }
    ensures told { (files : List File) → (S.seen shelf.old).stock ≡ Some files → Fetches (script_fetched files name.now settings.old) result settings.new }
    ensures short { IfOk result (λ text. length text ≤ MAX_SCRIPT_BYTES) }
    ensures sound { OnOk result (IsSound settings.new) }
    ensures cause { IfErr result (λ why. ScriptRests why (shelf_alone (S.seen shelf.old)) (shelf_alone (S.seen shelf.new))) }
    ensures kept { Kept (shelf_alone (S.seen shelf.old)) (shelf_alone (S.seen shelf.new)) }
    ensures stays { Stays result (shelf_alone (S.seen shelf.old)) (shelf_alone (S.seen shelf.new)) }
{
    match settings.output.uses.add(alloc, UseKind::Fetched, name) {
        Ok(()) => fetch_script(alloc, shelf, name),
        Err(why) => Err(widened(why)),
    }
}

/// Jumps.
#[tactic(auto, using(crate::proofs::StopLemmas::idle_stop, crate::proofs::StopLemmas::jumped_count))]
fn leap(
    alloc: Global,
    flow: &mut Flow,
    other: Option<(Text, Text)>,
    label: Option<Text>,
) -> Result<(), Stop>
    requires { IfSome other (λ o. length o.1 ≤ MAX_SCRIPT_BYTES) }
    ensures leads { Leads (behind_jump (jumped flow.old other label)) result flow.new }
    ensures lines { flow.new.count ≡ flow.old.count }
    ensures stands { OnErr result (flow.new ≡ flow.old) }
    ensures idle { IfErr result IsIdle }
{
    match flow.jump(alloc, other, label) {
        Ok(_) => Ok(()),
        Err(why) => Err(stop_of(why)),
    }
}

/// `jump`. One that is skipped only clears the flag.
#[tactic(auto, using(crate::proofs::StopLemmas::idle_causes))]
pub(crate) fn jump<S: Shelf>(
    alloc: Global,
    settings: &mut Settings,
    progress: &mut Progress,
    to: Jump,
    shelf: &mut S,
) -> Result<(), Stop>
    requires sound { IsSound settings.old }
    ensures turns { (files : List File) → (S.seen shelf.old).stock ≡ Some files → Turns (jump files to settings.old progress.old) result settings.new progress.new }
    ensures sound { OnOk result (IsSound settings.new) }
    ensures lines { progress.new.flow.count ≡ progress.old.flow.count }
    ensures stands { OnErr result (progress.new ≡ progress.old) }
    ensures cause { IfErr result (λ why. StopRests why (shelf_alone (S.seen shelf.old)) (shelf_alone (S.seen shelf.new))) }
    ensures kept { Kept (shelf_alone (S.seen shelf.old)) (shelf_alone (S.seen shelf.new)) }
    ensures stays { StopStays result (shelf_alone (S.seen shelf.old)) (shelf_alone (S.seen shelf.new)) }
{
    let Jump { file, label } = to;
    if progress.flow.skips() {
        return leap(alloc, &mut progress.flow, None, None);
    }
    let Some(name) = file else {
        return leap(alloc, &mut progress.flow, None, label);
    };
    match use_script(alloc, settings, &name, shelf) {
        Ok(text) => leap(alloc, &mut progress.flow, Some((name, text)), label),
        Err(why) => Err(Stop::Command(why)),
    }
}

/// Puts a file before what is left of the present one.
#[tactic(auto, using(crate::proofs::StopLemmas::idle_stop, crate::proofs::StopLemmas::included_count))]
fn enter(alloc: Global, flow: &mut Flow, name: Text, text: Text) -> Result<(), Stop>
    requires { length text ≤ MAX_SCRIPT_BYTES }
    ensures leads { Leads (included flow.old name text) result flow.new }
    ensures lines { flow.new.count ≡ flow.old.count }
    ensures stands { OnErr result (flow.new ≡ flow.old) }
    ensures idle { IfErr result IsIdle }
{
    match flow.include(alloc, name, text) {
        Ok(()) => Ok(()),
        Err(why) => Err(stop_of(why)),
    }
}

/// `include`. Whether one more file may be open is judged before its name.
#[tactic(auto, using(crate::proofs::StopLemmas::idle_causes))]
pub(crate) fn include<S: Shelf>(
    alloc: Global,
    settings: &mut Settings,
    progress: &mut Progress,
    name: Text,
    shelf: &mut S,
) -> Result<(), Stop>
    requires sound { IsSound settings.old }
    ensures turns { (files : List File) → (S.seen shelf.old).stock ≡ Some files → Turns (include files name settings.old progress.old) result settings.new progress.new }
    ensures sound { OnOk result (IsSound settings.new) }
    ensures lines { progress.new.flow.count ≡ progress.old.flow.count }
    ensures stands { OnErr result (progress.new ≡ progress.old) }
    ensures cause { IfErr result (λ why. StopRests why (shelf_alone (S.seen shelf.old)) (shelf_alone (S.seen shelf.new))) }
    ensures kept { Kept (shelf_alone (S.seen shelf.old)) (shelf_alone (S.seen shelf.new)) }
    ensures stays { StopStays result (shelf_alone (S.seen shelf.old)) (shelf_alone (S.seen shelf.new)) }
{
    if progress.flow.depth() >= MAX_INCLUDES {
        return Err(Stop::Command(Refusal::Code(Code::IncludeTooDeep)));
    }
    match use_script(alloc, settings, &name, shelf) {
        Ok(text) => enter(alloc, &mut progress.flow, name, text),
        Err(why) => Err(Stop::Command(why)),
    }
}

/// The same texts.
fn copied(alloc: Global, texts: &[Text]) -> Result<Seq<Text>, NoMemory>
    ensures { IfOk result (λ copies. copies ≡ texts.now) }
{
    let mut copies = Seq::new(alloc);
    for text in texts {
        copies.push(text.copy(alloc)?)?;
    }
    Ok(copies)
}

/// The commands of the first branch whose condition holds, else the others.
fn chosen_from(
    alloc: Global,
    settings: &Settings,
    branches: &[Branch],
    otherwise: &[Text],
) -> Result<Seq<Text>, SettingsRefusal>
    requires sound { IfSome settings.now.body IsSoundBody }
    ensures { Gets (chosen_from settings.now branches.now otherwise.now) result }
{
    for branch in branches {
        if condition(alloc, settings, &branch.condition)? {
            return Ok(copied(alloc, branch.commands.as_slice())?);
        }
    }
    Ok(copied(alloc, otherwise)?)
}

/// `if`: the commands that it chooses are run before the next line.
#[tactic(auto, using(crate::proofs::StopLemmas::idle_widened))]
pub(crate) fn choose(
    alloc: Global,
    settings: &Settings,
    progress: &mut Progress,
    choice: &Choice,
) -> Result<(), Stop>
    requires sound { IsSound settings.now }
    ensures turns { Turns (if_holds choice.now settings.now progress.old) result settings.now progress.new }
    ensures stands { OnErr result (progress.new.flow ≡ progress.old.flow) }
    ensures idle { IfErr result IsIdle }
{
    match chosen_from(
        alloc,
        settings,
        choice.branches.as_slice(),
        choice.otherwise.as_slice(),
    ) {
        Ok(commands) => match progress.pending.put(commands) {
            Ok(()) => Ok(()),
            Err(_) => Err(Stop::Command(Refusal::NoMemory)),
        },
        Err(why) => Err(Stop::Command(widened(why))),
    }
}
