//! A line of a script: its words get what stands for their names, are read as a command, and it is carried out.
ghost use Rattle.command_words.specs.Limits.{KeepsLimits};
ghost use Rattle.meaning.specs.Causes.{Kept, seen_of};
ghost use Rattle.meaning.specs.Flow.{moved};
ghost use Rattle.meaning.specs.Lines.{line_command, line_moved, words_command};
ghost use Rattle.session.specs.Refusals.{led_of, word_refusal};
ghost use Rattle.session.specs.Stops.{IsIdleRefusal, Moves, MovesCounted, ReadsBy, StopRests, StopStays};
ghost use Rattle.meaning.specs.Sound.{IsSound, IsSoundBody};
ghost use Rattle.outside.specs.declared.files.File.{File};
ghost use Rattle.std.specs.Prelude.{◌≡◌, List, Some, IfErr, IfOk, IfSome, OnErr, OnOk};

use crate::answers::widened;
use crate::commands::execute;
use crate::flow::{choose, include, jump, next};
use crate::stops::Stop;
use crate::texts::substituted;
use command_words::{Command, WordRefusal, commands_keep_their_limits, read_command};
use disk_outside::Disk;
use external_force::{Callback, External, ExternalView, PullRule};
use fx_num::{Steps, Words};
use meaning::{Code, Going, Progress, Refusal, Settings};
use outside::{Gate, Press, Shelf};
use script_lines::RawWords;
use std::alloc::Global;
use std::sync::ledger::Ledger;
use std::thread::Threads;

/// Why words are no command.
fn word_refusal(why: WordRefusal) -> Refusal
    ensures { result ≡ word_refusal why }
{
    match why {
        WordRefusal::UnknownCommand => Refusal::Code(Code::UnknownCommand),
        WordRefusal::WordCount => Refusal::Code(Code::WordCount),
        WordRefusal::BadWord(_) => Refusal::Code(Code::BadWord),
        WordRefusal::BadValue(_) => Refusal::Code(Code::BadValue),
        WordRefusal::NoMemory => Refusal::NoMemory,
    }
}

/// The command of words in which everything stands for something.
fn words_command(alloc: Global, words: &Words) -> Result<Command, Refusal>
    ensures is { ReadsBy (words_command words.now) result }
    ensures limits { IfOk result KeepsLimits }
    ensures idle { IfErr result IsIdleRefusal }
{
    if words.as_slice().is_empty() {
        return Err(Refusal::Code(Code::UnknownCommand));
    }
    commands_keep_their_limits();
    match read_command(alloc, words) {
        Ok(command) => Ok(command),
        Err(why) => Err(word_refusal(why)),
    }
}

/// The command of a line.
#[tactic(auto, unfolding(meaning::specs::Lines::line_command))]
fn line_command(alloc: Global, settings: &Settings, words: &RawWords) -> Result<Command, Refusal>
    requires sound { IfSome settings.now.body IsSoundBody }
    ensures is { ReadsBy (line_command settings.now words.now) result }
    ensures limits { IfOk result KeepsLimits }
    ensures idle { IfErr result IsIdleRefusal }
{
    match substituted(alloc, settings, words) {
        Ok(words) => words_command(alloc, &words),
        Err(why) => Err(widened(why)),
    }
}

/// What a command answers that leads a script elsewhere.
fn led(answer: Result<(), Stop>) -> Result<Going, Stop>
    ensures { result ≡ led_of answer }
{
    match answer {
        Ok(()) => Ok(Going::On),
        Err(why) => Err(why),
    }
}

/// Carries out a command of a script.
fn run_command<
    T: Threads + Sync,
    S: Shelf,
    P: Press,
    D: Disk,
    G: Gate,
    F: Fn(&ExternalView) -> [i64; 3] + Callback,
    R: PullRule,
    L: Ledger,
>(
    rt: &T,
    alloc: Global,
    settings: &mut Settings,
    progress: &mut Progress,
    command: Command,
    shelf: &mut S,
    press: &mut P,
    disk: &mut D,
    gate: &G,
    external: &External<F, R>,
    steps: &mut Steps<L>,
) -> Result<Going, Stop>
    requires sound { IsSound settings.old }
    requires limits { KeepsLimits command }
    ensures does { (files : List File) → (S.seen shelf.old).stock ≡ Some files → Moves (moved files command settings.old progress.old) (P.seen press.old).sent result (P.seen press.new).sent settings.new progress.new }
    ensures counted { (files : List File) → (S.seen shelf.old).stock ≡ Some files → MovesCounted (moved files command settings.old progress.old).outcome.pairs steps.old result steps.new }
    ensures sound { OnOk result (IsSound settings.new) }
    ensures lines { progress.new.flow.count ≡ progress.old.flow.count }
    ensures stands { OnErr result (progress.new.flow.last ≡ progress.old.flow.last) }
    ensures cause { IfErr result (λ why. StopRests why (seen_of (S.seen shelf.old) (P.seen press.old) (D.view disk.old).faults) (seen_of (S.seen shelf.new) (P.seen press.new) (D.view disk.new).faults)) }
    ensures kept { Kept (seen_of (S.seen shelf.old) (P.seen press.old) (D.view disk.old).faults) (seen_of (S.seen shelf.new) (P.seen press.new) (D.view disk.new).faults) }
    ensures stays { StopStays result (seen_of (S.seen shelf.old) (P.seen press.old) (D.view disk.old).faults) (seen_of (S.seen shelf.new) (P.seen press.new) (D.view disk.new).faults) }
{
    match command {
        Command::Next(variables) => led(next(alloc, settings, progress, &variables)),
        Command::Label(_) => Ok(Going::On),
        Command::Jump(to) => led(jump(alloc, settings, progress, to, shelf)),
        Command::Include(name) => led(include(alloc, settings, progress, name, shelf)),
        Command::If(choice) => led(choose(alloc, settings, progress, &choice)),
        command => match execute(
            rt, alloc, settings, command, shelf, press, disk, gate, external, steps,
        ) {
            Ok(going) => Ok(going),
            Err(why) => Err(Stop::Command(why)),
        },
    }
}

/// Carries out a line.
pub(crate) fn run_line<
    T: Threads + Sync,
    S: Shelf,
    P: Press,
    D: Disk,
    G: Gate,
    F: Fn(&ExternalView) -> [i64; 3] + Callback,
    R: PullRule,
    L: Ledger,
>(
    rt: &T,
    alloc: Global,
    settings: &mut Settings,
    progress: &mut Progress,
    words: &RawWords,
    shelf: &mut S,
    press: &mut P,
    disk: &mut D,
    gate: &G,
    external: &External<F, R>,
    steps: &mut Steps<L>,
) -> Result<Going, Stop>
    requires sound { IsSound settings.old }
    ensures does { (files : List File) → (S.seen shelf.old).stock ≡ Some files → Moves (line_moved files settings.old progress.old words.now) (P.seen press.old).sent result (P.seen press.new).sent settings.new progress.new }
    ensures counted { (files : List File) → (S.seen shelf.old).stock ≡ Some files → MovesCounted (line_moved files settings.old progress.old words.now).outcome.pairs steps.old result steps.new }
    ensures sound { OnOk result (IsSound settings.new) }
    ensures lines { progress.new.flow.count ≡ progress.old.flow.count }
    ensures stands { OnErr result (progress.new.flow.last ≡ progress.old.flow.last) }
    ensures cause { IfErr result (λ why. StopRests why (seen_of (S.seen shelf.old) (P.seen press.old) (D.view disk.old).faults) (seen_of (S.seen shelf.new) (P.seen press.new) (D.view disk.new).faults)) }
    ensures kept { Kept (seen_of (S.seen shelf.old) (P.seen press.old) (D.view disk.old).faults) (seen_of (S.seen shelf.new) (P.seen press.new) (D.view disk.new).faults) }
    ensures stays { StopStays result (seen_of (S.seen shelf.old) (P.seen press.old) (D.view disk.old).faults) (seen_of (S.seen shelf.new) (P.seen press.new) (D.view disk.new).faults) }
{
    match line_command(alloc, settings, words) {
        Ok(command) => run_command(
            rt, alloc, settings, progress, command, shelf, press, disk, gate, external, steps,
        ),
        Err(why) => Err(Stop::Command(why)),
    }
}
