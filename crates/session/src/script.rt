//! Scripts, line by line.
ghost use Rattle.box_geo.specs.declared.limits.TheConstants.{MAX_SCRIPT_BYTES};
ghost use Rattle.log_output.specs.Errors.{budget_text, fault_text};
ghost use Rattle.meaning.specs.Causes.{Kept, seen_of};
ghost use Rattle.meaning.specs.Play.{End, begun, budget_at, ends_telling, failed_at, play, refused_line};
ghost use Rattle.meaning.specs.Sound.{IsSound};
ghost use Rattle.outside.specs.declared.files.File.{File};
ghost use Rattle.session.specs.Ends.{EndsAs, EndsLine, EndsStop, IsTold, StatusCounted, StatusRests, StatusStays, line_status, status_of, stop_status};
ghost use Rattle.std.specs.Prelude.{◌≡◌, ◌≤◌, ℕ, List, Some, length, IfOk};

use crate::line::run_line;
use crate::next_line::next_line;
use crate::status::Status;
use crate::stops::Stop;
use box_geo::FaultKey;
use control_flow::Flow;
use disk_outside::Disk;
use external_force::{Callback, External, ExternalView, PullRule};
use fx_num::{NoMemory, Steps, Text};
use log_output::{budget_text, fault_text, refusal_text};
use meaning::{Code, Going, Output, Pending, Progress, Refusal, Settings};
use outside::{Gate, Press, PutRefusal, Shelf};
use script_runs::show;
use std::alloc::Global;
use std::sync::ledger::Ledger;
use std::thread::Threads;

/// Shows the line of an error, and answers the status.
fn tell<P: Press>(
    alloc: Global,
    output: &mut Output,
    text: &Text,
    status: Status,
    press: &mut P,
) -> Status
    ensures ends { (meant : End) → status_of meant ≡ status → EndsAs result (P.seen press.old).sent (ends_telling output.old text.now meant) (P.seen press.new).sent }
    ensures told { IsTold (status) result (P.seen press.old).faults (P.seen press.new).faults }
    ensures kept { (P.seen press.old).faults ≤ (P.seen press.new).faults }
{
    match show(alloc, output, press, text.as_bytes()) {
        Ok(()) => status,
        Err(PutRefusal::Faulted) => Status::WriteFault,
        Err(PutRefusal::NoMemory) => Status::NoMemory,
    }
}

/// The status of a refused line.
fn refused(alloc: Global, code: Code, file: &Text, line: u32) -> Result<Status, NoMemory>
    ensures { IfOk result (λ status. status ≡ Status.ScriptRefused code file.now line) }
{
    Ok(Status::ScriptRefused {
        code,
        file: file.copy(alloc)?,
        line,
    })
}

/// Shows that a line is refused.
pub fn refuse<P: Press>(
    alloc: Global,
    output: &mut Output,
    code: Code,
    file: &Text,
    line: u32,
    press: &mut P,
) -> Status
    ensures ends { EndsAs result (P.seen press.old).sent (refused_line output.old file.now line code) (P.seen press.new).sent }
    ensures told { IsTold (Status.ScriptRefused code file.now line) result (P.seen press.old).faults (P.seen press.new).faults }
    ensures kept { (P.seen press.old).faults ≤ (P.seen press.new).faults }
{
    let text = match refusal_text(alloc, code.name(), file.as_bytes(), line) {
        Ok(text) => text,
        Err(_) => return Status::NoMemory,
    };
    match refused(alloc, code, file, line) {
        Ok(status) => tell(alloc, output, &text, status, press),
        Err(_) => Status::NoMemory,
    }
}

/// Shows that a quantity left its range.
fn fail<P: Press>(
    alloc: Global,
    output: &mut Output,
    key: FaultKey,
    step: u64,
    press: &mut P,
) -> Status
    ensures ends { EndsAs result (P.seen press.old).sent (ends_telling output.old (fault_text key step) (failed_at key step)) (P.seen press.new).sent }
    ensures told { IsTold (Status.RangeFault key step) result (P.seen press.old).faults (P.seen press.new).faults }
    ensures kept { (P.seen press.old).faults ≤ (P.seen press.new).faults }
{
    match fault_text(alloc, &key, step) {
        Ok(text) => tell(
            alloc,
            output,
            &text,
            Status::RangeFault { key, step },
            press,
        ),
        Err(_) => Status::NoMemory,
    }
}

/// Ends a script at a line whose command was not carried out.
fn end_by<P: Press>(
    alloc: Global,
    output: &mut Output,
    why: Refusal,
    file: &Text,
    line: u32,
    press: &mut P,
) -> Status
    ensures ends { EndsLine why output.old file.now line result (P.seen press.old).sent (P.seen press.new).sent }
    ensures told { IsTold (line_status why file.now line) result (P.seen press.old).faults (P.seen press.new).faults }
    ensures kept { (P.seen press.old).faults ≤ (P.seen press.new).faults }
{
    match why {
        Refusal::Code(code) => refuse(alloc, output, code, file, line, press),
        Refusal::Range(key, step) => fail(alloc, output, key, step, press),
        Refusal::ReadFault => Status::ReadFault,
        Refusal::WriteFault => Status::WriteFault,
        Refusal::DiskFault => Status::DiskFault,
        Refusal::NoMemory => Status::NoMemory,
        Refusal::NotBuilt => match file.copy(alloc) {
            Ok(file) => Status::NotBuilt { file, line },
            Err(_) => Status::NoMemory,
        },
    }
}

/// Shows that a script would run more lines than it may.
fn exceed<P: Press>(
    alloc: Global,
    output: &mut Output,
    file: Text,
    line: u32,
    press: &mut P,
) -> Status
    ensures ends { EndsAs result (P.seen press.old).sent (ends_telling output.old (budget_text file line) (budget_at file line)) (P.seen press.new).sent }
    ensures told { IsTold (Status.Budget file line) result (P.seen press.old).faults (P.seen press.new).faults }
    ensures kept { (P.seen press.old).faults ≤ (P.seen press.new).faults }
{
    match budget_text(alloc, file.as_bytes(), line) {
        Ok(text) => tell(alloc, output, &text, Status::Budget { file, line }, press),
        Err(_) => Status::NoMemory,
    }
}

/// Ends a script at the last line of its flow, behind which it does not go on.
fn end_at<P: Press>(
    alloc: Global,
    output: &mut Output,
    stop: Stop,
    flow: &Flow,
    press: &mut P,
) -> Status
    ensures ends { EndsStop stop output.old flow.now.last.file flow.now.last.number result (P.seen press.old).sent (P.seen press.new).sent }
    ensures told { IsTold (stop_status stop flow.now.last.file flow.now.last.number) result (P.seen press.old).faults (P.seen press.new).faults }
    ensures kept { (P.seen press.old).faults ≤ (P.seen press.new).faults }
{
    match stop {
        Stop::Command(why) => {
            end_by(
                alloc,
                output,
                why,
                flow.last_file(),
                flow.last_number(),
                press,
            )
        }
        Stop::Refused(code, file, line) => refuse(alloc, output, code, &file, line, press),
        Stop::Budget(file, line) => exceed(alloc, output, file, line, press),
    }
}

/// How far the script of a file is at its start.
fn begun(alloc: Global, file: &Text, text: &Text) -> Result<Progress, NoMemory>
    requires short { length text.now ≤ MAX_SCRIPT_BYTES }
    ensures { IfOk result (λ progress. progress ≡ begun file.now text.now) }
{
    let flow = Flow::new(alloc, file.copy(alloc)?, text.copy(alloc)?)?;
    Ok(Progress {
        flow,
        pending: Pending::new(alloc),
    })
}

/// Plays the script of a text of at most [`MAX_SCRIPT_BYTES`](box_geo::limits::MAX_SCRIPT_BYTES) bytes, whose file has this name: its
/// lines one after another, through the files that they lead to.
pub fn play<
    T: Threads + Sync,
    S: Shelf,
    P: Press,
    D: Disk,
    G: Gate,
    F: Fn(&ExternalView) -> [i64; 3] + Callback,
    R: PullRule,
    L: Ledger,
>(
    rt: &T,
    alloc: Global,
    settings: Settings,
    file: &Text,
    text: &Text,
    shelf: &mut S,
    press: &mut P,
    disk: &mut D,
    gate: &G,
    external: &External<F, R>,
    steps: &mut Steps<L>,
) -> Status
    requires sound { IsSound settings }
    requires short { length text.now ≤ MAX_SCRIPT_BYTES }
    ensures ends { (files : List File) → (S.seen shelf.old).stock ≡ Some files → EndsAs result (P.seen press.old).sent (play files file.now text.now settings) (P.seen press.new).sent }
    ensures counted { (files : List File) → (S.seen shelf.old).stock ≡ Some files → StatusCounted (play files file.now text.now settings).pairs steps.old result steps.new }
    ensures cause { StatusRests result (seen_of (S.seen shelf.old) (P.seen press.old) (D.view disk.old).faults) (seen_of (S.seen shelf.new) (P.seen press.new) (D.view disk.new).faults) }
    ensures kept { Kept (seen_of (S.seen shelf.old) (P.seen press.old) (D.view disk.old).faults) (seen_of (S.seen shelf.new) (P.seen press.new) (D.view disk.new).faults) }
    ensures stays { StatusStays result (seen_of (S.seen shelf.old) (P.seen press.old) (D.view disk.old).faults) (seen_of (S.seen shelf.new) (P.seen press.new) (D.view disk.new).faults) }
    ensures no_usage { (place : ℕ) → result ≡ Status.Usage place → ⊥ }
{
    let mut settings = settings;
    let mut progress = match begun(alloc, file, text) {
        Ok(progress) => progress,
        Err(_) => return Status::NoMemory,
    };
    loop {
        let words = match next_line(alloc, &mut progress) {
            Ok(Some(words)) => words,
            Ok(None) => return Status::Done,
            Err(stop) => {
                return end_at(alloc, &mut settings.output, stop, &progress.flow, press);
            }
        };
        match run_line(
            rt,
            alloc,
            &mut settings,
            &mut progress,
            &words,
            shelf,
            press,
            disk,
            gate,
            external,
            steps,
        ) {
            Ok(Going::On) => {}
            Ok(Going::Quit) => return Status::Done,
            Err(stop) => {
                return end_at(alloc, &mut settings.output, stop, &progress.flow, press);
            }
        }
    }
}
