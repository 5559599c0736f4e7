//! The next line of a script.
ghost use Rattle.control_flow.specs.Flow.{counted, stepped};
ghost use Rattle.meaning.specs.Play.{command_words, counted_line, file_line, next_line};
ghost use Rattle.session.specs.Refusals.{unread_refusal};
ghost use Rattle.session.specs.Stops.{Advances, IsIdle, IsIdleRefusal, Reaches, ReadsBy};
ghost use Rattle.std.specs.Prelude.{◌≡◌, ℕ, [], List, IfErr, IfOk, IfSome, OnErr};

use crate::stops::{Stop, stop_of};
use control_flow::{Flow, FlowEvent};
use fx_num::Text;
use meaning::{Code, Progress, Refusal};
use script_lines::{LineRefusal, Place, RawWords, line_from};
use std::alloc::Global;

/// Why a command's text cannot be read.
#[tactic(auto, using(crate::proofs::StopLemmas::idle_code, crate::proofs::StopLemmas::idle_memory))]
fn unread(why: LineRefusal) -> Refusal
    ensures is { result ≡ unread_refusal why }
    ensures idle { IsIdleRefusal result }
{
    match why {
        LineRefusal::UnclosedQuote(_) => Refusal::Code(Code::UnclosedQuote),
        LineRefusal::ContinuationAtEnd(_) => Refusal::Code(Code::ContinuationAtEnd),
        LineRefusal::QuoteTail(_) => Refusal::Code(Code::QuoteTail),
        LineRefusal::NoMemory => Refusal::NoMemory,
    }
}

/// The words of the first line of a command's text that has any. A text that is too long to number its lines wants memory.
#[tactic(auto, using(crate::proofs::NextLemmas::unread_reads, crate::proofs::StopLemmas::idle_memory))]
fn words_in(alloc: Global, text: &Text) -> Result<Option<RawWords>, Refusal>
    ensures is { ReadsBy (command_words text.now) result }
    ensures idle { IfErr result IsIdleRefusal }
{
    if text.as_bytes().len() > u32::MAX as usize {
        return Err(Refusal::NoMemory);
    }
    match line_from(alloc, text.as_bytes(), Place::start()) {
        Ok(Some(line)) => Ok(Some(line.words)),
        Ok(None) => Ok(None),
        Err(why) => Err(unread(why)),
    }
}

/// A line that an `if` runs counts as run.
#[tactic(auto, using(crate::proofs::StopLemmas::idle_stop))]
fn counted(alloc: Global, flow: &mut Flow, words: RawWords) -> Result<Option<RawWords>, Stop>
    ensures reaches { (pending : List (List ℕ)) → Reaches (counted_line words pending (counted flow.old)) result record { flow = flow.new; pending = pending } }
    ensures advances { IfOk result (λ line. IfSome line (λ w. Advances flow.old flow.new)) }
    ensures stands { OnErr result (flow.new ≡ flow.old) }
    ensures idle { IfErr result IsIdle }
{
    match flow.count(alloc) {
        Ok(()) => Ok(Some(words)),
        Err(why) => Err(stop_of(why)),
    }
}

/// The next line of the files.
#[tactic(auto, using(crate::proofs::StopLemmas::idle_stop))]
fn file_line(alloc: Global, flow: &mut Flow) -> Result<Option<RawWords>, Stop>
    ensures reaches { Reaches (file_line (stepped flow.old)) result record { flow = flow.new; pending = [] } }
    ensures advances { IfOk result (λ line. IfSome line (λ w. Advances flow.old flow.new)) }
    ensures stands { OnErr result (flow.new ≡ flow.old) }
    ensures idle { IfErr result IsIdle }
{
    match flow.step(alloc) {
        Ok(FlowEvent::Line { words, .. }) => Ok(Some(words)),
        Ok(FlowEvent::End) => Ok(None),
        Err(why) => Err(stop_of(why)),
    }
}

/// The next line: of the commands of an `if`, and behind these of the files. It counts as run.
pub(crate) fn next_line(alloc: Global, progress: &mut Progress) -> Result<Option<RawWords>, Stop>
    ensures reaches { Reaches (next_line progress.old.flow progress.old.pending) result progress.new }
    ensures advances { IfOk result (λ line. IfSome line (λ w. Advances progress.old.flow progress.new.flow)) }
    ensures stands { OnErr result (progress.new.flow ≡ progress.old.flow) }
    ensures idle { IfErr result IsIdle }
{
    while let Some(text) = progress.pending.pop() {
        match words_in(alloc, &text) {
            Ok(None) => {}
            Ok(Some(words)) => return counted(alloc, &mut progress.flow, words),
            Err(why) => return Err(Stop::Command(why)),
        }
    }
    file_line(alloc, &mut progress.flow)
}
