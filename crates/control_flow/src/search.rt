//! The next line of open files.
ghost use Rattle.std.specs.Prelude.{◌≡◌, ◌∷◌, ◌≤◌, [], drop, length, vec_len, IfErr, IfOk, IfNone, IfSome};
ghost use Rattle.control_flow.specs.Flow.{stepped_in, FlowState};
ghost use Rattle.control_flow.specs.Found.{StandsIn};
ghost use Rattle.control_flow.specs.Labels.{IsRefusal, IsUnread};
ghost use Rattle.script_lines.specs.Script.{no_lines};

use crate::file::ScriptFile;
use crate::refusals::FlowRefusal;
use fx_num::Text;
use script_lines::ScriptLine;
use std::alloc::Global;

/// The next line of open files.
#[derive(Drop)]
pub(crate) struct Found {
    /// How many files in front of its file have no line left.
    pub(crate) closed: usize,
    /// The name of its file.
    pub(crate) file: Text,
    /// The line.
    pub(crate) line: ScriptLine,
}

/// The next line of a file in front of which so many have none left.
fn found_at(alloc: Global, closed: usize, file: &ScriptFile) -> Result<Option<Found>, FlowRefusal>
    ensures closed { IfOk result (λ found. IfSome found (λ f. f.closed ≡ closed)) }
    ensures found { IfOk result (λ found. IfSome found (λ f. StandsIn f (file.now ∷ []))) }
    ensures over { IfOk result (λ found. IfNone found (file.now.left ≡ no_lines)) }
    ensures refused { IfErr result (λ why. IsUnread why file.now.name file.now.left) }
{
    match file.next(alloc)? {
        None => Ok(None),
        Some(line) => Ok(Some(Found {
            closed,
            file: file.name().copy(alloc)?,
            line,
        })),
    }
}

/// The next line of a file and those that include it.
pub(crate) fn found_in(
    alloc: Global,
    file: &ScriptFile,
    outer: &[ScriptFile],
) -> Result<Option<Found>, FlowRefusal>
    ensures within { IfOk result (λ found. IfSome found (λ f. f.closed ≤ length outer.now)) }
    ensures found { IfOk result (λ found. IfSome found (λ f. StandsIn f (drop f.closed (file.now ∷ outer.now)))) }
    ensures closed { IfOk result (λ found. IfSome found (λ f. (flow : FlowState) → stepped_in flow (file.now ∷ outer.now) ≡ stepped_in flow (drop f.closed (file.now ∷ outer.now)))) }
    ensures over { IfOk result (λ found. IfNone found ((flow : FlowState) → stepped_in flow (file.now ∷ outer.now) ≡ stepped_in flow [])) }
    ensures refused { IfErr result (λ why. (flow : FlowState) → IsRefusal why (stepped_in flow (file.now ∷ outer.now))) }
{
    if let Some(found) = found_at(alloc, 0, file)? {
        return Ok(Some(found));
    }
    for (i, next) in outer.iter().enumerate() {
        if let Some(found) = found_at(alloc, i + 1, next)? {
            return Ok(Some(found));
        }
    }
    Ok(None)
}

/// Closes so many files in front.
pub(crate) fn close(file: &mut ScriptFile, outer: &mut Vec<ScriptFile>, closed: usize)
    requires { closed ≤ vec_len outer.old }
    ensures { file.new ∷ outer.new.items ≡ drop closed (file.old ∷ outer.old.items) }
{
    for _i in 0..closed {
        *file = outer.remove(0);
    }
}
