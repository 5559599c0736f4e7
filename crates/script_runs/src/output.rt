//! Texts of the log, put under the log's name and on the screen.
ghost use Rattle.std.specs.Prelude.{◌≡◌, ◌≤◌, IsErrOf};
ghost use Rattle.meaning.specs.Sends.{Shows};
ghost use Rattle.meaning.specs.Shown.{screen_name, shown, shown_in_log, shown_on_screen, shown_under};
ghost use Rattle.outside.specs.Stock.{Rose};

use fx_num::Text;
use meaning::{Output, Uses};
use outside::{Press, PutRefusal, SCREEN};
use std::alloc::Global;

/// Shows a text of the log: under the log's name, unless there is none, and then on the screen, unless it is off.
///
/// # Errors
///
/// `Faulted` only where the press failed: then a front of the pieces was put and the next one cut. `NoMemory`, and
/// then a front of them was put.
pub fn show<P: Press>(
    alloc: Global,
    output: &mut Output,
    press: &mut P,
    text: &[u8],
) -> Result<(), PutRefusal>
    ensures shows { Shows (shown output.old text.now output.old.uses) (P.seen press.old).sent result (P.seen press.new).sent output.new.uses }
    ensures others { output.new ≡ record output.old { uses = output.new.uses } }
    ensures cause { IsErrOf result PutRefusal.Faulted → Rose (P.seen press.old).faults (P.seen press.new).faults }
    ensures kept { (P.seen press.old).faults ≤ (P.seen press.new).faults }
    ensures stays { (IsErrOf result PutRefusal.Faulted → ⊥) → (P.seen press.new).faults ≡ (P.seen press.old).faults }
{
    match show_in_log(alloc, &output.log, &mut output.uses, press, text) {
        Ok(()) => {}
        Err(why) => return Err(why),
    }
    show_on_screen(alloc, output.screen, &mut output.uses, press, text)
}

/// Puts a text under the log's name, where it has one.
fn show_in_log<P: Press>(
    alloc: Global,
    log: &Option<Text>,
    uses: &mut Uses,
    press: &mut P,
    text: &[u8],
) -> Result<(), PutRefusal>
    ensures shows { Shows (shown_in_log log.now text.now uses.old) (P.seen press.old).sent result (P.seen press.new).sent uses.new }
    ensures cause { IsErrOf result PutRefusal.Faulted → Rose (P.seen press.old).faults (P.seen press.new).faults }
    ensures kept { (P.seen press.old).faults ≤ (P.seen press.new).faults }
    ensures stays { (IsErrOf result PutRefusal.Faulted → ⊥) → (P.seen press.new).faults ≡ (P.seen press.old).faults }
{
    match log {
        Some(name) => show_under(alloc, name, uses, press, text),
        None => Ok(()),
    }
}

/// Puts a text on the screen, where it is on.
fn show_on_screen<P: Press>(
    alloc: Global,
    screen: bool,
    uses: &mut Uses,
    press: &mut P,
    text: &[u8],
) -> Result<(), PutRefusal>
    ensures shows { Shows (shown_on_screen screen text.now uses.old) (P.seen press.old).sent result (P.seen press.new).sent uses.new }
    ensures cause { IsErrOf result PutRefusal.Faulted → Rose (P.seen press.old).faults (P.seen press.new).faults }
    ensures kept { (P.seen press.old).faults ≤ (P.seen press.new).faults }
    ensures stays { (IsErrOf result PutRefusal.Faulted → ⊥) → (P.seen press.new).faults ≡ (P.seen press.old).faults }
{
    if !screen {
        return Ok(());
    }
    match Text::from_bytes(alloc, SCREEN) {
        Ok(name) => show_under(alloc, &name, uses, press, text),
        Err(_) => Err(PutRefusal::NoMemory),
    }
}

/// Puts a text under a name: fresh where it is the first under it.
fn show_under<P: Press>(
    alloc: Global,
    name: &Text,
    uses: &mut Uses,
    press: &mut P,
    text: &[u8],
) -> Result<(), PutRefusal>
    ensures shows { Shows (shown_under name.now text.now uses.old) (P.seen press.old).sent result (P.seen press.new).sent uses.new }
    ensures cause { IsErrOf result PutRefusal.Faulted → Rose (P.seen press.old).faults (P.seen press.new).faults }
    ensures kept { (P.seen press.old).faults ≤ (P.seen press.new).faults }
    ensures stays { (IsErrOf result PutRefusal.Faulted → ⊥) → (P.seen press.new).faults ≡ (P.seen press.old).faults }
{
    let fresh = !uses.has_begun(name.as_bytes());
    match press.put(alloc, name, fresh, text) {
        Ok(()) => {
            uses.begin(name.as_bytes());
            Ok(())
        }
        Err(why) => Err(why),
    }
}
