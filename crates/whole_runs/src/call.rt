//! The top call over files and a press that never fail.
ghost use Rattle.external_force.specs.Callbacks.{Keeps};
ghost use Rattle.std.specs.Prelude.{◌≡◌, ◌<◌};

use crate::outer::trap;
use disk_outside::SureDisk;
use external_force::{Callback, External, ExternalView, PullRule, Trap};
use fx_num::{NoMemory, Steps, Text};
use fxlmp_top::{Status, run_surely};
use outside::{Files, OpenGate, SurePress, SureShelf};
use std::alloc::Global;
use std::marker::Brand;
use std::sync::ledger::{Blank, Ledger};
use std::thread::Threads;

/// Makes the call, counting on this blank's ledger.
fn call_counted<
    T: Threads + Sync,
    F: Fn(&ExternalView) -> [i64; 3] + Callback,
    R: PullRule,
    L: Ledger,
>(
    rt: &T,
    alloc: Global,
    words: &[Text],
    shelf: &mut SureShelf,
    press: &mut SurePress,
    force: F,
    blank: Blank,
) -> Status
    requires keeps { Keeps F.Callback.takes F.Callback.answers R.pull force }
    requires name { blank.name ≡ L.name }
    requires parts { blank.parts ≡ L.parts }
    requires some { 0 < blank.parts }
{
    let mut steps = Steps::<L>::new(blank);
    let external = External::<F, R>::new(force);
    run_surely(
        rt,
        alloc,
        words,
        shelf,
        press,
        &mut SureDisk,
        &OpenGate,
        &external,
        &mut steps,
    )
}

/// Makes the call with these words over these files. Gives the status, and the press with what it was sent; `None` where
/// two files have one name.
pub(crate) fn call<R: AllocGlobal + Threads + Sync>(
    rt: &R,
    words: &[Text],
    files: Files,
) -> Result<Option<(Status, SurePress)>, NoMemory> {
    if !files.has_distinct_names() {
        return Ok(None);
    }
    let mut shelf = SureShelf::new(rt.alloc(), files)?;
    let mut press = SurePress::new(rt.alloc())?;
    let status = call_counted::<R, _, Trap, Brand>(
        rt,
        rt.alloc(),
        words,
        &mut shelf,
        &mut press,
        trap,
        Blank::new(1),
    );
    Ok(Some((status, press)))
}
