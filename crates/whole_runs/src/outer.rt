//! The program over a shelf and a press in memory.
ghost use Rattle.external_force.specs.Trap.{back};
ghost use Rattle.external_force.specs.Views.{IsNear};
ghost use Rattle.std.specs.Prelude.{◌≡◌};

use disk_outside::SureDisk;
use external_force::{ExternalView, Trap, trap_force};
use fx_num::{NoMemory, Seq, Text};
use outside::{Calls, Cuts, Files, MemPress, MemShelf, OpenGate};
use program::{Unread, run_program};
use std::process::ExitCode;
use std::thread::Threads;

/// What came of a run.
#[derive(Drop)]
pub(crate) struct Outcome {
    /// The number that the program exits with.
    pub(crate) code: ExitCode,
    /// What it said on standard error.
    pub(crate) errors: Vec<u8>,
    /// The press, with what it was sent.
    pub(crate) press: MemPress,
}

/// The force of the program's rule.
pub(crate) fn trap(view: &ExternalView) -> [i64; 3]
    requires { IsNear view.now }
    ensures { result ≡ back view.now.x }
{
    trap_force(view)
}

/// Runs the program with these words, or none, over these files, with these calls that fail. `None` where two files
/// have one name.
pub(crate) fn run<R: AllocGlobal + Threads + Sync>(
    rt: &R,
    read: Result<Seq<Text>, Unread>,
    files: Files,
    fail: Calls,
    cuts: Cuts,
) -> Result<Option<Outcome>, NoMemory> {
    if !files.has_distinct_names() {
        return Ok(None);
    }
    let mut shelf = MemShelf::new(rt.alloc(), files, fail)?;
    let mut press = MemPress::new(rt.alloc(), cuts)?;
    let mut disk = SureDisk;
    let mut errors = Vec::new(rt.alloc());
    let code = run_program::<_, _, _, _, _, _, Trap, _>(
        rt,
        rt.alloc(),
        read,
        &mut shelf,
        &mut press,
        &mut disk,
        &OpenGate,
        trap,
        &mut errors,
    );
    Ok(Some(Outcome {
        code,
        errors,
        press,
    }))
}
