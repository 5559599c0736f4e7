//! The state in which a script begins, and `clear`.
ghost use Rattle.meaning.specs.Session.{begun_with, clear, first_force, first_named, first_setup};
ghost use Rattle.meaning.specs.Sound.{IsSound};
ghost use Rattle.meaning.specs.Causes.{Rests, nothing_lent};
ghost use Rattle.meaning.specs.Outcome.{done};
ghost use Rattle.meaning.specs.Sends.{Changes};
ghost use Rattle.std.specs.Prelude.{◌≡◌, IfErr, IfOk, OnOk};

use box_geo::AtomStyle;
use box_geo::limits::{DEFAULT_SKIN, DEFAULT_TIMESTEP};
use fx_num::{NoMemory, Numbers};
use meaning::{FixSettings, Force, Named, Output, PairSettings, Refusal, Settings, Setup};
use regions_groups::{Groups, Regions};
use std::alloc::Global;
use var_table::Vars;

/// The set-up at the start.
fn first_setup() -> Setup
    ensures { result ≡ first_setup }
{
    Setup {
        dim: 3,
        periodic: [true; 3],
        style: AtomStyle::Atomic,
        grid: [1; 3],
        timestep: DEFAULT_TIMESTEP,
        lattice: None,
    }
}

/// What forces rest on at the start.
fn first_force(alloc: Global) -> Force
    ensures { result ≡ first_force }
{
    Force {
        pair_style: None,
        pairs: PairSettings::new(alloc),
        comm_cutoff: 0,
        skin: DEFAULT_SKIN,
    }
}

/// What a script gave names to at the start: nothing.
fn first_named(alloc: Global) -> Result<Named, NoMemory>
    ensures { IfOk result (λ named. named ≡ first_named) }
{
    Ok(Named {
        regions: Regions::new(alloc)?,
        groups: Groups::new(alloc)?,
        fixes: FixSettings::new(alloc),
    })
}

/// The settings at the start, with these of the output and these variables.
pub fn begun_with(alloc: Global, output: Output, vars: Vars) -> Result<Settings, NoMemory>
    ensures is { IfOk result (λ settings. settings ≡ begun_with output vars) }
    ensures sound { IfOk result IsSound }
{
    let named = first_named(alloc)?;
    Ok(Settings {
        body: None,
        setup: first_setup(),
        force: first_force(alloc),
        named,
        output: Output { every: 0, ..output },
        vars,
        known: Numbers::new(alloc),
    })
}

/// `clear`: the settings are as they are at the start, but for the log, the screen, the uses of names and the variables.
pub(crate) fn clear(alloc: Global, settings: &mut Settings) -> Result<(), Refusal>
    ensures changes { Changes (done (clear settings.old)) result settings.new }
    ensures sound { OnOk result (IsSound settings.new) }
    ensures cause { IfErr result (λ why. Rests why nothing_lent nothing_lent) }
{
    let named = match first_named(alloc) {
        Ok(named) => named,
        Err(_) => return Err(Refusal::NoMemory),
    };
    settings.body = None;
    settings.setup = first_setup();
    settings.force = first_force(alloc);
    settings.named = named;
    settings.output.every = 0;
    settings.known = Numbers::new(alloc);
    Ok(())
}
