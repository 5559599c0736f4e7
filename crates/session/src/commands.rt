//! Each command by its function.
ghost use Rattle.meaning.specs.Causes.{Counted, Kept, Rests, Stays, nothing_lent, seen_of};
ghost use Rattle.meaning.specs.Commands.{atoms_of_style, carried_out, changes_system, fix_of, group_of, outcome_of};
ghost use Rattle.command_words.specs.Limits.{KeepsLimits};
ghost use Rattle.meaning.specs.Sends.{Changes, Executes};
ghost use Rattle.meaning.specs.Sound.{IsSound};
ghost use Rattle.outside.specs.declared.files.File.{File};
ghost use Rattle.std.specs.Prelude.{◌≡◌, List, Some, IfErr, OnOk};

use crate::answers::{changed, decided, on_of, widened};
use crate::output::{print, set_log};
use crate::session::clear;
use crate::system_files::{read_data, write_data};
use crate::variables::set_variable;
use box_geo::AtomStyle;
use command_words::{Command, FixStyle, GroupChange, Members, NewFix};
use disk_outside::Disk;
use external_force::{Callback, External, ExternalView, PullRule};
use fx_num::{Numbers, Steps};
use meaning::{Going, Refusal, Settings};
use outside::{Gate, Press, Shelf};
use run_settings::{
    add_fix, add_region, change_group, change_velocities, create_atoms, create_box,
    group_by_values, remove_fix, reset_timestep, set_atom_style, set_boundary, set_comm_cutoff,
    set_dimension, set_lattice, set_masses, set_pair_coefficients, set_pair_style, set_processors,
    set_skin, set_thermo, set_timestep,
};
use script_runs::run;
use std::alloc::Global;
use std::sync::ledger::Ledger;
use std::thread::Threads;

/// Whether a command changes the system, whatever it changed: what the last run knew then holds no more.
fn changes_system(command: &Command) -> bool
    ensures { result ≡ changes_system command.now }
{
    match command {
        Command::CreateBox(_)
        | Command::CreateAtoms(_)
        | Command::ReadData(_)
        | Command::Mass(_)
        | Command::Velocity(_)
        | Command::Timestep(_)
        | Command::ResetTimestep(_)
        | Command::Clear => true,
        _ => false,
    }
}

/// Carries a command out.
///
/// # Errors
///
/// The code of the command; the key and the step of a range fault; `NotBuilt`; `ReadFault` and `WriteFault` only where the shelf or
/// the press failed; `NoMemory`.
pub fn execute<
    T: Threads + Sync,
    S: Shelf,
    P: Press,
    D: Disk,
    G: Gate,
    F: Fn(&ExternalView) -> [i64; 3] + Callback,
    R: PullRule,
    L: Ledger,
>(
    rt: &T,
    alloc: Global,
    settings: &mut Settings,
    command: Command,
    shelf: &mut S,
    press: &mut P,
    disk: &mut D,
    gate: &G,
    external: &External<F, R>,
    steps: &mut Steps<L>,
) -> Result<Going, Refusal>
    requires sound { IsSound settings.old }
    requires limits { KeepsLimits command }
    ensures does { (files : List File) → (S.seen shelf.old).stock ≡ Some files → Executes (outcome_of files command settings.old) (P.seen press.old).sent result (P.seen press.new).sent settings.new }
    ensures counted { (files : List File) → (S.seen shelf.old).stock ≡ Some files → Counted (outcome_of files command settings.old).pairs steps.old result steps.new }
    ensures sound { OnOk result (IsSound settings.new) }
    ensures cause { IfErr result (λ why. Rests why (seen_of (S.seen shelf.old) (P.seen press.old) (D.view disk.old).faults) (seen_of (S.seen shelf.new) (P.seen press.new) (D.view disk.new).faults)) }
    ensures kept { Kept (seen_of (S.seen shelf.old) (P.seen press.old) (D.view disk.old).faults) (seen_of (S.seen shelf.new) (P.seen press.new) (D.view disk.new).faults) }
    ensures stays { Stays result (seen_of (S.seen shelf.old) (P.seen press.old) (D.view disk.old).faults) (seen_of (S.seen shelf.new) (P.seen press.new) (D.view disk.new).faults) }
{
    let changes = changes_system(&command);
    match carry_out(
        rt, alloc, settings, command, shelf, press, disk, gate, external, steps,
    ) {
        Ok(Going::On) => {
            if changes {
                settings.known = Numbers::new(alloc);
            }
            Ok(Going::On)
        }
        Ok(Going::Quit) => Ok(Going::Quit),
        Err(why) => Err(why),
    }
}

/// Carries a command out, by itself.
fn carry_out<
    T: Threads + Sync,
    S: Shelf,
    P: Press,
    D: Disk,
    G: Gate,
    F: Fn(&ExternalView) -> [i64; 3] + Callback,
    R: PullRule,
    L: Ledger,
>(
    _rt: &T,
    alloc: Global,
    settings: &mut Settings,
    command: Command,
    shelf: &mut S,
    press: &mut P,
    disk: &mut D,
    _gate: &G,
    _external: &External<F, R>,
    steps: &mut Steps<L>,
) -> Result<Going, Refusal>
    requires sound { IsSound settings.old }
    requires limits { KeepsLimits command }
    ensures does { (files : List File) → (S.seen shelf.old).stock ≡ Some files → Executes (carried_out files command settings.old) (P.seen press.old).sent result (P.seen press.new).sent settings.new }
    ensures counted { (files : List File) → (S.seen shelf.old).stock ≡ Some files → Counted (carried_out files command settings.old).pairs steps.old result steps.new }
    ensures sound { OnOk result (IsSound settings.new) }
    ensures cause { IfErr result (λ why. Rests why (seen_of (S.seen shelf.old) (P.seen press.old) (D.view disk.old).faults) (seen_of (S.seen shelf.new) (P.seen press.new) (D.view disk.new).faults)) }
    ensures kept { Kept (seen_of (S.seen shelf.old) (P.seen press.old) (D.view disk.old).faults) (seen_of (S.seen shelf.new) (P.seen press.new) (D.view disk.new).faults) }
    ensures stays { Stays result (seen_of (S.seen shelf.old) (P.seen press.old) (D.view disk.old).faults) (seen_of (S.seen shelf.new) (P.seen press.new) (D.view disk.new).faults) }
{
    match command {
        Command::Units
        | Command::Newton
        | Command::AtomModify
        | Command::Echo
        | Command::NeighModify => Ok(Going::On),
        Command::Dimension(dim) => decided(set_dimension(settings, dim)),
        Command::Boundary(periodic) => decided(set_boundary(settings, periodic)),
        Command::AtomStyle(style) => on_of(set_style(settings, style)),
        Command::Processors(grid) => decided(set_processors(settings, grid)),
        Command::Lattice(new) => decided(set_lattice(settings, &new)),
        Command::Region(new) => changed(add_region(settings, alloc, new)),
        Command::CreateBox(new) => changed(create_box(settings, alloc, &new)),
        Command::CreateAtoms(new) => changed(create_atoms(settings, alloc, &new)),
        Command::ReadData(name) => on_of(read_data(alloc, settings, &name, shelf)),
        Command::WriteData(name) => on_of(write_data(alloc, settings, &name, press)),
        Command::Mass(mass) => changed(set_masses(settings, alloc, &mass)),
        Command::Group(change) => on_of(set_group(alloc, settings, change)),
        Command::PairStyle(cutoff) => decided(set_pair_style(settings, cutoff)),
        Command::PairCoeff(pair) => changed(set_pair_coefficients(settings, alloc, &pair)),
        Command::Neighbor(skin) => {
            set_skin(settings, skin);
            Ok(Going::On)
        }
        Command::CommModify(cutoff) => {
            set_comm_cutoff(settings, cutoff);
            Ok(Going::On)
        }
        Command::Velocity(change) => changed(change_velocities(settings, alloc, &change)),
        Command::Fix(fix) => on_of(set_fix(settings, fix)),
        Command::Unfix(id) => decided(remove_fix(settings, &id)),
        Command::Thermo(every) => {
            set_thermo(settings, every);
            Ok(Going::On)
        }
        Command::Run(asked) => {
            on_of(run(alloc, settings, asked.upto, asked.steps, press, steps))
        }
        Command::Timestep(dt) => {
            set_timestep(settings, dt);
            Ok(Going::On)
        }
        Command::ResetTimestep(step) => decided(reset_timestep(settings, step)),
        Command::Print(text) => on_of(print(alloc, settings, &text, press)),
        Command::Log(name) => changed(set_log(alloc, settings, name)),
        Command::Variable(variable) => on_of(set_variable(alloc, settings, variable)),
        Command::Clear => on_of(clear(alloc, settings)),
        Command::Quit => Ok(Going::Quit),
        _ => Err(Refusal::NotBuilt),
    }
}

/// `atom_style`; other styles than `atomic` are not built yet.
fn set_style(settings: &mut Settings, style: AtomStyle) -> Result<(), Refusal>
    requires sound { IsSound settings.old }
    ensures changes { Changes (atoms_of_style style settings.old) result settings.new }
    ensures sound { OnOk result (IsSound settings.new) }
    ensures cause { IfErr result (λ why. Rests why nothing_lent nothing_lent) }
{
    let AtomStyle::Atomic = style else {
        return Err(Refusal::NotBuilt);
    };
    match set_atom_style(settings, AtomStyle::Atomic) {
        Ok(()) => Ok(()),
        Err(code) => Err(Refusal::Code(code)),
    }
}

/// `group`.
fn set_group(alloc: Global, settings: &mut Settings, change: GroupChange) -> Result<(), Refusal>
    requires sound { IsSound settings.old }
    ensures changes { Changes (group_of change.members change settings.old) result settings.new }
    ensures sound { OnOk result (IsSound settings.new) }
    ensures cause { IfErr result (λ why. Rests why nothing_lent nothing_lent) }
{
    let GroupChange { id, members } = change;
    match members {
        Members::Variable(name) => match group_by_values(settings, alloc, id, &name) {
            Ok(()) => Ok(()),
            Err(why) => Err(widened(why)),
        },
        members => match change_group(settings, alloc, GroupChange { id, members }) {
            Ok(()) => Ok(()),
            Err(why) => Err(widened(why)),
        },
    }
}

/// `fix`; those of other styles are not built yet.
fn set_fix(settings: &mut Settings, fix: NewFix) -> Result<(), Refusal>
    requires sound { IsSound settings.old }
    ensures changes { Changes (fix_of fix.style fix settings.old) result settings.new }
    ensures sound { OnOk result (IsSound settings.new) }
    ensures cause { IfErr result (λ why. Rests why nothing_lent nothing_lent) }
{
    let FixStyle::Nve = fix.style else {
        return Err(Refusal::NotBuilt);
    };
    match add_fix(settings, fix) {
        Ok(()) => Ok(()),
        Err(why) => Err(widened(why)),
    }
}
