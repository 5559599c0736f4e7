//! The engine: made of a system, it evaluates forces and makes steps.
ghost use Rattle.std.specs.Prelude.{◌≡◌, ◌+◌, ◌<◌, ◌≤◌, pos, ◌+ℤ◌, true, [], map, Some, None, Ok, Err, length, unsigned_abs, All, IfErr, IfOk, OnOk, MatchResult};
ghost use Rattle.box_geo.specs.Fault.{no_fault};
ghost use Rattle.serial_step.specs.Forces.{field_of, forces_fault, with_forces};
ghost use Rattle.serial_step.specs.Rebuild.{positions, renews};
ghost use Rattle.serial_step.specs.Room.{edge_too_small};
ghost use Rattle.serial_step.specs.Step.{atoms_of, counts, drifted, fault_of, kicked_again, referenced, serial_step, sums_of};
ghost use Rattle.serial_step.specs.Work.{step_pairs};
ghost use Rattle.step_engine.specs.Engine.{IsKeyOf, first_state, rules_of, setting_of, system_of, tally_of, with_atoms, world_of};
ghost use Rattle.step_engine.specs.Ranges.{AreAtoms, AreRules, IsForceField, IsSkin, IsSmall, IsState, IsTimestep};
ghost use Rattle.sums.specs.Totals.{half};

use crate::motion::{drift, kick_again};
use crate::pairs::evaluate_forces;
use crate::reach::Reach;
use crate::rebuild::{neighbour_pairs, positions, renew, renews};
use crate::room::edge_too_small;
use crate::rules::{ForceField, Rules};
use crate::tally::Tally;
use box_geo::limits::MAX_STEP;
use box_geo::{Angles, Atom, Axis, Bonds, FaultKey, NO_FAULT, SimBox, System};
use fix_list::FixList;
use fx_num::{NoMemory, Seq, Steps, V3};
use std::alloc::Global;
use std::marker::Model;
use std::sync::ledger::Ledger;
use thiserror::Error;

/// The atoms of a run and their motion. Contracts see what stands still in the run and the state of
/// the serial step.
#[derive(Drop)]
pub struct Engine {
    rules: Rules,
    step: u64,
    atoms: Vec<Atom>,
    references: Vec<V3>,
    builds: u64,
    bonds: Bonds,
    angles: Angles,
}

/// Why a system makes no engine.
#[derive(Clone, Copy, Debug, PartialEq, Eq, Error)]
pub enum EngineRefusal {
    /// An edge that wraps is below twice the sum of the greatest cutoff and the skin.
    #[error("the box is too small along axis {0:?}")]
    EdgeTooSmall(Axis),
    /// The allocator refused.
    #[error("out of memory")]
    NoMemory,
}

/// Why a step was not made.
#[derive(Clone, Copy, Debug, PartialEq, Eq, Error)]
pub enum StepEnd {
    /// A quantity left its range.
    #[error("a quantity is out of range")]
    Range(FaultKey),
    /// The allocator refused.
    #[error("out of memory")]
    NoMemory,
}

impl From<NoMemory> for EngineRefusal {
    ghost use Rattle.step_engine.specs.declared.engine.EngineRefusal.TheVariants as refusal;

    ghost from_gives = { λ _ out. out ≡ refusal.NoMemory };

    fn from(_error: NoMemory) -> EngineRefusal {
        EngineRefusal::NoMemory
    }
}

impl From<FaultKey> for StepEnd {
    ghost use Rattle.step_engine.specs.declared.engine.StepEnd.TheVariants as end;

    ghost from_gives = { λ key out. out ≡ end.Range key };

    fn from(key: FaultKey) -> StepEnd {
        StepEnd::Range(key)
    }
}

impl Model for Engine {
    ghost use Rattle.step_engine.specs.Engine.{World};

    ghost Value = { World };

    ghost view = { λ e. record {
      rules = e.rules;
      state = record { step = e.step; atoms = e.atoms.items; references = e.references.items; builds = e.builds };
      bonds = e.bonds;
      angles = e.angles;
    } };
}

impl Engine {
    /// The engine of a system, with its positions as references. The first axis whose edge wraps and is
    /// below twice the sum of the greatest cutoff and the skin is refused as too small.
    ///
    /// The force field is finished, no cutoff is beyond its greatest, every atom is inside the box and
    /// of a type that has coefficients and a mass, and all numbers keep to their limits.
    pub fn new(
        alloc: Global,
        system: System,
        field: ForceField,
        skin: i64,
    ) -> Result<Engine, EngineRefusal>
        requires field { IsForceField field }
        requires skin { IsSkin skin }
        requires dt { IsTimestep system.dt }
        requires step { system.step ≤ MAX_STEP }
        requires atoms { AreAtoms (rules_of system field skin) system.atoms }
        ensures made { IfOk result (λ e. e ≡ world_of system field skin) }
        ensures ready { IfOk result (λ e. AreRules e.rules × IsState e.rules e.state) }
        ensures room { OnOk result (edge_too_small system.cell.sides (field.rcmax +ℤ skin) ≡ None) }
        ensures too_small { (axis : Axis) → result ≡ Err (EngineRefusal.EdgeTooSmall axis) → edge_too_small system.cell.sides (field.rcmax +ℤ skin) ≡ Some axis }
    {
        if let Some(axis) = edge_too_small(&system.cell, field.rcmax + skin) {
            return Err(EngineRefusal::EdgeTooSmall(axis));
        }
        let references = positions(alloc, system.atoms.as_slice())?;
        let System {
            step,
            dt,
            cell,
            mass,
            atoms,
            bonds,
            angles,
        } = system;
        Ok(Engine {
            rules: Rules {
                field,
                cell,
                dt,
                mass,
                skin,
            },
            step,
            atoms: atoms.into_vec(),
            references,
            builds: 0,
            bonds,
            angles,
        })
    }

    /// The forces of the present positions, and their sums. A fault is the least key of the terms, or,
    /// where no term has one, of the atoms whose force is too great; the engine is then only dropped.
    /// It counts one step for each unordered pair, and takes no memory.
    pub fn forces<L: Ledger>(
        &mut self,
        fixes: &FixList,
        steps: &mut Steps<L>,
    ) -> Result<Tally, FaultKey>
        requires rules { AreRules self.old.rules }
        requires state { IsState self.old.rules self.old.state }
        ensures system { OnOk result (self.new ≡ with_atoms self.old (with_forces (field_of self.old.rules.field.pairs.pairs) self.old.rules.cell.sides self.old.state.atoms)) }
        ensures sums { IfOk result (λ t. t ≡ tally_of (sums_of (setting_of self.old.rules fixes.now) self.old.state.atoms)) }
        ensures small { IfOk result (IsSmall self.old.rules.cell.sides (length self.old.state.atoms)) }
        ensures sound { OnOk result (forces_fault (field_of self.old.rules.field.pairs.pairs) self.old.rules.cell.sides self.old.state.atoms ≡ no_fault) }
        ensures ready { OnOk result (IsState self.new.rules self.new.state) }
        ensures fault { IfErr result (IsKeyOf (forces_fault (field_of self.old.rules.field.pairs.pairs) self.old.rules.cell.sides self.old.state.atoms)) }
        ensures steps { steps.new ≡ steps.old + length (half self.old.state.atoms) }
    {
        let reach = Reach::new(&self.rules.field, &self.rules.cell);
        evaluate_forces(
            &self.rules.field.pairs,
            &self.rules.cell,
            &reach,
            &mut self.atoms,
            steps,
        )
    }

    /// One step: half a kick and the drift, the references, the forces, and the second half of the kick.
    /// A fault is the least key of the first of these phases that has one; the engine is then only
    /// dropped. Memory is taken only on a step that renews the references. A step counts one for each
    /// unordered pair, unless an atom is at fault before the forces.
    pub fn advance<L: Ledger>(
        &mut self,
        fixes: &FixList,
        steps: &mut Steps<L>,
    ) -> Result<Tally, StepEnd>
        requires rules { AreRules self.old.rules }
        requires state { IsState self.old.rules self.old.state }
        requires below { self.old.state.step < MAX_STEP }
        ensures state { OnOk result (self.new ≡ record self.old { state = (serial_step (setting_of self.old.rules fixes.now) self.old.state).state }) }
        ensures sums { IfOk result (λ t. t ≡ tally_of (serial_step (setting_of self.old.rules fixes.now) self.old.state).sums) }
        ensures small { IfOk result (IsSmall self.old.rules.cell.sides (length self.old.state.atoms)) }
        ensures sound { OnOk result ((serial_step (setting_of self.old.rules fixes.now) self.old.state).fault ≡ no_fault) }
        ensures ready { OnOk result (IsState self.new.rules self.new.state) }
        ensures range { (key : FaultKey) → result ≡ Err (StepEnd.Range key) → IsKeyOf (serial_step (setting_of self.old.rules fixes.now) self.old.state).fault key }
        ensures memory { result ≡ Err StepEnd.NoMemory
            → renews self.old.rules.cell.sides (unsigned_abs self.old.rules.skin) (positions (atoms_of (map (drifted (setting_of self.old.rules fixes.now)) self.old.state.atoms))) self.old.state.references ≡ true }
        ensures steps { OnOk result (steps.new ≡ steps.old + step_pairs (setting_of self.old.rules fixes.now) self.old.state) }
        ensures few_steps { steps.new ≤ steps.old + step_pairs (setting_of self.old.rules fixes.now) self.old.state }
    {
        self.drift(fixes)?;
        let tally = self.forces(fixes, steps)?;
        self.kick_again(fixes)?;
        Ok(tally)
    }

    /// The first half of a step: half a kick, the drift, and the references.
    fn drift(&mut self, fixes: &FixList) -> Result<(), FaultKey>
        requires rules { AreRules self.old.rules }
        requires state { IsState self.old.rules self.old.state }
        requires below { self.old.state.step < MAX_STEP }
        ensures state { OnOk result (self.new ≡ record self.old { state = referenced (setting_of self.old.rules fixes.now) self.old.state (atoms_of (map (drifted (setting_of self.old.rules fixes.now)) self.old.state.atoms)) }) }
        ensures sound { OnOk result (fault_of (map (drifted (setting_of self.old.rules fixes.now)) self.old.state.atoms) ≡ no_fault) }
        ensures ready { OnOk result (IsState self.new.rules self.new.state) }
        ensures fault { IfErr result (IsKeyOf (fault_of (map (drifted (setting_of self.old.rules fixes.now)) self.old.state.atoms))) }
    {
        let fault = drift(&self.rules, fixes, &mut self.atoms);
        if fault != NO_FAULT {
            return Err(FaultKey::from_word(fault));
        }
        self.step += 1;
        if renews(&self.rules, &self.atoms, &self.references) {
            renew(&self.atoms, &mut self.references);
            self.builds += 1;
        }
        Ok(())
    }

    /// The last part of a step: the second half of the kick.
    fn kick_again(&mut self, fixes: &FixList) -> Result<(), FaultKey>
        requires rules { AreRules self.old.rules }
        requires state { IsState self.old.rules self.old.state }
        ensures system { OnOk result (self.new ≡ with_atoms self.old (atoms_of (map (kicked_again (setting_of self.old.rules fixes.now)) self.old.state.atoms))) }
        ensures sound { OnOk result (fault_of (map (kicked_again (setting_of self.old.rules fixes.now)) self.old.state.atoms) ≡ no_fault) }
        ensures ready { OnOk result (IsState self.new.rules self.new.state) }
        ensures fault { IfErr result (IsKeyOf (fault_of (map (kicked_again (setting_of self.old.rules fixes.now)) self.old.state.atoms))) }
    {
        let fault = kick_again(&self.rules, fixes, &mut self.atoms);
        if fault != NO_FAULT {
            return Err(FaultKey::from_word(fault));
        }
        Ok(())
    }

    /// A copy of the system as it stands.
    pub fn system(&self, alloc: Global) -> Result<System, NoMemory>
        ensures { IfOk result (λ s. s ≡ system_of self.now) }
    {
        Ok(System {
            step: self.step,
            dt: self.rules.dt,
            cell: self.rules.cell,
            mass: Seq::from_vec(Vec::from_slice(alloc, self.rules.mass.as_slice())?),
            atoms: Seq::from_vec(Vec::from_slice(alloc, &self.atoms)?),
            bonds: Seq::from_vec(Vec::from_slice(alloc, self.bonds.as_slice())?),
            angles: Seq::from_vec(Vec::from_slice(alloc, self.angles.as_slice())?),
        })
    }

    /// The number of the step.
    pub fn step(&self) -> u64
        ensures { result ≡ self.now.state.step }
    {
        self.step
    }

    /// The atoms, as they stand.
    pub fn atoms(&self) -> &[Atom]
        ensures { result.now ≡ self.now.state.atoms }
    {
        &self.atoms
    }

    /// The mass of each atom type, in units.
    pub fn mass(&self) -> &[i64]
        ensures { result.now ≡ self.now.rules.mass }
    {
        self.rules.mass.as_slice()
    }

    /// The timestep, in units.
    pub fn timestep(&self) -> i64
        ensures { result ≡ self.now.rules.dt }
    {
        self.rules.dt
    }

    /// The simulation box.
    pub fn cell(&self) -> &SimBox
        ensures { result.now ≡ self.now.rules.cell }
    {
        &self.rules.cell
    }

    /// The system as it stands, in place of the engine.
    pub fn into_system(self) -> System
        ensures { result ≡ system_of self }
    {
        let Engine {
            rules,
            step,
            atoms,
            references: _,
            builds: _,
            bonds,
            angles,
        } = self;
        let Rules {
            field: _,
            cell,
            dt,
            mass,
            skin: _,
        } = rules;
        System {
            step,
            dt,
            cell,
            mass,
            atoms: Seq::from_vec(atoms),
            bonds,
            angles,
        }
    }

    /// The number of neighbour pairs at the last references, and how often the references were renewed
    /// since the engine was made.
    pub fn counts(&self) -> (u64, u64)
        requires rules { AreRules self.now.rules }
        requires state { IsState self.now.rules self.now.state }
        ensures { (result.0, result.1) ≡ counts (setting_of self.now.rules []) self.now.state }
    {
        (neighbour_pairs(&self.rules, &self.references), self.builds)
    }
}
