//! The forms of all commands.
ghost use Rattle.std.specs.Prelude.{◌≡◌};
ghost use Rattle.command_words.specs.Forms.{places_of};

use crate::bonds::BondsForm;
use crate::computes::ComputesForm;
use crate::dumps::DumpsForm;
use crate::fixes::FixesForm;
use crate::flow::FlowForm;
use crate::lattice::LatticeForm;
use crate::masses_groups::MassesGroupsForm;
use crate::neighbors::NeighborsForm;
use crate::output::OutputForm;
use crate::pairs::PairsForm;
use crate::places::Place;
use crate::restarts::RestartsForm;
use crate::runs::RunsForm;
use crate::session::SessionForm;
use crate::setup::SetupForm;
use crate::system_files::SystemFilesForm;
use crate::thermo::ThermoForm;
use crate::variables::VariablesForm;
use crate::velocity::VelocityForm;
use crate::{
    bonds, computes, dumps, fixes, flow, lattice, masses_groups, neighbors, output, pairs,
    restarts, runs, session, setup, system_files, thermo, variables, velocity,
};

/// A form of a command, by the family of the command.
#[derive(Clone, Copy)]
pub(crate) enum Form {
    Setup(SetupForm),
    Lattice(LatticeForm),
    SystemFiles(SystemFilesForm),
    Restarts(RestartsForm),
    MassesGroups(MassesGroupsForm),
    Pairs(PairsForm),
    Bonds(BondsForm),
    Neighbors(NeighborsForm),
    Velocity(VelocityForm),
    Fixes(FixesForm),
    Computes(ComputesForm),
    Thermo(ThermoForm),
    Dumps(DumpsForm),
    Runs(RunsForm),
    Output(OutputForm),
    Variables(VariablesForm),
    Flow(FlowForm),
    Session(SessionForm),
}

/// All forms. Those of one command stand together.
pub(crate) const FORMS: &[Form] = &[
    Form::Setup(SetupForm::Units),
    Form::Setup(SetupForm::Dimension),
    Form::Setup(SetupForm::Boundary),
    Form::Setup(SetupForm::AtomStyle),
    Form::Setup(SetupForm::Processors),
    Form::Setup(SetupForm::Newton),
    Form::Setup(SetupForm::AtomModify),
    Form::Setup(SetupForm::Echo),
    Form::Lattice(LatticeForm::Lattice),
    Form::Lattice(LatticeForm::RegionBlock),
    Form::Lattice(LatticeForm::RegionSphere),
    Form::Lattice(LatticeForm::RegionUnion),
    Form::Lattice(LatticeForm::RegionIntersect),
    Form::Lattice(LatticeForm::CreateBox),
    Form::Lattice(LatticeForm::CreateAtomsBox),
    Form::Lattice(LatticeForm::CreateAtomsRegion),
    Form::Lattice(LatticeForm::CreateAtomsSingle),
    Form::SystemFiles(SystemFilesForm::ReadData),
    Form::SystemFiles(SystemFilesForm::WriteData),
    Form::Restarts(RestartsForm::RestartOff),
    Form::Restarts(RestartsForm::Restart),
    Form::Restarts(RestartsForm::WriteRestart),
    Form::Restarts(RestartsForm::ReadRestart),
    Form::Restarts(RestartsForm::ReadRestartNewer),
    Form::MassesGroups(MassesGroupsForm::Mass),
    Form::MassesGroups(MassesGroupsForm::GroupRegion),
    Form::MassesGroups(MassesGroupsForm::GroupType),
    Form::MassesGroups(MassesGroupsForm::GroupId),
    Form::MassesGroups(MassesGroupsForm::GroupUnion),
    Form::MassesGroups(MassesGroupsForm::GroupSubtract),
    Form::MassesGroups(MassesGroupsForm::GroupIntersect),
    Form::MassesGroups(MassesGroupsForm::GroupVariable),
    Form::Pairs(PairsForm::PairStyle),
    Form::Pairs(PairsForm::PairCoeff),
    Form::Pairs(PairsForm::PairCoeffCut),
    Form::Pairs(PairsForm::PairModify),
    Form::Bonds(BondsForm::SpecialBonds),
    Form::Bonds(BondsForm::BondStyle),
    Form::Bonds(BondsForm::BondCoeff),
    Form::Bonds(BondsForm::AngleStyle),
    Form::Bonds(BondsForm::AngleCoeff),
    Form::Neighbors(NeighborsForm::Neighbor),
    Form::Neighbors(NeighborsForm::NeighModify),
    Form::Neighbors(NeighborsForm::CommModify),
    Form::Velocity(VelocityForm::VelocityCreate),
    Form::Velocity(VelocityForm::VelocitySet),
    Form::Velocity(VelocityForm::VelocityScale),
    Form::Velocity(VelocityForm::VelocityZero),
    Form::Fixes(FixesForm::FixNve),
    Form::Fixes(FixesForm::FixSetForce),
    Form::Fixes(FixesForm::FixAddForce),
    Form::Fixes(FixesForm::FixEnforce2d),
    Form::Fixes(FixesForm::FixAverage),
    Form::Fixes(FixesForm::FixExternal),
    Form::Fixes(FixesForm::Unfix),
    Form::Computes(ComputesForm::ComputeKe),
    Form::Computes(ComputesForm::ComputeTemp),
    Form::Computes(ComputesForm::ComputePe),
    Form::Computes(ComputesForm::ComputePressure),
    Form::Computes(ComputesForm::Uncompute),
    Form::Thermo(ThermoForm::Thermo),
    Form::Thermo(ThermoForm::ThermoStyleOne),
    Form::Thermo(ThermoForm::ThermoStyleCustom),
    Form::Thermo(ThermoForm::ThermoModify),
    Form::Dumps(DumpsForm::DumpAtom),
    Form::Dumps(DumpsForm::DumpCustom),
    Form::Dumps(DumpsForm::DumpModify),
    Form::Dumps(DumpsForm::Undump),
    Form::Runs(RunsForm::Run),
    Form::Runs(RunsForm::RunUpto),
    Form::Runs(RunsForm::Timestep),
    Form::Runs(RunsForm::ResetTimestep),
    Form::Output(OutputForm::Print),
    Form::Output(OutputForm::Log),
    Form::Variables(VariablesForm::VariableIndex),
    Form::Variables(VariablesForm::VariableLoop),
    Form::Variables(VariablesForm::VariableLoopRange),
    Form::Variables(VariablesForm::VariableEqual),
    Form::Variables(VariablesForm::VariableAtom),
    Form::Variables(VariablesForm::VariableString),
    Form::Variables(VariablesForm::VariableDelete),
    Form::Variables(VariablesForm::Next),
    Form::Flow(FlowForm::Label),
    Form::Flow(FlowForm::Jump),
    Form::Flow(FlowForm::JumpLabel),
    Form::Flow(FlowForm::Include),
    Form::Flow(FlowForm::If),
    Form::Session(SessionForm::Clear),
    Form::Session(SessionForm::Quit),
];

/// The places of a form.
pub(crate) fn places_of(form: Form) -> &'static [Place]
    ensures { result.now ≡ places_of form }
{
    match form {
        Form::Setup(form) => setup::places(form),
        Form::Lattice(form) => lattice::places(form),
        Form::SystemFiles(form) => system_files::places(form),
        Form::Restarts(form) => restarts::places(form),
        Form::MassesGroups(form) => masses_groups::places(form),
        Form::Pairs(form) => pairs::places(form),
        Form::Bonds(form) => bonds::places(form),
        Form::Neighbors(form) => neighbors::places(form),
        Form::Velocity(form) => velocity::places(form),
        Form::Fixes(form) => fixes::places(form),
        Form::Computes(form) => computes::places(form),
        Form::Thermo(form) => thermo::places(form),
        Form::Dumps(form) => dumps::places(form),
        Form::Runs(form) => runs::places(form),
        Form::Output(form) => output::places(form),
        Form::Variables(form) => variables::places(form),
        Form::Flow(form) => flow::places(form),
        Form::Session(form) => session::places(form),
    }
}
