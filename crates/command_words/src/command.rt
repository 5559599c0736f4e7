//! The commands of scripts, each with its words and numbers as they were read.

use crate::bonds::{AngleCoeff, BondCoeff};
use crate::computes::NewCompute;
use crate::dumps::{DumpChange, NewDump};
use crate::fixes::NewFix;
use crate::flow::{Choice, Jump};
use crate::lattice::{Creation, LatticeSetting, NewBox, NewRegion};
use crate::masses_groups::{GroupChange, MassSetting};
use crate::pairs::{PairChange, PairCoeff};
use crate::restarts::{RestartFiles, Saves};
use crate::runs::Run;
use crate::thermo::Columns;
use crate::variables::NewVariable;
use crate::velocity::VelocityChange;
use box_geo::AtomStyle;
use fx_num::{Text, Words};

/// A command as it was read. Lengths, velocities, forces, energies and masses are in units, and those
/// that a lattice scales are not scaled yet.
#[derive(Drop)]
pub enum Command {
    /// `units lj`.
    Units,
    /// `dimension`: 2 or 3.
    Dimension(u8),
    /// `boundary`: whether each axis is periodic.
    Boundary([bool; 3]),
    /// `atom_style`.
    AtomStyle(AtomStyle),
    /// `processors`: how many bricks each axis has.
    Processors([u32; 3]),
    /// `newton` and words, without effect.
    Newton,
    /// `atom_modify` and words, without effect.
    AtomModify,
    /// `echo` and words, without effect.
    Echo,
    /// `lattice`.
    Lattice(LatticeSetting),
    /// `region`.
    Region(NewRegion),
    /// `create_box`.
    CreateBox(NewBox),
    /// `create_atoms`.
    CreateAtoms(Creation),
    /// `read_data`: the file's name.
    ReadData(Text),
    /// `write_data`: the file's name.
    WriteData(Text),
    /// `restart`: what is saved from now on, or nothing.
    Restart(Option<Saves>),
    /// `write_restart`: the file's name.
    WriteRestart(Text),
    /// `read_restart`.
    ReadRestart(RestartFiles),
    /// `mass`.
    Mass(MassSetting),
    /// `group`.
    Group(GroupChange),
    /// `pair_style lj/cut`: the cutoff.
    PairStyle(i64),
    /// `pair_coeff`.
    PairCoeff(PairCoeff),
    /// `pair_modify`.
    PairModify(PairChange),
    /// `special_bonds`: the weights of pairs that are one, two and three bonds apart.
    SpecialBonds([i64; 3]),
    /// `bond_style harmonic`.
    BondStyle,
    /// `bond_coeff`.
    BondCoeff(BondCoeff),
    /// `angle_style cosine`.
    AngleStyle,
    /// `angle_coeff`.
    AngleCoeff(AngleCoeff),
    /// `neighbor`: the skin.
    Neighbor(i64),
    /// `neigh_modify` and its options, without effect.
    NeighModify,
    /// `comm_modify`: the cutoff, 0 for none.
    CommModify(i64),
    /// `velocity`.
    Velocity(VelocityChange),
    /// `fix`.
    Fix(NewFix),
    /// `unfix`: the fix's ID.
    Unfix(Text),
    /// `compute`.
    Compute(NewCompute),
    /// `uncompute`: the compute's ID.
    Uncompute(Text),
    /// `thermo`: a line each so many steps, 0 for the first and the last step only.
    Thermo(u64),
    /// `thermo_style`.
    ThermoStyle(Columns),
    /// `thermo_modify`: whether energies are divided by the number of atoms, if it is said.
    ThermoModify(Option<bool>),
    /// `dump`.
    Dump(NewDump),
    /// `dump_modify`.
    DumpModify(DumpChange),
    /// `undump`: the dump's ID.
    Undump(Text),
    /// `run`.
    Run(Run),
    /// `timestep`.
    Timestep(i64),
    /// `reset_timestep`: the number of the step.
    ResetTimestep(u64),
    /// `print`: the text.
    Print(Text),
    /// `log`: the file's name, or nothing for `none`.
    Log(Option<Text>),
    /// `variable`.
    Variable(NewVariable),
    /// `next`: the variables' names.
    Next(Words),
    /// `label`: its name.
    Label(Text),
    /// `jump`.
    Jump(Jump),
    /// `include`: the file's name.
    Include(Text),
    /// `if`.
    If(Choice),
    /// `clear`.
    Clear,
    /// `quit`.
    Quit,
}
