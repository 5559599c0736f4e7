//! Commands from words: what lines of words are refused with, and what commands others are.
use command_words::{Command, WordRefusal, read_command};
use fx_num::{NoMemory, Seq, Text, Words};
use std::alloc::Global;

/// One is 2^24 units.
const ONE: i64 = 1 << 24;

/// What a line must be read as.
#[derive(Clone, Copy, Debug, PartialEq, Eq)]
enum Want {
    /// No command, for this reason.
    Refused(WordRefusal),
    /// The command of this name.
    Named(&'static str),
    /// A command with these numbers, by [`numbers`].
    Numbers([i64; 4]),
    /// A command with this text, by [`text`].
    Text(&'static str),
    /// An `if` with so many branches, and so many commands in its `else`.
    Branches(usize, usize),
}

use Want::{Branches, Named, Numbers, Refused, Text as Texts};

const ROWS: &[(&str, Want)] = &[
    // lines that are refused, with the first code that fits
    ("unit lj", Refused(WordRefusal::UnknownCommand)),
    ("Run 0", Refused(WordRefusal::UnknownCommand)),
    ("minimize 1 2", Refused(WordRefusal::UnknownCommand)),
    ("units", Refused(WordRefusal::WordCount)),
    ("boundary p q", Refused(WordRefusal::WordCount)),
    ("pair_modify shift", Refused(WordRefusal::WordCount)),
    (
        "create_box 99 b bond/types",
        Refused(WordRefusal::WordCount),
    ),
    ("region r block 0", Refused(WordRefusal::WordCount)),
    ("fix 1 all setforce 0", Refused(WordRefusal::WordCount)),
    ("restart 5 a", Refused(WordRefusal::WordCount)),
    ("if 1 then", Refused(WordRefusal::WordCount)),
    ("quit now", Refused(WordRefusal::WordCount)),
    ("units metal", Refused(WordRefusal::BadWord(1))),
    ("dimension 2.0", Refused(WordRefusal::BadWord(1))),
    ("boundary p p s", Refused(WordRefusal::BadWord(3))),
    ("region r union 0 a", Refused(WordRefusal::BadWord(3))),
    ("region r union 3 a b", Refused(WordRefusal::BadWord(6))),
    (
        "region r block 0 1 0 1 0 x",
        Refused(WordRefusal::BadWord(8)),
    ),
    (
        "velocity all zero linear units box",
        Refused(WordRefusal::BadWord(4)),
    ),
    ("restart 5", Refused(WordRefusal::BadWord(2))),
    ("restart 7 a a", Refused(WordRefusal::BadWord(3))),
    (
        "fix f all ave/time 2 3 10 k",
        Refused(WordRefusal::BadWord(7)),
    ),
    ("compute c g pe", Refused(WordRefusal::BadWord(3))),
    (
        "thermo_style custom step foo",
        Refused(WordRefusal::BadWord(3)),
    ),
    ("label a-b", Refused(WordRefusal::BadWord(1))),
    ("if else then print", Refused(WordRefusal::BadWord(1))),
    ("if 1 then print else", Refused(WordRefusal::BadWord(5))),
    ("pair_coeff 0 1 x 1", Refused(WordRefusal::BadWord(3))),
    ("run 1e3", Refused(WordRefusal::BadWord(1))),
    (
        "create_box 1 b bond/types 2 color 3",
        Refused(WordRefusal::BadWord(5)),
    ),
    ("dimension 4", Refused(WordRefusal::BadValue(1))),
    ("pair_style lj/cut 0", Refused(WordRefusal::BadValue(2))),
    ("pair_coeff 1 1 1 8 1.9", Refused(WordRefusal::BadValue(5))),
    ("pair_coeff 1 65* 1 1", Refused(WordRefusal::BadValue(2))),
    ("processors 8 8 9", Refused(WordRefusal::BadValue(3))),
    ("variable i loop 5 2", Refused(WordRefusal::BadValue(4))),
    ("variable i loop 0", Refused(WordRefusal::BadValue(3))),
    (
        "fix f all ave/time 3 2 10 c_k",
        Refused(WordRefusal::BadValue(6)),
    ),
    (
        "fix f all ave/time 2 6 10 c_k",
        Refused(WordRefusal::BadValue(6)),
    ),
    (
        "create_box 1 b bond/types 99 bond/types 1",
        Refused(WordRefusal::BadValue(4)),
    ),
    ("group g id 7 1:5:0", Refused(WordRefusal::BadValue(4))),
    ("run 274877906945", Refused(WordRefusal::BadValue(1))),
    ("velocity all create 1 0", Refused(WordRefusal::BadValue(4))),
    ("mass 1 1e999", Refused(WordRefusal::BadValue(2))),
    (
        "velocity g set NULL 1 1e999 units box",
        Refused(WordRefusal::BadValue(5)),
    ),
    // one line of each form
    ("units lj", Named("units")),
    ("dimension 02", Named("dimension")),
    ("newton", Named("newton")),
    ("echo both or none", Named("echo")),
    ("atom_style bond", Named("atom_style")),
    ("lattice sq2 0.8442", Named("lattice")),
    ("region r sphere 1 2 3 -4 side out", Named("region")),
    (
        "region r intersect 1 a units lattice side in",
        Named("region"),
    ),
    (
        "create_atoms 1 single 0 0 0 units box",
        Named("create_atoms"),
    ),
    ("restart 0", Named("restart")),
    ("restart 0 a b", Named("restart")),
    ("read_restart a a", Named("read_restart")),
    ("mass * 1.0", Named("mass")),
    ("pair_coeff 1 1 1e0 +1", Named("pair_coeff")),
    (
        "pair_modify shift no mix arithmetic tail no",
        Named("pair_modify"),
    ),
    ("special_bonds lj/coul 0.0 1e0 0.5", Named("special_bonds")),
    ("bond_style harmonic", Named("bond_style")),
    (
        "neigh_modify every 20 delay 0 check no",
        Named("neigh_modify"),
    ),
    ("comm_modify cutoff 0", Named("comm_modify")),
    ("velocity all zero linear", Named("velocity")),
    ("fix e all external pf/callback 1 1", Named("fix")),
    ("compute c all pressure thermo_temp", Named("compute")),
    ("thermo_style custom step c_k emol", Named("thermo_style")),
    ("thermo_modify lost error norm no", Named("thermo_modify")),
    ("dump d all custom 0 f.txt id xs vz", Named("dump")),
    ("dump_modify d sort id", Named("dump_modify")),
    ("reset_timestep 274877906944", Named("reset_timestep")),
    ("print x", Named("print")),
    ("log none", Named("log")),
    ("variable x index a b", Named("variable")),
    ("variable x delete", Named("variable")),
    ("next x y", Named("next")),
    ("jump SELF top", Named("jump")),
    ("if a then b elif c d e elif f g else h", Named("if")),
    ("clear", Named("clear")),
    ("quit", Named("quit")),
    ("boundary p f pp", Named("boundary")),
    ("atom_modify map array", Named("atom_modify")),
    ("write_data a", Named("write_data")),
    ("write_restart a", Named("write_restart")),
    ("group g union a b", Named("group")),
    ("angle_style cosine", Named("angle_style")),
    ("angle_coeff * 1", Named("angle_coeff")),
    ("uncompute c", Named("uncompute")),
    ("thermo 0", Named("thermo")),
    ("undump d", Named("undump")),
    ("run 0 upto", Named("run")),
    ("label top", Named("label")),
    ("include f", Named("include")),
    // numbers, in units
    ("dimension 3", Numbers([3, 0, 0, 0])),
    ("processors * 8 64", Numbers([1, 8, 64, 0])),
    ("lattice fcc 0.5", Numbers([1 << 23, 0, 0, 0])),
    (
        "create_box 2 b bond/types 9 angle/types 3 bond/types 64",
        Numbers([2, 64, 3, 0]),
    ),
    ("pair_style lj/cut 2.5", Numbers([41943040, 0, 0, 0])),
    ("special_bonds lj 0 0.5 1", Numbers([0, 1 << 23, ONE, 0])),
    ("bond_coeff 3* 30 1", Numbers([3, 30 << 24, ONE, 0])),
    ("neighbor 0.3 bin", Numbers([5033165, 0, 0, 0])),
    ("timestep 0.005", Numbers([83886, 0, 0, 0])),
    // texts, as they are written
    ("read_data in.data", Texts("in.data")),
    ("unfix n_1", Texts("n_1")),
    ("print a$b", Texts("a$b")),
    ("log none", Texts("")),
    ("log l.txt", Texts("l.txt")),
    ("fix f g setforce 0 NULL -1", Texts("g")),
    ("compute k g ke", Texts("k")),
    ("dump d g atom 5 d.txt", Texts("d.txt")),
    ("variable v loop 0 2", Texts("v")),
    ("velocity g set NULL 1 0 units box", Texts("g")),
    ("region r block 0 INF EDGE 1 -1 2 side out", Texts("r")),
    ("if a then b elif c d e elif f g else h i j", Branches(3, 3)),
];

/// The words of a line, which one space parts.
fn words_of(alloc: Global, line: &str) -> Result<Words, NoMemory> {
    let mut words = Seq::new(alloc);
    for word in line.as_bytes().split(|byte| *byte == b' ') {
        words.push(Text::from_bytes(alloc, word)?)?;
    }
    Ok(words)
}

/// The name of a command.
fn name(command: &Command) -> &'static str {
    match command {
        Command::Units => "units",
        Command::Dimension(_) => "dimension",
        Command::Boundary(_) => "boundary",
        Command::AtomStyle(_) => "atom_style",
        Command::Processors(_) => "processors",
        Command::Newton => "newton",
        Command::AtomModify => "atom_modify",
        Command::Echo => "echo",
        Command::Lattice(_) => "lattice",
        Command::Region(_) => "region",
        Command::CreateBox(_) => "create_box",
        Command::CreateAtoms(_) => "create_atoms",
        Command::ReadData(_) => "read_data",
        Command::WriteData(_) => "write_data",
        Command::Restart(_) => "restart",
        Command::WriteRestart(_) => "write_restart",
        Command::ReadRestart(_) => "read_restart",
        Command::Mass(_) => "mass",
        Command::Group(_) => "group",
        Command::PairStyle(_) => "pair_style",
        Command::PairCoeff(_) => "pair_coeff",
        Command::PairModify(_) => "pair_modify",
        Command::SpecialBonds(_) => "special_bonds",
        Command::BondStyle => "bond_style",
        Command::BondCoeff(_) => "bond_coeff",
        Command::AngleStyle => "angle_style",
        Command::AngleCoeff(_) => "angle_coeff",
        Command::Neighbor(_) => "neighbor",
        Command::NeighModify => "neigh_modify",
        Command::CommModify(_) => "comm_modify",
        Command::Velocity(_) => "velocity",
        Command::Fix(_) => "fix",
        Command::Unfix(_) => "unfix",
        Command::Compute(_) => "compute",
        Command::Uncompute(_) => "uncompute",
        Command::Thermo(_) => "thermo",
        Command::ThermoStyle(_) => "thermo_style",
        Command::ThermoModify(_) => "thermo_modify",
        Command::Dump(_) => "dump",
        Command::DumpModify(_) => "dump_modify",
        Command::Undump(_) => "undump",
        Command::Run(_) => "run",
        Command::Timestep(_) => "timestep",
        Command::ResetTimestep(_) => "reset_timestep",
        Command::Print(_) => "print",
        Command::Log(_) => "log",
        Command::Variable(_) => "variable",
        Command::Next(_) => "next",
        Command::Label(_) => "label",
        Command::Jump(_) => "jump",
        Command::Include(_) => "include",
        Command::If(_) => "if",
        Command::Clear => "clear",
        Command::Quit => "quit",
    }
}

/// The numbers of a command that has some; none of another.
fn numbers(command: &Command) -> [i64; 4] {
    match command {
        Command::Dimension(n) => [i64::from(*n), 0, 0, 0],
        Command::Processors(grid) => [
            i64::from(grid[0]),
            i64::from(grid[1]),
            i64::from(grid[2]),
            0,
        ],
        Command::Lattice(lattice) => [lattice.density, 0, 0, 0],
        Command::CreateBox(new) => [
            i64::from(new.kinds),
            i64::from(new.bond_kinds),
            i64::from(new.angle_kinds),
            0,
        ],
        Command::PairStyle(cutoff) => [*cutoff, 0, 0, 0],
        Command::SpecialBonds(weights) => [weights[0], weights[1], weights[2], 0],
        Command::BondCoeff(bond) => [i64::from(bond.kinds.first), bond.stiffness, bond.length, 0],
        Command::Neighbor(skin) => [*skin, 0, 0, 0],
        Command::Timestep(dt) => [*dt, 0, 0, 0],
        _ => [-1, -1, -1, -1],
    }
}

/// A text of a command that has some; none of another.
fn text(command: &Command) -> &[u8] {
    match command {
        Command::ReadData(file) => file.as_bytes(),
        Command::Unfix(id) => id.as_bytes(),
        Command::Print(text) => text.as_bytes(),
        Command::Log(Some(file)) => file.as_bytes(),
        Command::Fix(fix) => fix.group.as_bytes(),
        Command::Compute(compute) => compute.id.as_bytes(),
        Command::Dump(dump) => dump.file.as_bytes(),
        Command::Variable(variable) => variable.name.as_bytes(),
        Command::Velocity(velocity) => velocity.group.as_bytes(),
        Command::Region(region) => region.id.as_bytes(),
        _ => b"",
    }
}

/// How many branches an `if` has, and how many commands its `else`; none of another command.
fn branches(command: &Command) -> (usize, usize) {
    match command {
        Command::If(choice) => (choice.branches.len(), choice.otherwise.len()),
        _ => (0, 0),
    }
}

/// Whether a command is what a line must be read as.
fn is_as_wanted(command: &Command, want: Want) -> bool {
    match want {
        Refused(_) => false,
        Named(wanted) => name(command) == wanted,
        Numbers(wanted) => numbers(command) == wanted,
        Texts(wanted) => text(command) == wanted.as_bytes(),
        Branches(some, others) => branches(command) == (some, others),
    }
}

/// Whether a line is read as it must be.
fn is_read_as(alloc: Global, line: &str, want: Want) -> Result<bool, NoMemory> {
    let words = words_of(alloc, line)?;
    Ok(match read_command(alloc, &words) {
        Ok(command) => is_as_wanted(&command, want),
        Err(why) => want == Refused(why),
    })
}

#[test]
fn lines_are_commands_or_refused(rt: HostRuntime) -> Result<(), NoMemory> {
    for (line, want) in ROWS {
        let holds = is_read_as(rt.alloc(), line, *want)?;
        assert!(rt; holds, "{line}");
    }
    Ok(())
}
