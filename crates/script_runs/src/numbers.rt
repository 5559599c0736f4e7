//! The numbers of a thermo line.
ghost use Rattle.std.specs.Prelude.{◌≡◌, ◌≤◌, ◌*◌, ◌^◌, ◌++◌, ◌+ℤ◌, ◌*ℤ◌, ◌≤ℤ◌, pos, unsigned_abs, [], ◌∷◌, length, All, IfOk, OnOk};
ghost use Rattle.computes.specs.Quantities.{energy_share, kinetic_share, kinetic_sum, pressure};
ghost use Rattle.meaning.specs.Thermo.{numbers_of};
ghost use Rattle.script_runs.specs.Line.{AreEnergies, ArePrintable, AreValues, IsPrintable, IsPrintableSize, IsShown, IsSizeOf, numbers_under, sums_in, with_computes, with_energies, with_progress, with_size};
ghost use Rattle.step_engine.specs.Engine.{setting_of};
ghost use Rattle.step_engine.specs.Ranges.{IsMovable, IsTimestep};
ghost use Rattle.thermo_text.specs.Thermo.{HasEachNumber, style_one};

use box_geo::limits::{MAX_ATOMS, MAX_STEP};
use computes::{kinetic_share, kinetic_sum, press, share, temp};
use fx_num::{NoMemory, Numbers};
use meaning::put_number;
use std::alloc::Global;
use step_engine::{Engine, Tally};

/// The values of a thermo line. Energies are shared out over all atoms.
#[derive(Clone, Copy)]
pub(crate) struct Values {
    /// The number of the step.
    pub step: u64,
    /// The number of atoms.
    pub atoms: u32,
    /// The timestep, in units.
    pub dt: i64,
    /// Step times timestep, in units.
    pub time: i128,
    /// The temperature, in units.
    pub temp: i64,
    /// The pressure, in units.
    pub press: i128,
    /// The energies.
    pub energies: Energies,
    /// How large the box is.
    pub size: Size,
}

/// The energies of a thermo line, in units.
#[derive(Clone, Copy)]
pub(crate) struct Energies {
    /// The sum of pair and molecular energy.
    pub potential: i128,
    /// The kinetic energy.
    pub kinetic: i128,
    /// The sum of both.
    pub total: i128,
    /// The pair energy.
    pub pair: i128,
    /// The energy of bonds and angles.
    pub molecular: i128,
    /// The energy of bonds.
    pub bond: i128,
    /// The energy of angles.
    pub angle: i128,
    /// The potential energy, rounded once: the number of the compute.
    pub computed: i128,
}

/// How large a box is, in units.
#[derive(Clone, Copy)]
pub(crate) struct Size {
    /// The volume, in two dimensions the area.
    pub volume: i64,
    /// The edge along x.
    pub x: i64,
    /// The edge along y.
    pub y: i64,
    /// The edge along z.
    pub z: i64,
}

/// The numbers of the thermo line of an engine, with the sums of its forces.
pub(crate) fn numbers(alloc: Global, engine: &Engine, tally: &Tally) -> Result<Numbers, NoMemory>
    requires { IsShown engine.now tally.now }
    ensures is { IfOk result (λ numbers. numbers ≡ numbers_of (setting_of engine.now.rules []) engine.now.state (sums_in tally.now)) }
    ensures ready { IfOk result (λ numbers. HasEachNumber numbers style_one) }
{
    let values = values_of(engine, tally);
    under_keywords(alloc, &values)
}

/// The values of an engine and the sums of its forces.
fn values_of(engine: &Engine, tally: &Tally) -> Values
    requires { IsShown engine.now tally.now }
    ensures are { AreValues engine.now tally.now result }
    ensures printable { IsPrintable result }
{
    let atoms = count(engine);
    let motion = motion(engine);
    Values {
        step: engine.step(),
        atoms,
        dt: engine.timestep(),
        time: time(engine),
        temp: temp(motion, atoms, engine.cell().sides.dim),
        press: pressure(&motion, engine, tally),
        energies: energies_of(&motion, engine, tally),
        size: size_of(engine),
    }
}

/// The time of an engine, in units: step times timestep.
fn time(engine: &Engine) -> i128
    requires step { engine.now.state.step ≤ MAX_STEP }
    requires dt { IsTimestep engine.now.rules.dt }
    ensures is { result ≡ pos engine.now.state.step *ℤ engine.now.rules.dt }
    ensures small { unsigned_abs result ≤ 2 ^ 62 }
{
    i128::from(engine.step()) * i128::from(engine.timestep())
}

/// How large the box of an engine is.
fn size_of(engine: &Engine) -> Size
    ensures is { IsSizeOf engine.now.rules.cell.sides result }
    ensures printable { IsPrintableSize result }
{
    let cell = engine.cell();
    Size {
        volume: cell.volume(),
        x: cell.sides.x.edge(),
        y: cell.sides.y.edge(),
        z: cell.sides.z.edge(),
    }
}

/// The energies of an engine, from the sum of mass times squared velocity.
fn energies_of(motion: &i128, engine: &Engine, tally: &Tally) -> Energies
    requires shown { IsShown engine.now tally.now }
    requires motion { unsigned_abs motion.now ≤ 3 * length engine.now.state.atoms * 2 ^ 94 }
    ensures are { AreEnergies tally.now.pair motion.now (length engine.now.state.atoms) result }
    ensures printable { ArePrintable result }
{
    let atoms = count(engine);
    let bonded = bonded(tally);
    let pair = energy(&tally.pair, atoms);
    let molecular = energy(&bonded, atoms);
    let kinetic = kinetic(motion, atoms);
    Energies {
        potential: sum(&pair, &molecular),
        kinetic,
        total: total(&pair, &molecular, &kinetic),
        pair,
        molecular,
        bond: energy(&tally.bond, atoms),
        angle: energy(&tally.angle, atoms),
        computed: energy(&whole(tally), atoms),
    }
}

/// The energy of bonds and angles, in units.
fn bonded(tally: &Tally) -> i128
    requires bond { tally.now.bond ≡ pos 0 }
    requires angle { tally.now.angle ≡ pos 0 }
    ensures { result ≡ pos 0 +ℤ pos 0 }
{
    tally.bond + tally.angle
}

/// The energy of pairs, bonds and angles, in units.
fn whole(tally: &Tally) -> i128
    requires pair { unsigned_abs tally.now.pair ≤ 2 ^ 97 }
    requires bond { tally.now.bond ≡ pos 0 }
    requires angle { tally.now.angle ≡ pos 0 }
    ensures is { result ≡ tally.now.pair +ℤ pos 0 +ℤ pos 0 }
    ensures small { unsigned_abs result ≤ 2 ^ 97 }
{
    tally.pair + tally.bond + tally.angle
}

/// An energy shared out over so many atoms, in units.
fn energy(energy: &i128, atoms: u32) -> i128
    requires { unsigned_abs energy.now ≤ 2 ^ 97 }
    ensures is { result ≡ energy_share energy.now atoms }
    ensures small { unsigned_abs result ≤ unsigned_abs energy.now }
{
    share(*energy, atoms)
}

/// The kinetic energy shared out over so many atoms, in units, from the sum of mass times squared velocity.
fn kinetic(motion: &i128, atoms: u32) -> i128
    requires few { atoms ≤ MAX_ATOMS }
    requires motion { unsigned_abs motion.now ≤ 3 * atoms * 2 ^ 94 }
    ensures is { result ≡ kinetic_share motion.now atoms }
    ensures small { unsigned_abs result ≤ 2 ^ 70 }
{
    kinetic_share(*motion, atoms)
}

/// The sum of two energies, in units.
fn sum(pair: &i128, molecular: &i128) -> i128
    requires pair { unsigned_abs pair.now ≤ 2 ^ 97 }
    requires molecular { unsigned_abs molecular.now ≤ 2 ^ 96 }
    ensures is { result ≡ pair.now +ℤ molecular.now }
    ensures small { unsigned_abs result ≤ 2 ^ 98 }
{
    pair + molecular
}

/// The sum of three energies, in units.
fn total(pair: &i128, molecular: &i128, kinetic: &i128) -> i128
    requires pair { unsigned_abs pair.now ≤ 2 ^ 97 }
    requires molecular { unsigned_abs molecular.now ≤ 2 ^ 96 }
    requires kinetic { unsigned_abs kinetic.now ≤ 2 ^ 70 }
    ensures is { result ≡ pair.now +ℤ molecular.now +ℤ kinetic.now }
    ensures small { unsigned_abs result ≤ 2 ^ 98 }
{
    pair + molecular + kinetic
}

/// The pressure, in units, from the sum of mass times squared velocity.
fn pressure(motion: &i128, engine: &Engine, tally: &Tally) -> i128
    requires shown { IsShown engine.now tally.now }
    requires motion { unsigned_abs motion.now ≤ 2 ^ 116 }
    ensures is { result ≡ pressure motion.now tally.now.virial engine.now.rules.cell.sides }
    ensures small { unsigned_abs result ≤ 2 ^ 98 }
{
    press(*motion, tally.virial, engine.cell())
}

/// The number of atoms.
fn count(engine: &Engine) -> u32
    requires { length engine.now.state.atoms ≤ MAX_ATOMS }
    ensures { result ≡ length engine.now.state.atoms }
{
    engine.atoms().len() as u32
}

/// The sum of mass times squared velocity over all atoms, in multiples of 2^-72.
fn motion(engine: &Engine) -> i128
    requires few { length engine.now.state.atoms ≤ MAX_ATOMS }
    requires movable { All (IsMovable engine.now.rules.mass) engine.now.state.atoms }
    ensures is { result ≡ kinetic_sum engine.now.rules.mass engine.now.state.atoms }
    ensures low { pos 0 ≤ℤ result }
    ensures bound { unsigned_abs result ≤ length engine.now.state.atoms * (3 * 2 ^ 94) }
{
    kinetic_sum(engine.atoms(), engine.mass())
}

/// Values under their keywords, and the same numbers under those of the computes that are always there.
fn under_keywords(alloc: Global, values: &Values) -> Result<Numbers, NoMemory>
    ensures { IfOk result (λ numbers. numbers ≡ numbers_under values.now) }
{
    let mut numbers = Numbers::new(alloc);
    push_progress(alloc, &mut numbers, values)?;
    push_energies(alloc, &mut numbers, &values.energies)?;
    push_size(alloc, &mut numbers, &values.size)?;
    push_computes(alloc, &mut numbers, values)?;
    Ok(numbers)
}

/// Appends step, time, temperature and pressure.
fn push_progress(alloc: Global, numbers: &mut Numbers, values: &Values) -> Result<(), NoMemory>
    ensures { OnOk result (numbers.new ≡ with_progress numbers.old values.now) }
{
    put_number(alloc, numbers, b"step", &i128::from(values.step))?;
    put_number(alloc, numbers, b"atoms", &i128::from(values.atoms))?;
    put_number(alloc, numbers, b"dt", &i128::from(values.dt))?;
    put_number(alloc, numbers, b"time", &values.time)?;
    put_number(alloc, numbers, b"temp", &i128::from(values.temp))?;
    put_number(alloc, numbers, b"press", &values.press)
}

/// Appends the energies.
fn push_energies(alloc: Global, numbers: &mut Numbers, energies: &Energies) -> Result<(), NoMemory>
    ensures { OnOk result (numbers.new ≡ with_energies numbers.old energies.now) }
{
    put_number(alloc, numbers, b"pe", &energies.potential)?;
    put_number(alloc, numbers, b"ke", &energies.kinetic)?;
    put_number(alloc, numbers, b"etotal", &energies.total)?;
    put_number(alloc, numbers, b"epair", &energies.pair)?;
    put_number(alloc, numbers, b"emol", &energies.molecular)?;
    put_number(alloc, numbers, b"ebond", &energies.bond)?;
    put_number(alloc, numbers, b"eangle", &energies.angle)
}

/// Appends the volume and the edges of the box.
fn push_size(alloc: Global, numbers: &mut Numbers, size: &Size) -> Result<(), NoMemory>
    ensures { OnOk result (numbers.new ≡ with_size numbers.old size.now) }
{
    put_number(alloc, numbers, b"vol", &i128::from(size.volume))?;
    put_number(alloc, numbers, b"lx", &i128::from(size.x))?;
    put_number(alloc, numbers, b"ly", &i128::from(size.y))?;
    put_number(alloc, numbers, b"lz", &i128::from(size.z))
}

/// Appends the numbers of the computes that are always there.
fn push_computes(alloc: Global, numbers: &mut Numbers, values: &Values) -> Result<(), NoMemory>
    ensures { OnOk result (numbers.new ≡ with_computes numbers.old values.now) }
{
    put_number(alloc, numbers, b"c_thermo_temp", &i128::from(values.temp))?;
    put_number(alloc, numbers, b"c_thermo_press", &values.press)?;
    put_number(alloc, numbers, b"c_thermo_pe", &values.energies.computed)
}
