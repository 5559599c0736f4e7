//! The limits of the whole project. Lengths, velocities, forces, energies and masses are in units of
//! 2^-24; a greatest or least value belongs to the range.
//!
//! Definitions and code cite a limit by its name; [`limits_are_these_numbers`] is the table of numbers.
ghost use Rattle.box_geo.specs.Limits.{AreTheLimits};

/// The greatest number of atoms of a system, and of points that a lattice makes.
pub const MAX_ATOMS: u32 = 1 << 20;
/// The greatest number of bonds of a system, and that of its angles.
pub const MAX_BONDS: u32 = 1 << 21;
/// The greatest id of an atom, a bond or an angle; the least is 1.
pub const MAX_ID: u32 = (1 << 24) - 1;
/// The greatest number of atom types (at least 1), of bond types and of angle types.
pub const MAX_KINDS: u8 = 64;
/// The greatest number of bonds of one atom.
pub const MAX_BONDS_OF_ATOM: u32 = 16;
/// The greatest number of angles of one atom.
pub const MAX_ANGLES_OF_ATOM: u32 = 32;

/// The greatest magnitude of a bound of the box, 1024.
pub const MAX_BOUND: i64 = 1 << 34;
/// The least edge of the box, 2^-6.
pub const MIN_EDGE: i64 = 1 << 18;
/// The greatest edge of the box, 1024.
pub const MAX_EDGE: i64 = 1 << 34;
/// The greatest magnitude of a position that is read, before it is wrapped.
pub const MAX_POSITION: i64 = 1 << 40;
/// The greatest magnitude of an image count.
pub const MAX_IMAGE: i64 = 1 << 40;

/// The greatest cutoff, 16; a cutoff is above 0.
pub const MAX_CUTOFF: i64 = 1 << 28;
/// The greatest skin, 4; the least is 0.
pub const MAX_SKIN: i64 = 1 << 26;
/// The skin where a script gives none, 0.3.
pub const DEFAULT_SKIN: i64 = 5_033_165;
/// The greatest energy of a pair of types, 256; the least is 0.
pub const MAX_EPSILON: i64 = 1 << 32;
/// The greatest size of a pair of types, 8; a size is above 0.
pub const MAX_SIGMA: i64 = 1 << 27;
/// The greatest stiffness of a bond or an angle, 16384; the least is 0.
pub const MAX_STIFFNESS: i64 = 1 << 38;
/// The greatest rest length of a bond, 16; the least is 0.
pub const MAX_REST_LENGTH: i64 = 1 << 28;
/// The greatest special weight, 1; the least is 0.
pub const FULL_WEIGHT: i64 = 1 << 24;
/// The greatest magnitude of a component of the force of one term; a greater one is a fault.
pub const MAX_TERM_FORCE: i64 = 1 << 42;
/// The greatest magnitude of a component of the force on an atom, and of a value that a script sets or
/// adds; a greater force is a fault.
pub const MAX_FORCE: i64 = 1 << 44;

/// The least mass, 2^-10.
pub const MIN_MASS: i64 = 1 << 14;
/// The greatest mass, 64.
pub const MAX_MASS: i64 = 1 << 30;
/// The greatest magnitude of a component of a velocity, 256; a greater one is a fault.
pub const MAX_SPEED: i64 = 1 << 32;
/// The greatest temperature that is asked for, 1024; the least is 0.
pub const MAX_TEMPERATURE: i64 = 1 << 34;
/// The greatest timestep, 1; the least is 0.
pub const MAX_TIMESTEP: i64 = 1 << 24;
/// The timestep where a script gives none, 0.005.
pub const DEFAULT_TIMESTEP: i64 = 83_886;
/// The greatest number of a step.
pub const MAX_STEP: u64 = 1 << 38;

/// The greatest number of groups, with `all`.
pub const MAX_GROUPS: u32 = 32;
/// The greatest number of bricks, and so of ranks.
pub const MAX_RANKS: u32 = 512;
/// The greatest number of workers.
pub const MAX_WORKERS: u32 = 64;

/// The greatest number of logical lines that a run of the program runs.
pub const MAX_LINES: u32 = 1_000_000;
/// The greatest number of include levels that are open at one time.
pub const MAX_INCLUDES: u32 = 16;
/// The greatest depth of a formula.
pub const MAX_FORMULA_DEPTH: u32 = 64;
/// The greatest number of bytes of a formula.
pub const MAX_FORMULA_BYTES: usize = 4096;
/// The greatest number of bytes of a script file.
pub const MAX_SCRIPT_BYTES: usize = 1 << 20;
/// The greatest number of bytes of an id or a variable's name.
pub const MAX_NAME_BYTES: usize = 64;
/// The greatest number of bytes of a file's name.
pub const MAX_FILE_NAME_BYTES: usize = 255;

/// The limits as numbers, each by its name: a law, which does nothing when it runs.
pub fn limits_are_these_numbers()
    ensures { AreTheLimits }
{}
