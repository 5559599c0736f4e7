//! The texts of the program: those that `--help` and `--version` print, and those on standard error.
ghost use Rattle.std.specs.Prelude.{◌≡◌, ◌++◌, IfOk};
ghost use Rattle.program.specs.Request.{help_text, text_for};

use crate::request::Request;
use fx_num::{NoMemory, Text};
use fxlmp_top::Status;
use std::alloc::Global;
use std::io::Write;
use std::{fmt, io, str};

/// The program's name and version.
pub(crate) const VERSION: &str = "fxlmp 0.1.0\n";

/// How the program is called.
const USAGE: &str = "
usage: fxlmp -in FILE [-log FILE] [-screen none] [-var NAME VALUE ..]
       fxlmp -gen N SEED [-log FILE] [-screen none] [-var NAME VALUE ..]
       fxlmp --help      print how to use the program
       fxlmp --version   print its name and version
";

/// What the program is, its words, and its exit statuses.
const DETAILS: &str = "
fxlmp runs LAMMPS input scripts of molecular dynamics in whole-number
arithmetic: every length, velocity, force and energy is a whole multiple of
2^-24. Units are those of `units lj`.

  -in FILE, -i              the script
  -gen N SEED               in place of -in a generated script: a crystal of 4 N N N
                            atoms begins to melt. N is from 4 to 64, SEED, by which
                            the velocities are drawn, from 1 to 2147483647
  -log FILE, -l             the file of the log, in place of log.lammps
  -log none                 no file of the log
  -screen none, -sc         nothing on the standard output
  -var NAME VALUE .., -v    an index variable; its values go on up to the next
                            word that begins with - and a letter

The words stand in any order, each but -var at most once. One of -in and -gen is
needed. FILE is a name, or a path from the current folder: 1 to 255 printable
ASCII characters but blanks, quotes, * and %, and no compressed file (.gz, .bz2,
.xz, .zst, .lz4). The script and the log have different names. NAME is 1 to 64
letters, digits and _.

The log goes to its file, which is written anew, and to the standard output.

A script has at most 1048576 bytes. Its lines run one by one. A `&` at the end of
a line joins the next one to it, a `#` begins a comment, and a text with blanks
stands in quotes: single, double or triple ones. In words without quotes $x and
${name} stand for the value of a variable, and $(FORMULA) for that of a formula.
This version runs these commands:

  units lj                          timestep DT
  dimension 2 | 3                   reset_timestep N
  boundary X Y Z                    run N [upto]
  atom_style atomic                 thermo N
  processors X Y Z                  print TEXT
  lattice STYLE RHO                 log FILE | none
  region ID SHAPE ..                variable NAME index VALUE ..
  create_box N REGION               variable NAME loop N [M]
  create_atoms TYPE box             variable NAME string TEXT
    | region ID | single X Y Z      variable NAME equal | atom FORMULA
  read_data FILE                    variable NAME delete
  write_data FILE                   next NAME ..
  mass TYPES MASS                   if CONDITION then COMMAND ..
  group ID SET ..                     [elif CONDITION COMMAND ..]
  velocity GROUP CHANGE ..            [else COMMAND ..]
  pair_style lj/cut CUTOFF          label NAME
  pair_coeff TYPES TYPES            jump FILE | SELF [NAME]
    EPSILON SIGMA [CUTOFF]          include FILE
  neighbor SKIN bin | nsq | multi   fix ID GROUP nve
  comm_modify cutoff CUTOFF         unfix ID
  clear, quit
  newton, atom_modify, echo, neigh_modify (no effect)

All other commands of the language are read, and end the run with status 9. Data
files have the form that LAMMPS reads and writes: header lines, and sections
Masses, Pair Coeffs, Atoms and Velocities.

exit status:
  0   the script was run to its end, or to quit
  1   a line of the script was refused: the last line of the log says why, and
      which
  2   a quantity left its range, such as the force of two atoms that are too
      close: the last line of the log says which
  3   a file could not be read
  4   a file or the standard output could not be written
  6   out of memory
  7   the command line is wrong
  8   more than 1000000 lines would run: the last line of the log says where
  9   a command is for a later version: standard error says at which line of
      the script
";

/// The text on how to use the program.
#[tactic(auto, unfolding(crate::specs::Request::help_text))]
fn help_text(alloc: Global) -> Result<Text, NoMemory>
    ensures { IfOk result (λ text. text ≡ help_text) }
{
    joined(alloc, VERSION, USAGE, DETAILS)
}

/// Three texts, one behind the other.
fn joined(alloc: Global, first: &str, second: &str, third: &str) -> Result<Text, NoMemory>
    ensures { IfOk result (λ text. text ≡ first.now ++ (second.now ++ third.now)) }
{
    let mut text = Text::from_bytes(alloc, first.as_bytes())?;
    text.push(second.as_bytes())?;
    text.push(third.as_bytes())?;
    Ok(text)
}

/// The text that is asked for in place of a run; none for a run.
pub(crate) fn text_for(alloc: Global, request: Request) -> Result<Text, NoMemory>
    ensures { IfOk result (λ text. text ≡ text_for request) }
{
    match request {
        Request::Help => help_text(alloc),
        Request::Version => Text::from_bytes(alloc, VERSION.as_bytes()),
        Request::Run => Ok(Text::new(alloc)),
    }
}

/// Says on standard error what a status means, unless the run's own output says it. `words` are those
/// of the command line, where they were read.
pub(crate) fn explain(
    to: &mut impl Write,
    words: Option<&[Text]>,
    status: &Status,
) -> io::Result<()> {
    let cause = match status {
        Status::Done
        | Status::ScriptRefused { .. }
        | Status::RangeFault { .. }
        | Status::Budget { .. } => return Ok(()),
        Status::Usage { place } => {
            let place = *place;
            return write!(to, "fxlmp: {}\n{USAGE}", WrongWord { words, place });
        }
        Status::NotBuilt { file, line } => {
            let line = *line;
            return writeln!(to, "fxlmp: {}", LaterCommand { file, line });
        }
        Status::ReadFault => "a file cannot be read",
        Status::WriteFault => "a file or the standard output cannot be written",
        Status::DiskFault => "a restart file cannot be kept",
        Status::NoMemory => "out of memory",
    };
    writeln!(to, "fxlmp: {cause}")
}

/// A line of a script with a command that is for a later version.
#[derive(Clone, Copy)]
struct LaterCommand<'a> {
    /// The name of the script.
    file: &'a Text,
    /// The line.
    line: u32,
}

impl fmt::Display for LaterCommand<'_> {
    fn fmt<W: fmt::Write>(&self, f: &mut fmt::Formatter<W>) -> fmt::Result {
        let line = self.line;
        match str::from_utf8(self.file.as_bytes()) {
            Ok(file) => write!(
                f,
                "{file}:{line}: this command is for a later version (fxlmp --help shows what runs)"
            ),
            Err(_) => write!(f, "the command at line {line} is for a later version"),
        }
    }
}

/// What is wrong with a command line: the place of its first wrong word, counted from 0, or the number
/// of its words where one is missing.
#[derive(Clone, Copy)]
struct WrongWord<'a> {
    /// The words, where they were read.
    words: Option<&'a [Text]>,
    /// The place.
    place: u64,
}

impl WrongWord<'_> {
    /// The word at the place, if there is one and it is text.
    fn word(&self) -> Option<&str> {
        let place = usize::try_from(self.place).ok()?;
        str::from_utf8(self.words?.get(place)?.as_bytes()).ok()
    }

    /// The word so many places before it, if there is one and it is text.
    fn word_before(&self, places: u64) -> Option<&str> {
        let before = usize::try_from(self.place.checked_sub(places)?).ok()?;
        str::from_utf8(self.words?.get(before)?.as_bytes()).ok()
    }

    /// Why a word at the place is wrong.
    fn reason(&self) -> &'static str {
        if let Some("-gen") = self.word_before(2) {
            return "not a seed from 1 to 2147483647";
        }
        match self.word_before(1) {
            Some("-in" | "-i") => "not the name of a script that can be run",
            Some("-gen") => "not a number of lattice cells from 4 to 64",
            Some("-log" | "-l") => "not the name of a log",
            Some("-screen" | "-sc") => "expected none",
            Some("-var" | "-v") => "not the name of a variable",
            _ => "no option that may stand here",
        }
    }
}

impl fmt::Display for WrongWord<'_> {
    fn fmt<W: fmt::Write>(&self, f: &mut fmt::Formatter<W>) -> fmt::Result {
        let place = self.place;
        match (self.words, self.word()) {
            (None, _) => write!(
                f,
                "the command line cannot be read as UTF-8 text: place {place}"
            ),
            (_, Some(word)) => {
                let why = self.reason();
                write!(
                    f,
                    "wrong word at place {place}, counted from 0: {word:?} ({why})"
                )
            }
            (_, None) => write!(f, "a word is missing at place {place}, counted from 0"),
        }
    }
}
