//! The flow of a run.
ghost use Rattle.std.specs.Prelude.{◌≡◌, ◌+◌, ◌<◌, ◌≤◌, ◌∷◌, true, Ok, length, drop, take, IfErr, IfOk, IfSome, OnErr, OnOk};
ghost use Rattle.box_geo.specs.declared.limits.TheConstants.{MAX_INCLUDES, MAX_LINES, MAX_SCRIPT_BYTES};
ghost use Rattle.control_flow.specs.Flow.{at_label, counted, included, jumped, opened, skipping, started, stepped, stepped_in, with_left, Counts};
ghost use Rattle.script_lines.specs.Physical.{feeds};
ghost use Rattle.script_lines.specs.Script.{script_at};
ghost use Rattle.control_flow.specs.Found.{StandsIn};
ghost use Rattle.control_flow.specs.Labels.{IsRefusal};

use crate::event::FlowEvent;
use crate::file::ScriptFile;
use crate::refusals::FlowRefusal;
use crate::search::{Found, close, found_in};
use box_geo::limits::{MAX_INCLUDES, MAX_LINES};
use fx_num::{NoMemory, Text};
use script_lines::{Place, ScriptLine};
use std::alloc::Global;
use std::marker::Model;

/// The flow of a run through its scripts. Contracts see the innermost file, those that include it, the
/// skip flag, the last line and how many lines were run.
#[derive(Drop)]
pub struct Flow {
    file: ScriptFile,
    /// The files that include it, from the nearest on.
    outer: Vec<ScriptFile>,
    skips: bool,
    /// The file of the last line.
    last: Text,
    /// The number of the last line.
    number: u32,
    count: u32,
}

impl Model for Flow {
    ghost use Rattle.std.specs.Prelude.{◌≤◌, length};
    ghost use Rattle.box_geo.specs.declared.limits.TheConstants.{MAX_INCLUDES, MAX_LINES};
    ghost use Rattle.control_flow.specs.Flow.{FlowState};

    ghost Value = { FlowState };

    ghost view = { λ f. record { file = f.file; outer = f.outer.items; skips = f.skips; last = record { file = f.last; number = f.number }; count = f.count } };

    ghost invariant = { λ f. (length f.outer.items ≤ MAX_INCLUDES) × (f.count ≤ MAX_LINES) };
}

impl Flow {
    /// The flow at the start of a script of at most [`MAX_SCRIPT_BYTES`](box_geo::limits::MAX_SCRIPT_BYTES)
    /// bytes.
    ///
    /// # Errors
    ///
    /// `NoMemory`.
    pub fn new(alloc: Global, name: Text, text: Text) -> Result<Flow, NoMemory>
        requires { length text ≤ MAX_SCRIPT_BYTES }
        ensures { IfOk result (λ flow. flow ≡ started name text) }
    {
        let last = name.copy(alloc)?;
        Ok(Flow {
            file: ScriptFile::open(name, text),
            outer: Vec::new(alloc),
            skips: false,
            last,
            number: 0,
            count: 0,
        })
    }

    /// The next line of the innermost file that has one left; a file that has none is closed. A line with
    /// words counts as run.
    ///
    /// # Errors
    ///
    /// `Line` exactly where that line cannot be read. `Budget` exactly where it can, and [`MAX_LINES`]
    /// lines were run. `NoMemory`. The flow then stays as it was.
    pub fn step(&mut self, alloc: Global) -> Result<FlowEvent, FlowRefusal>
        ensures stepped { IfOk result (λ event. stepped self.old ≡ Ok (event, self.new)) }
        ensures counts { IfOk result (λ event. Counts event self.old self.new) }
        ensures refused { IfErr result (λ why. IsRefusal why (stepped self.old)) }
        ensures unchanged { OnErr result (self.new ≡ self.old) }
    {
        match found_in(alloc, &self.file, &self.outer)? {
            Some(found) => self.run(alloc, found),
            None => {
                let closed = self.outer.len();
                close(&mut self.file, &mut self.outer, closed);
                Ok(FlowEvent::End)
            }
        }
    }

    /// Runs a line that was found.
    fn run(&mut self, alloc: Global, found: Found) -> Result<FlowEvent, FlowRefusal>
        requires within { found.closed ≤ length self.old.outer }
        requires found { StandsIn found (drop found.closed (self.old.file ∷ self.old.outer)) }
        ensures stepped { IfOk result (λ event. stepped_in self.old (drop found.closed (self.old.file ∷ self.old.outer)) ≡ Ok (event, self.new)) }
        ensures counts { IfOk result (λ event. Counts event self.old self.new) }
        ensures refused { IfErr result (λ why. IsRefusal why (stepped_in self.old (drop found.closed (self.old.file ∷ self.old.outer)))) }
        ensures unchanged { OnErr result (self.new ≡ self.old) }
    {
        let Found { closed, file, line } = found;
        let ScriptLine {
            number,
            next,
            words,
        } = line;
        if self.count >= MAX_LINES {
            return Err(FlowRefusal::Budget(file, number));
        }
        let last = file.copy(alloc)?;
        close(&mut self.file, &mut self.outer, closed);
        self.file.go_to(next);
        self.last = last;
        self.number = number;
        self.count += 1;
        Ok(FlowEvent::Line {
            file,
            number,
            words,
        })
    }

    /// How many includes are open. A file that has run its last line is open until the next line is asked for.
    pub fn depth(&self) -> u32
        ensures is { result ≡ length self.now.outer }
        ensures few { result ≤ MAX_INCLUDES }
    {
        self.outer.len() as u32
    }

    /// The file of the last line, at first that of the script.
    pub fn last_file(&self) -> &Text
        ensures { result.now ≡ self.now.last.file }
    {
        &self.last
    }

    /// The number of the last line, 0 before the first.
    pub fn last_number(&self) -> u32
        ensures { result ≡ self.now.last.number }
    {
        self.number
    }

    /// How many lines were run.
    pub fn lines_run(&self) -> u32
        ensures is { result ≡ self.now.count }
        ensures few { result ≤ MAX_LINES }
    {
        self.count
    }

    /// Whether the next jump is skipped.
    pub fn skips(&self) -> bool
        ensures { result ≡ self.now.skips }
    {
        self.skips
    }

    /// Lets the next jump be skipped.
    pub fn skip_next_jump(&mut self)
        ensures { self.new ≡ skipping self.old true }
    {
        self.skips = true;
    }

    /// Counts a line that `if` runs, under the number of the last line.
    ///
    /// # Errors
    ///
    /// `Budget` exactly where [`MAX_LINES`] lines were run, and `NoMemory`. The flow then stays as it was.
    pub fn count(&mut self, alloc: Global) -> Result<(), FlowRefusal>
        ensures counted { OnOk result (counted self.old ≡ Ok self.new) }
        ensures refused { IfErr result (λ why. IsRefusal why (counted self.old)) }
        ensures unchanged { OnErr result (self.new ≡ self.old) }
    {
        if self.count < MAX_LINES {
            self.count += 1;
            return Ok(());
        }
        Err(FlowRefusal::Budget(self.last.copy(alloc)?, self.number))
    }

    /// Includes a file of at most [`MAX_SCRIPT_BYTES`](box_geo::limits::MAX_SCRIPT_BYTES) bytes.
    ///
    /// # Errors
    ///
    /// `IncludeTooDeep` exactly where [`MAX_INCLUDES`] includes are open, and `NoMemory`. The flow then
    /// stays as it was.
    pub fn include(&mut self, _alloc: Global, name: Text, text: Text) -> Result<(), FlowRefusal>
        requires { length text ≤ MAX_SCRIPT_BYTES }
        ensures included { OnOk result (included self.old name text ≡ Ok self.new) }
        ensures refused { IfErr result (λ why. IsRefusal why (included self.old name text)) }
        ensures unchanged { OnErr result (self.new ≡ self.old) }
    {
        if self.outer.len() >= MAX_INCLUDES as usize {
            return Err(FlowRefusal::IncludeTooDeep);
        }
        if self.outer.insert(0, ScriptFile::open(name, text)).is_err() {
            return Err(FlowRefusal::NoMemory);
        }
        std::mem::swap(&mut self.file, &mut self.outer[0]);
        Ok(())
    }

    /// Jumps to the start of a file or behind a label of it: of the innermost file, or of `other`, a name
    /// and a text of at most [`MAX_SCRIPT_BYTES`](box_geo::limits::MAX_SCRIPT_BYTES) bytes, which takes its
    /// place. It tells whether it jumped: not exactly where the jump is skipped.
    ///
    /// # Errors
    ///
    /// `NoLabel` exactly where no line of the file is the label; `Line` where a line before it cannot be
    /// read; `NoMemory`. The flow then stays as it was.
    pub fn jump(
        &mut self,
        alloc: Global,
        other: Option<(Text, Text)>,
        label: Option<Text>,
    ) -> Result<bool, FlowRefusal>
        requires { IfSome other (λ o. length o.1 ≤ MAX_SCRIPT_BYTES) }
        ensures jumped { IfOk result (λ goes. jumped self.old other label ≡ Ok (goes, self.new)) }
        ensures refused { IfErr result (λ why. IsRefusal why (jumped self.old other label)) }
        ensures unchanged { OnErr result (self.new ≡ self.old) }
    {
        if self.skips {
            self.skips = false;
            return Ok(false);
        }
        match other {
            None => {
                let place = start_of(alloc, &self.file, label)?;
                self.file.go_to(place);
            }
            Some((name, text)) => {
                let mut file = ScriptFile::open(name, text);
                let place = start_of(alloc, &file, label)?;
                file.go_to(place);
                self.file = file;
            }
        }
        Ok(true)
    }
}

/// The place in a file where a jump goes on.
fn start_of(alloc: Global, file: &ScriptFile, label: Option<Text>) -> Result<Place, FlowRefusal>
    ensures place { IfOk result (λ place. at_label (opened file.now.name file.now.text) label ≡ Ok (with_left file.now (script_at file.now.text place.at))) }
    ensures counted { IfOk result (λ place. place.ended ≡ feeds (take place.at file.now.text)) }
    ensures refused { IfErr result (λ why. IsRefusal why (at_label (opened file.now.name file.now.text) label)) }
{
    match label {
        None => Ok(Place::start()),
        Some(label) => file.behind_label(alloc, &label),
    }
}
