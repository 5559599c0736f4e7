//! Reading the words of the command line.
ghost use Rattle.fxlmp_top.specs.Ends.{Reads, Steps, stand_of};
ghost use Rattle.fxlmp_top.specs.Words.{asked, cells_word, end_of, ends, is_chosen, is_either, is_flag, is_log, is_name, is_script, log_word, nothing_asked, option_word, screen_word, script_word, seed_word, step, unless, value_word, variable_word, whole_within};
ghost use Rattle.std.specs.Prelude.{◌≡◌, IfNone, IfOk};

use crate::asked::{Asked, Definition, LogChoice, ScriptName, Source, Wanted};
use command_words::MAX_SEED;
use fx_num::{NoMemory, Seq, Text, read_whole};
use names::{is_compressed, is_file_name, is_id};
use run_gen::{MAX_CELLS, MIN_CELLS};
use std::alloc::Global;

/// Why words ask for nothing.
#[derive(Clone, Copy, Debug, PartialEq, Eq)]
pub(crate) enum Misread {
    /// The place of the first word that has no reading, or the number of words where one is missing.
    Usage(u64),
    /// Out of memory.
    NoMemory,
}

/// The log's name where the words give none.
pub const DEFAULT_LOG: &[u8] = b"log.lammps";

/// The option for the generated script.
const GENERATE: &[u8] = b"-gen";

/// The word for no log, and for no screen.
const NONE: &[u8] = b"none";

/// Whether this is a file's name that the words may give.
fn is_name(name: &[u8]) -> bool
    ensures { result ≡ is_name name.now }
{
    is_file_name(name) && !is_compressed(name)
}

/// Whether a word begins with `-` and a letter.
fn is_flag(word: &[u8]) -> bool
    ensures { result ≡ is_flag word.now }
{
    matches!(word, [b'-', letter, ..] if letter.is_ascii_alphabetic())
}

impl Asked {
    /// Nothing is asked for yet.
    fn new(alloc: Global) -> Asked
        ensures { result ≡ nothing_asked }
    {
        Asked {
            script: None,
            log: LogChoice::Default,
            screen: true,
            vars: Seq::new(alloc),
        }
    }

    /// Whether a log is chosen.
    fn has_log(&self) -> bool
        ensures { result ≡ is_chosen self.now.log }
    {
        !matches!(self.log, LogChoice::Default)
    }

    /// Whether the log goes to the file of this name, by the words.
    fn is_log(&self, name: &Text) -> bool
        ensures { result ≡ is_log self.now.log name.now }
    {
        matches!(&self.log, LogChoice::File(log) if log.same(name))
    }

    /// Whether the script is the file of this name.
    fn is_script(&self, name: &Text) -> bool
        ensures { result ≡ is_script self.now.script name.now }
    {
        matches!(&self.script, Some(Source::File(script)) if script.name.same(name))
    }
}

/// Whether a word is one of two spellings.
fn is_either(long: &[u8], short: &[u8], word: &[u8]) -> bool
    ensures { result ≡ is_either long.now short.now word.now }
{
    word == long || word == short
}

/// What is wanted next, unless it was given before.
fn unless(given: bool, next: Wanted) -> Option<Wanted>
    ensures { (a : Asked) → unless given a next ≡ stand_of a result }
{
    if given { None } else { Some(next) }
}

/// What is wanted behind an option's word; none where it is no option, or stands a second time.
fn option_word(asked: &Asked, word: &[u8]) -> Option<Wanted>
    ensures { option_word asked.now word.now ≡ stand_of asked.now result }
{
    if is_either(b"-in", b"-i", word) {
        return unless(asked.script.is_some(), Wanted::Script);
    }
    if word == GENERATE {
        return unless(asked.script.is_some(), Wanted::Cells);
    }
    if is_either(b"-log", b"-l", word) {
        return unless(asked.has_log(), Wanted::Log);
    }
    if is_either(b"-screen", b"-sc", word) {
        return unless(!asked.screen, Wanted::Screen);
    }
    if is_either(b"-var", b"-v", word) {
        return Some(Wanted::Variable);
    }
    None
}

/// Takes a word at its place: what is wanted next, or none where the word has no reading.
fn take(
    alloc: Global,
    asked: &mut Asked,
    wanted: Wanted,
    place: u64,
    word: &Text,
) -> Result<Option<Wanted>, NoMemory>
    ensures { Steps (step asked.old wanted place word.now) result asked.new }
{
    match wanted {
        Wanted::Flag => Ok(option_word(asked, word.as_bytes())),
        Wanted::Script => take_script(alloc, asked, place, word),
        Wanted::Cells => Ok(take_cells(word)),
        Wanted::Seed(cells) => Ok(take_seed(asked, cells, word)),
        Wanted::Log => take_log(alloc, asked, word),
        Wanted::Screen => Ok(take_screen(asked, word)),
        Wanted::Variable => take_variable(alloc, asked, word),
        Wanted::Values(definition) => take_value(alloc, asked, definition, word),
    }
}

/// Takes the script's name.
fn take_script(
    alloc: Global,
    asked: &mut Asked,
    place: u64,
    word: &Text,
) -> Result<Option<Wanted>, NoMemory>
    ensures { Steps (script_word asked.old place word.now) result asked.new }
{
    if !is_name(word.as_bytes()) || asked.is_log(word) {
        return Ok(None);
    }
    let name = word.copy(alloc)?;
    asked.script = Some(Source::File(ScriptName { place, name }));
    Ok(Some(Wanted::Flag))
}

/// The whole number that a word is, where it is from `low` to `high`.
fn whole_within(low: u32, high: u32, word: &[u8]) -> Option<u32>
    ensures { result ≡ whole_within low high word.now }
{
    match read_whole(word) {
        Ok(n) if u64::from(low) <= n && n <= u64::from(high) => Some(n as u32),
        _ => None,
    }
}

/// Takes the number of lattice cells of the generated script.
fn take_cells(word: &Text) -> Option<Wanted>
    ensures { (a : Asked) → cells_word a word.now ≡ stand_of a result }
{
    match whole_within(MIN_CELLS, MAX_CELLS, word.as_bytes()) {
        Some(cells) => Some(Wanted::Seed(cells)),
        None => None,
    }
}

/// Takes the seed of the generated script.
fn take_seed(asked: &mut Asked, cells: u32, word: &Text) -> Option<Wanted>
    ensures { seed_word asked.old cells word.now ≡ stand_of asked.new result }
{
    match whole_within(1, MAX_SEED, word.as_bytes()) {
        Some(seed) => {
            asked.script = Some(Source::Generated { cells, seed });
            Some(Wanted::Flag)
        }
        None => None,
    }
}

/// Takes the log's name, or `none`.
fn take_log(alloc: Global, asked: &mut Asked, word: &Text) -> Result<Option<Wanted>, NoMemory>
    ensures { Steps (log_word asked.old word.now) result asked.new }
{
    if word.as_bytes() == NONE {
        asked.log = LogChoice::Nowhere;
        return Ok(Some(Wanted::Flag));
    }
    if !is_name(word.as_bytes()) || asked.is_script(word) {
        return Ok(None);
    }
    asked.log = LogChoice::File(word.copy(alloc)?);
    Ok(Some(Wanted::Flag))
}

/// Takes `none` for the screen.
fn take_screen(asked: &mut Asked, word: &Text) -> Option<Wanted>
    ensures { screen_word asked.old word.now ≡ stand_of asked.new result }
{
    if word.as_bytes() != NONE {
        return None;
    }
    asked.screen = false;
    Some(Wanted::Flag)
}

/// Takes a variable's name.
fn take_variable(alloc: Global, asked: &Asked, word: &Text) -> Result<Option<Wanted>, NoMemory>
    ensures { Steps (variable_word asked.now word.now) result asked.now }
{
    if !is_id(word.as_bytes()) {
        return Ok(None);
    }
    Ok(Some(Wanted::Values(Definition {
        name: word.copy(alloc)?,
        values: Seq::new(alloc),
    })))
}

/// Takes a value of a variable, or an option behind the last one.
fn take_value(
    alloc: Global,
    asked: &mut Asked,
    definition: Definition,
    word: &Text,
) -> Result<Option<Wanted>, NoMemory>
    ensures { Steps (value_word asked.old definition word.now) result asked.new }
{
    let mut definition = definition;
    if !is_flag(word.as_bytes()) {
        definition.values.push(word.copy(alloc)?)?;
        return Ok(Some(Wanted::Values(definition)));
    }
    if definition.values.is_empty() {
        return Ok(None);
    }
    asked.vars.push(definition)?;
    Ok(option_word(asked, word.as_bytes()))
}

/// What is asked for where the words end behind an option and what belongs to it.
fn checked(asked: Asked, count: u64) -> Result<Asked, Misread>
    ensures is { Reads (ends asked count) result }
    ensures named { IfOk result (λ a. IfNone a.script ⊥) }
{
    match (&asked.script, &asked.log) {
        (None, _) => Err(Misread::Usage(count)),
        (Some(Source::File(script)), LogChoice::Default) if script.name.as_bytes() == DEFAULT_LOG =>
            { Err(Misread::Usage(script.place)) }
        _ => Ok(asked),
    }
}

/// What is asked for where the words end.
fn finished(asked: Asked, wanted: Wanted, count: u64) -> Result<Asked, Misread>
    ensures is { Reads (end_of asked wanted count) result }
    ensures named { IfOk result (λ a. IfNone a.script ⊥) }
{
    let mut asked = asked;
    match wanted {
        Wanted::Flag => checked(asked, count),
        Wanted::Values(definition) if !definition.values.is_empty() => {
            match asked.vars.push(definition) {
                Ok(()) => checked(asked, count),
                Err(_) => Err(Misread::NoMemory),
            }
        }
        _ => Err(Misread::Usage(count)),
    }
}

/// What the words of the command line ask for.
pub(crate) fn asked(alloc: Global, words: &[Text]) -> Result<Asked, Misread>
    ensures is { Reads (asked words.now) result }
    ensures named { IfOk result (λ a. IfNone a.script ⊥) }
{
    let mut asked = Asked::new(alloc);
    let mut wanted = Wanted::Flag;
    let mut place = 0;
    for word in words {
        wanted = match take(alloc, &mut asked, wanted, place, word) {
            Ok(Some(next)) => next,
            Ok(None) => return Err(Misread::Usage(place)),
            Err(_) => return Err(Misread::NoMemory),
        };
        place += 1;
    }
    finished(asked, wanted, place)
}
