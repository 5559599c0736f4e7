//! The top call.
ghost use Rattle.fxlmp_top.specs.Ends.{EndsAs, HasCause, IsComplete, IsSerialStatus, SendsAll, SendsPart};
ghost use Rattle.fxlmp_top.specs.Serial.{name_of, played_source, serial, text_of};
ghost use Rattle.fxlmp_top.specs.Words.{asked};
ghost use Rattle.meaning.specs.Causes.{Kept, shelf_alone, seen_of};
ghost use Rattle.meaning.specs.SystemFiles.{within};
ghost use Rattle.run_gen.specs.Script.{script_text};
ghost use Rattle.outside.specs.declared.files.File.{File};
ghost use Rattle.outside.specs.Stock.{content, Rose};
ghost use Rattle.session.specs.Ends.{EndsAs as Plays, GetsFile, StatusCounted, StatusStays};
ghost use Rattle.std.specs.Prelude.{◌≡◌, ◌≤◌, ◌⊎◌, ◌+◌, ℕ, List, Some, Err, length, IfNone, IfOk, IsErrOf};

use crate::asked::{Asked, Source};
use crate::start::first_settings;
use crate::words::{Misread, asked};
use box_geo::limits::MAX_SCRIPT_BYTES;
use disk_outside::{Disk, SureDisk};
use external_force::{Callback, External, ExternalView, PullRule};
use fx_num::{NoMemory, Steps, Text};
use meaning::{Code, Refusal};
use outside::{Gate, Press, Shelf, SurePress, SureShelf};
use run_gen::script;
use session::{Status, fetch_script, play, refuse};
use std::alloc::Global;
use std::sync::ledger::Ledger;
use std::thread::Threads;

/// The generated script.
fn generate(alloc: Global, cells: u32, seed: u32) -> Result<Text, Refusal>
    ensures is { GetsFile (Ok (script_text cells seed)) result }
    ensures short { IfOk result (λ text. length text ≤ MAX_SCRIPT_BYTES) }
    ensures no_code { (code : Code) → IsErrOf result (Refusal.Code code) → ⊥ }
    ensures no_fault { IsErrOf result Refusal.ReadFault → ⊥ }
{
    match script(alloc, cells, seed) {
        Ok(text) => Ok(text),
        Err(_) => Err(Refusal::NoMemory),
    }
}

/// The script's text.
fn text_of<S: Shelf>(alloc: Global, shelf: &mut S, source: &Source) -> Result<Text, Refusal>
    ensures told { (files : List File) → (S.seen shelf.old).stock ≡ Some files → GetsFile (text_of files source.now) result }
    ensures short { IfOk result (λ text. length text ≤ MAX_SCRIPT_BYTES) }
    ensures absent { IsErrOf result (Refusal.Code Code.NoFile) → IfNone (S.seen shelf.old).stock (Rose (S.seen shelf.old).absent (S.seen shelf.new).absent) }
    ensures read { IsErrOf result Refusal.ReadFault → Rose (S.seen shelf.old).faults (S.seen shelf.new).faults }
    ensures kept { Kept (shelf_alone (S.seen shelf.old)) (shelf_alone (S.seen shelf.new)) }
    ensures faults_stay { (IsErrOf result Refusal.ReadFault → ⊥) → (S.seen shelf.new).faults ≡ (S.seen shelf.old).faults }
{
    match source {
        Source::File(script) => fetch_script(alloc, shelf, &script.name),
        Source::Generated { cells, seed } => generate(alloc, *cells, *seed),
    }
}

/// The name under which the generated script is run.
const GENERATED_NAME: &[u8] = b"gen";

/// The script's name.
fn name_of(alloc: Global, source: &Source) -> Result<Text, NoMemory>
    ensures { IfOk result (λ name. name ≡ name_of source.now) }
{
    match source {
        Source::File(script) => script.name.copy(alloc),
        Source::Generated { .. } => Text::from_bytes(alloc, GENERATED_NAME),
    }
}

/// Plays a script.
fn run_source<
    T: Threads + Sync,
    S: Shelf,
    P: Press,
    D: Disk,
    G: Gate,
    F: Fn(&ExternalView) -> [i64; 3] + Callback,
    R: PullRule,
    L: Ledger,
>(
    rt: &T,
    alloc: Global,
    asked: &Asked,
    source: &Source,
    shelf: &mut S,
    press: &mut P,
    disk: &mut D,
    gate: &G,
    external: &External<F, R>,
    steps: &mut Steps<L>,
) -> Status
    ensures ends { (files : List File) → (S.seen shelf.old).stock ≡ Some files → Plays result (P.seen press.old).sent (played_source files asked.now source.now) (P.seen press.new).sent }
    ensures counted { (files : List File) → (S.seen shelf.old).stock ≡ Some files → StatusCounted (played_source files asked.now source.now).pairs steps.old result steps.new }
    ensures cause { HasCause result (seen_of (S.seen shelf.old) (P.seen press.old) (D.view disk.old).faults) (seen_of (S.seen shelf.new) (P.seen press.new) (D.view disk.new).faults) }
    ensures kept { Kept (seen_of (S.seen shelf.old) (P.seen press.old) (D.view disk.old).faults) (seen_of (S.seen shelf.new) (P.seen press.new) (D.view disk.new).faults) }
    ensures stays { StatusStays result (seen_of (S.seen shelf.old) (P.seen press.old) (D.view disk.old).faults) (seen_of (S.seen shelf.new) (P.seen press.new) (D.view disk.new).faults) }
    ensures no_usage { (place : ℕ) → result ≡ Status.Usage place → ⊥ }
{
    let name = match name_of(alloc, source) {
        Ok(name) => name,
        Err(_) => return Status::NoMemory,
    };
    let mut settings = match first_settings(alloc, asked, &name) {
        Ok(settings) => settings,
        Err(_) => return Status::NoMemory,
    };
    match text_of(alloc, shelf, source) {
        Ok(text) => play(
            rt, alloc, settings, &name, &text, shelf, press, disk, gate, external, steps,
        ),
        Err(Refusal::Code(code)) => refuse(alloc, &mut settings.output, code, &name, 0, press),
        Err(Refusal::ReadFault) => Status::ReadFault,
        Err(_) => Status::NoMemory,
    }
}

/// The top call, with the serial meaning in one clause, `ends`.
#[tactic(auto, unfolding(crate::specs::Serial::serial))]
fn run<
    T: Threads + Sync,
    S: Shelf,
    P: Press,
    D: Disk,
    G: Gate,
    F: Fn(&ExternalView) -> [i64; 3] + Callback,
    R: PullRule,
    L: Ledger,
>(
    rt: &T,
    alloc: Global,
    words: &[Text],
    shelf: &mut S,
    press: &mut P,
    disk: &mut D,
    gate: &G,
    external: &External<F, R>,
    steps: &mut Steps<L>,
) -> Status
    ensures ends { (files : List File) → (S.seen shelf.old).stock ≡ Some files → EndsAs result (P.seen press.old).sent (serial files words.now) (P.seen press.new).sent }
    ensures counted { (files : List File) → (S.seen shelf.old).stock ≡ Some files → StatusCounted (serial files words.now).pairs steps.old result steps.new }
    ensures cause { HasCause result (seen_of (S.seen shelf.old) (P.seen press.old) (D.view disk.old).faults) (seen_of (S.seen shelf.new) (P.seen press.new) (D.view disk.new).faults) }
    ensures kept { Kept (seen_of (S.seen shelf.old) (P.seen press.old) (D.view disk.old).faults) (seen_of (S.seen shelf.new) (P.seen press.new) (D.view disk.new).faults) }
    ensures stays { StatusStays result (seen_of (S.seen shelf.old) (P.seen press.old) (D.view disk.old).faults) (seen_of (S.seen shelf.new) (P.seen press.new) (D.view disk.new).faults) }
    ensures usage { (place : ℕ) → result ≡ Status.Usage place → asked words.now ≡ Err place }
    ensures misread { (place : ℕ) → asked words.now ≡ Err place → (result ≡ Status.Usage place) ⊎ (result ≡ Status.NoMemory) }
    ensures untouched { (place : ℕ) → asked words.now ≡ Err place → seen_of (S.seen shelf.new) (P.seen press.new) (D.view disk.new).faults ≡ seen_of (S.seen shelf.old) (P.seen press.old) (D.view disk.old).faults }
{
    let asked = match asked(alloc, words) {
        Ok(asked) => asked,
        Err(Misread::Usage(place)) => return Status::Usage { place },
        Err(Misread::NoMemory) => return Status::NoMemory,
    };
    match &asked.script {
        Some(source) => run_source(
            rt, alloc, &asked, source, shelf, press, disk, gate, external, steps,
        ),
        None => Status::Usage { place: 0 },
    }
}

/// Does all that the program does: from the words of the command line and the files on the shelf to
/// the pieces of the serial meaning, put on the press, and its status.
///
/// The serial meaning of the words over files is `serial files words`; it sums all pairs of atoms,
/// and knows nothing of this code. Where the shelf tells its files, the status and the pieces are
/// those of the serial meaning, unless a fault or want of memory ended the call: then a prefix of the
/// pieces was sent, and after a failure of the press the next one cut.
pub fn run_words<
    T: Threads + Sync,
    S: Shelf,
    P: Press,
    D: Disk,
    G: Gate,
    F: Fn(&ExternalView) -> [i64; 3] + Callback,
    R: PullRule,
    L: Ledger,
>(
    rt: &T,
    alloc: Global,
    words: &[Text],
    shelf: &mut S,
    press: &mut P,
    disk: &mut D,
    gate: &G,
    external: &External<F, R>,
    steps: &mut Steps<L>,
) -> Status
    // The headline: the status and the pieces are the serial ones.
    ensures serial_status { (files : List File) → (S.seen shelf.old).stock ≡ Some files → IsSerialStatus result (serial files words.now) }
    ensures serial_pieces { (files : List File) → (S.seen shelf.old).stock ≡ Some files → SendsAll result (P.seen press.old).sent (serial files words.now) (P.seen press.new).sent }

    // How many terms of pairs are summed: at most as many as the serial meaning sums, and exactly so
    // many where the script is run to its end.
    ensures few_steps { (files : List File) → (S.seen shelf.old).stock ≡ Some files → steps.new ≤ steps.old + (serial files words.now).pairs }
    ensures steps { (files : List File) → (S.seen shelf.old).stock ≡ Some files → result ≡ Status.Done → steps.new ≡ steps.old + (serial files words.now).pairs }

    // What a fault or want of memory leaves, and when a fault may be answered.
    ensures prefix { (files : List File) → (S.seen shelf.old).stock ≡ Some files → SendsPart result (P.seen press.old).sent (serial files words.now) (P.seen press.new).sent }
    ensures read_fault { result ≡ Status.ReadFault → Rose (S.seen shelf.old).faults (S.seen shelf.new).faults }
    ensures write_fault { result ≡ Status.WriteFault → Rose (P.seen press.old).faults (P.seen press.new).faults }
    ensures disk_fault { result ≡ Status.DiskFault → Rose (D.view disk.old).faults (D.view disk.new).faults }
    ensures complete { (files : List File) → (S.seen shelf.old).stock ≡ Some files
        → (Rose (S.seen shelf.old).faults (S.seen shelf.new).faults → ⊥) → (Rose (P.seen press.old).faults (P.seen press.new).faults → ⊥) → (Rose (D.view disk.old).faults (D.view disk.new).faults → ⊥)
        → IsComplete result (P.seen press.old).sent (serial files words.now) (P.seen press.new).sent }

    // A faulty command line is told from the words alone, before any call on an object. Want of memory
    // may come first.
    ensures usage { (place : ℕ) → result ≡ Status.Usage place → asked words.now ≡ Err place }
    ensures misread { (place : ℕ) → asked words.now ≡ Err place → (result ≡ Status.Usage place) ⊎ (result ≡ Status.NoMemory) }
    ensures usage_untouched { (place : ℕ) → asked words.now ≡ Err place → seen_of (S.seen shelf.new) (P.seen press.new) (D.view disk.new).faults ≡ seen_of (S.seen shelf.old) (P.seen press.old) (D.view disk.old).faults }

    // Where the shelf does not tell its files, one is missing only by what the shelf answered.
    ensures no_file { (file : List ℕ) (line : ℕ) → result ≡ Status.ScriptRefused Code.NoFile file line → IfNone (S.seen shelf.old).stock (Rose (S.seen shelf.old).absent (S.seen shelf.new).absent) }

    ensures stock_stays { (S.seen shelf.new).stock ≡ (S.seen shelf.old).stock }
    ensures read_kept { (S.seen shelf.old).faults ≤ (S.seen shelf.new).faults }
    ensures read_stay { (result ≡ Status.ReadFault → ⊥) → (S.seen shelf.new).faults ≡ (S.seen shelf.old).faults }
    ensures absent_kept { (S.seen shelf.old).absent ≤ (S.seen shelf.new).absent }
    ensures write_kept { (P.seen press.old).faults ≤ (P.seen press.new).faults }
    ensures write_stay { (result ≡ Status.WriteFault → ⊥) → (P.seen press.new).faults ≡ (P.seen press.old).faults }
    ensures disk_kept { (D.view disk.old).faults ≤ (D.view disk.new).faults }
    ensures disk_stay { (result ≡ Status.DiskFault → ⊥) → (D.view disk.new).faults ≡ (D.view disk.old).faults }
{
    run(rt, alloc, words, shelf, press, disk, gate, external, steps)
}

/// The top call over objects that never fail: its status is the serial one with all pieces, or
/// memory was wanting.
pub fn run_surely<
    T: Threads + Sync,
    G: Gate,
    F: Fn(&ExternalView) -> [i64; 3] + Callback,
    R: PullRule,
    L: Ledger,
>(
    rt: &T,
    alloc: Global,
    words: &[Text],
    shelf: &mut SureShelf,
    press: &mut SurePress,
    disk: &mut SureDisk,
    gate: &G,
    external: &External<F, R>,
    steps: &mut Steps<L>,
) -> Status
    ensures complete { IsComplete result (Some press.old) (serial shelf.old words.now) (Some press.new) }
{
    run_words(rt, alloc, words, shelf, press, disk, gate, external, steps)
}
