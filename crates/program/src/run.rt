//! All that the program does, over any shelf, press and outputs.
ghost use Rattle.std.specs.Prelude.{◌≡◌, ◌≢◌, ◌<◌, ◌⊎◌, ℕ, List, Some, Ok, Err, IsErr};
ghost use Rattle.std.specs.Process.{exit_status};
ghost use Rattle.outside.specs.Stock.{Rose};
ghost use Rattle.outside.specs.declared.files.File.{File};
ghost use Rattle.fxlmp_top.specs.Ends.{IsComplete};
ghost use Rattle.fxlmp_top.specs.Serial.{serial};
ghost use Rattle.fxlmp_top.specs.declared.asked.Asked.{Asked};
ghost use Rattle.fxlmp_top.specs.Words.{asked};
ghost use Rattle.session.specs.Ends.{number_of};
ghost use Rattle.program.specs.Exit.{ExitsAs, ExitsComplete, MayEnd, printed};
ghost use Rattle.program.specs.Request.{request_of, text_for, unread_number};
ghost use Rattle.external_force.specs.Callbacks.{Keeps};

use crate::messages::{explain, text_for};
use crate::request::{Request, request_of};
use crate::words::Unread;
use disk_outside::Disk;
use external_force::{Callback, External, ExternalView, PullRule};
use fx_num::{Seq, Steps, Text};
use fxlmp_top::{Status, run_words};
use outside::{Gate, Press, PutRefusal, SCREEN, Shelf};
use std::alloc::Global;
use std::io::Write;
use std::marker::Brand;
use std::process::ExitCode;
use std::sync::ledger::{Blank, Ledger};
use std::thread::Threads;

/// Runs what the words say, and counts the evaluations of the pair term on a ledger of its own.
fn run_counted<
    T: Threads + Sync,
    S: Shelf,
    P: Press,
    D: Disk,
    G: Gate,
    F: Fn(&ExternalView) -> [i64; 3] + Callback,
    R: PullRule,
    L: Ledger,
>(
    rt: &T,
    alloc: Global,
    words: &[Text],
    shelf: &mut S,
    press: &mut P,
    disk: &mut D,
    gate: &G,
    external: &External<F, R>,
    blank: Blank,
) -> Status
    requires name { blank.name ≡ L.name }
    requires parts { blank.parts ≡ L.parts }
    requires some { 0 < blank.parts }
    ensures ends { (files : List File) → (S.seen shelf.old).stock ≡ Some files → MayEnd result (P.seen press.old).sent (serial files words.now) (P.seen press.new).sent }
    ensures complete { (files : List File) → (S.seen shelf.old).stock ≡ Some files
        → (Rose (S.seen shelf.old).faults (S.seen shelf.new).faults → ⊥) → (Rose (P.seen press.old).faults (P.seen press.new).faults → ⊥) → (Rose (D.view disk.old).faults (D.view disk.new).faults → ⊥)
        → IsComplete result (P.seen press.old).sent (serial files words.now) (P.seen press.new).sent }
    ensures read_fault { result ≡ Status.ReadFault → Rose (S.seen shelf.old).faults (S.seen shelf.new).faults }
    ensures read_stay { (result ≡ Status.ReadFault → ⊥) → (S.seen shelf.new).faults ≡ (S.seen shelf.old).faults }
    ensures write_stay { (result ≡ Status.WriteFault → ⊥) → (P.seen press.new).faults ≡ (P.seen press.old).faults }
    ensures write_fault { result ≡ Status.WriteFault → Rose (P.seen press.old).faults (P.seen press.new).faults }
    ensures disk_fault { result ≡ Status.DiskFault → Rose (D.view disk.old).faults (D.view disk.new).faults }
    ensures disk_stay { (result ≡ Status.DiskFault → ⊥) → (D.view disk.new).faults ≡ (D.view disk.old).faults }
    ensures usage { (place : ℕ) → result ≡ Status.Usage place → asked words.now ≡ Err place }
    ensures misread { (place : ℕ) → asked words.now ≡ Err place → (result ≡ Status.Usage place) ⊎ (result ≡ Status.NoMemory) }
{
    let mut steps = Steps::<L>::new(blank);
    run_words(
        rt, alloc, words, shelf, press, disk, gate, external, &mut steps,
    )
}

/// Puts the text on the screen that is asked for in place of a run, and tells how that ended.
fn print_text<P: Press>(alloc: Global, press: &mut P, request: Request) -> Status
    ensures ends { MayEnd result (P.seen press.old).sent (printed (text_for request)) (P.seen press.new).sent }
    ensures complete { (Rose (P.seen press.old).faults (P.seen press.new).faults → ⊥) → IsComplete result (P.seen press.old).sent (printed (text_for request)) (P.seen press.new).sent }
    ensures reads_nothing { result ≢ Status.ReadFault }
    ensures saves_nothing { result ≢ Status.DiskFault }
    ensures write_fault { result ≡ Status.WriteFault → Rose (P.seen press.old).faults (P.seen press.new).faults }
    ensures write_stay { (result ≡ Status.WriteFault → ⊥) → (P.seen press.new).faults ≡ (P.seen press.old).faults }
{
    let Ok(screen) = Text::from_bytes(alloc, SCREEN) else {
        return Status::NoMemory;
    };
    let Ok(text) = text_for(alloc, request) else {
        return Status::NoMemory;
    };
    match press.put(alloc, &screen, true, text.as_bytes()) {
        Ok(()) => Status::Done,
        Err(PutRefusal::Faulted) => Status::WriteFault,
        Err(PutRefusal::NoMemory) => Status::NoMemory,
    }
}

/// Does what the words of the command line ask for: a text is put on the screen with no run.
fn answer<
    T: Threads + Sync,
    S: Shelf,
    P: Press,
    D: Disk,
    G: Gate,
    F: Fn(&ExternalView) -> [i64; 3] + Callback,
    R: PullRule,
>(
    rt: &T,
    alloc: Global,
    words: &[Text],
    shelf: &mut S,
    press: &mut P,
    disk: &mut D,
    gate: &G,
    external: &External<F, R>,
) -> Status
    ensures ends { (files : List File) → request_of words.now ≡ Request.Run → (S.seen shelf.old).stock ≡ Some files → MayEnd result (P.seen press.old).sent (serial files words.now) (P.seen press.new).sent }
    ensures complete { (files : List File) → request_of words.now ≡ Request.Run → (S.seen shelf.old).stock ≡ Some files
        → (Rose (S.seen shelf.old).faults (S.seen shelf.new).faults → ⊥) → (Rose (P.seen press.old).faults (P.seen press.new).faults → ⊥) → (Rose (D.view disk.old).faults (D.view disk.new).faults → ⊥)
        → IsComplete result (P.seen press.old).sent (serial files words.now) (P.seen press.new).sent }
    ensures prints { request_of words.now ≢ Request.Run → MayEnd result (P.seen press.old).sent (printed (text_for (request_of words.now))) (P.seen press.new).sent }
    ensures prints_all { request_of words.now ≢ Request.Run → (Rose (P.seen press.old).faults (P.seen press.new).faults → ⊥) → IsComplete result (P.seen press.old).sent (printed (text_for (request_of words.now))) (P.seen press.new).sent }
    ensures reads_nothing { request_of words.now ≢ Request.Run → (S.seen shelf.new).faults ≡ (S.seen shelf.old).faults }
    ensures read_fault { result ≡ Status.ReadFault → Rose (S.seen shelf.old).faults (S.seen shelf.new).faults }
    ensures read_stay { (result ≡ Status.ReadFault → ⊥) → (S.seen shelf.new).faults ≡ (S.seen shelf.old).faults }
    ensures write_fault { result ≡ Status.WriteFault → Rose (P.seen press.old).faults (P.seen press.new).faults }
    ensures write_stay { (result ≡ Status.WriteFault → ⊥) → (P.seen press.new).faults ≡ (P.seen press.old).faults }
    ensures disk_fault { result ≡ Status.DiskFault → Rose (D.view disk.old).faults (D.view disk.new).faults }
    ensures disk_stay { (result ≡ Status.DiskFault → ⊥) → (D.view disk.new).faults ≡ (D.view disk.old).faults }
    ensures usage { request_of words.now ≡ Request.Run → (place : ℕ) → result ≡ Status.Usage place → asked words.now ≡ Err place }
    ensures misread { request_of words.now ≡ Request.Run → (place : ℕ) → asked words.now ≡ Err place → (result ≡ Status.Usage place) ⊎ (result ≡ Status.NoMemory) }
{
    match request_of(words) {
        Request::Run => run_counted::<T, S, P, D, G, F, R, Brand>(
            rt,
            alloc,
            words,
            shelf,
            press,
            disk,
            gate,
            external,
            Blank::new(1),
        ),
        request => print_text(alloc, press, request),
    }
}

/// Says on standard error what the status means, where no output says it, and gives its number to
/// exit with.
fn finish(errors: &mut impl Write, words: Option<&[Text]>, status: Status) -> ExitCode
    ensures { exit_status result ≡ number_of status }
{
    // where standard error fails too, the number is all that is left to say
    let _ = explain(errors, words, &status);
    ExitCode::from(status.number())
}

/// Does all that the program does with the words of its command line, as they were read, and gives
/// the number to exit with: that of the run's status.
///
/// `--help` and `--version`, each as the only word, put a text on the screen, with no run. All other
/// words are those of the top call over this shelf, press and disk, with `force` in place of external
/// forces. What a status means that no piece says goes to `errors`.
pub fn run_program<
    T: Threads + Sync,
    S: Shelf,
    P: Press,
    D: Disk,
    G: Gate,
    F: Fn(&ExternalView) -> [i64; 3] + Callback,
    R: PullRule,
    E: Write,
>(
    rt: &T,
    alloc: Global,
    read: Result<Seq<Text>, Unread>,
    shelf: &mut S,
    press: &mut P,
    disk: &mut D,
    gate: &G,
    force: F,
    errors: &mut E,
) -> ExitCode
    requires keeps { Keeps F.Callback.takes F.Callback.answers R.pull force }

    // A run: the number is that of its serial status, all its pieces sent, unless a fault or want of
    // memory ended it.
    ensures exits { (words : List (List ℕ)) (files : List File) → read ≡ Ok words → request_of words ≡ Request.Run → (S.seen shelf.old).stock ≡ Some files
        → ExitsAs (exit_status result) (P.seen press.old).sent (serial files words) (P.seen press.new).sent }
    ensures complete { (words : List (List ℕ)) (files : List File) → read ≡ Ok words → request_of words ≡ Request.Run → (S.seen shelf.old).stock ≡ Some files
        → (Rose (S.seen shelf.old).faults (S.seen shelf.new).faults → ⊥) → (Rose (P.seen press.old).faults (P.seen press.new).faults → ⊥) → (Rose (D.view disk.old).faults (D.view disk.new).faults → ⊥)
        → ExitsComplete (exit_status result) (P.seen press.old).sent (serial files words) (P.seen press.new).sent }

    // A text in place of a run: the number is 0, its piece sent, in the same way.
    ensures prints { (words : List (List ℕ)) → read ≡ Ok words → request_of words ≢ Request.Run
        → ExitsAs (exit_status result) (P.seen press.old).sent (printed (text_for (request_of words))) (P.seen press.new).sent }
    ensures prints_all { (words : List (List ℕ)) → read ≡ Ok words → request_of words ≢ Request.Run
        → (Rose (P.seen press.old).faults (P.seen press.new).faults → ⊥)
        → ExitsComplete (exit_status result) (P.seen press.old).sent (printed (text_for (request_of words))) (P.seen press.new).sent }
    ensures reads_nothing { (words : List (List ℕ)) → read ≡ Ok words → request_of words ≢ Request.Run → (S.seen shelf.new).faults ≡ (S.seen shelf.old).faults }

    // The number of a fault comes only where the count of that object rose, and the count stays at any
    // other number.
    ensures read_fault { exit_status result ≡ 3 → Rose (S.seen shelf.old).faults (S.seen shelf.new).faults }
    ensures read_stay { exit_status result ≢ 3 → (S.seen shelf.new).faults ≡ (S.seen shelf.old).faults }
    ensures write_fault { exit_status result ≡ 4 → Rose (P.seen press.old).faults (P.seen press.new).faults }
    ensures write_stay { exit_status result ≢ 4 → (P.seen press.new).faults ≡ (P.seen press.old).faults }
    ensures disk_fault { exit_status result ≡ 5 → Rose (D.view disk.old).faults (D.view disk.new).faults }
    ensures disk_stay { exit_status result ≢ 5 → (D.view disk.new).faults ≡ (D.view disk.old).faults }

    // A wrong command line, told from the words alone. Want of memory may come first.
    ensures usage { (words : List (List ℕ)) (place : ℕ) → read ≡ Ok words → request_of words ≡ Request.Run → asked words ≡ Err place → (exit_status result ≡ 7) ⊎ (exit_status result ≡ 6) }
    ensures right { (words : List (List ℕ)) (a : Asked) → read ≡ Ok words → request_of words ≡ Request.Run → asked words ≡ Ok a → exit_status result ≢ 7 }

    // Words that could not be read: nothing is put.
    ensures unread { (why : Unread) → read ≡ Err why → exit_status result ≡ unread_number why }
    ensures unread_untouched { IsErr read → ((P.seen press.new).sent ≡ (P.seen press.old).sent) × ((P.seen press.new).faults ≡ (P.seen press.old).faults) × ((S.seen shelf.new).faults ≡ (S.seen shelf.old).faults) }
{
    match read {
        Ok(words) => {
            let external = External::<F, R>::new(force);
            let status = answer(
                rt,
                alloc,
                words.as_slice(),
                shelf,
                press,
                disk,
                gate,
                &external,
            );
            finish(errors, Some(words.as_slice()), status)
        }
        Err(unread) => finish(errors, None, unread.status()),
    }
}
