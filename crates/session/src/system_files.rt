//! `read_data` and `write_data`.
ghost use Rattle.meaning.specs.Causes.{Kept, Rests, Stays, nothing_lent, press_alone, shelf_alone};
ghost use Rattle.meaning.specs.Sends.{Changes, Does, Shows};
ghost use Rattle.meaning.specs.Shown.{put_anew};
ghost use Rattle.meaning.specs.Sound.{IsSound};
ghost use Rattle.meaning.specs.SystemFiles.{fetched, read_data, text_of_body, with_data, within, write_data};
ghost use Rattle.data_file.specs.Data.{data_of};
ghost use Rattle.outside.specs.declared.files.File.{File};
ghost use Rattle.outside.specs.declared.shelf.TheConstants.{MAX_FETCHED};
ghost use Rattle.session.specs.Ends.{GetsFile};
ghost use Rattle.session.specs.Stops.{ScriptRests};
ghost use Rattle.outside.specs.Stock.{Rose};
ghost use Rattle.std.specs.Prelude.{◌≡◌, ◌≤◌, List, Some, length, IfErr, IfNone, IfOk, IsErrOf, OnOk};

use crate::answers::widened;
use box_geo::AtomStyle;
use box_geo::limits::MAX_SCRIPT_BYTES;
use data_file::{DataRefusal, read_data as data_of};
use data_text::write_data as text_of_data;
use fx_num::{NoMemory, Text};
use meaning::{Body, Code, Refusal, Settings, UseKind, Uses, put_refusal};
use outside::{FetchRefusal, Press, PutRefusal, Shelf};
use run_settings::take_data;
use std::alloc::Global;

/// The text of a file.
fn fetch<S: Shelf>(alloc: Global, shelf: &mut S, name: &Text) -> Result<Text, Refusal>
    ensures told { (files : List File) → (S.seen shelf.old).stock ≡ Some files → GetsFile (fetched MAX_FETCHED files name.now) result }
    ensures short { IfOk result (λ text. length text ≤ MAX_FETCHED) }
    ensures cause { IfErr result (λ why. Rests why (shelf_alone (S.seen shelf.old)) (shelf_alone (S.seen shelf.new))) }
    ensures kept { Kept (shelf_alone (S.seen shelf.old)) (shelf_alone (S.seen shelf.new)) }
    ensures stays { Stays result (shelf_alone (S.seen shelf.old)) (shelf_alone (S.seen shelf.new)) }
{
    match shelf.fetch(alloc, name) {
        Ok(text) => Ok(text),
        Err(FetchRefusal::Missing) => Err(Refusal::Code(Code::NoFile)),
        Err(FetchRefusal::TooLong(_)) => Err(Refusal::Code(Code::FileTooLong)),
        Err(FetchRefusal::Faulted) => Err(Refusal::ReadFault),
        Err(FetchRefusal::NoMemory) => Err(Refusal::NoMemory),
    }
}

/// A text, if it is short enough for a script.
fn short_enough(text: Text) -> Result<Text, Refusal>
    ensures is { GetsFile (within MAX_SCRIPT_BYTES (Some text)) result }
    ensures short { IfOk result (λ text. length text ≤ MAX_SCRIPT_BYTES) }
    ensures only { (code : Code) → IsErrOf result (Refusal.Code code) → code ≡ Code.FileTooLong }
    ensures no_fault { IsErrOf result Refusal.ReadFault → ⊥ }
{
    if text.as_bytes().len() <= MAX_SCRIPT_BYTES {
        Ok(text)
    } else {
        Err(Refusal::Code(Code::FileTooLong))
    }
}

/// The text of a script's file.
///
/// # Errors
///
/// `NoFile` where the file is missing, `FileTooLong` where it has more than [`MAX_SCRIPT_BYTES`] bytes, a fault of the shelf,
/// and want of memory.
pub fn fetch_script<S: Shelf>(alloc: Global, shelf: &mut S, name: &Text) -> Result<Text, Refusal>
    ensures told { (files : List File) → (S.seen shelf.old).stock ≡ Some files → GetsFile (fetched MAX_SCRIPT_BYTES files name.now) result }
    ensures short { IfOk result (λ text. length text ≤ MAX_SCRIPT_BYTES) }
    ensures absent { IsErrOf result (Refusal.Code Code.NoFile) → IfNone (S.seen shelf.old).stock (Rose (S.seen shelf.old).absent (S.seen shelf.new).absent) }
    ensures cause { IfErr result (λ why. ScriptRests why (shelf_alone (S.seen shelf.old)) (shelf_alone (S.seen shelf.new))) }
    ensures read { IsErrOf result Refusal.ReadFault → Rose (S.seen shelf.old).faults (S.seen shelf.new).faults }
    ensures kept { Kept (shelf_alone (S.seen shelf.old)) (shelf_alone (S.seen shelf.new)) }
    ensures stays { Stays result (shelf_alone (S.seen shelf.old)) (shelf_alone (S.seen shelf.new)) }
    ensures faults_stay { (IsErrOf result Refusal.ReadFault → ⊥) → (S.seen shelf.new).faults ≡ (S.seen shelf.old).faults }
{
    match fetch(alloc, shelf, name) {
        Ok(text) => short_enough(text),
        Err(why) => Err(why),
    }
}

/// Puts into the box what the text of a data file says.
fn take_text(alloc: Global, settings: &mut Settings, text: &Text) -> Result<(), Refusal>
    requires short { length text.now ≤ MAX_FETCHED }
    requires sound { IsSound settings.old }
    requires empty { settings.old.body ≡ None }
    ensures changes { Changes (with_data settings.old settings.old.output.uses (data_of settings.old.setup.style settings.old.setup.periodic settings.old.setup.dim text.now)) result settings.new }
    ensures sound { OnOk result (IsSound settings.new) }
    ensures cause { IfErr result (λ why. Rests why nothing_lent nothing_lent) }
{
    let setup = settings.setup;
    let set = match data_of(
        alloc,
        text.as_bytes(),
        setup.style,
        setup.periodic,
        setup.dim,
    ) {
        Ok(set) => set,
        Err(DataRefusal::Line(_, _)) => return Err(Refusal::Code(Code::DataLine)),
        Err(DataRefusal::NoMemory) => return Err(Refusal::NoMemory),
    };
    match take_data(settings, alloc, set) {
        Ok(()) => Ok(()),
        Err(why) => Err(widened(why)),
    }
}

/// `read_data`: what is in the box, from a data file, before there is a box. The name is judged before the file is fetched.
pub(crate) fn read_data<S: Shelf>(
    alloc: Global,
    settings: &mut Settings,
    name: &Text,
    shelf: &mut S,
) -> Result<(), Refusal>
    requires sound { IsSound settings.old }
    ensures changes { (files : List File) → (S.seen shelf.old).stock ≡ Some files → Changes (read_data files name.now settings.old) result settings.new }
    ensures sound { OnOk result (IsSound settings.new) }
    ensures cause { IfErr result (λ why. Rests why (shelf_alone (S.seen shelf.old)) (shelf_alone (S.seen shelf.new))) }
    ensures kept { Kept (shelf_alone (S.seen shelf.old)) (shelf_alone (S.seen shelf.new)) }
    ensures stays { Stays result (shelf_alone (S.seen shelf.old)) (shelf_alone (S.seen shelf.new)) }
{
    if let Some(code) = settings.output.uses.refusal_of(UseKind::Fetched, name) {
        return Err(Refusal::Code(code));
    }
    if settings.body.is_some() {
        return Err(Refusal::Code(Code::BoxExists));
    }
    let text = fetch(alloc, shelf, name)?;
    match take_text(alloc, settings, &text) {
        Ok(()) => {}
        Err(why) => return Err(why),
    }
    match settings.output.uses.add(alloc, UseKind::Fetched, name) {
        Ok(()) => Ok(()),
        Err(_) => Err(Refusal::NoMemory),
    }
}

/// The text of a data file of what is in the box.
fn text_of_body(alloc: Global, style: AtomStyle, body: &Body) -> Result<Text, NoMemory>
    ensures { IfOk result (λ text. text ≡ text_of_body style body.now) }
{
    text_of_data(
        alloc,
        body.step,
        &body.sides,
        body.mass.as_slice(),
        body.atoms.as_slice(),
        body.bonds.as_slice(),
        body.angles.as_slice(),
        style,
    )
}

/// Puts a text that starts its file anew, whatever was put under the name.
fn put_anew<P: Press>(
    alloc: Global,
    name: &Text,
    uses: &mut Uses,
    press: &mut P,
    text: &[u8],
) -> Result<(), PutRefusal>
    ensures shows { Shows (put_anew name.now text.now uses.old) (P.seen press.old).sent result (P.seen press.new).sent uses.new }
    ensures cause { IsErrOf result PutRefusal.Faulted → Rose (P.seen press.old).faults (P.seen press.new).faults }
    ensures kept { (P.seen press.old).faults ≤ (P.seen press.new).faults }
    ensures stays { (IsErrOf result PutRefusal.Faulted → ⊥) → (P.seen press.new).faults ≡ (P.seen press.old).faults }
{
    match press.put(alloc, name, true, text) {
        Ok(()) => {
            uses.begin(name.as_bytes());
            Ok(())
        }
        Err(why) => Err(why),
    }
}

/// `write_data`: what is in the box, as a data file that starts anew. The name is judged before whether there is a box.
pub(crate) fn write_data<P: Press>(
    alloc: Global,
    settings: &mut Settings,
    name: &Text,
    press: &mut P,
) -> Result<(), Refusal>
    requires sound { IsSound settings.old }
    ensures does { Does (write_data name.now settings.old) (P.seen press.old).sent result (P.seen press.new).sent settings.new }
    ensures sound { OnOk result (IsSound settings.new) }
    ensures cause { IfErr result (λ why. Rests why (press_alone (P.seen press.old)) (press_alone (P.seen press.new))) }
    ensures kept { Kept (press_alone (P.seen press.old)) (press_alone (P.seen press.new)) }
    ensures stays { Stays result (press_alone (P.seen press.old)) (press_alone (P.seen press.new)) }
{
    if let Some(code) = settings.output.uses.refusal_of(UseKind::Put, name) {
        return Err(Refusal::Code(code));
    }
    let Some(body) = &settings.body else {
        return Err(Refusal::Code(Code::NoBox));
    };
    let text = match text_of_body(alloc, settings.setup.style, body) {
        Ok(text) => text,
        Err(_) => return Err(Refusal::NoMemory),
    };
    match settings.output.uses.add(alloc, UseKind::Put, name) {
        Ok(()) => {}
        Err(_) => return Err(Refusal::NoMemory),
    }
    match put_anew(
        alloc,
        name,
        &mut settings.output.uses,
        press,
        text.as_bytes(),
    ) {
        Ok(()) => Ok(()),
        Err(why) => Err(put_refusal(why)),
    }
}
