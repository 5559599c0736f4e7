//! A file that is open.
ghost use Rattle.std.specs.Prelude.{◌≡◌, ◌≤◌, ◌<◌, Ok, length, take, IfErr, IfOk, IfSome};
ghost use Rattle.box_geo.specs.declared.limits.TheConstants.{MAX_SCRIPT_BYTES};
ghost use Rattle.script_lines.specs.Physical.{feeds};
ghost use Rattle.script_lines.specs.Script.{script_at, IsNextLine};
ghost use Rattle.control_flow.specs.Flow.{opened, with_left};
ghost use Rattle.control_flow.specs.Labels.{behind_label, IsRefusal, IsUnread};

use crate::label::is_label;
use crate::refusals::FlowRefusal;
use fx_num::Text;
use script_lines::{LineRefusal, Place, ScriptLine, line_from};
use std::alloc::Global;
use std::marker::Model;

/// A file that is open, with a place in it. Contracts see what is left of its script.
#[derive(Drop)]
pub(crate) struct ScriptFile {
    name: Text,
    text: Text,
    place: Place,
}

impl Model for ScriptFile {
    ghost use Rattle.std.specs.Prelude.{◌≡◌, ◌≤◌, take, length};
    ghost use Rattle.box_geo.specs.declared.limits.TheConstants.{MAX_SCRIPT_BYTES};
    ghost use Rattle.script_lines.specs.Physical.{feeds};
    ghost use Rattle.script_lines.specs.Script.{script_at};
    ghost use Rattle.control_flow.specs.Flow.{OpenFile};

    ghost Value = { OpenFile };

    ghost view = { λ f. record { name = f.name; text = f.text; left = script_at f.text f.place.at } };

    ghost invariant = { λ f. (length f.text ≤ MAX_SCRIPT_BYTES) × (f.place.ended ≡ feeds (take f.place.at f.text)) };
}

/// The next line with words of a file's text from a place on.
fn line_at(
    alloc: Global,
    name: &Text,
    text: &Text,
    place: Place,
) -> Result<Option<ScriptLine>, FlowRefusal>
    requires short { length text.now ≤ MAX_SCRIPT_BYTES }
    requires counted { place.ended ≡ feeds (take place.at text.now) }
    ensures line { IfOk result (λ line. IsNextLine text.now line (script_at text.now place.at)) }
    ensures refused { IfErr result (λ why. IsUnread why name.now (script_at text.now place.at)) }
    ensures farther { IfOk result (λ line. IfSome line (λ l. place.at < l.next.at)) }
    ensures within { IfOk result (λ line. IfSome line (λ l. l.next.at ≤ length text.now)) }
    ensures counted { IfOk result (λ line. IfSome line (λ l. l.next.ended ≡ feeds (take l.next.at text.now))) }
{
    match line_from(alloc, text.as_bytes(), place) {
        Ok(line) => Ok(line),
        Err(LineRefusal::NoMemory) => Err(FlowRefusal::NoMemory),
        Err(why) => Err(FlowRefusal::Line(name.copy(alloc)?, why)),
    }
}

impl ScriptFile {
    /// A file from its start.
    pub(crate) fn open(name: Text, text: Text) -> ScriptFile
        requires { length text ≤ MAX_SCRIPT_BYTES }
        ensures { result ≡ opened name text }
    {
        ScriptFile {
            name,
            text,
            place: Place::start(),
        }
    }

    /// The file's name.
    pub(crate) fn name(&self) -> &Text
        ensures { result.now ≡ self.now.name }
    {
        &self.name
    }

    /// The next line with words.
    pub(crate) fn next(&self, alloc: Global) -> Result<Option<ScriptLine>, FlowRefusal>
        ensures line { IfOk result (λ line. IsNextLine self.now.text line self.now.left) }
        ensures refused { IfErr result (λ why. IsUnread why self.now.name self.now.left) }
        ensures counted { IfOk result (λ line. IfSome line (λ l. l.next.ended ≡ feeds (take l.next.at self.now.text))) }
    {
        line_at(alloc, &self.name, &self.text, self.place)
    }

    /// Goes to a place in the file.
    pub(crate) fn go_to(&mut self, place: Place)
        requires { place.ended ≡ feeds (take place.at self.old.text) }
        ensures { self.new ≡ with_left self.old (script_at self.old.text place.at) }
    {
        self.place = place;
    }

    /// The place behind the first line that is this label, from the start of the file.
    pub(crate) fn behind_label(&self, alloc: Global, label: &Text) -> Result<Place, FlowRefusal>
        ensures found { IfOk result (λ place. behind_label self.now.name label.now (script_at self.now.text 0) ≡ Ok (script_at self.now.text place.at)) }
        ensures counted { IfOk result (λ place. place.ended ≡ feeds (take place.at self.now.text)) }
        ensures refused { IfErr result (λ why. IsRefusal why (behind_label self.now.name label.now (script_at self.now.text 0))) }
    {
        find_label(alloc, &self.name, &self.text, label)
    }
}

/// The place behind the first line of a file's text that is this label.
fn find_label(alloc: Global, name: &Text, text: &Text, label: &Text) -> Result<Place, FlowRefusal>
    requires { length text.now ≤ MAX_SCRIPT_BYTES }
    ensures found { IfOk result (λ place. behind_label name.now label.now (script_at text.now 0) ≡ Ok (script_at text.now place.at)) }
    ensures counted { IfOk result (λ place. place.ended ≡ feeds (take place.at text.now)) }
    ensures refused { IfErr result (λ why. IsRefusal why (behind_label name.now label.now (script_at text.now 0))) }
{
    let mut place = Place::start();
    'search: loop {
        let Some(line) = line_at(alloc, name, text, place)? else {
            return Err(FlowRefusal::NoLabel(label.copy(alloc)?));
        };
        place = line.next;
        if is_label(&line.words, label) {
            return Ok(place);
        }
    }
}
