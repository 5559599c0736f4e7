//! `print` and `log`.
ghost use Rattle.meaning.specs.Answers.{Answers, Gets};
ghost use Rattle.meaning.specs.Causes.{Kept, Rests, Stays, press_alone};
ghost use Rattle.meaning.specs.Output.{line_in, line_of, log, print};
ghost use Rattle.meaning.specs.Sends.{Does};
ghost use Rattle.meaning.specs.Sound.{IsSound, IsSoundBody};
ghost use Rattle.meaning.specs.Variables.{text_of};
ghost use Rattle.std.specs.Prelude.{◌≡◌, IfErr, IfOk, IfSome, OnOk};

use crate::answers::widened;
use crate::texts::text_of;
use fx_num::{NoMemory, Text};
use meaning::{Refusal, Settings, SettingsRefusal, UseKind, put_refusal};
use outside::Press;
use script_runs::show;
use std::alloc::Global;

/// A text and a line feed.
fn line_of(alloc: Global, text: &Text) -> Result<Text, NoMemory>
    ensures { IfOk result (λ line. line ≡ line_of text.now) }
{
    let mut line = text.copy(alloc)?;
    line.push(b"\n")?;
    Ok(line)
}

/// The line that `print` shows.
fn printed(alloc: Global, settings: &Settings, text: &Text) -> Result<Text, SettingsRefusal>
    requires { IfSome settings.now.body IsSoundBody }
    ensures { Gets (line_in (text_of settings.now text.now)) result }
{
    let text = text_of(alloc, settings, text)?;
    Ok(line_of(alloc, &text)?)
}

/// `print`: a text with what stands for its names, on a line of its own.
pub(crate) fn print<P: Press>(
    alloc: Global,
    settings: &mut Settings,
    text: &Text,
    press: &mut P,
) -> Result<(), Refusal>
    requires sound { IsSound settings.old }
    ensures does { Does (print text.now settings.old) (P.seen press.old).sent result (P.seen press.new).sent settings.new }
    ensures sound { OnOk result (IsSound settings.new) }
    ensures cause { IfErr result (λ why. Rests why (press_alone (P.seen press.old)) (press_alone (P.seen press.new))) }
    ensures kept { Kept (press_alone (P.seen press.old)) (press_alone (P.seen press.new)) }
    ensures stays { Stays result (press_alone (P.seen press.old)) (press_alone (P.seen press.new)) }
{
    let line = match printed(alloc, settings, text) {
        Ok(line) => line,
        Err(why) => return Err(widened(why)),
    };
    match show(alloc, &mut settings.output, press, line.as_bytes()) {
        Ok(()) => Ok(()),
        Err(why) => Err(put_refusal(why)),
    }
}

/// `log`: texts of the log go to another file from now on, or without a name to no file.
pub(crate) fn set_log(
    alloc: Global,
    settings: &mut Settings,
    name: Option<Text>,
) -> Result<(), SettingsRefusal>
    requires sound { IsSound settings.old }
    ensures answers { Answers (log name settings.old) result settings.old settings.new }
    ensures sound { OnOk result (IsSound settings.new) }
{
    if let Some(name) = &name {
        settings.output.uses.add(alloc, UseKind::Put, name)?;
    }
    settings.output.log = name;
    Ok(())
}
