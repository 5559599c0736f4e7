//! Fixes.
ghost use Rattle.meaning.specs.Answers.{Answers, Decides};
ghost use Rattle.meaning.specs.Fixes.{fix, has_other, unfix};
ghost use Rattle.meaning.specs.Sound.{IsSound};
ghost use Rattle.std.specs.Prelude.{◌≡◌, OnOk};

use command_words::NewFix;
use fx_num::Text;
use meaning::{Code, Settings, SettingsRefusal};

/// Whether a fix of the ID of `new` has another group.
fn has_other(fixes: &[NewFix], new: &NewFix) -> bool
    ensures { result ≡ has_other fixes.now new.now }
{
    for fix in fixes {
        if fix.id.same(&new.id) && !fix.group.same(&new.group) {
            return true;
        }
    }
    false
}

/// `fix`: a fix more; one of the ID, group and style of an old one takes its place.
pub fn add_fix(settings: &mut Settings, new: NewFix) -> Result<(), SettingsRefusal>
    requires sound { IsSound settings.old }
    ensures is { Answers (fix new settings.old) result settings.old settings.new }
    ensures sound { OnOk result (IsSound settings.new) }
{
    if !settings.named.groups.is_there(&new.group) {
        return Err(SettingsRefusal::Code(Code::UnknownName));
    }
    if has_other(settings.named.fixes.as_slice(), &new) {
        return Err(SettingsRefusal::Code(Code::NameExists));
    }
    if settings.body.is_none() {
        return Err(SettingsRefusal::Code(Code::NoBox));
    }
    if settings.named.fixes.has(&new.id) {
        return Ok(());
    }
    settings.named.fixes.push(new)?;
    Ok(())
}

/// `unfix`: takes out the fix of an ID.
pub fn remove_fix(settings: &mut Settings, id: &Text) -> Result<(), Code>
    requires sound { IsSound settings.old }
    ensures is { Decides (unfix id.now settings.old) result settings.old settings.new }
    ensures sound { OnOk result (IsSound settings.new) }
{
    if !settings.named.fixes.has(id) {
        return Err(Code::UnknownName);
    }
    settings.named.fixes.remove(id);
    Ok(())
}
