//! The number of the step.
ghost use Rattle.box_geo.specs.declared.limits.TheConstants.{MAX_STEP};
ghost use Rattle.meaning.specs.Answers.{Decides};
ghost use Rattle.meaning.specs.Runs.{reset_timestep};
ghost use Rattle.meaning.specs.Sound.{IsSound};
ghost use Rattle.std.specs.Prelude.{◌≤◌, OnOk};

use meaning::{Code, Settings};

/// `reset_timestep`: the step gets a number.
pub fn reset_timestep(settings: &mut Settings, step: u64) -> Result<(), Code>
    requires sound { IsSound settings.old }
    requires step { step ≤ MAX_STEP }
    ensures is { Decides (reset_timestep step settings.old) result settings.old settings.new }
    ensures sound { OnOk result (IsSound settings.new) }
{
    match &mut settings.body {
        Some(body) => {
            body.step = step;
            Ok(())
        }
        None => Err(Code::NoBox),
    }
}
