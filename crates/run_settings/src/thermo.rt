//! Thermo output.
ghost use Rattle.meaning.specs.Sound.{IsSound};
ghost use Rattle.meaning.specs.Thermo.{thermo};
ghost use Rattle.std.specs.Prelude.{◌≡◌};

use meaning::Settings;

/// `thermo`: a line each so many steps, 0 for the first and the last step only.
pub fn set_thermo(settings: &mut Settings, every: u64)
    requires sound { IsSound settings.old }
    ensures is { settings.new ≡ thermo every settings.old }
    ensures sound { IsSound settings.new }
{
    settings.output.every = every;
}
