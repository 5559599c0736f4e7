//! The skin, and the cutoff that counts besides those of pairs.
ghost use Rattle.meaning.specs.Neighbors.{comm_cutoff, neighbor};
ghost use Rattle.box_geo.specs.declared.limits.TheConstants.{MAX_CUTOFF, MAX_SKIN};
ghost use Rattle.meaning.specs.Sound.{IsSound};
ghost use Rattle.std.specs.Prelude.{◌≡◌, ◌≤ℤ◌, pos};

use meaning::Settings;

/// `neighbor`: the skin, in units.
pub fn set_skin(settings: &mut Settings, skin: i64)
    requires sound { IsSound settings.old }
    requires skin { (pos 0 ≤ℤ skin) × (skin ≤ℤ MAX_SKIN) }
    ensures is { settings.new ≡ neighbor skin settings.old }
    ensures sound { IsSound settings.new }
{
    settings.force.skin = skin;
}

/// `comm_modify cutoff`, in units; 0: none counts besides.
pub fn set_comm_cutoff(settings: &mut Settings, cutoff: i64)
    requires sound { IsSound settings.old }
    requires cutoff { (pos 0 ≤ℤ cutoff) × (cutoff ≤ℤ MAX_CUTOFF) }
    ensures is { settings.new ≡ comm_cutoff cutoff settings.old }
    ensures sound { IsSound settings.new }
{
    settings.force.comm_cutoff = cutoff;
}
