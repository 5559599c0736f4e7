//! What is set up before there is a box, and the timestep.
ghost use Rattle.box_geo.specs.declared.limits.TheConstants.{MAX_TIMESTEP};
ghost use Rattle.meaning.specs.Answers.{Decides};
ghost use Rattle.meaning.specs.Setup.{atom_style, boundary, dimension, goes_together, processors, timestep};
ghost use Rattle.meaning.specs.Sound.{IsSound};
ghost use Rattle.std.specs.Prelude.{◌≡◌, ◌≤◌, ◌≤ℤ◌, pos, OnOk};

use box_geo::AtomStyle;
use meaning::{Code, Settings};

/// Whether a dimension and boundaries go together: in two dimensions z is periodic.
fn goes_together(dim: u8, periodic: &[bool; 3]) -> bool
    ensures { result ≡ goes_together dim periodic.now }
{
    !(dim == 2 && !periodic[2])
}

/// `dimension`: 2 or 3, before a box.
pub fn set_dimension(settings: &mut Settings, dim: u8) -> Result<(), Code>
    requires sound { IsSound settings.old }
    requires dim { (2 ≤ dim) × (dim ≤ 3) }
    ensures is { Decides (dimension dim settings.old) result settings.old settings.new }
    ensures sound { OnOk result (IsSound settings.new) }
{
    if settings.body.is_some() {
        return Err(Code::BoxExists);
    }
    if !goes_together(dim, &settings.setup.periodic) {
        return Err(Code::WrongStyle);
    }
    settings.setup.dim = dim;
    Ok(())
}

/// `boundary`: whether each axis is periodic, before a box.
pub fn set_boundary(settings: &mut Settings, periodic: [bool; 3]) -> Result<(), Code>
    requires sound { IsSound settings.old }
    ensures is { Decides (boundary periodic settings.old) result settings.old settings.new }
    ensures sound { OnOk result (IsSound settings.new) }
{
    if settings.body.is_some() {
        return Err(Code::BoxExists);
    }
    if !goes_together(settings.setup.dim, &periodic) {
        return Err(Code::WrongStyle);
    }
    settings.setup.periodic = periodic;
    Ok(())
}

/// `atom_style`, before a box. Styles with bonds are not built yet.
pub fn set_atom_style(settings: &mut Settings, style: AtomStyle) -> Result<(), Code>
    requires sound { IsSound settings.old }
    requires built { style ≡ AtomStyle.Atomic }
    ensures is { Decides (atom_style style settings.old) result settings.old settings.new }
    ensures sound { OnOk result (IsSound settings.new) }
{
    if settings.body.is_some() {
        return Err(Code::BoxExists);
    }
    settings.setup.style = style;
    Ok(())
}

/// `processors`: how many bricks each axis has, before a box.
pub fn set_processors(settings: &mut Settings, grid: [u32; 3]) -> Result<(), Code>
    requires sound { IsSound settings.old }
    ensures is { Decides (processors grid settings.old) result settings.old settings.new }
    ensures sound { OnOk result (IsSound settings.new) }
{
    if settings.body.is_some() {
        return Err(Code::BoxExists);
    }
    settings.setup.grid = grid;
    Ok(())
}

/// `timestep`, in units.
pub fn set_timestep(settings: &mut Settings, dt: i64)
    requires sound { IsSound settings.old }
    requires dt { (pos 0 ≤ℤ dt) × (dt ≤ℤ MAX_TIMESTEP) }
    ensures is { settings.new ≡ timestep dt settings.old }
    ensures sound { IsSound settings.new }
{
    settings.setup.timestep = dt;
}
