//! Where `create_atoms` makes atoms.
ghost use Rattle.box_geo.specs.Sides.{IsSound as IsSoundSides};
ghost use Rattle.lattice_fill.specs.Lattice.{dim_of};
ghost use Rattle.lattice_fill.specs.Points.{is_inside, points_of};
ghost use Rattle.meaning.specs.Answers.{Gets};
ghost use Rattle.meaning.specs.Lattice.{at_point, in_region, is_long_site, is_unknown_site, not_many, on_lattice, places, single_point, spacing_of_choice};
ghost use Rattle.meaning.specs.Sound.{IsSoundLattice, IsSoundSetup};
ghost use Rattle.regions_groups.specs.Regions.{holds, is_there};
ghost use Rattle.run_settings.specs.Scaling.{unless_long_vector};
ghost use Rattle.std.specs.Prelude.{◌≡◌, false, true, filter, IfOk};

use crate::lattice::dim_of;
use crate::scaling::{scaled_vector, spacing_in};
use box_geo::{Points, Sides, SimBox};
use command_words::{CreationSites, SinglePoint};
use fx_num::{NoMemory, Seq, Text, V3};
use lattice_fill::{FillRefusal, Lattice};
use meaning::{Body, Code, LatticeChoice, Settings, SettingsRefusal};
use regions_groups::RegionTest;
use std::alloc::Global;

/// The points that a region holds.
fn held(alloc: Global, points: &[V3], test: &mut RegionTest<'_>) -> Result<Points, NoMemory>
    ensures { IfOk result (λ kept. kept ≡ filter (holds test.old.regions test.old.name) points.now) }
{
    let mut kept = Seq::new(alloc);
    for x in points {
        if test.holds(x) {
            kept.push(*x)?;
        }
    }
    Ok(kept)
}

/// The points of a lattice in a box, unless there are too many.
fn fill(alloc: Global, choice: &LatticeChoice, sides: Sides) -> Result<Points, SettingsRefusal>
    requires lattice { IsSoundLattice choice.now }
    requires sides { IsSoundSides sides }
    requires dim { sides.dim ≡ dim_of choice.now.style }
    ensures { Gets (not_many (points_of choice.now.style (spacing_of_choice choice.now) sides)) result }
{
    let lattice = Lattice::new(choice.style, choice.density, dim_of(choice.style));
    match lattice.fill(alloc, &SimBox::from_sides(sides)) {
        Ok(points) => Ok(points),
        Err(FillRefusal::TooMany) => Err(SettingsRefusal::Code(Code::TooMany)),
        Err(FillRefusal::NoMemory) => Err(SettingsRefusal::NoMemory),
    }
}

/// The points of the lattice in the box.
fn on_lattice(alloc: Global, settings: &Settings, body: &Body) -> Result<Points, SettingsRefusal>
    requires setup { IsSoundSetup settings.now.setup }
    requires sides { IsSoundSides body.now.sides }
    requires dim { body.now.sides.dim ≡ settings.now.setup.dim }
    ensures { Gets (on_lattice settings.now body.now settings.now.setup.lattice) result }
{
    let Some(choice) = &settings.setup.lattice else {
        return Err(SettingsRefusal::Code(Code::Unset));
    };
    if dim_of(choice.style) != settings.setup.dim {
        return Err(SettingsRefusal::Code(Code::WrongStyle));
    }
    fill(alloc, choice, body.sides)
}

/// Those of the points that the region of a name holds.
fn in_region(
    alloc: Global,
    settings: &Settings,
    name: &Text,
    points: &[V3],
) -> Result<Points, NoMemory>
    requires { is_there settings.now.named.regions name.now ≡ true }
    ensures { IfOk result (λ kept. kept ≡ filter (holds settings.now.named.regions name.now) points.now) }
{
    let mut test = settings.named.regions.test(alloc, name)?;
    held(alloc, points, &mut test)
}

/// The points of the lattice in the box that the region of a name holds.
fn in_region_of_box(
    alloc: Global,
    settings: &Settings,
    body: &Body,
    name: &Text,
) -> Result<Points, SettingsRefusal>
    requires setup { IsSoundSetup settings.now.setup }
    requires sides { IsSoundSides body.now.sides }
    requires dim { body.now.sides.dim ≡ settings.now.setup.dim }
    requires known { is_there settings.now.named.regions name.now ≡ true }
    ensures { Gets (in_region settings.now.named.regions name.now (on_lattice settings.now body.now settings.now.setup.lattice)) result }
{
    match on_lattice(alloc, settings, body) {
        Ok(points) => match in_region(alloc, settings, name, points.as_slice()) {
            Ok(kept) => Ok(kept),
            Err(_) => Err(SettingsRefusal::NoMemory),
        },
        Err(why) => Err(why),
    }
}

/// The point at which one atom is made, unless it is beyond the greatest length.
fn single_point(settings: &Settings, point: &SinglePoint) -> Option<V3>
    requires { IsSoundSetup settings.now.setup }
    ensures { result ≡ unless_long_vector (single_point settings.now point.now) }
{
    let spacing = spacing_in(&settings.setup.lattice);
    scaled_vector(point.scaled, &spacing, &point.x)
}

/// The point, if it is in the box.
fn at_point(alloc: Global, body: &Body, x: &V3) -> Result<Points, NoMemory>
    requires { IsSoundSides body.now.sides }
    ensures { IfOk result (λ points. points ≡ at_point body.now x.now) }
{
    let mut points = Seq::new(alloc);
    if is_inside(&SimBox::from_sides(body.sides), x) {
        points.push(*x)?;
    }
    Ok(points)
}

/// Whether a point is in the box.
#[tactic(auto, using(lattice_fill::proofs::PointLemmas::inside_by))]
fn is_inside(cell: &SimBox, x: &V3) -> bool
    ensures { result ≡ is_inside cell.now.sides x.now }
{
    cell.holds(*x)
}

/// Where atoms are made.
pub(crate) fn places(
    alloc: Global,
    settings: &Settings,
    body: &Body,
    sites: &CreationSites,
) -> Result<Points, SettingsRefusal>
    requires setup { IsSoundSetup settings.now.setup }
    requires sides { IsSoundSides body.now.sides }
    requires dim { body.now.sides.dim ≡ settings.now.setup.dim }
    requires short { is_long_site settings.now sites.now ≡ false }
    requires known { is_unknown_site settings.now sites.now ≡ false }
    ensures { Gets (places settings.now body.now sites.now) result }
{
    match sites {
        CreationSites::Box => on_lattice(alloc, settings, body),
        CreationSites::Region(name) => in_region_of_box(alloc, settings, body, name),
        CreationSites::Single(point) => {
            let Some(x) = single_point(settings, point) else {
                return Err(SettingsRefusal::Code(Code::BadValue));
            };
            let points = at_point(alloc, body, &x)?;
            Ok(points)
        }
    }
}

/// Whether the point at which one atom is made is beyond the greatest length.
pub(crate) fn is_long_site(settings: &Settings, sites: &CreationSites) -> bool
    requires { IsSoundSetup settings.now.setup }
    ensures { result ≡ is_long_site settings.now sites.now }
{
    match sites {
        CreationSites::Box => false,
        CreationSites::Region(_) => false,
        CreationSites::Single(point) => single_point(settings, point).is_none(),
    }
}

/// Whether atoms are made in a region that isn't there.
pub(crate) fn is_unknown_site(settings: &Settings, sites: &CreationSites) -> bool
    ensures { result ≡ is_unknown_site settings.now sites.now }
{
    match sites {
        CreationSites::Box => false,
        CreationSites::Region(name) => !settings.named.regions.is_there(name),
        CreationSites::Single(_) => false,
    }
}
