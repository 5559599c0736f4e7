//! `lattice`, `region`, `create_box` and `create_atoms`.
ghost use Rattle.command_words.specs.declared.lattice.Shape.TheVariants as shape;
ghost use Rattle.lattice_fill.specs.Lattice.{dim_of};
ghost use Rattle.meaning.specs.Answers.{Answers, Decides, Gets};
ghost use Rattle.meaning.specs.Lattice.{atom_at, atoms_at, atoms_with, create_atoms, create_box, greatest_id, is_above_kinds, is_long_site, is_unknown_site, lattice, made_at, places, region, shaped, unset_masses};
ghost use Rattle.meaning.specs.Sound.{IsSound, IsSoundBody, IsSoundSetup};
ghost use Rattle.run_settings.specs.Scaling.{AreLengths, unless_long};
ghost use Rattle.std.specs.Prelude.{◌≡◌, ◌≤◌, ◌+◌, ◌++◌, ◌≤ℤ◌, false, length, IfOk, OnOk};

use crate::scaling::{scaled_sides, scaled_vector, short, spacing_in};
use crate::sites::{is_long_site, is_unknown_site, places};
use box_geo::limits::{MAX_ATOMS, MAX_ID, MAX_KINDS};
use box_geo::{Atom, Atoms, LatticeStyle, Masses, SimBox};
use command_words::{
    Block, Creation, LatticeSetting, MAX_DENSITY, MIN_DENSITY, NewBox, NewRegion, Shape, Sphere,
};
use fx_num::{NoMemory, Seq, V3};
use meaning::{Body, Code, LatticeChoice, Settings, SettingsRefusal};
use regions_groups::{Region, RegionRefusal};
use std::alloc::Global;

/// The dimension of a lattice.
pub(crate) fn dim_of(style: LatticeStyle) -> u8
    ensures { result ≡ dim_of style }
{
    match style {
        LatticeStyle::Sc | LatticeStyle::Bcc | LatticeStyle::Fcc | LatticeStyle::Diamond => 3,
        LatticeStyle::Sq | LatticeStyle::Sq2 | LatticeStyle::Hex => 2,
    }
}

/// `lattice`: a lattice of the dimension that is set.
pub fn set_lattice(settings: &mut Settings, new: &LatticeSetting) -> Result<(), Code>
    requires sound { IsSound settings.old }
    requires density { (MIN_DENSITY ≤ℤ new.now.density) × (new.now.density ≤ℤ MAX_DENSITY) }
    ensures is { Decides (lattice new.now settings.old) result settings.old settings.new }
    ensures sound { OnOk result (IsSound settings.new) }
{
    if dim_of(new.style) != settings.setup.dim {
        return Err(Code::WrongStyle);
    }
    settings.setup.lattice = Some(LatticeChoice {
        style: new.style,
        density: new.density,
    });
    Ok(())
}

/// The region of a block, unless a side is beyond the greatest length.
fn block_of(scaled: bool, inside: bool, spacing: &V3, block: &Block) -> Option<Region>
    requires { AreLengths spacing.now }
    ensures { result ≡ unless_long (shaped scaled inside spacing.now (shape.Block block.now)) }
{
    let lo = scaled_sides(scaled, spacing, &block.lo)?;
    let hi = scaled_sides(scaled, spacing, &block.hi)?;
    Some(Region::Block { lo, hi, inside })
}

/// The region of a sphere, unless its centre or its radius is beyond the greatest length.
fn sphere_of(scaled: bool, inside: bool, spacing: &V3, sphere: &Sphere) -> Option<Region>
    requires { AreLengths spacing.now }
    ensures { result ≡ unless_long (shaped scaled inside spacing.now (shape.Sphere sphere.now)) }
{
    let centre = scaled_vector(scaled, spacing, &sphere.centre)?;
    let radius = short(scaled, &spacing[0], &sphere.radius)?;
    Some(Region::Sphere {
        centre,
        radius,
        inside,
    })
}

/// The region of a shape, unless one of its lengths is beyond the greatest.
fn shaped(scaled: bool, inside: bool, spacing: &V3, shape: Shape) -> Option<Region>
    requires { AreLengths spacing.now }
    ensures { result ≡ unless_long (shaped scaled inside spacing.now shape) }
{
    match shape {
        Shape::Block(block) => block_of(scaled, inside, spacing, &block),
        Shape::Sphere(sphere) => sphere_of(scaled, inside, spacing, &sphere),
        Shape::Union(regions) => Some(Region::Union { regions, inside }),
        Shape::Intersect(regions) => Some(Region::Intersect { regions, inside }),
    }
}

/// `region`: a region more.
pub fn add_region(
    settings: &mut Settings,
    alloc: Global,
    new: NewRegion,
) -> Result<(), SettingsRefusal>
    requires sound { IsSound settings.old }
    ensures is { Answers (region new settings.old) result settings.old settings.new }
    ensures sound { OnOk result (IsSound settings.new) }
{
    let NewRegion {
        id,
        shape,
        inside,
        scaled,
    } = new;
    let spacing = spacing_in(&settings.setup.lattice);
    let Some(region) = shaped(scaled, inside, &spacing, shape) else {
        return Err(SettingsRefusal::Code(Code::BadValue));
    };
    match settings.named.regions.add(alloc, id, region) {
        Ok(()) => Ok(()),
        Err(RegionRefusal::UnknownRegion(_)) => Err(SettingsRefusal::Code(Code::UnknownName)),
        Err(RegionRefusal::NameExists) => Err(SettingsRefusal::Code(Code::NameExists)),
        Err(RegionRefusal::NoMemory) => Err(SettingsRefusal::NoMemory),
    }
}

/// A mass that is not set for each of so many types.
fn unset_masses(alloc: Global, kinds: u8) -> Result<Masses, NoMemory>
    ensures { IfOk result (λ mass. mass ≡ unset_masses kinds) }
{
    let mut mass = Seq::new(alloc);
    for _kind in 0..kinds {
        mass.push(0)?;
    }
    Ok(mass)
}

/// `create_box`: the box of a region that is the inside of a block with all six sides, without atoms.
pub fn create_box(
    settings: &mut Settings,
    alloc: Global,
    new: &NewBox,
) -> Result<(), SettingsRefusal>
    requires sound { IsSound settings.old }
    requires kinds { (1 ≤ new.now.kinds) × (new.now.kinds ≤ MAX_KINDS) }
    ensures is { Answers (create_box new.now settings.old) result settings.old settings.new }
    ensures sound { OnOk result (IsSound settings.new) }
{
    if !settings.named.regions.is_there(&new.region) {
        return Err(SettingsRefusal::Code(Code::UnknownName));
    }
    let Some(block) = settings.named.regions.block_of(&new.region) else {
        if settings.body.is_some() {
            return Err(SettingsRefusal::Code(Code::BoxExists));
        }
        return Err(SettingsRefusal::Code(Code::WrongStyle));
    };
    let setup = settings.setup;
    let cell = match SimBox::new(block.lo, block.hi, setup.periodic, setup.dim) {
        Ok(cell) => cell,
        Err(_) => return Err(SettingsRefusal::Code(Code::BadValue)),
    };
    if settings.body.is_some() {
        return Err(SettingsRefusal::Code(Code::BoxExists));
    }
    let mass = unset_masses(alloc, new.kinds)?;
    settings.body = Some(Body {
        step: 0,
        sides: cell.sides,
        mass,
        atoms: Seq::new(alloc),
        bonds: Seq::new(alloc),
        angles: Seq::new(alloc),
    });
    Ok(())
}

/// The greatest id of atoms, 0 without any.
fn greatest_id(atoms: &[Atom]) -> u32
    ensures { result ≡ greatest_id atoms.now }
{
    let mut most = 0;
    for atom in atoms {
        most = most.max(atom.id);
    }
    most
}

/// The atoms, and one more at each point, at rest, numbered from an id on.
fn with_atoms(
    alloc: Global,
    atoms: &[Atom],
    kind: u8,
    first: u32,
    points: &[V3],
) -> Result<Atoms, NoMemory>
    requires { first + length points.now ≤ MAX_ID + 1 }
    ensures { IfOk result (λ all. all ≡ atoms.now ++ atoms_at kind first points.now) }
{
    let mut all = Seq::from_vec(Vec::from_slice(alloc, atoms)?);
    let mut id = first;
    for x in points {
        all.push(atom_at(kind, id, x))?;
        id += 1;
    }
    Ok(all)
}

/// An atom at rest.
fn atom_at(kind: u8, id: u32, x: &V3) -> Atom
    ensures { result ≡ atom_at kind id x.now }
{
    Atom {
        id,
        mol: 0,
        kind,
        x: *x,
        v: [0; 3],
        f: [0; 3],
        image: [0; 3],
    }
}

/// The atoms with others at these points, unless there would be too many atoms or ids.
fn atoms_with(
    alloc: Global,
    atoms: &[Atom],
    kind: u8,
    points: &[V3],
) -> Result<Atoms, SettingsRefusal>
    requires few { length atoms.now ≤ MAX_ATOMS }
    requires ids { greatest_id atoms.now ≤ MAX_ID }
    ensures { Gets (atoms_with atoms.now kind points.now) result }
{
    if points.len() > MAX_ATOMS as usize - atoms.len() {
        return Err(SettingsRefusal::Code(Code::TooMany));
    }
    let most = greatest_id(atoms);
    if points.len() > (MAX_ID - most) as usize {
        return Err(SettingsRefusal::Code(Code::TooMany));
    }
    match with_atoms(alloc, atoms, kind, most + 1, points) {
        Ok(all) => Ok(all),
        Err(_) => Err(SettingsRefusal::NoMemory),
    }
}

/// Whether a type is beyond those of the box, where there is a box.
fn is_above_kinds(kind: u8, body: &Option<Body>) -> bool
    ensures { result ≡ is_above_kinds kind body.now }
{
    match body {
        Some(body) => body.mass.len() < usize::from(kind),
        None => false,
    }
}

/// The atoms of the box, and those that are made.
fn atoms_after(
    alloc: Global,
    settings: &Settings,
    body: &Body,
    new: &Creation,
) -> Result<Atoms, SettingsRefusal>
    requires setup { IsSoundSetup settings.now.setup }
    requires body { IsSoundBody body.now }
    requires dim { body.now.sides.dim ≡ settings.now.setup.dim }
    requires short { is_long_site settings.now new.now.sites ≡ false }
    requires known { is_unknown_site settings.now new.now.sites ≡ false }
    ensures { Gets (made_at body.now.atoms new.now.kind (places settings.now body.now new.now.sites)) result }
{
    match places(alloc, settings, body, &new.sites) {
        Ok(points) => atoms_with(alloc, body.atoms.as_slice(), new.kind, points.as_slice()),
        Err(why) => Err(why),
    }
}

/// `create_atoms`: atoms of a type at points of the lattice or at one point, at rest.
pub fn create_atoms(
    settings: &mut Settings,
    alloc: Global,
    new: &Creation,
) -> Result<(), SettingsRefusal>
    requires sound { IsSound settings.old }
    requires kind { (1 ≤ new.now.kind) × (new.now.kind ≤ MAX_KINDS) }
    ensures is { Answers (create_atoms new.now settings.old) result settings.old settings.new }
    ensures sound { OnOk result (IsSound settings.new) }
{
    if is_long_site(settings, &new.sites) {
        return Err(SettingsRefusal::Code(Code::BadValue));
    }
    if is_above_kinds(new.kind, &settings.body) {
        return Err(SettingsRefusal::Code(Code::BadValue));
    }
    if is_unknown_site(settings, &new.sites) {
        return Err(SettingsRefusal::Code(Code::UnknownName));
    }
    let Some(body) = &settings.body else {
        return Err(SettingsRefusal::Code(Code::NoBox));
    };
    let atoms = match atoms_after(alloc, settings, body, new) {
        Ok(atoms) => atoms,
        Err(why) => return Err(why),
    };
    if let Some(body) = &mut settings.body {
        body.atoms = atoms;
    }
    Ok(())
}
