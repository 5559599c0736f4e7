//! Lattices, regions, the box and its atoms: `lattice`, `region`, `create_box`, `create_atoms`.
ghost use Rattle.std.specs.Prelude.{◌≡◌, IfOk, take};
ghost use Rattle.command_words.specs.Lattice.{block_in, box_counts, box_excess, counted_ids, create_all, create_box, create_region, create_single, id_count, is_excess, is_inside, is_scaled, kind, kinds_option, lattice, lattice_style, make, places, region_block, region_intersect, region_of, region_sphere, region_union, side, sides_in, sphere_in, vector};
ghost use Rattle.command_words.specs.Values.{Makes};

use crate::command::Command;
use crate::options::Options;
use crate::places::{Kind, Place};
use crate::refusal::WordRefusal;
use crate::values::{
    any_number, behind, number, number_or, says, text, texts, value_place, whole, word,
};
use crate::vocabulary::{Word, Words, text_of};
use crate::{MAX_DENSITY, MIN_DENSITY};
use box_geo::LatticeStyle;
use box_geo::limits::MAX_KINDS;
use fx_num::{MAX_UNITS, NoMemory, Seq, Text, V3, read_whole};
use std::alloc::Global;

/// The numbers of `lattice`.
#[derive(Drop)]
pub struct LatticeSetting {
    /// The lattice.
    pub style: LatticeStyle,
    /// The reduced density, in units of 2^-24.
    pub density: i64,
}

/// What `region` defines.
#[derive(Drop)]
pub struct NewRegion {
    /// The region's ID.
    pub id: Text,
    /// The points, before the side is chosen.
    pub shape: Shape,
    /// Whether the region is the inside of its shape, else the outside.
    pub inside: bool,
    /// Whether the lattice scales its lengths.
    pub scaled: bool,
}

/// The shape of a region.
#[derive(Drop)]
pub enum Shape {
    /// A block by its sides.
    Block(Block),
    /// A sphere.
    Sphere(Sphere),
    /// The union of regions, by their IDs.
    Union(Seq<Text>),
    /// The intersection of regions, by their IDs.
    Intersect(Seq<Text>),
}

/// The sides of a block by axis, `None` for an open one.
#[derive(Clone, Copy)]
pub struct Block {
    /// The lower sides.
    pub lo: [Option<i64>; 3],
    /// The upper sides.
    pub hi: [Option<i64>; 3],
}

/// A sphere. The spacing of the lattice along x scales its radius.
#[derive(Clone, Copy)]
pub struct Sphere {
    /// The centre.
    pub centre: V3,
    /// The radius.
    pub radius: i64,
}

/// What `create_box` makes. Options on extra room are read and have no effect.
#[derive(Drop)]
pub struct NewBox {
    /// How many atom types there are.
    pub kinds: u8,
    /// The region's ID.
    pub region: Text,
    /// How many bond types there are.
    pub bond_kinds: u8,
    /// How many angle types there are.
    pub angle_kinds: u8,
}

/// What `create_atoms` makes.
#[derive(Drop)]
pub struct Creation {
    /// The type of the atoms.
    pub kind: u8,
    /// Where they are.
    pub sites: CreationSites,
}

/// Where atoms are made.
#[derive(Drop)]
pub enum CreationSites {
    /// At the points of the lattice in the box.
    Box,
    /// At those of them that are in a region, by its ID.
    Region(Text),
    /// At one point.
    Single(SinglePoint),
}

/// A point at which one atom is made.
#[derive(Clone, Copy)]
pub struct SinglePoint {
    /// The point.
    pub x: V3,
    /// Whether the lattice scales it.
    pub scaled: bool,
}

/// The forms of these commands.
#[derive(Clone, Copy)]
pub(crate) enum LatticeForm {
    Lattice,
    RegionBlock,
    RegionSphere,
    RegionUnion,
    RegionIntersect,
    CreateBox,
    CreateAtomsBox,
    CreateAtomsRegion,
    CreateAtomsSingle,
}

const LATTICE: &[Place] = &[
    Place::One(Kind::Fixed(Word::Lattice)),
    Place::One(Kind::OneOf(Words::Lattices)),
    Place::One(Kind::Number),
];

const REGION_BLOCK: &[Place] = &[
    Place::One(Kind::Fixed(Word::Region)),
    Place::One(Kind::Name),
    Place::One(Kind::Fixed(Word::Block)),
    Place::One(Kind::NumberOr(Words::Open)),
    Place::One(Kind::NumberOr(Words::Open)),
    Place::One(Kind::NumberOr(Words::Open)),
    Place::One(Kind::NumberOr(Words::Open)),
    Place::One(Kind::NumberOr(Words::Open)),
    Place::One(Kind::NumberOr(Words::Open)),
    Place::Options(Options::Region),
];

const REGION_SPHERE: &[Place] = &[
    Place::One(Kind::Fixed(Word::Region)),
    Place::One(Kind::Name),
    Place::One(Kind::Fixed(Word::Sphere)),
    Place::One(Kind::Number),
    Place::One(Kind::Number),
    Place::One(Kind::Number),
    Place::One(Kind::Number),
    Place::Options(Options::Region),
];

const REGION_UNION: &[Place] = &[
    Place::One(Kind::Fixed(Word::Region)),
    Place::One(Kind::Name),
    Place::One(Kind::Fixed(Word::Union)),
    Place::Counted(Kind::Name),
    Place::Options(Options::Region),
];

const REGION_INTERSECT: &[Place] = &[
    Place::One(Kind::Fixed(Word::Region)),
    Place::One(Kind::Name),
    Place::One(Kind::Fixed(Word::Intersect)),
    Place::Counted(Kind::Name),
    Place::Options(Options::Region),
];

const CREATE_BOX: &[Place] = &[
    Place::One(Kind::Fixed(Word::CreateBox)),
    Place::One(Kind::Whole),
    Place::One(Kind::Name),
    Place::Options(Options::Box),
];

const CREATE_ATOMS_BOX: &[Place] = &[
    Place::One(Kind::Fixed(Word::CreateAtoms)),
    Place::One(Kind::Whole),
    Place::One(Kind::Fixed(Word::Box)),
    Place::Options(Options::Units),
];

const CREATE_ATOMS_REGION: &[Place] = &[
    Place::One(Kind::Fixed(Word::CreateAtoms)),
    Place::One(Kind::Whole),
    Place::One(Kind::Fixed(Word::Region)),
    Place::One(Kind::Name),
    Place::Options(Options::Units),
];

const CREATE_ATOMS_SINGLE: &[Place] = &[
    Place::One(Kind::Fixed(Word::CreateAtoms)),
    Place::One(Kind::Whole),
    Place::One(Kind::Fixed(Word::Single)),
    Place::One(Kind::Number),
    Place::One(Kind::Number),
    Place::One(Kind::Number),
    Place::Options(Options::Units),
];

/// The places of a form.
pub(crate) fn places(form: LatticeForm) -> &'static [Place]
    ensures { result.now ≡ places form }
{
    match form {
        LatticeForm::Lattice => LATTICE,
        LatticeForm::RegionBlock => REGION_BLOCK,
        LatticeForm::RegionSphere => REGION_SPHERE,
        LatticeForm::RegionUnion => REGION_UNION,
        LatticeForm::RegionIntersect => REGION_INTERSECT,
        LatticeForm::CreateBox => CREATE_BOX,
        LatticeForm::CreateAtomsBox => CREATE_ATOMS_BOX,
        LatticeForm::CreateAtomsRegion => CREATE_ATOMS_REGION,
        LatticeForm::CreateAtomsSingle => CREATE_ATOMS_SINGLE,
    }
}

/// The lattice of a word.
fn lattice_style(text: &[u8]) -> LatticeStyle
    ensures { result ≡ lattice_style text.now }
{
    if text == text_of(Word::Sc) {
        return LatticeStyle::Sc;
    }
    if text == text_of(Word::Bcc) {
        return LatticeStyle::Bcc;
    }
    if text == text_of(Word::Fcc) {
        return LatticeStyle::Fcc;
    }
    if text == text_of(Word::Diamond) {
        return LatticeStyle::Diamond;
    }
    if text == text_of(Word::Sq) {
        return LatticeStyle::Sq;
    }
    if text == text_of(Word::Sq2) {
        return LatticeStyle::Sq2;
    }
    LatticeStyle::Hex
}

/// `lattice`.
fn lattice(words: &[Text]) -> Result<Command, WordRefusal>
    ensures { result ≡ lattice words.now }
{
    let density = number(words, 2, MIN_DENSITY, MAX_DENSITY)?;
    Ok(Command::Lattice(LatticeSetting {
        style: lattice_style(word(words, 1)),
        density,
    }))
}

/// Whether lengths are scaled, by the options that stand from a place on.
pub(crate) fn is_scaled(words: &[Text], from: usize) -> bool
    ensures { result ≡ is_scaled from words.now }
{
    match says(words, from, Word::Units, Word::Lattice) {
        Some(scaled) => scaled,
        None => true,
    }
}

/// Whether a region is the inside, by the options that stand from a place on.
fn is_inside(words: &[Text], from: usize) -> bool
    ensures { result ≡ is_inside from words.now }
{
    match says(words, from, Word::Side, Word::In) {
        Some(inside) => inside,
        None => true,
    }
}

/// The region of this shape.
fn region(alloc: Global, words: &[Text], shape: Shape, from: usize) -> Result<Command, NoMemory>
    ensures { IfOk result (λ c. c ≡ region_of shape from words.now) }
{
    let id = text(alloc, words, 1)?;
    Ok(Command::Region(NewRegion {
        id,
        shape,
        inside: is_inside(words, from),
        scaled: is_scaled(words, from),
    }))
}

/// The sides of a block along an axis.
#[derive(Clone, Copy)]
struct Sides {
    lo: Option<i64>,
    hi: Option<i64>,
}

/// A side of a block, `None` for an open one.
fn side(words: &[Text], place: usize) -> Result<Option<i64>, WordRefusal>
    ensures { result ≡ side place words.now }
{
    number_or(Words::Open, words, place, -MAX_UNITS, MAX_UNITS)
}

/// Both sides of a block along an axis.
fn sides_in(words: &[Text], lo: usize, hi: usize) -> Result<Sides, WordRefusal>
    ensures { result ≡ sides_in lo hi words.now }
{
    let lo = side(words, lo)?;
    let hi = side(words, hi)?;
    Ok(Sides { lo, hi })
}

/// The sides of a block.
fn block_in(words: &[Text]) -> Result<Block, WordRefusal>
    ensures { result ≡ block_in words.now }
{
    let x = sides_in(words, 3, 4)?;
    let y = sides_in(words, 5, 6)?;
    let z = sides_in(words, 7, 8)?;
    Ok(Block {
        lo: [x.lo, y.lo, z.lo],
        hi: [x.hi, y.hi, z.hi],
    })
}

/// `region` with a block.
fn region_block(alloc: Global, words: &[Text]) -> Result<Command, WordRefusal>
    ensures { Makes (region_block words.now) result }
{
    let block = block_in(words)?;
    Ok(region(alloc, words, Shape::Block(block), 9)?)
}

/// Three numbers that are in range.
fn vector(words: &[Text], x: usize, y: usize, z: usize) -> Result<V3, WordRefusal>
    ensures { result ≡ vector x y z words.now }
{
    let x = any_number(words, x)?;
    let y = any_number(words, y)?;
    let z = any_number(words, z)?;
    Ok([x, y, z])
}

/// The sphere of the words.
fn sphere_in(words: &[Text]) -> Result<Sphere, WordRefusal>
    ensures { result ≡ sphere_in words.now }
{
    let centre = vector(words, 3, 4, 5)?;
    let radius = any_number(words, 6)?;
    Ok(Sphere { centre, radius })
}

/// `region` with a sphere.
fn region_sphere(alloc: Global, words: &[Text]) -> Result<Command, WordRefusal>
    ensures { Makes (region_sphere words.now) result }
{
    let sphere = sphere_in(words)?;
    Ok(region(alloc, words, Shape::Sphere(sphere), 7)?)
}

/// The first words, as many as a number tells.
fn counted(count: u64, words: &[Text]) -> &[Text]
    ensures { result.now ≡ take count words.now }
{
    if count < words.len() as u64 {
        let (counted, _) = words.split_at(count as usize);
        counted
    } else {
        words
    }
}

/// The number of IDs that a word tells.
fn id_count(words: &[Text]) -> u64
    ensures { result ≡ id_count words.now }
{
    match read_whole(word(words, 3)) {
        Ok(count) => count,
        Err(_) => 0,
    }
}

/// The IDs of a union or an intersection.
fn counted_ids(words: &[Text]) -> &[Text]
    ensures { result.now ≡ counted_ids words.now }
{
    counted(id_count(words), behind(words, 4))
}

/// `region` with a union of regions.
fn region_union(alloc: Global, words: &[Text]) -> Result<Command, NoMemory>
    ensures { IfOk result (λ c. c ≡ region_union words.now) }
{
    let ids = counted_ids(words);
    region(
        alloc,
        words,
        Shape::Union(texts(alloc, ids)?),
        ids.len() + 4,
    )
}

/// `region` with an intersection of regions.
fn region_intersect(alloc: Global, words: &[Text]) -> Result<Command, NoMemory>
    ensures { IfOk result (λ c. c ≡ region_intersect words.now) }
{
    let ids = counted_ids(words);
    region(
        alloc,
        words,
        Shape::Intersect(texts(alloc, ids)?),
        ids.len() + 4,
    )
}

/// Whether an option tells how many types there are, and not as many as there may be.
fn is_excess(option: &[u8], value: &[u8]) -> bool
    ensures { result ≡ is_excess option.now value.now }
{
    if option == text_of(Word::BondTypes) || option == text_of(Word::AngleTypes) {
        match read_whole(value) {
            Ok(n) => n > u64::from(MAX_KINDS),
            Err(_) => true,
        }
    } else {
        false
    }
}

/// The first place of an option's number that is outside its limit, of `create_box`.
fn box_excess(words: &[Text]) -> Option<usize>
    ensures { result ≡ box_excess words.now }
{
    let mut rest = behind(words, 3);
    'pairs: while let [option, after @ ..] = rest {
        match after {
            [value, more @ ..] => {
                if is_excess(option.as_bytes(), value.as_bytes()) {
                    return Some(words.len().saturating_sub(after.len()));
                }
                rest = more;
            }
            [] => return None,
        }
    }
    None
}

/// How many types an option of `create_box` tells; 0 without it.
fn kinds_option(words: &[Text], option: Word) -> Result<u8, WordRefusal>
    ensures { result ≡ kinds_option option words.now }
{
    match value_place(words, 3, option) {
        Some(place) => {
            let n = whole(words, place, 0, u64::from(MAX_KINDS))?;
            Ok(n as u8)
        }
        None => Ok(0),
    }
}

/// The numbers of types of `create_box`.
#[derive(Clone, Copy)]
struct Counts {
    kinds: u8,
    bonds: u8,
    angles: u8,
}

/// The numbers of types of `create_box`.
fn box_counts(words: &[Text]) -> Result<Counts, WordRefusal>
    ensures { result ≡ box_counts words.now }
{
    let kinds = whole(words, 1, 1, u64::from(MAX_KINDS))?;
    if let Some(place) = box_excess(words) {
        return Err(WordRefusal::BadValue(place));
    }
    let bonds = kinds_option(words, Word::BondTypes)?;
    let angles = kinds_option(words, Word::AngleTypes)?;
    Ok(Counts {
        kinds: kinds as u8,
        bonds,
        angles,
    })
}

/// `create_box`.
fn create_box(alloc: Global, words: &[Text]) -> Result<Command, WordRefusal>
    ensures { Makes (create_box words.now) result }
{
    let counts = box_counts(words)?;
    let region = text(alloc, words, 2)?;
    Ok(Command::CreateBox(NewBox {
        kinds: counts.kinds,
        region,
        bond_kinds: counts.bonds,
        angle_kinds: counts.angles,
    }))
}

/// The type of `create_atoms`.
fn kind(words: &[Text]) -> Result<u8, WordRefusal>
    ensures { result ≡ kind words.now }
{
    let n = whole(words, 1, 1, u64::from(MAX_KINDS))?;
    Ok(n as u8)
}

/// `create_atoms` with the box.
fn create_all(words: &[Text]) -> Result<Command, WordRefusal>
    ensures { result ≡ create_all words.now }
{
    let kind = kind(words)?;
    Ok(Command::CreateAtoms(Creation {
        kind,
        sites: CreationSites::Box,
    }))
}

/// `create_atoms` with a region.
fn create_region(alloc: Global, words: &[Text]) -> Result<Command, WordRefusal>
    ensures { Makes (create_region words.now) result }
{
    let kind = kind(words)?;
    let region = text(alloc, words, 3)?;
    Ok(Command::CreateAtoms(Creation {
        kind,
        sites: CreationSites::Region(region),
    }))
}

/// `create_atoms` with one point.
fn create_single(words: &[Text]) -> Result<Command, WordRefusal>
    ensures { result ≡ create_single words.now }
{
    let kind = kind(words)?;
    let x = vector(words, 3, 4, 5)?;
    let scaled = is_scaled(words, 6);
    Ok(Command::CreateAtoms(Creation {
        kind,
        sites: CreationSites::Single(SinglePoint { x, scaled }),
    }))
}

/// The command of the words of a form.
pub(crate) fn make(alloc: Global, form: LatticeForm, words: &[Text]) -> Result<Command, WordRefusal>
    ensures { Makes (make form words.now) result }
{
    match form {
        LatticeForm::Lattice => lattice(words),
        LatticeForm::RegionBlock => region_block(alloc, words),
        LatticeForm::RegionSphere => region_sphere(alloc, words),
        LatticeForm::RegionUnion => Ok(region_union(alloc, words)?),
        LatticeForm::RegionIntersect => Ok(region_intersect(alloc, words)?),
        LatticeForm::CreateBox => create_box(alloc, words),
        LatticeForm::CreateAtomsBox => create_all(words),
        LatticeForm::CreateAtomsRegion => create_region(alloc, words),
        LatticeForm::CreateAtomsSingle => create_single(words),
    }
}
