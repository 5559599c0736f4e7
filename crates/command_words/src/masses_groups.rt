//! Masses and groups: `mass`, `group`.
ghost use Rattle.std.specs.Prelude.{◌≡◌, ◌+◌, ◌^◌, ◌<◌, IfOk, drop, length};
ghost use Rattle.command_words.specs.MassesGroups.{group, group_ids, group_kinds, id_ranges, kind_ranges, make, mass, places};
ghost use Rattle.command_words.specs.Values.{Makes, word};

use crate::command::Command;
use crate::places::{Kind, Place};
use crate::ranges::{IdRange, KindRange, id_range, kind_range};
use crate::refusal::WordRefusal;
use crate::values::{behind, kinds, number, text, texts};
use crate::vocabulary::Word;
use box_geo::limits::{MAX_MASS, MIN_MASS};
use fx_num::{NoMemory, Seq, Text};
use std::alloc::Global;

/// What `mass` sets.
#[derive(Drop)]
pub struct MassSetting {
    /// The types.
    pub kinds: KindRange,
    /// The mass.
    pub mass: i64,
}

/// What `group` adds to a group.
#[derive(Drop)]
pub struct GroupChange {
    /// The group's ID.
    pub id: Text,
    /// Which atoms are added.
    pub members: Members,
}

/// Which atoms a group gets.
#[derive(Drop)]
pub enum Members {
    /// Those in a region, by its ID.
    Region(Text),
    /// Those of these types.
    Kinds(Seq<KindRange>),
    /// Those of these ids.
    Ids(Seq<IdRange>),
    /// Those of any of these groups.
    Union(Seq<Text>),
    /// Those of the first of these groups and of none of the others.
    Subtract(Seq<Text>),
    /// Those of all of these groups.
    Intersect(Seq<Text>),
    /// Those for which a variable has a value other than 0.
    Variable(Text),
}

/// The forms of these commands.
#[derive(Clone, Copy)]
pub(crate) enum MassesGroupsForm {
    Mass,
    GroupRegion,
    GroupType,
    GroupId,
    GroupUnion,
    GroupSubtract,
    GroupIntersect,
    GroupVariable,
}

const MASS: &[Place] = &[
    Place::One(Kind::Fixed(Word::Mass)),
    Place::One(Kind::Kinds),
    Place::One(Kind::Number),
];

const GROUP_REGION: &[Place] = &[
    Place::One(Kind::Fixed(Word::Group)),
    Place::One(Kind::Name),
    Place::One(Kind::Fixed(Word::Region)),
    Place::One(Kind::Name),
];

const GROUP_TYPE: &[Place] = &[
    Place::One(Kind::Fixed(Word::Group)),
    Place::One(Kind::Name),
    Place::One(Kind::Fixed(Word::Type)),
    Place::Many(Kind::Kinds),
];

const GROUP_ID: &[Place] = &[
    Place::One(Kind::Fixed(Word::Group)),
    Place::One(Kind::Name),
    Place::One(Kind::Fixed(Word::Id)),
    Place::Many(Kind::Ids),
];

const GROUP_UNION: &[Place] = &[
    Place::One(Kind::Fixed(Word::Group)),
    Place::One(Kind::Name),
    Place::One(Kind::Fixed(Word::Union)),
    Place::Many(Kind::Name),
];

const GROUP_SUBTRACT: &[Place] = &[
    Place::One(Kind::Fixed(Word::Group)),
    Place::One(Kind::Name),
    Place::One(Kind::Fixed(Word::Subtract)),
    Place::Many(Kind::Name),
];

const GROUP_INTERSECT: &[Place] = &[
    Place::One(Kind::Fixed(Word::Group)),
    Place::One(Kind::Name),
    Place::One(Kind::Fixed(Word::Intersect)),
    Place::Many(Kind::Name),
];

const GROUP_VARIABLE: &[Place] = &[
    Place::One(Kind::Fixed(Word::Group)),
    Place::One(Kind::Name),
    Place::One(Kind::Fixed(Word::Variable)),
    Place::One(Kind::Name),
];

/// The places of a form.
pub(crate) fn places(form: MassesGroupsForm) -> &'static [Place]
    ensures { result.now ≡ places form }
{
    match form {
        MassesGroupsForm::Mass => MASS,
        MassesGroupsForm::GroupRegion => GROUP_REGION,
        MassesGroupsForm::GroupType => GROUP_TYPE,
        MassesGroupsForm::GroupId => GROUP_ID,
        MassesGroupsForm::GroupUnion => GROUP_UNION,
        MassesGroupsForm::GroupSubtract => GROUP_SUBTRACT,
        MassesGroupsForm::GroupIntersect => GROUP_INTERSECT,
        MassesGroupsForm::GroupVariable => GROUP_VARIABLE,
    }
}

/// `mass`.
fn mass(words: &[Text]) -> Result<Command, WordRefusal>
    ensures { result ≡ mass words.now }
{
    let kinds = kinds(words, 1)?;
    let mass = number(words, 2, MIN_MASS, MAX_MASS)?;
    Ok(Command::Mass(MassSetting { kinds, mass }))
}

/// The types that words write, each at its place.
#[tactic(auto, using(crate::proofs::RangeLemmas::joined_more))]
fn kind_ranges(alloc: Global, place: usize, words: &[Text]) -> Result<Seq<KindRange>, WordRefusal>
    requires { place + length words.now < 2 ^ 64 }
    ensures { Makes (kind_ranges place words.now) result }
{
    let mut ranges = Seq::new(alloc);
    for (i, word) in words.iter().enumerate() {
        match kind_range(word.as_bytes()) {
            Some(range) => ranges.push(range)?,
            None => return Err(WordRefusal::BadValue(place + i)),
        }
    }
    Ok(ranges)
}

/// The ids that words write, each at its place.
#[tactic(auto, using(crate::proofs::RangeLemmas::joined_more))]
fn id_ranges(alloc: Global, place: usize, words: &[Text]) -> Result<Seq<IdRange>, WordRefusal>
    requires { place + length words.now < 2 ^ 64 }
    ensures { Makes (id_ranges place words.now) result }
{
    let mut ranges = Seq::new(alloc);
    for (i, word) in words.iter().enumerate() {
        match id_range(word.as_bytes()) {
            Some(range) => ranges.push(range)?,
            None => return Err(WordRefusal::BadValue(place + i)),
        }
    }
    Ok(ranges)
}

/// `group` with these members.
fn group(alloc: Global, words: &[Text], members: Members) -> Result<Command, NoMemory>
    ensures { IfOk result (λ c. c ≡ group members words.now) }
{
    let id = text(alloc, words, 1)?;
    Ok(Command::Group(GroupChange { id, members }))
}

/// `group` with types.
fn group_kinds(alloc: Global, words: &[Text]) -> Result<Command, WordRefusal>
    ensures { Makes (group_kinds words.now) result }
{
    let kinds = kind_ranges(alloc, 3, behind(words, 3))?;
    Ok(group(alloc, words, Members::Kinds(kinds))?)
}

/// `group` with ids.
fn group_ids(alloc: Global, words: &[Text]) -> Result<Command, WordRefusal>
    ensures { Makes (group_ids words.now) result }
{
    let ids = id_ranges(alloc, 3, behind(words, 3))?;
    Ok(group(alloc, words, Members::Ids(ids))?)
}

/// `group` with a region.
fn group_region(alloc: Global, words: &[Text]) -> Result<Command, NoMemory>
    ensures { IfOk result (λ c. c ≡ group (Members.Region (word 3 words.now)) words.now) }
{
    let region = text(alloc, words, 3)?;
    group(alloc, words, Members::Region(region))
}

/// `group` with a variable.
fn group_variable(alloc: Global, words: &[Text]) -> Result<Command, NoMemory>
    ensures { IfOk result (λ c. c ≡ group (Members.Variable (word 3 words.now)) words.now) }
{
    let variable = text(alloc, words, 3)?;
    group(alloc, words, Members::Variable(variable))
}

/// `group` with the union of groups.
fn group_union(alloc: Global, words: &[Text]) -> Result<Command, NoMemory>
    ensures { IfOk result (λ c. c ≡ group (Members.Union (drop 3 words.now)) words.now) }
{
    let groups = texts(alloc, behind(words, 3))?;
    group(alloc, words, Members::Union(groups))
}

/// `group` with the difference of groups.
fn group_subtract(alloc: Global, words: &[Text]) -> Result<Command, NoMemory>
    ensures { IfOk result (λ c. c ≡ group (Members.Subtract (drop 3 words.now)) words.now) }
{
    let groups = texts(alloc, behind(words, 3))?;
    group(alloc, words, Members::Subtract(groups))
}

/// `group` with the intersection of groups.
fn group_intersect(alloc: Global, words: &[Text]) -> Result<Command, NoMemory>
    ensures { IfOk result (λ c. c ≡ group (Members.Intersect (drop 3 words.now)) words.now) }
{
    let groups = texts(alloc, behind(words, 3))?;
    group(alloc, words, Members::Intersect(groups))
}

/// The command of the words of a form.
pub(crate) fn make(
    alloc: Global,
    form: MassesGroupsForm,
    words: &[Text],
) -> Result<Command, WordRefusal>
    ensures { Makes (make form words.now) result }
{
    match form {
        MassesGroupsForm::Mass => mass(words),
        MassesGroupsForm::GroupRegion => Ok(group_region(alloc, words)?),
        MassesGroupsForm::GroupType => group_kinds(alloc, words),
        MassesGroupsForm::GroupId => group_ids(alloc, words),
        MassesGroupsForm::GroupUnion => Ok(group_union(alloc, words)?),
        MassesGroupsForm::GroupSubtract => Ok(group_subtract(alloc, words)?),
        MassesGroupsForm::GroupIntersect => Ok(group_intersect(alloc, words)?),
        MassesGroupsForm::GroupVariable => Ok(group_variable(alloc, words)?),
    }
}
