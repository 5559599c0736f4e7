//! Groups, and which atoms `group` adds to one.
ghost use Rattle.box_geo.specs.Ids.{Rises};
ghost use Rattle.meaning.specs.Answers.{Answers};
ghost use Rattle.meaning.specs.MassesGroups.{chosen, group, groups_with, has_beyond, has_id, has_kind, has_unknown, ids_of, is_beyond, is_left};
ghost use Rattle.meaning.specs.Sound.{IsSound, IsSoundBody};
ghost use Rattle.regions_groups.specs.Groups.{is_there};
ghost use Rattle.regions_groups.specs.Regions.{holds, is_there as is_region};
ghost use Rattle.run_settings.specs.Members.{has_member, ids_where, is_left_member, marked, AddsMarks};
ghost use Rattle.std.specs.List.{list_all, list_any};
ghost use Rattle.std.specs.Prelude.{◌≡◌, ◌≤◌, ◌<◌, ℕ, true, false, filter, length, slice_index, IfOk, IfSome, OnOk};

use crate::masses_groups::{has_kind, is_beyond};
use box_geo::{Atom, Ids};
use command_words::{GroupChange, IdRange, KindRange, Members};
use fx_num::{NoMemory, Seq, Text};
use meaning::{Body, Code, Named, Settings, SettingsRefusal, ids_of, is_all};
use regions_groups::{
    GroupRefusal, Groups, RegionTest, Regions, difference, intersection, union_of,
};
use std::alloc::Global;

/// The ids of the atoms that a region holds.
fn held(alloc: Global, atoms: &[Atom], test: &mut RegionTest<'_>) -> Result<Ids, NoMemory>
    ensures { IfOk result (λ ids. ids ≡ ids_where (λ a. holds test.old.regions test.old.name a.x) atoms.now) }
{
    let mut ids = Seq::new(alloc);
    for atom in atoms {
        if test.holds(&atom.x) {
            ids.push(atom.id)?;
        }
    }
    Ok(ids)
}

/// The ids of the atoms in the region of a name.
fn in_region(alloc: Global, regions: &Regions, name: &Text, atoms: &[Atom]) -> Result<Ids, NoMemory>
    requires { is_region regions.now name.now ≡ true }
    ensures { IfOk result (λ ids. ids ≡ ids_where (λ a. holds regions.now name.now a.x) atoms.now) }
{
    let mut test = regions.test(alloc, name)?;
    held(alloc, atoms, &mut test)
}

/// Whether one of the ranges has a type.
fn any_has_kind(ranges: &[KindRange], kinds: u8, kind: u8) -> bool
    ensures { result ≡ list_any (λ r. has_kind r kinds kind) ranges.now }
{
    ranges.iter().any(|range| has_kind(range, kinds, kind))
}

/// The ids of the atoms of types that one of the ranges has, in a box of so many types.
fn of_kinds(alloc: Global, ranges: &[KindRange], kinds: u8, atoms: &[Atom]) -> Result<Ids, NoMemory>
    ensures { IfOk result (λ ids. ids ≡ ids_where (λ a. list_any (λ r. has_kind r kinds a.kind) ranges.now) atoms.now) }
{
    let mut ids = Seq::new(alloc);
    for atom in atoms {
        if any_has_kind(ranges, kinds, atom.kind) {
            ids.push(atom.id)?;
        }
    }
    Ok(ids)
}

/// Whether a range has an id.
fn has_id(range: &IdRange, id: u32) -> bool
    ensures { result ≡ has_id range.now id }
{
    range.first <= id && id <= range.last && (id - range.first).is_multiple_of(range.stride)
}

/// How many ids are below one, which is the place of the first that isn't.
fn lower_bound(ids: &[u32], id: u32) -> usize
    requires { Rises ids.now }
    ensures within { result ≤ length ids.now }
    ensures below { (k : ℕ) → k < result → slice_index ids.now k < id }
    ensures from { (k : ℕ) → result ≤ k → k < length ids.now → id ≤ slice_index ids.now k }
{
    match ids.binary_search(&id) {
        Ok(place) => place,
        Err(place) => place,
    }
}

/// Marks the places of the ids that a range has. The time is that of a search for its first id, and of going through the
/// ids up to its last.
fn mark(marks: &mut [bool], ids: &[u32], range: &IdRange)
    requires rise { Rises ids.now }
    requires room { length marks.old ≡ length ids.now }
    ensures { AddsMarks (has_id range.now) ids.now marks.old marks.new }
{
    for i in lower_bound(ids, range.first)..ids.len() {
        if range.last < ids[i] {
            return;
        }
        if has_id(range, ids[i]) {
            marks[i] = true;
        }
    }
}

/// The ids whose places are marked.
fn marked(alloc: Global, marks: &[bool], ids: &[u32]) -> Result<Ids, NoMemory>
    requires { length marks.now ≡ length ids.now }
    ensures { IfOk result (λ kept. kept ≡ marked marks.now ids.now) }
{
    let mut kept = Seq::new(alloc);
    for (i, id) in ids.iter().enumerate() {
        if marks[i] {
            kept.push(*id)?;
        }
    }
    Ok(kept)
}

/// Those of the ids that one of the ranges has.
fn in_ranges(alloc: Global, ids: &[u32], ranges: &[IdRange]) -> Result<Ids, NoMemory>
    requires { Rises ids.now }
    ensures { IfOk result (λ kept. kept ≡ filter (λ id. list_any (λ r. has_id r id) ranges.now) ids.now) }
{
    let mut marks = vec![in alloc; false; ids.len()]?;
    for range in ranges {
        mark(&mut marks, ids, range);
    }
    marked(alloc, &marks, ids)
}

/// Those of the ids of atoms that a group has.
fn in_group(alloc: Global, groups: &Groups, ids: &[u32], name: &Text) -> Result<Ids, NoMemory>
    requires { Rises ids.now }
    ensures { IfOk result (λ own. own ≡ filter (λ id. has_member groups.now id name.now) ids.now) }
{
    if is_all(name) {
        return Ok(Seq::from_vec(Vec::from_slice(alloc, ids)?));
    }
    match groups.members(name) {
        Some(given) => intersection(alloc, ids, given.as_slice()),
        None => Ok(Seq::new(alloc)),
    }
}

/// Those of the ids of atoms that one of the groups has.
fn in_any(alloc: Global, groups: &Groups, ids: &[u32], names: &[Text]) -> Result<Ids, NoMemory>
    requires { Rises ids.now }
    ensures { IfOk result (λ kept. kept ≡ filter (λ id. list_any (has_member groups.now id) names.now) ids.now) }
{
    let mut kept = Seq::new(alloc);
    for name in names {
        let own = in_group(alloc, groups, ids, name)?;
        kept = union_of(alloc, kept.as_slice(), own.as_slice())?;
    }
    Ok(kept)
}

/// Those of the ids of atoms that all of the groups have.
fn in_all(alloc: Global, groups: &Groups, ids: &[u32], names: &[Text]) -> Result<Ids, NoMemory>
    requires { Rises ids.now }
    ensures { IfOk result (λ kept. kept ≡ filter (λ id. list_all (has_member groups.now id) names.now) ids.now) }
{
    let mut kept = Seq::from_vec(Vec::from_slice(alloc, ids)?);
    for name in names {
        let own = in_group(alloc, groups, ids, name)?;
        kept = intersection(alloc, kept.as_slice(), own.as_slice())?;
    }
    Ok(kept)
}

/// Those of the ids of atoms that the first of the groups has and none of the others does.
fn in_first_alone(
    alloc: Global,
    groups: &Groups,
    ids: &[u32],
    names: &[Text],
) -> Result<Ids, NoMemory>
    requires { Rises ids.now }
    ensures { IfOk result (λ kept. kept ≡ filter (λ id. is_left_member groups.now id names.now) ids.now) }
{
    match names {
        [] => Ok(Seq::new(alloc)),
        [first, others @ ..] => {
            let own = in_group(alloc, groups, ids, first)?;
            let away = in_any(alloc, groups, ids, others)?;
            difference(alloc, own.as_slice(), away.as_slice())
        }
    }
}

/// The ids of the atoms that `group` adds.
fn chosen(alloc: Global, named: &Named, members: &Members, body: &Body) -> Result<Ids, NoMemory>
    requires sound { IsSoundBody body.now }
    requires known { has_unknown named.now members.now ≡ false }
    ensures { IfOk result (λ ids. ids ≡ chosen named.now members.now body.now) }
{
    let atoms = body.atoms.as_slice();
    let kinds = body.mass.len() as u8;
    let ids = ids_of(alloc, atoms)?;
    match members {
        Members::Region(name) => in_region(alloc, &named.regions, name, atoms),
        Members::Kinds(ranges) => of_kinds(alloc, ranges.as_slice(), kinds, atoms),
        Members::Ids(ranges) => in_ranges(alloc, ids.as_slice(), ranges.as_slice()),
        Members::Union(names) => in_any(alloc, &named.groups, ids.as_slice(), names.as_slice()),
        Members::Subtract(names) => {
            in_first_alone(alloc, &named.groups, ids.as_slice(), names.as_slice())
        }
        Members::Intersect(names) => in_all(alloc, &named.groups, ids.as_slice(), names.as_slice()),
        Members::Variable(_) => Ok(Seq::new(alloc)),
    }
}

/// Whether one of the ranges has a number above the number of types.
fn any_is_beyond(ranges: &[KindRange], kinds: u8) -> bool
    ensures { result ≡ list_any (λ r. is_beyond r kinds) ranges.now }
{
    ranges.iter().any(|range| is_beyond(range, kinds))
}

/// Whether the types of the atoms have a number above the number of types, where there is a box.
fn has_beyond(members: &Members, body: &Option<Body>) -> bool
    requires { IfSome body.now IsSoundBody }
    ensures { result ≡ has_beyond members.now body.now }
{
    match members {
        Members::Kinds(ranges) => match body {
            Some(body) => any_is_beyond(ranges.as_slice(), body.mass.len() as u8),
            None => false,
        },
        Members::Region(_)
        | Members::Ids(_)
        | Members::Union(_)
        | Members::Subtract(_)
        | Members::Intersect(_)
        | Members::Variable(_) => false,
    }
}

/// Whether all of the groups are there.
fn are_there(groups: &Groups, names: &[Text]) -> bool
    ensures { result ≡ list_all (is_there groups.now) names.now }
{
    names.iter().all(|name| groups.is_there(name))
}

/// Whether the atoms are those of a region or of a group that isn't there.
fn has_unknown(named: &Named, members: &Members) -> bool
    ensures { result ≡ has_unknown named.now members.now }
{
    match members {
        Members::Region(name) => !named.regions.is_there(name),
        Members::Kinds(_) | Members::Ids(_) | Members::Variable(_) => false,
        Members::Union(names) | Members::Subtract(names) | Members::Intersect(names) => {
            !are_there(&named.groups, names.as_slice())
        }
    }
}

/// Adds ids to a group, which is made where it isn't there; `all` stays as it is.
pub(crate) fn add_to(
    groups: &mut Groups,
    alloc: Global,
    name: Text,
    ids: Ids,
) -> Result<(), SettingsRefusal>
    requires { Rises ids }
    ensures { Answers (groups_with groups.old name ids) result groups.old groups.new }
{
    if is_all(&name) {
        return Ok(());
    }
    match groups.add(alloc, name, ids) {
        Ok(()) => Ok(()),
        Err(GroupRefusal::TooMany) => Err(SettingsRefusal::Code(Code::TooMany)),
        Err(GroupRefusal::NoMemory) => Err(SettingsRefusal::NoMemory),
    }
}

/// `group`: adds atoms to a group, which is made where it isn't there.
pub fn change_group(
    settings: &mut Settings,
    alloc: Global,
    change: GroupChange,
) -> Result<(), SettingsRefusal>
    requires sound { IsSound settings.old }
    ensures is { Answers (group change settings.old) result settings.old settings.new }
    ensures sound { OnOk result (IsSound settings.new) }
{
    let GroupChange { id, members } = change;
    if has_beyond(&members, &settings.body) {
        return Err(SettingsRefusal::Code(Code::BadValue));
    }
    if has_unknown(&settings.named, &members) {
        return Err(SettingsRefusal::Code(Code::UnknownName));
    }
    let Some(body) = &settings.body else {
        return Err(SettingsRefusal::Code(Code::NoBox));
    };
    let ids = chosen(alloc, &settings.named, &members, body)?;
    add_to(&mut settings.named.groups, alloc, id, ids)
}
