//! Regions as the table keeps them.
ghost use Rattle.std.specs.Prelude.{◌≡◌, Some, None, map, reverse, length, IfErr, IfOk, OnOk};
ghost use Rattle.std.specs.List.{list_all, list_any};
ghost use Rattle.regions_groups.specs.Kept.{answers, answer_at, holds_by, latest_first, place_in, ArePlaced};
ghost use Rattle.regions_groups.specs.Regions.{block_of, first_unknown, is_there, IsUnknown};

use crate::region_table::RegionRefusal;
use crate::shapes::{ClosedBlock, Region, block_holds, on_side, sphere_holds};
use fx_num::{Seq, Text, V3};
use std::alloc::Global;

/// A region under its name, with the places of the regions that it is made of.
#[derive(Drop)]
pub(crate) struct Kept {
    pub(crate) name: Text,
    pub(crate) region: Region,
    pub(crate) places: Seq<usize>,
}

/// The place of the region of this name.
pub(crate) fn place_of(kept: &[Kept], name: &Text) -> Option<usize>
    ensures { result ≡ place_in (latest_first kept.now) name.now }
{
    let mut n = kept.len();
    while n > 0 {
        n -= 1;
        if kept[n].name.same(name) {
            return Some(n);
        }
    }
    None
}

/// Whether a region has this name.
pub(crate) fn is_there(kept: &[Kept], name: &Text) -> bool
    ensures { result ≡ is_there (latest_first kept.now) name.now }
{
    place_of(kept, name).is_some()
}

/// The block of this name, where the region is the inside of one with all six sides.
pub(crate) fn block_of(kept: &[Kept], name: &Text) -> Option<ClosedBlock>
    ensures { result ≡ block_of (latest_first kept.now) name.now }
{
    let mut n = kept.len();
    while n > 0 {
        n -= 1;
        if kept[n].name.same(name) {
            return kept[n].region.box_block();
        }
    }
    None
}

/// The places of the regions of these names, or `UnknownRegion` with the first that is not there.
pub(crate) fn places_of(
    alloc: Global,
    kept: &[Kept],
    names: &[Text],
) -> Result<Seq<usize>, RegionRefusal>
    ensures placed { IfOk result (λ places. map (λ place. Some place) places ≡ map (place_in (latest_first kept.now)) names.now) }
    ensures known { OnOk result (first_unknown (latest_first kept.now) names.now ≡ None) }
    ensures refused { IfErr result (λ why. IsUnknown why (first_unknown (latest_first kept.now) names.now)) }
{
    let mut places = Seq::new(alloc);
    for name in names {
        match place_of(kept, name) {
            Some(place) => places.push(place)?,
            None => return Err(RegionRefusal::UnknownRegion(name.copy(alloc)?)),
        }
    }
    Ok(places)
}

/// The answer at a place.
fn answer_at(known: &[bool], place: usize) -> bool
    ensures { result ≡ answer_at known.now place }
{
    match known.get(place) {
        Some(answer) => *answer,
        None => false,
    }
}

/// Whether one of the answers at these places is yes.
fn any_at(known: &[bool], places: &[usize]) -> bool
    ensures { result ≡ list_any (answer_at known.now) places.now }
{
    for place in places {
        if answer_at(known, *place) {
            return true;
        }
    }
    false
}

/// Whether all of the answers at these places are yes.
fn all_at(known: &[bool], places: &[usize]) -> bool
    ensures { result ≡ list_all (answer_at known.now) places.now }
{
    for place in places {
        if !answer_at(known, *place) {
            return false;
        }
    }
    true
}

/// Whether a region holds a point, by the answers of those before it.
fn holds_by(kept: &Kept, known: &[bool], x: &V3) -> bool
    ensures { result ≡ holds_by known.now kept.now.places kept.now.region x.now }
{
    match &kept.region {
        Region::Block { lo, hi, inside } => on_side(*inside, block_holds(lo, hi, x)),
        Region::Sphere {
            centre,
            radius,
            inside,
        } => on_side(*inside, sphere_holds(centre, radius, x)),
        Region::Union { regions: _, inside } => on_side(
            *inside,
            any_at(known, kept.places.as_slice()),
        ),
        Region::Intersect { regions: _, inside } => on_side(
            *inside,
            all_at(known, kept.places.as_slice()),
        ),
    }
}

/// Writes which regions hold a point.
fn judge(kept: &[Kept], known: &mut [bool], x: &V3)
    requires room { length known.old ≡ length kept.now }
    requires placed { ArePlaced (reverse kept.now) }
    ensures { known.new ≡ answers (latest_first kept.now) x.now }
{
    for (i, k) in kept.iter().enumerate() {
        let answer = holds_by(k, &known[..i], x);
        known[i] = answer;
    }
}

/// Whether the region at a place holds a point, with room for the answers of all.
pub(crate) fn answer(kept: &[Kept], known: &mut [bool], place: usize, x: &V3) -> bool
    requires room { length known.old ≡ length kept.now }
    requires placed { ArePlaced (reverse kept.now) }
    ensures { result ≡ answer_at (answers (latest_first kept.now) x.now) place }
{
    judge(kept, known, x);
    answer_at(known, place)
}
