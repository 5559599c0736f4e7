//! Fixes: `fix`, `unfix`.
ghost use Rattle.std.specs.Prelude.{◌≡◌, ◌≤◌, IfOk, map};
ghost use Rattle.command_words.specs.Fixes.{add_force, average, average_file, averages_in, compute_words, fix_of, force, force_or, id_of, is_regular, make, new_fix, periods_in, places, set_force};
ghost use Rattle.command_words.specs.Values.{Makes, word};

use crate::MAX_REPEAT;
use crate::command::Command;
use crate::options::Options;
use crate::places::{Kind, Place, count_taken};
use crate::refusal::WordRefusal;
use crate::values::{behind, number, number_or, text, value_place, whole};
use crate::vocabulary::{Word, Words};
use box_geo::limits::{MAX_FORCE, MAX_STEP};
use fx_num::{NoMemory, Seq, Text, V3};
use std::alloc::Global;

/// What `fix` defines.
#[derive(Drop)]
pub struct NewFix {
    /// The fix's ID.
    pub id: Text,
    /// The group's ID.
    pub group: Text,
    /// What the fix does.
    pub style: FixStyle,
}

/// What a fix does.
#[derive(Drop)]
pub enum FixStyle {
    /// It moves the atoms.
    Nve,
    /// It sets components of the force, or leaves one where it is `None`.
    SetForce([Option<i64>; 3]),
    /// It adds to the force.
    AddForce(V3),
    /// It zeroes z of the velocity and of the force.
    Enforce2d,
    /// It averages computes over time.
    Average(Averages),
    /// It adds the answer of the caller's function.
    External,
}

/// What a fix averages over time.
#[derive(Drop)]
pub struct Averages {
    /// The steps from one sample to the next.
    pub every: u64,
    /// The samples of one average.
    pub repeat: u64,
    /// The steps from one average to the next.
    pub freq: u64,
    /// The IDs of the computes, without `c_`.
    pub computes: Seq<Text>,
    /// The file's name, if there is one.
    pub file: Option<Text>,
}

/// The forms of these commands.
#[derive(Clone, Copy)]
pub(crate) enum FixesForm {
    FixNve,
    FixSetForce,
    FixAddForce,
    FixEnforce2d,
    FixAverage,
    FixExternal,
    Unfix,
}

const FIX_NVE: &[Place] = &[
    Place::One(Kind::Fixed(Word::Fix)),
    Place::One(Kind::Name),
    Place::One(Kind::Name),
    Place::One(Kind::Fixed(Word::Nve)),
];

const FIX_SET_FORCE: &[Place] = &[
    Place::One(Kind::Fixed(Word::Fix)),
    Place::One(Kind::Name),
    Place::One(Kind::Name),
    Place::One(Kind::Fixed(Word::Setforce)),
    Place::One(Kind::NumberOr(Words::Null)),
    Place::One(Kind::NumberOr(Words::Null)),
    Place::One(Kind::NumberOr(Words::Null)),
];

const FIX_ADD_FORCE: &[Place] = &[
    Place::One(Kind::Fixed(Word::Fix)),
    Place::One(Kind::Name),
    Place::One(Kind::Name),
    Place::One(Kind::Fixed(Word::Addforce)),
    Place::One(Kind::Number),
    Place::One(Kind::Number),
    Place::One(Kind::Number),
];

const FIX_ENFORCE2D: &[Place] = &[
    Place::One(Kind::Fixed(Word::Fix)),
    Place::One(Kind::Name),
    Place::One(Kind::Name),
    Place::One(Kind::Fixed(Word::Enforce2d)),
];

const FIX_AVERAGE: &[Place] = &[
    Place::One(Kind::Fixed(Word::Fix)),
    Place::One(Kind::Name),
    Place::One(Kind::Name),
    Place::One(Kind::Fixed(Word::AveTime)),
    Place::One(Kind::Whole),
    Place::One(Kind::Whole),
    Place::One(Kind::Whole),
    Place::Many(Kind::Compute),
    Place::Options(Options::Average),
];

const FIX_EXTERNAL: &[Place] = &[
    Place::One(Kind::Fixed(Word::Fix)),
    Place::One(Kind::Name),
    Place::One(Kind::Name),
    Place::One(Kind::Fixed(Word::External)),
    Place::One(Kind::Fixed(Word::PfCallback)),
    Place::One(Kind::Fixed(Word::Digit1)),
    Place::One(Kind::Fixed(Word::Digit1)),
];

const UNFIX: &[Place] = &[Place::One(Kind::Fixed(Word::Unfix)), Place::One(Kind::Name)];

/// The places of a form.
pub(crate) fn places(form: FixesForm) -> &'static [Place]
    ensures { result.now ≡ places form }
{
    match form {
        FixesForm::FixNve => FIX_NVE,
        FixesForm::FixSetForce => FIX_SET_FORCE,
        FixesForm::FixAddForce => FIX_ADD_FORCE,
        FixesForm::FixEnforce2d => FIX_ENFORCE2D,
        FixesForm::FixAverage => FIX_AVERAGE,
        FixesForm::FixExternal => FIX_EXTERNAL,
        FixesForm::Unfix => UNFIX,
    }
}

/// A component of a force.
fn force(words: &[Text], place: usize) -> Result<i64, WordRefusal>
    ensures { result ≡ force place words.now }
{
    number(words, place, -MAX_FORCE, MAX_FORCE)
}

/// A component of a force that is set, or none where it stays.
fn force_or(words: &[Text], place: usize) -> Result<Option<i64>, WordRefusal>
    ensures { result ≡ force_or place words.now }
{
    number_or(Words::Null, words, place, -MAX_FORCE, MAX_FORCE)
}

/// What `setforce` does.
fn set_force(words: &[Text]) -> Result<FixStyle, WordRefusal>
    ensures { result ≡ set_force words.now }
{
    let x = force_or(words, 4)?;
    let y = force_or(words, 5)?;
    let z = force_or(words, 6)?;
    Ok(FixStyle::SetForce([x, y, z]))
}

/// What `addforce` does.
fn add_force(words: &[Text]) -> Result<FixStyle, WordRefusal>
    ensures { result ≡ add_force words.now }
{
    let x = force(words, 4)?;
    let y = force(words, 5)?;
    let z = force(words, 6)?;
    Ok(FixStyle::AddForce([x, y, z]))
}

/// The steps of averages.
#[derive(Clone, Copy)]
struct Periods {
    every: u64,
    repeat: u64,
    freq: u64,
}

/// Whether the samples of an average fit between one average and the next.
fn is_regular(every: u64, repeat: u64, freq: u64) -> bool
    requires every_low { 1 ≤ every }
    requires every_high { every ≤ MAX_STEP }
    requires repeat_high { repeat ≤ MAX_REPEAT }
    ensures { result ≡ is_regular every repeat freq }
{
    let samples = u128::from(every) * u128::from(repeat);
    let fits = samples <= u128::from(freq);
    let whole = freq % every == 0;
    whole && fits
}

/// The steps of `ave/time`.
fn periods_in(words: &[Text]) -> Result<Periods, WordRefusal>
    ensures { result ≡ periods_in words.now }
{
    let every = whole(words, 4, 1, MAX_STEP)?;
    let repeat = whole(words, 5, 1, MAX_REPEAT)?;
    let freq = whole(words, 6, 1, MAX_STEP)?;
    if is_regular(every, repeat, freq) {
        Ok(Periods {
            every,
            repeat,
            freq,
        })
    } else {
        Err(WordRefusal::BadValue(6))
    }
}

/// The words of `ave/time` that name computes.
fn compute_words(words: &[Text]) -> &[Text]
    ensures { result.now ≡ compute_words words.now }
{
    let rest = behind(words, 7);
    let (computes, _) = rest.split_at(count_taken(Kind::Compute, rest));
    computes
}

/// The IDs of computes, without `c_`.
fn ids(alloc: Global, words: &[Text]) -> Result<Seq<Text>, NoMemory>
    ensures { IfOk result (λ ids. ids ≡ map id_of words.now) }
{
    let mut ids = Seq::new(alloc);
    for word in words {
        ids.push(Text::from_bytes(alloc, id_of(word.as_bytes()))?)?;
    }
    Ok(ids)
}

/// The text behind `c_`.
fn id_of(text: &[u8]) -> &[u8]
    ensures { result.now ≡ id_of text.now }
{
    match text {
        [_, _, id @ ..] => id,
        _ => b"",
    }
}

/// The name of the file of `ave/time`, if there is one.
fn average_file(alloc: Global, words: &[Text], from: usize) -> Result<Option<Text>, NoMemory>
    ensures { IfOk result (λ file. file ≡ average_file from words.now) }
{
    match value_place(words, from, Word::File) {
        Some(place) => Ok(Some(text(alloc, words, place)?)),
        None => Ok(None),
    }
}

/// What `ave/time` averages.
fn averages_in(alloc: Global, words: &[Text], periods: Periods) -> Result<FixStyle, NoMemory>
    ensures { IfOk result (λ style. style ≡ averages_in periods words.now) }
{
    let named = compute_words(words);
    let computes = ids(alloc, named)?;
    let file = average_file(alloc, words, named.len() + 7)?;
    Ok(FixStyle::Average(Averages {
        every: periods.every,
        repeat: periods.repeat,
        freq: periods.freq,
        computes,
        file,
    }))
}

/// What `ave/time` does.
fn average(alloc: Global, words: &[Text]) -> Result<FixStyle, WordRefusal>
    ensures { Makes (average words.now) result }
{
    let periods = periods_in(words)?;
    Ok(averages_in(alloc, words, periods)?)
}

/// `fix` of this style.
fn new_fix(alloc: Global, words: &[Text], style: FixStyle) -> Result<Command, NoMemory>
    ensures { IfOk result (λ c. c ≡ new_fix style words.now) }
{
    let id = text(alloc, words, 1)?;
    let group = text(alloc, words, 2)?;
    Ok(Command::Fix(NewFix { id, group, style }))
}

/// `fix` with `setforce`.
fn fix_set_force(alloc: Global, words: &[Text]) -> Result<Command, WordRefusal>
    ensures { Makes (fix_of (set_force words.now) words.now) result }
{
    let style = set_force(words)?;
    Ok(new_fix(alloc, words, style)?)
}

/// `fix` with `addforce`.
fn fix_add_force(alloc: Global, words: &[Text]) -> Result<Command, WordRefusal>
    ensures { Makes (fix_of (add_force words.now) words.now) result }
{
    let style = add_force(words)?;
    Ok(new_fix(alloc, words, style)?)
}

/// `fix` with `ave/time`.
fn fix_average(alloc: Global, words: &[Text]) -> Result<Command, WordRefusal>
    ensures { Makes (fix_of (average words.now) words.now) result }
{
    let style = average(alloc, words)?;
    Ok(new_fix(alloc, words, style)?)
}

/// `unfix`.
fn unfix(alloc: Global, words: &[Text]) -> Result<Command, NoMemory>
    ensures { IfOk result (λ c. c ≡ Command.Unfix (word 1 words.now)) }
{
    let id = text(alloc, words, 1)?;
    Ok(Command::Unfix(id))
}

/// The command of the words of a form.
pub(crate) fn make(alloc: Global, form: FixesForm, words: &[Text]) -> Result<Command, WordRefusal>
    ensures { Makes (make form words.now) result }
{
    match form {
        FixesForm::FixNve => Ok(new_fix(alloc, words, FixStyle::Nve)?),
        FixesForm::FixSetForce => fix_set_force(alloc, words),
        FixesForm::FixAddForce => fix_add_force(alloc, words),
        FixesForm::FixEnforce2d => Ok(new_fix(alloc, words, FixStyle::Enforce2d)?),
        FixesForm::FixAverage => fix_average(alloc, words),
        FixesForm::FixExternal => Ok(new_fix(alloc, words, FixStyle::External)?),
        FixesForm::Unfix => Ok(unfix(alloc, words)?),
    }
}
