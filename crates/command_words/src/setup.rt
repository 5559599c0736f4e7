//! What a simulation is set up with before its box: `units`, `dimension`, `boundary`, `atom_style`,
//! `processors`, and `newton`, `atom_modify` and `echo`, which have no effect.
ghost use Rattle.std.specs.Prelude.{◌≡◌, ◌≤◌, ◌∷◌, [], Ok, IfOk};
ghost use Rattle.command_words.specs.Setup.{atom_style, bricks, grid, is_periodic, make, places, processors};
ghost use Rattle.command_words.specs.Values.{then, whole};

use crate::command::Command;
use crate::places::{Kind, Place};
use crate::refusal::WordRefusal;
use crate::values::{MAX_WHOLE, is_word, whole, word};
use crate::vocabulary::{Word, Words, is_among, text_of};
use box_geo::AtomStyle;
use box_geo::limits::MAX_RANKS;
use fx_num::Text;

/// The forms of these commands.
#[derive(Clone, Copy)]
pub(crate) enum SetupForm {
    Units,
    Dimension,
    Boundary,
    AtomStyle,
    Processors,
    Newton,
    AtomModify,
    Echo,
}

const UNITS: &[Place] = &[
    Place::One(Kind::Fixed(Word::Units)),
    Place::One(Kind::Fixed(Word::Lj)),
];

const DIMENSION: &[Place] = &[
    Place::One(Kind::Fixed(Word::Dimension)),
    Place::One(Kind::Whole),
];

const BOUNDARY: &[Place] = &[
    Place::One(Kind::Fixed(Word::Boundary)),
    Place::One(Kind::OneOf(Words::Boundary)),
    Place::One(Kind::OneOf(Words::Boundary)),
    Place::One(Kind::OneOf(Words::Boundary)),
];

const ATOM_STYLE: &[Place] = &[
    Place::One(Kind::Fixed(Word::AtomStyle)),
    Place::One(Kind::OneOf(Words::AtomStyles)),
];

const PROCESSORS: &[Place] = &[
    Place::One(Kind::Fixed(Word::Processors)),
    Place::One(Kind::WholeOr(Words::Star)),
    Place::One(Kind::WholeOr(Words::Star)),
    Place::One(Kind::WholeOr(Words::Star)),
];

const NEWTON: &[Place] = &[Place::One(Kind::Fixed(Word::Newton)), Place::Rest];

const ATOM_MODIFY: &[Place] = &[Place::One(Kind::Fixed(Word::AtomModify)), Place::Rest];

const ECHO: &[Place] = &[Place::One(Kind::Fixed(Word::Echo)), Place::Rest];

/// The places of a form.
pub(crate) fn places(form: SetupForm) -> &'static [Place]
    ensures { result.now ≡ places form }
{
    match form {
        SetupForm::Units => UNITS,
        SetupForm::Dimension => DIMENSION,
        SetupForm::Boundary => BOUNDARY,
        SetupForm::AtomStyle => ATOM_STYLE,
        SetupForm::Processors => PROCESSORS,
        SetupForm::Newton => NEWTON,
        SetupForm::AtomModify => ATOM_MODIFY,
        SetupForm::Echo => ECHO,
    }
}

/// Whether the boundary of an axis is periodic.
fn is_periodic(words: &[Text], place: usize) -> bool
    ensures { result ≡ is_periodic place words.now }
{
    is_word(words, place, Word::P) || is_word(words, place, Word::Pp)
}

/// The atom style of a word.
fn atom_style(text: &[u8]) -> AtomStyle
    ensures { result ≡ atom_style text.now }
{
    if text == text_of(Word::Bond) {
        return AtomStyle::Bond;
    }
    if text == text_of(Word::Angle) {
        return AtomStyle::Angle;
    }
    if text == text_of(Word::Molecular) {
        return AtomStyle::Molecular;
    }
    AtomStyle::Atomic
}

/// How many bricks an axis has; `*` means 1.
fn bricks(words: &[Text], place: usize) -> Result<u64, WordRefusal>
    ensures is { result ≡ bricks place words.now }
    ensures low { IfOk result (λ n. 1 ≤ n) }
{
    if is_among(Words::Star, word(words, place)) {
        return Ok(1);
    }
    whole(words, place, 1, MAX_WHOLE)
}

/// The grid of these bricks, if there are not too many.
#[tactic(auto, using(crate::proofs::Products::above_first, crate::proofs::Products::above_second, crate::proofs::Products::above_third))]
fn grid(x: u64, y: u64, z: u64) -> Option<[u32; 3]>
    requires x { 1 ≤ x }
    requires y { 1 ≤ y }
    requires z { 1 ≤ z }
    ensures { result ≡ grid x y z }
{
    let most = u64::from(MAX_RANKS);
    if x > most {
        return None;
    }
    if y > most {
        return None;
    }
    if z > most {
        return None;
    }
    if x * y * z > most {
        return None;
    }
    Some([x as u32, y as u32, z as u32])
}

/// `processors`.
fn processors(words: &[Text]) -> Result<Command, WordRefusal>
    ensures { result ≡ processors words.now }
{
    let x = bricks(words, 1)?;
    let y = bricks(words, 2)?;
    let z = bricks(words, 3)?;
    match grid(x, y, z) {
        Some(grid) => Ok(Command::Processors(grid)),
        None => Err(WordRefusal::BadValue(3)),
    }
}

/// `dimension`.
fn dimension(words: &[Text]) -> Result<Command, WordRefusal>
    ensures { result ≡ then (whole 1 2 3 words.now) (λ n. Ok (Command.Dimension n)) }
{
    let n = whole(words, 1, 2, 3)?;
    Ok(Command::Dimension(n as u8))
}

/// The boundaries of `boundary`.
fn boundaries(words: &[Text]) -> [bool; 3]
    ensures { result ≡ is_periodic 1 words.now ∷ is_periodic 2 words.now ∷ is_periodic 3 words.now ∷ [] }
{
    let x = is_periodic(words, 1);
    let y = is_periodic(words, 2);
    let z = is_periodic(words, 3);
    [x, y, z]
}

/// The command of the words of a form.
pub(crate) fn make(form: SetupForm, words: &[Text]) -> Result<Command, WordRefusal>
    ensures { result ≡ make form words.now }
{
    match form {
        SetupForm::Units => Ok(Command::Units),
        SetupForm::Dimension => dimension(words),
        SetupForm::Boundary => Ok(Command::Boundary(boundaries(words))),
        SetupForm::AtomStyle => Ok(Command::AtomStyle(atom_style(word(words, 1)))),
        SetupForm::Processors => processors(words),
        SetupForm::Newton => Ok(Command::Newton),
        SetupForm::AtomModify => Ok(Command::AtomModify),
        SetupForm::Echo => Ok(Command::Echo),
    }
}
