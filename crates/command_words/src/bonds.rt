//! Bonds, angles and special weights: `special_bonds`, `bond_style`, `bond_coeff`, `angle_style`,
//! `angle_coeff`.
ghost use Rattle.std.specs.Prelude.{◌≡◌};
ghost use Rattle.command_words.specs.Bonds.{angle_coeff, bond_coeff, make, places, special_bonds, weight};

use crate::command::Command;
use crate::places::{Kind, Place};
use crate::ranges::KindRange;
use crate::refusal::WordRefusal;
use crate::values::{kinds, number};
use crate::vocabulary::{Word, Words};
use box_geo::limits::{FULL_WEIGHT, MAX_REST_LENGTH, MAX_STIFFNESS};
use fx_num::Text;

/// What `bond_coeff` sets.
#[derive(Drop)]
pub struct BondCoeff {
    /// The bond types.
    pub kinds: KindRange,
    /// The stiffness.
    pub stiffness: i64,
    /// The rest length.
    pub length: i64,
}

/// What `angle_coeff` sets.
#[derive(Drop)]
pub struct AngleCoeff {
    /// The angle types.
    pub kinds: KindRange,
    /// The stiffness.
    pub stiffness: i64,
}

/// The forms of these commands.
#[derive(Clone, Copy)]
pub(crate) enum BondsForm {
    SpecialBonds,
    BondStyle,
    BondCoeff,
    AngleStyle,
    AngleCoeff,
}

const SPECIAL_BONDS: &[Place] = &[
    Place::One(Kind::Fixed(Word::SpecialBonds)),
    Place::One(Kind::OneOf(Words::Weights)),
    Place::One(Kind::Number),
    Place::One(Kind::Number),
    Place::One(Kind::Number),
];

const BOND_STYLE: &[Place] = &[
    Place::One(Kind::Fixed(Word::BondStyle)),
    Place::One(Kind::Fixed(Word::Harmonic)),
];

const BOND_COEFF: &[Place] = &[
    Place::One(Kind::Fixed(Word::BondCoeff)),
    Place::One(Kind::Kinds),
    Place::One(Kind::Number),
    Place::One(Kind::Number),
];

const ANGLE_STYLE: &[Place] = &[
    Place::One(Kind::Fixed(Word::AngleStyle)),
    Place::One(Kind::Fixed(Word::Cosine)),
];

const ANGLE_COEFF: &[Place] = &[
    Place::One(Kind::Fixed(Word::AngleCoeff)),
    Place::One(Kind::Kinds),
    Place::One(Kind::Number),
];

/// The places of a form.
pub(crate) fn places(form: BondsForm) -> &'static [Place]
    ensures { result.now ≡ places form }
{
    match form {
        BondsForm::SpecialBonds => SPECIAL_BONDS,
        BondsForm::BondStyle => BOND_STYLE,
        BondsForm::BondCoeff => BOND_COEFF,
        BondsForm::AngleStyle => ANGLE_STYLE,
        BondsForm::AngleCoeff => ANGLE_COEFF,
    }
}

/// A special weight.
fn weight(words: &[Text], place: usize) -> Result<i64, WordRefusal>
    ensures { result ≡ weight place words.now }
{
    number(words, place, 0, FULL_WEIGHT)
}

/// `special_bonds`.
fn special_bonds(words: &[Text]) -> Result<Command, WordRefusal>
    ensures { result ≡ special_bonds words.now }
{
    let first = weight(words, 2)?;
    let second = weight(words, 3)?;
    let third = weight(words, 4)?;
    Ok(Command::SpecialBonds([first, second, third]))
}

/// `bond_coeff`.
fn bond_coeff(words: &[Text]) -> Result<Command, WordRefusal>
    ensures { result ≡ bond_coeff words.now }
{
    let kinds = kinds(words, 1)?;
    let stiffness = number(words, 2, 0, MAX_STIFFNESS)?;
    let length = number(words, 3, 0, MAX_REST_LENGTH)?;
    Ok(Command::BondCoeff(BondCoeff {
        kinds,
        stiffness,
        length,
    }))
}

/// `angle_coeff`.
fn angle_coeff(words: &[Text]) -> Result<Command, WordRefusal>
    ensures { result ≡ angle_coeff words.now }
{
    let kinds = kinds(words, 1)?;
    let stiffness = number(words, 2, 0, MAX_STIFFNESS)?;
    Ok(Command::AngleCoeff(AngleCoeff { kinds, stiffness }))
}

/// The command of the words of a form.
pub(crate) fn make(form: BondsForm, words: &[Text]) -> Result<Command, WordRefusal>
    ensures { result ≡ make form words.now }
{
    match form {
        BondsForm::SpecialBonds => special_bonds(words),
        BondsForm::BondStyle => Ok(Command::BondStyle),
        BondsForm::BondCoeff => bond_coeff(words),
        BondsForm::AngleStyle => Ok(Command::AngleStyle),
        BondsForm::AngleCoeff => angle_coeff(words),
    }
}
