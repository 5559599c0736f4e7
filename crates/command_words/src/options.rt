//! Options: words that stand behind the other words of a command, each with a value.
ghost use Rattle.std.specs.Prelude.{◌≡◌};
ghost use Rattle.command_words.specs.Options.{choices_in, kind_of_option};

use crate::places::Kind;
use crate::vocabulary::{Word, Words, text_of};

/// An option and what its value may be.
#[derive(Clone, Copy)]
pub(crate) struct Choice {
    pub(crate) word: Word,
    pub(crate) kind: Kind,
}

/// The options of a form.
#[derive(Clone, Copy)]
pub(crate) enum Options {
    Region,
    Units,
    Box,
    Pair,
    Neigh,
    Draw,
    Average,
    Thermo,
    Dump,
}

const REGION: &[Choice] = &[
    Choice {
        word: Word::Side,
        kind: Kind::OneOf(Words::Sides),
    },
    Choice {
        word: Word::Units,
        kind: Kind::OneOf(Words::Scales),
    },
];

const UNITS: &[Choice] = &[Choice {
    word: Word::Units,
    kind: Kind::OneOf(Words::Scales),
}];

const BOX: &[Choice] = &[
    Choice {
        word: Word::BondTypes,
        kind: Kind::Whole,
    },
    Choice {
        word: Word::AngleTypes,
        kind: Kind::Whole,
    },
    Choice {
        word: Word::ExtraBondPerAtom,
        kind: Kind::Whole,
    },
    Choice {
        word: Word::ExtraAnglePerAtom,
        kind: Kind::Whole,
    },
    Choice {
        word: Word::ExtraSpecialPerAtom,
        kind: Kind::Whole,
    },
];

const PAIR: &[Choice] = &[
    Choice {
        word: Word::Shift,
        kind: Kind::OneOf(Words::YesNo),
    },
    Choice {
        word: Word::Mix,
        kind: Kind::OneOf(Words::Mixes),
    },
    Choice {
        word: Word::Tail,
        kind: Kind::Fixed(Word::No),
    },
];

const NEIGH: &[Choice] = &[
    Choice {
        word: Word::Every,
        kind: Kind::Whole,
    },
    Choice {
        word: Word::Delay,
        kind: Kind::Whole,
    },
    Choice {
        word: Word::Check,
        kind: Kind::OneOf(Words::YesNo),
    },
    Choice {
        word: Word::Once,
        kind: Kind::Fixed(Word::No),
    },
    Choice {
        word: Word::One,
        kind: Kind::Whole,
    },
    Choice {
        word: Word::Page,
        kind: Kind::Whole,
    },
];

const DRAW: &[Choice] = &[
    Choice {
        word: Word::Dist,
        kind: Kind::Fixed(Word::Uniform),
    },
    Choice {
        word: Word::Mom,
        kind: Kind::OneOf(Words::YesNo),
    },
    Choice {
        word: Word::Rot,
        kind: Kind::Fixed(Word::No),
    },
    Choice {
        word: Word::Sum,
        kind: Kind::Fixed(Word::No),
    },
    Choice {
        word: Word::Loop,
        kind: Kind::OneOf(Words::Loops),
    },
];

const AVERAGE: &[Choice] = &[
    Choice {
        word: Word::File,
        kind: Kind::File,
    },
    Choice {
        word: Word::Ave,
        kind: Kind::Fixed(Word::One),
    },
];

const THERMO: &[Choice] = &[
    Choice {
        word: Word::Norm,
        kind: Kind::OneOf(Words::YesNo),
    },
    Choice {
        word: Word::Lost,
        kind: Kind::Fixed(Word::Error),
    },
    Choice {
        word: Word::Flush,
        kind: Kind::OneOf(Words::YesNo),
    },
];

const DUMP: &[Choice] = &[
    Choice {
        word: Word::Scale,
        kind: Kind::OneOf(Words::YesNo),
    },
    Choice {
        word: Word::Sort,
        kind: Kind::Fixed(Word::Id),
    },
];

/// The options of a form, each with what its value may be.
pub(crate) fn choices_in(options: Options) -> &'static [Choice]
    ensures { result.now ≡ choices_in options }
{
    match options {
        Options::Region => REGION,
        Options::Units => UNITS,
        Options::Box => BOX,
        Options::Pair => PAIR,
        Options::Neigh => NEIGH,
        Options::Draw => DRAW,
        Options::Average => AVERAGE,
        Options::Thermo => THERMO,
        Options::Dump => DUMP,
    }
}

/// What the value of the option of this text may be, if it is one of these options.
pub(crate) fn kind_of_option(choices: &[Choice], text: &[u8]) -> Option<Kind>
    ensures { result ≡ kind_of_option choices.now text.now }
{
    for choice in choices {
        if text_of(choice.word) == text {
            return Some(choice.kind);
        }
    }
    None
}
