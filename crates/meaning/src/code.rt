//! Why a script is refused.
ghost use Rattle.meaning.specs.Codes.{code_name, code_number};
ghost use Rattle.std.specs.Prelude.{◌≡◌};

/// Why a script is refused, in the order of the numbers, from 1. Where several codes fit one command, the least is
/// answered.
#[derive(Clone, Copy, Debug, PartialEq, Eq)]
pub enum Code {
    /// A quote does not close.
    UnclosedQuote,
    /// A `&` at the end of the last line.
    ContinuationAtEnd,
    /// A `$` that begins no substitution.
    BadDollar,
    /// A closing quote that neither a blank, a comment nor the end follows.
    QuoteTail,
    /// No command has this name.
    UnknownCommand,
    /// No form of the command has so many words.
    WordCount,
    /// A word with which no form of the command goes on.
    BadWord,
    /// A number outside a limit.
    BadValue,
    /// Nothing has this name.
    UnknownName,
    /// Something has this name.
    NameExists,
    /// Variables that have no next value together.
    Mixed,
    /// A variable that has no text.
    NotText,
    /// No formula.
    Syntax,
    /// A division by zero.
    DivideByZero,
    /// The value of a formula is out of range.
    FormulaRange,
    /// More levels are open than there may be.
    TooDeep,
    /// A variable's text is no number.
    NotNumber,
    /// The file has no such label.
    NoLabel,
    /// A file is not there.
    NoFile,
    /// A file is longer than what may be fetched.
    FileTooLong,
    /// More includes are open than there may be.
    IncludeTooDeep,
    /// The file's name has another use.
    NameUse,
    /// The name of a compressed file.
    CompressedName,
    /// There is no box.
    NoBox,
    /// There is a box.
    BoxExists,
    /// A style that does not go with another.
    WrongStyle,
    /// An edge that wraps is below twice the sum of the greatest cutoff and the skin.
    EdgeTooSmall,
    /// A mass, a coefficient or a style is not set.
    Unset,
    /// Two nve fixes move one atom.
    TwiceMoved,
    /// A data file has a line at fault.
    DataLine,
    /// No restart file is whole.
    NoneWhole,
    /// More atoms, groups or fixes than there may be.
    TooMany,
    /// A velocity is out of range.
    SpeedRange,
    /// A restart file's save number is at its end.
    Worn,
}

impl Code {
    /// The number of the code.
    pub fn number(&self) -> u8
        ensures { result ≡ code_number self.now }
    {
        match self {
            Code::UnclosedQuote => 1,
            Code::ContinuationAtEnd => 2,
            Code::BadDollar => 3,
            Code::QuoteTail => 4,
            Code::UnknownCommand => 5,
            Code::WordCount => 6,
            Code::BadWord => 7,
            Code::BadValue => 8,
            Code::UnknownName => 9,
            Code::NameExists => 10,
            Code::Mixed => 11,
            Code::NotText => 12,
            Code::Syntax => 13,
            Code::DivideByZero => 14,
            Code::FormulaRange => 15,
            Code::TooDeep => 16,
            Code::NotNumber => 17,
            Code::NoLabel => 18,
            Code::NoFile => 19,
            Code::FileTooLong => 20,
            Code::IncludeTooDeep => 21,
            Code::NameUse => 22,
            Code::CompressedName => 23,
            Code::NoBox => 24,
            Code::BoxExists => 25,
            Code::WrongStyle => 26,
            Code::EdgeTooSmall => 27,
            Code::Unset => 28,
            Code::TwiceMoved => 29,
            Code::DataLine => 30,
            Code::NoneWhole => 31,
            Code::TooMany => 32,
            Code::SpeedRange => 33,
            Code::Worn => 34,
        }
    }

    /// The name of the code, as it stands in the line of a refusal.
    pub fn name(&self) -> &'static str
        ensures { result.now ≡ code_name self.now }
    {
        match self {
            Code::UnclosedQuote => "UnclosedQuote",
            Code::ContinuationAtEnd => "ContinuationAtEnd",
            Code::BadDollar => "BadDollar",
            Code::QuoteTail => "QuoteTail",
            Code::UnknownCommand => "UnknownCommand",
            Code::WordCount => "WordCount",
            Code::BadWord => "BadWord",
            Code::BadValue => "BadValue",
            Code::UnknownName => "UnknownName",
            Code::NameExists => "NameExists",
            Code::Mixed => "Mixed",
            Code::NotText => "NotText",
            Code::Syntax => "Syntax",
            Code::DivideByZero => "DivideByZero",
            Code::FormulaRange => "FormulaRange",
            Code::TooDeep => "TooDeep",
            Code::NotNumber => "NotNumber",
            Code::NoLabel => "NoLabel",
            Code::NoFile => "NoFile",
            Code::FileTooLong => "FileTooLong",
            Code::IncludeTooDeep => "IncludeTooDeep",
            Code::NameUse => "NameUse",
            Code::CompressedName => "CompressedName",
            Code::NoBox => "NoBox",
            Code::BoxExists => "BoxExists",
            Code::WrongStyle => "WrongStyle",
            Code::EdgeTooSmall => "EdgeTooSmall",
            Code::Unset => "Unset",
            Code::TwiceMoved => "TwiceMoved",
            Code::DataLine => "DataLine",
            Code::NoneWhole => "NoneWhole",
            Code::TooMany => "TooMany",
            Code::SpeedRange => "SpeedRange",
            Code::Worn => "Worn",
        }
    }
}
