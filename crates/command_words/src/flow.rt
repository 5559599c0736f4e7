//! Control flow: `label`, `jump`, `include`, `if`.
ghost use Rattle.std.specs.Prelude.{◌≡◌, ◌≤◌, ◌++◌, Some, [], IfOk, length};
ghost use Rattle.std.specs.List.{prefix_len};
ghost use Rattle.command_words.specs.Flow.{branches_behind, branches_from, choice_in, is_other, jump_in, jump_file, jump_label, make, places};
ghost use Rattle.command_words.specs.Values.{word};

use crate::command::Command;
use crate::places::{Kind, Place};
use crate::values::{behind, is_word, text, texts, word};
use crate::vocabulary::{Word, text_of};
use fx_num::{NoMemory, Seq, Text};
use std::alloc::Global;

/// Where `jump` goes.
#[derive(Drop)]
pub struct Jump {
    /// The file's name, or `None` for `SELF`, the file that is read.
    pub file: Option<Text>,
    /// The label's name, if there is one.
    pub label: Option<Text>,
}

/// What `if` chooses from: the commands of the first branch whose condition holds, else the others.
#[derive(Drop)]
pub struct Choice {
    /// The branch of `if` and those of each `elif`, in order.
    pub branches: Seq<Branch>,
    /// The commands of `else`; none without it.
    pub otherwise: Seq<Text>,
}

/// A condition and its commands.
#[derive(Drop)]
pub struct Branch {
    /// The text of the condition.
    pub condition: Text,
    /// The texts of the commands, at least one.
    pub commands: Seq<Text>,
}

/// The forms of these commands.
#[derive(Clone, Copy)]
pub(crate) enum FlowForm {
    Label,
    Jump,
    JumpLabel,
    Include,
    If,
}

const LABEL: &[Place] = &[Place::One(Kind::Fixed(Word::Label)), Place::One(Kind::Name)];

const JUMP: &[Place] = &[Place::One(Kind::Fixed(Word::Jump)), Place::One(Kind::File)];

const JUMP_LABEL: &[Place] = &[
    Place::One(Kind::Fixed(Word::Jump)),
    Place::One(Kind::File),
    Place::One(Kind::Name),
];

const INCLUDE: &[Place] = &[
    Place::One(Kind::Fixed(Word::Include)),
    Place::One(Kind::File),
];

const IF: &[Place] = &[Place::One(Kind::Fixed(Word::If)), Place::Branches];

/// The places of a form.
pub(crate) fn places(form: FlowForm) -> &'static [Place]
    ensures { result.now ≡ places form }
{
    match form {
        FlowForm::Label => LABEL,
        FlowForm::Jump => JUMP,
        FlowForm::JumpLabel => JUMP_LABEL,
        FlowForm::Include => INCLUDE,
        FlowForm::If => IF,
    }
}

/// The file of `jump`; none for `SELF`.
fn jump_file(alloc: Global, words: &[Text]) -> Result<Option<Text>, NoMemory>
    ensures { IfOk result (λ file. file ≡ jump_file words.now) }
{
    if is_word(words, 1, Word::SELF) {
        return Ok(None);
    }
    Ok(Some(text(alloc, words, 1)?))
}

/// `jump` without a label.
fn jump_in(alloc: Global, words: &[Text]) -> Result<Command, NoMemory>
    ensures { IfOk result (λ c. c ≡ jump_in words.now) }
{
    let file = jump_file(alloc, words)?;
    Ok(Command::Jump(Jump { file, label: None }))
}

/// `jump` to a label.
fn jump_label(alloc: Global, words: &[Text]) -> Result<Command, NoMemory>
    ensures { IfOk result (λ c. c ≡ jump_label words.now) }
{
    let file = jump_file(alloc, words)?;
    let label = text(alloc, words, 2)?;
    Ok(Command::Jump(Jump {
        file,
        label: Some(label),
    }))
}

/// Whether a word is another than this one.
fn is_other(wanted: Word, text: &[u8]) -> bool
    ensures { result ≡ is_other wanted text.now }
{
    text != text_of(wanted)
}

/// How many words stand before the first that is this one.
fn count_before(wanted: Word, words: &[Text]) -> usize
    ensures is { result ≡ prefix_len (is_other wanted) words.now }
    ensures bound { result ≤ length words.now }
{
    for (i, word) in words.iter().enumerate() {
        if !is_other(wanted, word.as_bytes()) {
            return i;
        }
    }
    words.len()
}

/// A condition and its commands.
fn branch_in(alloc: Global, condition: &[u8], commands: &[Text]) -> Result<Branch, NoMemory>
    ensures { IfOk result (λ b. b ≡ record { condition = condition.now; commands = commands.now }) }
{
    let condition = Text::from_bytes(alloc, condition)?;
    let commands = texts(alloc, commands)?;
    Ok(Branch {
        condition,
        commands,
    })
}

/// Appends the branch of a condition and the words behind it, up to an `elif`. The answer is the words from
/// the `elif` on.
#[tactic(auto, using(crate::proofs::BranchLemmas::branch_pushed))]
fn push_branch<'a>(
    alloc: Global,
    branches: &mut Seq<Branch>,
    condition: &[u8],
    words: &'a [Text],
) -> Result<&'a [Text], NoMemory>
    ensures shorter { IfOk result (λ rest. length rest.now ≤ length words.now) }
    ensures pushed { IfOk result (λ rest. branches.new ++ branches_behind rest.now ≡ branches.old ++ branches_from (Some condition.now) [] words.now) }
{
    let (commands, rest) = words.split_at(count_before(Word::Elif, words));
    branches.push(branch_in(alloc, condition, commands)?)?;
    Ok(rest)
}

/// The branches of these words behind the condition of the first one.
fn branches(alloc: Global, condition: &[u8], words: &[Text]) -> Result<Seq<Branch>, NoMemory>
    ensures { IfOk result (λ b. b ≡ branches_from (Some condition.now) [] words.now) }
{
    let mut branches = Seq::new(alloc);
    let mut rest = push_branch(alloc, &mut branches, condition, words)?;
    'parts: while let [_, condition, more @ ..] = rest {
        rest = push_branch(alloc, &mut branches, condition.as_bytes(), more)?;
    }
    Ok(branches)
}

/// What `if` chooses from.
fn choice_in(alloc: Global, words: &[Text]) -> Result<Choice, NoMemory>
    ensures { IfOk result (λ c. c ≡ choice_in words.now) }
{
    let parts = behind(words, 3);
    let (first, last) = parts.split_at(count_before(Word::Else, parts));
    let branches = branches(alloc, word(words, 1), first)?;
    let otherwise = texts(alloc, behind(last, 1))?;
    Ok(Choice {
        branches,
        otherwise,
    })
}

/// The command of the words of a form.
pub(crate) fn make(alloc: Global, form: FlowForm, words: &[Text]) -> Result<Command, NoMemory>
    ensures { IfOk result (λ c. c ≡ make form words.now) }
{
    match form {
        FlowForm::Label => Ok(Command::Label(text(alloc, words, 1)?)),
        FlowForm::Jump => jump_in(alloc, words),
        FlowForm::JumpLabel => jump_label(alloc, words),
        FlowForm::Include => Ok(Command::Include(text(alloc, words, 1)?)),
        FlowForm::If => Ok(Command::If(choice_in(alloc, words)?)),
    }
}
