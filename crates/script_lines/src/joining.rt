//! How physical lines are joined to logical lines.
ghost use Rattle.std.specs.Prelude.{◌≡◌, ◌+◌, ◌++◌, ◌^◌, ◌<◌, [], length, IfOk, IfSome, OnOk};
ghost use Rattle.script_lines.specs.Joining.{before_line, joined_by, joint_of, mark_of, IsLogical, IsRead, Passes};

use crate::modes::is_blank;
use crate::physical::first_line;
use crate::reading::Reading;
use fx_num::{NoMemory, Text};
use std::alloc::Global;

/// How a logical line goes on behind a physical line.
#[derive(Clone, Copy)]
pub(crate) enum Joint {
    /// It ends.
    Ends,
    /// By an `&`, which goes with all behind it.
    ByMark,
    /// In triple quotes, behind a line feed.
    InQuotes,
}

/// Where the `&` stands that is the last byte of a line but for blanks, if there is one.
fn mark_of(line: &[u8]) -> Option<usize>
    ensures is { result ≡ mark_of line.now }
    ensures within { IfSome result (λ i. i < length line.now) }
{
    let mut mark = None;
    for (i, byte) in line.iter().enumerate() {
        if *byte == b'&' {
            mark = Some(i);
        } else if !is_blank(*byte) {
            mark = None;
        }
    }
    mark
}

/// What is joined of a logical line so far, and how it is read.
#[derive(Drop)]
struct Joined {
    text: Text,
    reading: Reading,
}

impl Joined {
    fn new(alloc: Global) -> Joined
        ensures text { result.text ≡ [] }
        ensures read { IsRead result.text result.reading.mode result.reading.opened }
    {
        Joined {
            text: Text::new(alloc),
            reading: Reading::new(alloc),
        }
    }

    fn append(&mut self, bytes: &[u8]) -> Result<(), NoMemory>
        requires { IsRead self.old.text self.old.reading.mode self.old.reading.opened }
        ensures text { OnOk result (self.new.text ≡ self.old.text ++ bytes.now) }
        ensures read { OnOk result (IsRead self.new.text self.new.reading.mode self.new.reading.opened) }
    {
        self.text.push(bytes)?;
        self.reading.read(bytes)?;
        Ok(())
    }

    /// Appends what stands before the next physical line.
    fn begin_line(&mut self, joint: Joint) -> Result<(), NoMemory>
        requires { IsRead self.old.text self.old.reading.mode self.old.reading.opened }
        ensures text { OnOk result (self.new.text ≡ before_line joint self.old.text) }
        ensures read { OnOk result (IsRead self.new.text self.new.reading.mode self.new.reading.opened) }
    {
        match joint {
            Joint::InQuotes => self.append(b"\n"),
            Joint::Ends | Joint::ByMark => Ok(()),
        }
    }

    /// Appends a physical line.
    fn join(&mut self, joint: Joint, line: &[u8]) -> Result<Joint, NoMemory>
        requires { IsRead self.old.text self.old.reading.mode self.old.reading.opened }
        ensures joint { IfOk result (λ j. j ≡ joint_of (before_line joint self.old.text) line.now) }
        ensures text { IfOk result (λ j. self.new.text ≡ joined_by j (before_line joint self.old.text) line.now) }
        ensures read { OnOk result (IsRead self.new.text self.new.reading.mode self.new.reading.opened) }
    {
        self.begin_line(joint)?;
        let mark = mark_of(line);
        let (front, tail) = line.split_at(mark.unwrap_or(line.len()));
        self.append(front)?;
        if self.reading.is_triple() {
            self.append(tail)?;
            return Ok(Joint::InQuotes);
        }
        match mark {
            Some(_) => Ok(Joint::ByMark),
            None => Ok(Joint::Ends),
        }
    }
}

/// A logical line, and what stands behind it.
#[derive(Drop)]
pub(crate) struct LogicalLine<'a> {
    /// Its text, or none where it goes on behind the end.
    pub(crate) text: Option<Text>,
    /// The text behind it.
    pub(crate) after: &'a [u8],
    /// How many line feeds stand before that.
    pub(crate) ended: u32,
}

/// The first logical line of a text that has one, where so many line feeds stand before it.
pub(crate) fn logical_line<'a>(
    alloc: Global,
    text: &'a [u8],
    ended: u32,
) -> Result<LogicalLine<'a>, NoMemory>
    requires some { 0 < length text.now }
    requires small { ended + length text.now < 2 ^ 32 }
    ensures is { IfOk result (λ line. IsLogical (ended + 1) text.now line.text (line.ended + 1) line.after.now) }
    ensures passes { IfOk result (λ line. Passes text.now line.after.now ended line.ended) }
    ensures farther { IfOk result (λ line. length line.after.now < length text.now) }
{
    let mut joined = Joined::new(alloc);
    let mut joint = Joint::Ends;
    let mut after = text;
    let mut passed = ended;
    'joining: loop {
        let line = first_line(after);
        after = line.after;
        passed += line.ended;
        joint = joined.join(joint, line.bytes)?;
        let ends = matches!(joint, Joint::Ends);
        if ends || after.is_empty() {
            break 'joining;
        }
    }
    let Joined { text, reading: _ } = joined;
    Ok(LogicalLine {
        text: match joint {
            Joint::ByMark => None,
            Joint::Ends | Joint::InQuotes => Some(text),
        },
        after,
        ended: passed,
    })
}
