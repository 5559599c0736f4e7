//! What a run came to, printed.
use crate::outer::Outcome;
use fx_num::Text;
use fxlmp_top::Status;
use outside::Piece;
use std::process::ExitCode;
use std::{io, str};

/// Prints what a run came to, of each text at most so many lines.
pub(crate) fn print_outcome(rt: &impl Print, outcome: &Outcome, most: u64) -> io::Result<()> {
    match (0..=u8::MAX).find(|number| outcome.code == ExitCode::from(*number)) {
        Some(number) => println!(rt; "exit {number}")?,
        None => println!(rt; "exit (no number)")?,
    }
    if !outcome.errors.is_empty() {
        print!(rt; "said ")?;
        print_text(rt, text_of(&outcome.errors), most)?;
    }
    print_pieces(rt, outcome.press.pieces(), most)
}

/// Prints the status of a call, and its pieces.
pub(crate) fn print_call(
    rt: &impl Print,
    status: &Status,
    pieces: &[Piece],
    most: u64,
) -> io::Result<()> {
    print_status(rt, status)?;
    print_pieces(rt, pieces, most)
}

/// Prints a status with all that it says.
fn print_status(rt: &impl Print, status: &Status) -> io::Result<()> {
    match status {
        Status::ScriptRefused { code, file, line } => {
            let (code, file) = (code.name(), shown(file));
            println!(rt; "refused with {code} at {file}:{line}")
        }
        Status::NotBuilt { file, line } => {
            let file = shown(file);
            println!(rt; "not built at {file}:{line}")
        }
        Status::Budget { file, line } => {
            let file = shown(file);
            println!(rt; "too many lines at {file}:{line}")
        }
        Status::RangeFault { key, step } => {
            let (phase, kind, a, b) = (key.phase, key.kind, key.a, key.b);
            println!(rt; "fault {phase} {kind} {a} {b} at step {step}")
        }
        Status::Usage { place } => println!(rt; "wrong word at place {place}"),
        Status::Done
        | Status::ReadFault
        | Status::WriteFault
        | Status::DiskFault
        | Status::NoMemory => {
            let number = status.number();
            println!(rt; "status {number}")
        }
    }
}

/// Prints the pieces.
fn print_pieces(rt: &impl Print, pieces: &[Piece], most: u64) -> io::Result<()> {
    for piece in pieces {
        print_piece(rt, piece, most)?;
    }
    Ok(())
}

/// Prints a piece.
fn print_piece(rt: &impl Print, piece: &Piece, most: u64) -> io::Result<()> {
    let kind = if piece.fresh { "new" } else { "more" };
    let name = shown(&piece.name);
    print!(rt; "{kind} {name} ")?;
    print_text(rt, shown(&piece.bytes), most)
}

/// The text of bytes.
fn text_of(bytes: &[u8]) -> &str {
    str::from_utf8(bytes).unwrap_or("(no text)")
}

/// The text of a list of bytes.
fn shown(text: &Text) -> &str {
    text_of(text.as_bytes())
}

/// Prints the lines of a text as the input would write them.
fn print_text(rt: &impl Print, text: &str, most: u64) -> io::Result<()> {
    if text.is_empty() {
        println!(rt; "+")
    } else {
        print_lines(rt, text, most)
    }
}

/// Prints the lines of a text that is not empty.
fn print_lines(rt: &impl Print, text: &str, most: u64) -> io::Result<()> {
    let mut left = most;
    let mut last = None;
    for line in text.split('\n') {
        if let Some(line) = last {
            if left == 0 {
                return println!(rt; "..");
            }
            left -= 1;
            println!(rt; "| {line}")?;
        }
        last = Some(line);
    }
    match last {
        None | Some("") => Ok(()),
        Some(_) if left == 0 => println!(rt; ".."),
        Some(rest) => println!(rt; "+ {rest}"),
    }
}
