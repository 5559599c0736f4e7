//! The lines of errors.
ghost use Rattle.std.specs.Prelude.{◌≡◌, ◌++◌, ◌≤◌, IfOk, OnErr, OnOk};
ghost use Rattle.std.specs.Fmt.{decimal};
ghost use Rattle.log_output.specs.Errors.{budget_text, fault_text, kind_name, phase_name, refusal_text};

use arrayvec::ArrayString;
use box_geo::{FaultKey, FaultKind, FaultPhase};
use fx_num::{NoMemory, Text, print_whole};
use std::alloc::Global;

/// The name of a fault's phase.
fn phase_name(phase: u8) -> &'static [u8]
    ensures { result.now ≡ phase_name phase }
{
    if phase == FaultPhase::Drift.number() {
        b"drift"
    } else if phase == FaultPhase::Forces.number() {
        b"forces"
    } else {
        b"kick"
    }
}

/// The name of a fault's kind.
fn kind_name(kind: u8) -> &'static [u8]
    ensures { result.now ≡ kind_name kind }
{
    if kind == FaultKind::Close.number() {
        b"Close"
    } else if kind == FaultKind::Bond.number() {
        b"Bond"
    } else if kind == FaultKind::Angle.number() {
        b"Angle"
    } else if kind == FaultKind::Force.number() {
        b"Force"
    } else if kind == FaultKind::Speed.number() {
        b"Speed"
    } else if kind == FaultKind::Lost.number() {
        b"Lost"
    } else {
        b"Image"
    }
}

/// Appends a whole number, in decimal digits. A refusal leaves the text as it was.
pub fn push_whole(text: &mut Text, n: u64) -> Result<(), NoMemory>
    ensures appended { OnOk result (text.new ≡ text.old ++ decimal n) }
    ensures unchanged { OnErr result (text.new ≡ text.old) }
{
    let mut digits = ArrayString::new();
    print_whole(n, &mut digits);
    text.push(digits.as_bytes())
}

/// The line of a fault at a step.
#[tactic(auto, unfolding(crate::specs::Errors::fault_text))]
pub fn fault_text(alloc: Global, key: &FaultKey, step: u64) -> Result<Text, NoMemory>
    ensures { IfOk result (λ text. text ≡ fault_text key.now step) }
{
    let mut text = Text::from_bytes(alloc, b"ERROR: ")?;
    text.push(kind_name(key.kind))?;
    text.push(b" ")?;
    push_whole(&mut text, u64::from(key.a))?;
    text.push(b" ")?;
    push_whole(&mut text, u64::from(key.b))?;
    text.push(b" in ")?;
    text.push(phase_name(key.phase))?;
    text.push(b" at step ")?;
    push_whole(&mut text, step)?;
    text.push(b"\n")?;
    Ok(text)
}

/// The line of a refusal: the name of its code, the file and the line.
#[tactic(auto, unfolding(crate::specs::Errors::refusal_text))]
pub fn refusal_text(alloc: Global, code: &str, file: &[u8], line: u32) -> Result<Text, NoMemory>
    ensures { IfOk result (λ text. text ≡ refusal_text code.now file.now line) }
{
    let mut text = Text::from_bytes(alloc, b"ERROR: ")?;
    text.push(code.as_bytes())?;
    text.push(b" at ")?;
    text.push(file)?;
    text.push(b":")?;
    push_whole(&mut text, u64::from(line))?;
    text.push(b"\n")?;
    Ok(text)
}

/// The line of a script that would run more lines than it may.
#[tactic(auto, unfolding(crate::specs::Errors::budget_text))]
pub fn budget_text(alloc: Global, file: &[u8], line: u32) -> Result<Text, NoMemory>
    ensures { IfOk result (λ text. text ≡ budget_text file.now line) }
{
    refusal_text(alloc, "Budget", file, line)
}
