//! What a data file says, put into the settings.
ghost use Rattle.data_file.specs.Data.{contents_of};
ghost use Rattle.data_file.specs.Sound.{IsPairLine, IsSoundSet};
ghost use Rattle.command_words.specs.Limits.{IsCutoff};
ghost use Rattle.meaning.specs.Answers.{Answers, Gets};
ghost use Rattle.meaning.specs.Sound.{IsSound};
ghost use Rattle.meaning.specs.SystemFiles.{body_of, is_uncovered_line, pair_of, pairs_with, taken, with_lines};
ghost use Rattle.std.specs.List.{All, list_any};
ghost use Rattle.std.specs.Prelude.{◌≡◌, ◌≤◌, None, IfOk, IfSome, OnOk};

use data_file::{DataSet, PairLine};
use fx_num::NoMemory;
use meaning::{Body, Code, PairCoefficients, PairSettings, Settings, SettingsRefusal};
use std::alloc::Global;

/// The coefficients that a line gives: of the pair of its type with itself. Without a cutoff of its own that of the style counts.
fn pair_of(cutoff: &i64, line: &PairLine) -> PairCoefficients
    ensures { result ≡ pair_of cutoff.now line.now }
{
    PairCoefficients {
        i: line.kind,
        j: line.kind,
        epsilon: line.epsilon,
        sigma: line.sigma,
        cutoff: line.cutoff.unwrap_or(*cutoff),
    }
}

/// Whether the size of a line is above four times the cutoff that counts.
fn is_uncovered(cutoff: &i64, line: &PairLine) -> bool
    ensures { result ≡ is_uncovered_line cutoff.now line.now }
{
    let pair = pair_of(cutoff, line);
    !pair.is_covered(&pair.cutoff)
}

/// Whether that is so of one of the lines.
fn has_uncovered(cutoff: &i64, lines: &[PairLine]) -> bool
    ensures { result ≡ list_any (is_uncovered_line cutoff.now) lines.now }
{
    for line in lines {
        if is_uncovered(cutoff, line) {
            return true;
        }
    }
    false
}

/// The pairs with those of the lines.
fn with_lines(
    alloc: Global,
    cutoff: &i64,
    lines: &[PairLine],
    pairs: &PairSettings,
) -> Result<PairSettings, NoMemory>
    ensures { IfOk result (λ new. new ≡ with_lines cutoff.now lines.now pairs.now) }
{
    let mut new = pairs.copy(alloc)?;
    for line in lines {
        new.set(&pair_of(cutoff, line))?;
    }
    Ok(new)
}

/// The pairs that are set with those of the lines, which need a pair style, and their sizes the cutoffs that count.
fn pairs_with(
    alloc: Global,
    style: &Option<i64>,
    lines: &[PairLine],
    pairs: &PairSettings,
) -> Result<PairSettings, SettingsRefusal>
    ensures { Gets (pairs_with style.now lines.now pairs.now) result }
{
    let Some(cutoff) = style else {
        if lines.is_empty() {
            return Ok(pairs.copy(alloc)?);
        }
        return Err(SettingsRefusal::Code(Code::DataLine));
    };
    if has_uncovered(cutoff, lines) {
        return Err(SettingsRefusal::Code(Code::DataLine));
    }
    Ok(with_lines(alloc, cutoff, lines, pairs)?)
}

/// Takes what a data file says: its box and what is in it, and its coefficients of pairs. It was read for the style, the
/// boundaries and the dimension of the settings.
pub fn take_data(
    settings: &mut Settings,
    alloc: Global,
    set: DataSet,
) -> Result<(), SettingsRefusal>
    requires sound { IsSound settings.old }
    requires set { IsSoundSet settings.old.setup.style settings.old.setup.dim (contents_of set) }
    ensures is { Answers (taken (contents_of set) settings.old) result settings.old settings.new }
    ensures sound { OnOk result (IsSound settings.new) }
{
    if set.has_bond || set.has_angle {
        return Err(SettingsRefusal::Code(Code::DataLine));
    }
    let force = &settings.force;
    let pairs = pairs_with(alloc, &force.pair_style, set.pair.as_slice(), &force.pairs)?;
    settings.force.pairs = pairs;
    settings.body = Some(Body {
        step: 0,
        sides: set.cell.sides,
        mass: set.mass,
        atoms: set.atoms,
        bonds: set.bonds,
        angles: set.angles,
    });
    Ok(())
}
