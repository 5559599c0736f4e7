//! The settings in which a call begins.
ghost use Rattle.fxlmp_top.specs.Serial.{defined_all, first_settings, first_uses, log_of};
ghost use Rattle.meaning.specs.Sound.{IsSound};
ghost use Rattle.std.specs.Prelude.{◌≡◌, [], IfOk};

use crate::asked::{Asked, Definition, LogChoice};
use crate::words::DEFAULT_LOG;
use fx_num::{NoMemory, Seq, Text, Words};
use meaning::{Output, Settings, UseKind, Uses};
use outside::SCREEN;
use session::begun_with;
use std::alloc::Global;
use var_table::{VarStyle, Vars};

/// The log's file, if there is one.
fn log_of(alloc: Global, log: &LogChoice) -> Result<Option<Text>, NoMemory>
    ensures { IfOk result (λ name. name ≡ log_of log.now) }
{
    match log {
        LogChoice::Default => Ok(Some(Text::from_bytes(alloc, DEFAULT_LOG)?)),
        LogChoice::File(name) => Ok(Some(name.copy(alloc)?)),
        LogChoice::Nowhere => Ok(None),
    }
}

/// The first uses of names: the screen, the log, and the script, unless its name has another use.
fn first_uses(alloc: Global, log: &Option<Text>, script: &Text) -> Result<Uses, NoMemory>
    ensures { IfOk result (λ uses. uses ≡ first_uses log.now script.now) }
{
    let mut uses = Uses::new(alloc);
    uses.push(Text::from_bytes(alloc, SCREEN)?, UseKind::Put)?;
    if let Some(log) = log {
        uses.push(log.copy(alloc)?, UseKind::Put)?;
    }
    if uses.kind_of(script).is_none() {
        uses.push(script.copy(alloc)?, UseKind::Fetched)?;
    }
    Ok(uses)
}

/// The same words.
fn copied(alloc: Global, words: &[Text]) -> Result<Words, NoMemory>
    ensures { IfOk result (λ texts. texts ≡ words.now) }
{
    let mut texts = Seq::new(alloc);
    for word in words {
        texts.push(word.copy(alloc)?)?;
    }
    Ok(texts)
}

/// The variables of the words, defined in order.
fn defined_all(alloc: Global, definitions: &[Definition]) -> Result<Vars, NoMemory>
    ensures { IfOk result (λ vars. vars ≡ defined_all definitions.now []) }
{
    let mut vars = Vars::new(alloc)?;
    for definition in definitions {
        let values = copied(alloc, definition.values.as_slice())?;
        vars.define(alloc, &definition.name, VarStyle::Index(values))?;
    }
    Ok(vars)
}

/// The settings in which the script of a call begins.
pub(crate) fn first_settings(
    alloc: Global,
    asked: &Asked,
    script: &Text,
) -> Result<Settings, NoMemory>
    ensures is { IfOk result (λ s. s ≡ first_settings asked.now script.now) }
    ensures sound { IfOk result IsSound }
{
    let log = log_of(alloc, &asked.log)?;
    let uses = first_uses(alloc, &log, script)?;
    let vars = defined_all(alloc, asked.vars.as_slice())?;
    let output = Output {
        every: 0,
        log,
        screen: asked.screen,
        uses,
    };
    begun_with(alloc, output, vars)
}
