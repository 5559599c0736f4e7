//! A variable under its name.
ghost use Rattle.std.specs.Prelude.{◌≡◌, ◌+◌, ◌^◌, ◌<◌, ◌∷◌, Some, [], drop, is_some};
ghost use Rattle.std.specs.Bool.{OnTrue};
ghost use Rattle.var_table.specs.Told.{told};
ghost use Rattle.var_table.specs.Variables.{first_of, go_together, held_by, index_after, is_named, next_style, with_style};

use crate::source::Source;
use crate::styles::VarStyle;
use fx_num::{Text, Words};
use std::marker::Model;

/// A variable under its name. Contracts see the values that it still has.
#[derive(Drop)]
pub(crate) struct Variable {
    name: Text,
    style: VarStyle,
    /// How many values of an index variable are past.
    past: usize,
}

impl Model for Variable {
    ghost use Rattle.var_table.specs.Left.{left_of};
    ghost use Rattle.var_table.specs.Variables.{Named};

    ghost Value = { Named };

    ghost view = { λ v. record { name = v.name; style = left_of v.style v.past } };
}

/// The present value of an index variable, where so many are past.
fn present(values: &Words, past: usize) -> &[u8]
    ensures { result.now ≡ first_of (drop past values.now) }
{
    match values.as_slice().get(past) {
        Some(value) => value.as_bytes(),
        None => &[],
    }
}

/// Whether an index variable has a value behind the present one, where so many are past.
fn has_more(values: &Words, past: usize) -> bool
    ensures more { result ≡ is_some (index_after (drop past values.now)) }
    ensures next { OnTrue result (index_after (drop past values.now) ≡ Some (VarStyle.Index (drop (past + 1) values.now))) }
    ensures room { OnTrue result (past + 1 < 2 ^ 64) }
{
    values.len().saturating_sub(past) > 1
}

impl Variable {
    pub(crate) fn new(name: Text, style: VarStyle) -> Variable
        ensures { result ≡ record { name = name; style = style } }
    {
        Variable {
            name,
            style,
            past: 0,
        }
    }

    /// Whether the variable has this name.
    pub(crate) fn is_named(&self, name: &[u8]) -> bool
        ensures { result ≡ is_named name.now self.now }
    {
        self.name.as_bytes() == name
    }

    /// Gives the variable another style.
    pub(crate) fn restyle(&mut self, style: VarStyle)
        ensures { self.new ≡ record { name = self.old.name; style = style } }
    {
        self.style = style;
        self.past = 0;
    }

    /// What the variable holds now.
    pub(crate) fn source(&self) -> Source<'_>
        ensures { told result ≡ held_by self.now.style }
    {
        match &self.style {
            VarStyle::Index(values) => Source::Text(present(values, self.past)),
            VarStyle::Loop { first, last: _ } => Source::Number(*first),
            VarStyle::Equal(formula) => Source::Equal(formula.as_bytes()),
            VarStyle::AtomWise(formula) => Source::AtomWise(formula.as_bytes()),
            VarStyle::Plain(text) => Source::Text(text.as_bytes()),
        }
    }

    /// Whether the two have a next value together.
    pub(crate) fn goes_with(&self, other: &Variable) -> bool
        ensures { result ≡ go_together (Some self.now.style) (Some other.now.style) }
    {
        match (&self.style, &other.style) {
            (VarStyle::Index(_), VarStyle::Index(_)) => true,
            (VarStyle::Loop { first: _, last: _ }, VarStyle::Loop { first: _, last: _ }) => true,
            _ => false,
        }
    }

    /// Takes the next value, and tells whether there is one.
    pub(crate) fn advance(&mut self) -> bool
        ensures is { result ≡ is_some (next_style self.old.style) }
        ensures moved { OnTrue result (with_style self.old (next_style self.old.style) ≡ self.new ∷ []) }
    {
        match &mut self.style {
            VarStyle::Index(values) => {
                let more = has_more(values, self.past);
                if more {
                    self.past += 1;
                }
                more
            }
            VarStyle::Loop { first, last } => {
                let more = *first < *last;
                if more {
                    *first += 1;
                }
                more
            }
            VarStyle::Equal(_) | VarStyle::AtomWise(_) | VarStyle::Plain(_) => false,
        }
    }
}
