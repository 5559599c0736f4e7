//! Names among variables, and variables among names.
ghost use Rattle.std.specs.Prelude.{◌≡◌, not, find};
ghost use Rattle.std.specs.Option.{option_copied};
ghost use Rattle.var_table.specs.Variables.{first_mixed, first_unknown, go_together, is_among, is_named, is_there, place_from, style_in};

use crate::variable::Variable;
use fx_num::Text;

/// The first variable of this name.
pub(crate) fn find<'a>(items: &'a [Variable], name: &[u8]) -> Option<&'a Variable>
    ensures { option_copied result ≡ find (is_named name.now) items.now }
{
    for variable in items {
        if variable.is_named(name) {
            return Some(variable);
        }
    }
    None
}

/// Where the first variable of this name stands.
pub(crate) fn place_of(items: &[Variable], name: &[u8]) -> Option<usize>
    ensures { result ≡ place_from 0 items.now name.now }
{
    for (i, variable) in items.iter().enumerate() {
        if variable.is_named(name) {
            return Some(i);
        }
    }
    None
}

/// Whether a variable has this name.
pub(crate) fn is_there(items: &[Variable], name: &[u8]) -> bool
    ensures { result ≡ is_there items.now name.now }
{
    for variable in items {
        if variable.is_named(name) {
            return true;
        }
    }
    false
}

/// Whether a variable has one of these names.
pub(crate) fn is_among(names: &[Text], variable: &Variable) -> bool
    ensures { result ≡ is_among names.now variable.now }
{
    for name in names {
        if variable.is_named(name.as_bytes()) {
            return true;
        }
    }
    false
}

/// The first name that no variable has.
pub(crate) fn first_unknown<'a>(items: &[Variable], names: &'a [Text]) -> Option<&'a Text>
    ensures { option_copied result ≡ first_unknown items.now names.now }
{
    for name in names {
        if !is_there(items, name.as_bytes()) {
            return Some(name);
        }
    }
    None
}

/// Whether two variables are there and have a next value together.
fn go_together(first: Option<&Variable>, other: Option<&Variable>) -> bool
    ensures { result ≡ go_together (style_in (option_copied first.entry)) (style_in (option_copied other.entry)) }
{
    match (first, other) {
        (Some(first), Some(other)) => first.goes_with(other),
        _ => false,
    }
}

/// The first name with which the names so far have no next value.
pub(crate) fn first_mixed<'a>(items: &[Variable], names: &'a [Text]) -> Option<&'a Text>
    ensures { option_copied result ≡ first_mixed items.now names.now }
{
    let Some(first) = names.first() else {
        return None;
    };
    let first = find(items, first.as_bytes());
    for name in names {
        if !go_together(first, find(items, name.as_bytes())) {
            return Some(name);
        }
    }
    None
}
