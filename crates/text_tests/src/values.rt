//! The values and texts of variables and formulas, and their first faults.

use arrayvec::ArrayString;
use fx_num::{FormulaFault, NoMemory, Numbers, Text, VarFault, Words, print_value, print_whole};
use std::alloc::Global;
use std::test::Fail;
use var_table::{VarStyle, Vars};
use variable_values::{Known, formula_text, formula_value, text_of, value_of};

/// How a variable is defined.
#[derive(Clone, Copy)]
enum Kind {
    Equal,
    Atom,
    String,
}

fn define(
    alloc: Global,
    vars: &mut Vars,
    kind: Kind,
    name: &[u8],
    text: &[u8],
) -> Result<(), NoMemory> {
    let text = Text::from_bytes(alloc, text)?;
    let style = match kind {
        Kind::Equal => VarStyle::Equal(text),
        Kind::Atom => VarStyle::AtomWise(text),
        Kind::String => VarStyle::Plain(text),
    };
    vars.define(alloc, &Text::from_bytes(alloc, name)?, style)
}

const VARIABLES: &[(Kind, &str, &str)] = &[
    (Kind::String, "s", "2.5e1"),
    (Kind::String, "w", "two"),
    (Kind::String, "g", "1e12"),
    (Kind::Equal, "e", "v_i*2 + 1"),
    (Kind::Equal, "n", "1 + v_w"),
    (Kind::Equal, "d", "7%0"),
    (Kind::Equal, "p", "v_zz"),
    (Kind::Equal, "self", "v_self"),
    (Kind::Equal, "there", "1 + v_back"),
    (Kind::Equal, "back", "v_there"),
    (Kind::Atom, "a", "id + x"),
    (Kind::Atom, "c", "v_e + step"),
    (Kind::Equal, "m", "v_a"),
    (Kind::Atom, "o", "v_m"),
];

/// `i` and `l` with the values 3 and 7, and those of the other styles.
fn variables(alloc: Global) -> Result<Vars, NoMemory> {
    let mut vars = Vars::new(alloc)?;
    let mut values = Words::new(alloc);
    values.push(Text::from_bytes(alloc, b"3")?)?;
    values.push(Text::from_bytes(alloc, b"4")?)?;
    let index = VarStyle::Index(values);
    vars.define(alloc, &Text::from_bytes(alloc, b"i")?, index)?;
    let range = VarStyle::Loop { first: 7, last: 9 };
    vars.define(alloc, &Text::from_bytes(alloc, b"l")?, range)?;
    for (kind, name, text) in VARIABLES {
        define(alloc, &mut vars, *kind, name.as_bytes(), text.as_bytes())?;
    }
    Ok(vars)
}

fn numbers(alloc: Global, table: &[(&str, i128)]) -> Result<Numbers, NoMemory> {
    let mut numbers = Numbers::new(alloc);
    for (keyword, value) in table {
        numbers.push(Text::from_bytes(alloc, keyword.as_bytes())?, *value)?;
    }
    Ok(numbers)
}

/// `temp` is 1.5 and `c_pe` -1; `vol` and `time` are beyond the range of values.
const STATE: &[(&str, i128)] = &[
    ("step", 5),
    ("atoms", 32),
    ("temp", 3 << 23),
    ("c_pe", -(1 << 24)),
    ("vol", (1 << 62) + 1),
    ("time", 1 << 98),
];

/// `x` is 0.5.
const ATOM: &[(&str, i128)] = &[("id", 7), ("x", 1 << 23)];

const WHOLE: &[(&str, i128)] = &[
    ("step", 1 << 38),
    ("atoms", (1 << 38) + 1),
    ("type", 1 << 126),
    ("dt", 1 << 62),
    ("lx", -(1 << 62) - 1),
];

fn tell_place(name: &[u8], place: u32, out: &mut Text) -> Result<(), NoMemory> {
    let mut digits = ArrayString::new();
    print_whole(u64::from(place), &mut digits);
    out.push(name)?;
    out.push(digits.as_str().as_bytes())
}

fn tell_name(fault: &[u8], name: &Text, out: &mut Text) -> Result<(), NoMemory> {
    out.push(fault)?;
    out.push(name.as_bytes())
}

fn tell_formula(fault: &FormulaFault, out: &mut Text) -> Result<(), NoMemory> {
    match fault {
        FormulaFault::Syntax(place) => tell_place(b"Syntax ", *place, out),
        FormulaFault::Unknown(name) => tell_name(b"Unknown ", name, out),
        FormulaFault::NotNumber(name) => tell_name(b"NotNumber ", name, out),
        FormulaFault::DivideByZero(place) => tell_place(b"DivideByZero ", *place, out),
        FormulaFault::Range(place) => tell_place(b"Range ", *place, out),
        FormulaFault::TooDeep => out.push(b"TooDeep"),
        FormulaFault::NoMemory => out.push(b"other"),
    }
}

fn tell_fault(fault: &VarFault, out: &mut Text) -> Result<(), NoMemory> {
    match fault {
        VarFault::UnknownVariable(name) => tell_name(b"UnknownVariable ", name, out),
        VarFault::NotText(name) => tell_name(b"NotText ", name, out),
        VarFault::Formula(fault) => tell_formula(fault, out),
        VarFault::Mixed(_) | VarFault::NoMemory => out.push(b"other"),
    }
}

/// An answer as a text: the text, or the fault with its place or name.
fn told(alloc: Global, answer: Result<Text, VarFault>) -> Result<Text, NoMemory> {
    match answer {
        Ok(text) => Ok(text),
        Err(fault) => {
            let mut out = Text::new(alloc);
            tell_fault(&fault, &mut out)?;
            Ok(out)
        }
    }
}

/// A value as its text, or the fault.
fn told_value(alloc: Global, answer: Result<i64, VarFault>) -> Result<Text, NoMemory> {
    let mut out = Text::new(alloc);
    match answer {
        Ok(value) => {
            let mut digits = ArrayString::new();
            print_value(value, &mut digits);
            out.push(digits.as_str().as_bytes())?;
        }
        Err(fault) => tell_fault(&fault, &mut out)?,
    }
    Ok(out)
}

/// What formulas of the state stand for.
const FORMULAS: &[(&str, &str)] = &[
    ("1/3*3", "0.99999994"),
    ("-7%3", "-1"),
    ("2^38", "274877906944"),
    ("2^39", "Range 1"),
    ("7%0", "DivideByZero 1"),
    ("-1/2^24", "-0.00000006"),
    ("v_i + v_l*10 + v_s*100", "2573"),
    ("v_w", "NotNumber w"),
    ("v_g", "Range 0"),
    ("1 + v_e", "8"),
    ("v_n", "NotNumber w"),
    ("1 + v_d", "DivideByZero 1"),
    ("v_p", "Unknown v_zz"),
    ("step/atoms", "0.15625"),
    ("temp*2 + c_pe", "2"),
    ("c_zz", "Unknown c_zz"),
    ("press", "Unknown press"),
    ("id", "Unknown id"),
    ("v_a", "Unknown id"),
    ("v_c", "12"),
    ("1 + vol", "Range 4"),
    ("time", "Range 0"),
    ("v_w + v_zz", "NotNumber w"),
    ("v_zz + v_w", "Unknown v_zz"),
    ("1/0 + v_zz", "DivideByZero 1"),
    ("v_zz + 1/0", "Unknown v_zz"),
    ("0 && v_zz", "Unknown v_zz"),
    ("1 || 1/0", "DivideByZero 6"),
    ("sqrt(-1) * v_w", "Range 0"),
    ("v_w * sqrt(-1)", "NotNumber w"),
    ("v_zz +", "Syntax 6"),
    ("v_self", "TooDeep"),
    ("v_there", "TooDeep"),
    ("v_zz + v_self", "Unknown v_zz"),
];

#[test]
fn formulas_have_texts_or_their_first_fault(rt: HostRuntime) -> Result<(), Fail> {
    let alloc = rt.alloc();
    let vars = variables(alloc)?;
    let state = numbers(alloc, STATE)?;
    for (text, want) in FORMULAS {
        let answer = told(alloc, formula_text(alloc, &vars, text.as_bytes(), &state))?;
        assert_eq!(rt; answer.as_bytes(), want.as_bytes(), "{text}");
    }
    Ok(())
}

/// What variables stand for by their names.
const TEXTS: &[(&str, &str)] = &[
    ("i", "3"),
    ("l", "7"),
    ("s", "2.5e1"),
    ("w", "two"),
    ("e", "7"),
    ("n", "NotNumber w"),
    ("d", "DivideByZero 1"),
    ("p", "Unknown v_zz"),
    ("m", "Unknown id"),
    ("a", "NotText a"),
    ("c", "NotText c"),
    ("zz", "UnknownVariable zz"),
    ("v_i", "UnknownVariable v_i"),
    ("back", "TooDeep"),
];

#[test]
fn variables_have_texts_or_their_first_fault(rt: HostRuntime) -> Result<(), Fail> {
    let alloc = rt.alloc();
    let vars = variables(alloc)?;
    let state = numbers(alloc, STATE)?;
    for (name, want) in TEXTS {
        let answer = told(alloc, text_of(alloc, &vars, name.as_bytes(), &state))?;
        assert_eq!(rt; answer.as_bytes(), want.as_bytes(), "{name}");
    }
    Ok(())
}

/// The values of variables for an atom, asked for where so many levels are open.
const VALUES: &[(u32, &str, &str)] = &[
    (0, "a", "7.5"),
    (0, "c", "12"),
    (0, "e", "7"),
    (0, "m", "Unknown id"),
    (0, "o", "Unknown id"),
    (0, "s", "25"),
    (0, "l", "7"),
    (0, "w", "NotNumber w"),
    (0, "g", "Range 0"),
    (0, "zz", "UnknownVariable zz"),
    (63, "e", "7"),
    (64, "e", "TooDeep"),
    (64, "a", "TooDeep"),
    (4_294_967_295, "e", "TooDeep"),
    (64, "i", "3"),
];

#[test]
fn an_equal_variable_knows_no_atom(rt: HostRuntime) -> Result<(), Fail> {
    let alloc = rt.alloc();
    let vars = variables(alloc)?;
    let state = numbers(alloc, STATE)?;
    let atom = numbers(alloc, ATOM)?;
    let known = Known::of_atom(&state, &atom);
    for (depth, name, want) in VALUES {
        let value = value_of(alloc, &vars, name.as_bytes(), &known, *depth);
        let answer = told_value(alloc, value)?;
        assert_eq!(rt; answer.as_bytes(), want.as_bytes(), "{name} {depth}");
    }
    Ok(())
}

/// The values of formulas that begin where so many levels are open. A whole number of 2^38 is the greatest
/// that is in range.
const COUNTS: &[(u32, &str, &str)] = &[
    (0, "step", "274877906944"),
    (0, "atoms", "Range 0"),
    (0, "type", "Range 0"),
    (0, "dt", "274877906944"),
    (0, "lx", "Range 0"),
    (0, "1 + v_e", "8"),
    (63, "1 + v_e", "8"),
    (64, "1 + v_e", "TooDeep"),
    (4_294_967_295, "1 + v_e", "TooDeep"),
];

#[test]
fn whole_keywords_are_counts_at_every_depth(rt: HostRuntime) -> Result<(), Fail> {
    let alloc = rt.alloc();
    let vars = variables(alloc)?;
    let state = numbers(alloc, WHOLE)?;
    for (depth, text, want) in COUNTS {
        let value = formula_value(alloc, &vars, text.as_bytes(), &state, *depth);
        let answer = told_value(alloc, value)?;
        assert_eq!(rt; answer.as_bytes(), want.as_bytes(), "{text} {depth}");
    }
    Ok(())
}

/// Parentheses around a text.
fn nested(alloc: Global, levels: usize, inner: &[u8]) -> Result<Text, NoMemory> {
    let mut text = Text::new(alloc);
    for _ in 0..levels {
        text.push(b"(")?;
    }
    text.push(inner)?;
    for _ in 0..levels {
        text.push(b")")?;
    }
    Ok(text)
}

/// A name that ends in a number.
fn numbered(alloc: Global, mark: &[u8], number: u64) -> Result<Text, NoMemory> {
    let mut digits = ArrayString::new();
    print_whole(number, &mut digits);
    let mut name = Text::from_bytes(alloc, mark)?;
    name.push(digits.as_str().as_bytes())?;
    Ok(name)
}

/// The variables `n1` to `n66`: the first has this formula, and each other one the value of the one before.
fn chain(alloc: Global, first: &[u8]) -> Result<Vars, NoMemory> {
    let mut vars = variables(alloc)?;
    define(alloc, &mut vars, Kind::Equal, b"n1", first)?;
    for number in 2..67 {
        let name = numbered(alloc, b"n", number)?;
        let before = numbered(alloc, b"v_n", number - 1)?;
        let (name, before) = (name.as_bytes(), before.as_bytes());
        define(alloc, &mut vars, Kind::Equal, name, before)?;
    }
    Ok(vars)
}

/// The formula of the first of a chain, parentheses, the operand in them, and what it gives.
const CHAINS: &[(&str, usize, &str, &str)] = &[
    ("1", 0, "v_n64", "1"),
    ("1", 0, "v_n65", "TooDeep"),
    ("1", 1, "v_n63", "1"),
    ("1", 1, "v_n64", "TooDeep"),
    ("1", 64, "7", "7"),
    ("1", 65, "7", "TooDeep"),
    ("1", 64, "v_i", "3"),
    ("1", 64, "v_n1", "TooDeep"),
    ("v_i", 0, "v_n64", "3"),
    ("v_zz", 0, "v_n64", "Unknown v_zz"),
    ("v_zz", 0, "v_n65", "TooDeep"),
    ("((", 0, "v_n64", "Syntax 2"),
    ("((", 0, "v_n65", "TooDeep"),
    ("(2)", 0, "v_n63", "2"),
    ("(2)", 0, "v_n64", "TooDeep"),
];

#[test]
fn sixty_four_variables_or_parentheses_and_no_more(rt: HostRuntime) -> Result<(), Fail> {
    let alloc = rt.alloc();
    for (first, levels, inner, want) in CHAINS {
        let vars = chain(alloc, first.as_bytes())?;
        let text = nested(alloc, *levels, inner.as_bytes())?;
        let answer = formula_text(alloc, &vars, text.as_bytes(), &Numbers::new(alloc));
        let answer = told(alloc, answer)?;
        assert_eq!(rt;
            answer.as_bytes(),
            want.as_bytes(),
            "{first} {levels} {inner}"
        );
    }
    Ok(())
}
