//! Tables of variables: what a definition changes, what a next takes and deletes, and why it is refused.

use fx_num::{NoMemory, Numbers, Text, VarFault, Words};
use std::alloc::Global;
use std::test::Fail;
use var_table::{Source, VarStyle, Vars};

fn words(alloc: Global, texts: &[&[u8]]) -> Result<Words, NoMemory> {
    let mut words = Words::new(alloc);
    for text in texts {
        words.push(Text::from_bytes(alloc, *text)?)?;
    }
    Ok(words)
}

fn index(alloc: Global, vars: &mut Vars, name: &[u8], values: &[&[u8]]) -> Result<(), NoMemory> {
    let values = words(alloc, values)?;
    vars.define(
        alloc,
        &Text::from_bytes(alloc, name)?,
        VarStyle::Index(values),
    )
}

fn counter(
    alloc: Global,
    vars: &mut Vars,
    name: &[u8],
    first: u32,
    last: u32,
) -> Result<(), NoMemory> {
    vars.define(
        alloc,
        &Text::from_bytes(alloc, name)?,
        VarStyle::Loop { first, last },
    )
}

fn string(alloc: Global, vars: &mut Vars, name: &[u8], text: &[u8]) -> Result<(), NoMemory> {
    let text = Text::from_bytes(alloc, text)?;
    vars.define(
        alloc,
        &Text::from_bytes(alloc, name)?,
        VarStyle::Plain(text),
    )
}

fn formula(
    alloc: Global,
    vars: &mut Vars,
    name: &[u8],
    text: &[u8],
    each_atom: bool,
) -> Result<(), NoMemory> {
    let text = Text::from_bytes(alloc, text)?;
    let style = if each_atom {
        VarStyle::AtomWise(text)
    } else {
        VarStyle::Equal(text)
    };
    vars.define(alloc, &Text::from_bytes(alloc, name)?, style)
}

/// A fault as its name and the name of the variable.
fn tell_fault(fault: &VarFault, out: &mut Text) -> Result<(), NoMemory> {
    match fault {
        VarFault::UnknownVariable(name) => {
            out.push(b"unknown ")?;
            out.push(name.as_bytes())
        }
        VarFault::Mixed(name) => {
            out.push(b"mixed ")?;
            out.push(name.as_bytes())
        }
        VarFault::NotText(_) | VarFault::Formula(_) | VarFault::NoMemory => out.push(b"other"),
    }
}

/// Appends the text of a variable, or `?` where it has none.
fn tell_text(alloc: Global, vars: &Vars, name: u8, out: &mut Text) -> Result<(), NoMemory> {
    let numbers = Numbers::new(alloc);
    match vars.text_of(alloc, &[name], &numbers) {
        Ok(text) => out.push(text.as_bytes()),
        Err(_fault) => out.push(b"?"),
    }
}

/// The texts of the variables `a`, `b`, `i`, `j` and `s`, with `|` behind each, and `?` for one that is not there.
fn told(alloc: Global, vars: &Vars) -> Result<Text, NoMemory> {
    let mut out = Text::new(alloc);
    for name in b"abijs" {
        tell_text(alloc, vars, *name, &mut out)?;
        out.push(b"|")?;
    }
    Ok(out)
}

/// What a next answers: `deleted`, `stays`, or the fault.
fn next(alloc: Global, vars: &mut Vars, names: &[&[u8]]) -> Result<Text, NoMemory> {
    let names = words(alloc, names)?;
    let mut out = Text::new(alloc);
    match vars.next(alloc, &names) {
        Ok(deleted) => out.push(if deleted {
            b"deleted".as_slice()
        } else {
            b"stays"
        })?,
        Err(fault) => tell_fault(&fault, &mut out)?,
    }
    Ok(out)
}

#[test]
fn index_and_loop_leave_a_name_and_a_string_does_not(rt: HostRuntime) -> Result<(), Fail> {
    let alloc = rt.alloc();
    let mut vars = Vars::new(alloc)?;
    assert_eq!(rt; told(alloc, &vars)?.as_bytes(), b"?|?|?|?|?|".as_slice());
    index(alloc, &mut vars, b"a", &[b"1".as_slice(), b"two"])?;
    counter(alloc, &mut vars, b"i", 8, 4294967295)?;
    string(alloc, &mut vars, b"s", b"x  y")?;
    assert_eq!(rt; told(alloc, &vars)?.as_bytes(), b"1|?|8|?|x  y|".as_slice());
    index(alloc, &mut vars, b"s", &[b"3".as_slice()])?;
    counter(alloc, &mut vars, b"a", 1, 2)?;
    index(alloc, &mut vars, b"i", &[b"3".as_slice()])?;
    assert_eq!(rt; told(alloc, &vars)?.as_bytes(), b"1|?|8|?|x  y|".as_slice());
    string(alloc, &mut vars, b"a", b"")?;
    string(alloc, &mut vars, b"s", b"z")?;
    assert_eq!(rt; told(alloc, &vars)?.as_bytes(), b"|?|8|?|z|".as_slice());
    assert!(rt; vars.delete(&Text::from_bytes(alloc, b"a")?));
    assert!(rt; !vars.delete(&Text::from_bytes(alloc, b"a")?));
    assert_eq!(rt; told(alloc, &vars)?.as_bytes(), b"?|?|8|?|z|".as_slice());
    Ok(())
}

const TURNS: &[(&[&[u8]], &[u8], &[u8])] = &[
    (&[b"a", b"b"], b"stays", b"q|y|1|9|t|"),
    (&[b"a", b"a"], b"stays", b"r|y|1|9|t|"),
    (&[b"a", b"n", b"i", b"m"], b"unknown n", b"r|y|1|9|t|"),
    (&[b"s", b"m"], b"unknown m", b"r|y|1|9|t|"),
    (&[b"a", b"i", b"s"], b"mixed i", b"r|y|1|9|t|"),
    (&[b"i", b"j", b"b"], b"mixed b", b"r|y|1|9|t|"),
    (&[b"s"], b"mixed s", b"r|y|1|9|t|"),
    (&[b"b", b"a"], b"deleted", b"s|?|1|9|t|"),
    (&[b"a"], b"deleted", b"?|?|1|9|t|"),
    (&[b"i"], b"stays", b"?|?|2|9|t|"),
    (&[b"j", b"i", b"j"], b"stays", b"?|?|3|10|t|"),
    (&[b"j", b"i"], b"deleted", b"?|?|?|11|t|"),
    (&[b"i"], b"unknown i", b"?|?|?|11|t|"),
];

#[test]
fn next_takes_one_value_of_each_and_deletes_the_exhausted(rt: HostRuntime) -> Result<(), Fail> {
    let alloc = rt.alloc();
    let mut vars = Vars::new(alloc)?;
    index(alloc, &mut vars, b"a", &[b"p".as_slice(), b"q", b"r", b"s"])?;
    index(alloc, &mut vars, b"b", &[b"x".as_slice(), b"y"])?;
    counter(alloc, &mut vars, b"i", 1, 3)?;
    counter(alloc, &mut vars, b"j", 9, 11)?;
    string(alloc, &mut vars, b"s", b"t")?;
    for (names, answer, table) in TURNS {
        assert_eq!(rt; next(alloc, &mut vars, *names)?.as_bytes(), *answer);
        assert_eq!(rt; told(alloc, &vars)?.as_bytes(), *table);
    }
    Ok(())
}

/// What a variable holds: a letter for what it is, and the text.
fn held(alloc: Global, vars: &Vars, name: &[u8]) -> Result<Text, NoMemory> {
    match vars.source(name) {
        Some(Source::Text(text)) => marked(alloc, b"t ", text),
        Some(Source::Number(9)) => Text::from_bytes(alloc, b"n 9"),
        Some(Source::Number(_)) => Text::from_bytes(alloc, b"n"),
        Some(Source::Equal(text)) => marked(alloc, b"e ", text),
        Some(Source::AtomWise(text)) => marked(alloc, b"a ", text),
        None => Ok(Text::new(alloc)),
    }
}

fn marked(alloc: Global, mark: &[u8], text: &[u8]) -> Result<Text, NoMemory> {
    let mut out = Text::from_bytes(alloc, mark)?;
    out.push(text)?;
    Ok(out)
}

/// What variables hold at first.
const HELD: &[(&str, &str)] = &[
    ("a", "t p"),
    ("i", "n 9"),
    ("b", "e 1+2"),
    ("j", "a id"),
    ("s", "t z"),
    ("c", ""),
];

/// What they hold after new definitions over other styles.
const HELD_ANEW: &[(&str, &str)] = &[("a", "a 2"), ("i", "e 3"), ("b", "e 1+2"), ("j", "t t")];

/// Whether the variables hold this.
fn hold(alloc: Global, vars: &Vars, table: &[(&str, &str)]) -> Result<bool, NoMemory> {
    for (name, want) in table {
        if held(alloc, vars, name.as_bytes())?.as_bytes() != want.as_bytes() {
            return Ok(false);
        }
    }
    Ok(true)
}

#[test]
fn formulas_define_anew_and_have_neither_texts_nor_a_next(rt: HostRuntime) -> Result<(), Fail> {
    let alloc = rt.alloc();
    let mut vars = Vars::new(alloc)?;
    index(alloc, &mut vars, b"a", &[b"p".as_slice(), b"q"])?;
    counter(alloc, &mut vars, b"i", 9, 10)?;
    formula(alloc, &mut vars, b"b", b"1+2", false)?;
    formula(alloc, &mut vars, b"j", b"id", true)?;
    string(alloc, &mut vars, b"s", b"z")?;
    assert_eq!(rt; told(alloc, &vars)?.as_bytes(), b"p|?|9|?|z|".as_slice());
    assert_eq!(rt;
        next(alloc, &mut vars, &[b"a", b"b"])?.as_bytes(),
        b"mixed b".as_slice()
    );
    assert_eq!(rt;
        next(alloc, &mut vars, &[b"j"])?.as_bytes(),
        b"mixed j".as_slice()
    );
    assert!(rt; hold(alloc, &vars, HELD)?);
    index(alloc, &mut vars, b"b", &[b"7".as_slice()])?;
    formula(alloc, &mut vars, b"a", b"2", true)?;
    formula(alloc, &mut vars, b"i", b"3", false)?;
    string(alloc, &mut vars, b"j", b"t")?;
    assert!(rt; hold(alloc, &vars, HELD_ANEW)?);
    Ok(())
}
