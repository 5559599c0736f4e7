//! Lines of scripts, their words, and what stands for the names and formulas in them.

use fx_num::{FormulaFault, NoMemory, Text, VarFault, Words};
use script_lines::{
    ExpandRefusal, LineRefusal, LineResult, Place, RawWords, Texts, expand, line_from, next_line,
    words_of,
};
use std::alloc::Global;
use std::test::Fail;

/// A table in which `x` is 7, `two` is two words with blanks around them, `m` wants memory, and no other name is there.
/// A formula stands for its own text, but the empty one is none.
struct Worked;

impl Texts for Worked {
    ghost use Rattle.std.specs.Prelude.{◌≡◌, ◌==◌, Ok, Err, [], cond, codes, length};
    ghost use Rattle.std.specs.Str.{bytes_eq};
    ghost use Rattle.fx_num.specs.declared.faults.FormulaFault.TheVariants as formula;
    ghost use Rattle.fx_num.specs.declared.faults.VarFault.TheVariants as variable;

    ghost table = { λ _. record {
      names = λ name. cond (bytes_eq name (codes "x")) (Ok (codes "7")) (cond (bytes_eq name (codes "two")) (Ok (codes " a  b ")) (Err (variable.UnknownVariable name)));
      formulas = λ text. cond (length text == 0) (Err (variable.Formula (formula.Syntax 0))) (Ok text);
    } };

    fn name_text(&self, alloc: Global, name: &[u8]) -> Result<Text, VarFault> {
        if name == b"x".as_slice() {
            return Ok(Text::from_bytes(alloc, b"7")?);
        }
        if name == b"two".as_slice() {
            return Ok(Text::from_bytes(alloc, b" a  b ")?);
        }
        if name == b"m".as_slice() {
            return Err(VarFault::Formula(FormulaFault::NoMemory));
        }
        Err(VarFault::UnknownVariable(Text::from_bytes(alloc, name)?))
    }

    fn formula_text(&self, alloc: Global, formula: &[u8]) -> Result<Text, VarFault> {
        if formula.is_empty() {
            return Err(VarFault::Formula(FormulaFault::Syntax(0)));
        }
        Ok(Text::from_bytes(alloc, formula)?)
    }
}

/// A digit for a number below ten.
fn digit(number: u32) -> u8 {
    b'0' + (number % 10) as u8
}

/// The words of a line: quoted ones in brackets, others in angles.
fn tell_words(words: &RawWords, out: &mut Text) -> Result<(), NoMemory> {
    for word in words.as_slice() {
        out.push(if word.quoted { b"[" } else { b"<" })?;
        out.push(word.text.as_bytes())?;
        out.push(if word.quoted { b"]" } else { b">" })?;
    }
    Ok(())
}

/// The lines of a text, each as its number and its words, and then `.`, or why a line cannot be read as `U`, `C` or `Q`
/// and its number.
fn told(alloc: Global, text: &[u8]) -> Result<Text, NoMemory> {
    let mut out = Text::new(alloc);
    let mut at = 0;
    for _ in 0..20 {
        if text.len() > u32::MAX as usize {
            return Ok(out);
        }
        let why = match next_line(alloc, text, at) {
            Ok(LineResult::End) => (b'.', None),
            Ok(
                LineResult::Line {
                    number,
                    next,
                    words,
                },
            ) => {
                at = next;
                out.push(&[digit(number)])?;
                tell_words(&words, &mut out)?;
                continue;
            }
            Err(LineRefusal::UnclosedQuote(number)) => (b'U', Some(number)),
            Err(LineRefusal::ContinuationAtEnd(number)) => (b'C', Some(number)),
            Err(LineRefusal::QuoteTail(number)) => (b'Q', Some(number)),
            Err(LineRefusal::NoMemory) => return Err(NoMemory),
        };
        out.push(&[why.0])?;
        if let Some(number) = why.1 {
            out.push(&[digit(number)])?;
        }
        return Ok(out);
    }
    Ok(out)
}

const LINES: &[(&[u8], &[u8])] = &[
    (
        b"variable x index 7\nprint \"a # b $x\" # note\nprint 'one &\ntwo'\nprint \"\"\"three \"quoted\" words\"\"\"\nrun 0 &\n",
        b"1<variable><x><index><7>2<print>[a # b $x]3<print>[one two]5<print>[three \"quoted\" words]C6",
    ),
    (b"", b"."),
    (b"\n \t\n# only a comment\n", b"."),
    (b"run 0", b"1<run><0>."),
    (b"\r\n\r\nrun 0\r\nrun 1\r", b"3<run><0>4<run><1\r>."),
    (b"run 0\r\r\n", b"1<run><0\r>."),
    (b"run& 0 & \t\n  1 &\n2\nx", b"1<run&><0><1><2>4<x>."),
    (b"run 0 # note &\n1\nx", b"1<run><0>3<x>."),
    (b"run 0 &\r\n1", b"1<run><0><1>."),
    (b"&\n&", b"C1"),
    (b"a\nb &\nc &\n", b"1<a>C2"),
    (
        b"print \"\"\"a &\nb # c\"\"\" d",
        b"1<print>[a &\nb # c]<d>.",
    ),
    (
        b"print \"\"\"a\n\n\"\"b\"\"\"\nx",
        b"1<print>[a\n\n\"\"b]4<x>.",
    ),
    (
        b"print \"\" '' \"\"\"\"\"\" a\"b 'c \"d' \"e 'f\"",
        b"1<print>[][][]<a\"b>[c \"d][e 'f].",
    ),
    (b"\n\nprint \"a\nb\"", b"U3"),
    (b"print 'a\n", b"U1"),
    (b"x\nprint \"\"\"a\nb\n", b"1<x>U2"),
    (b"print \"a\"b", b"Q1"),
    (b"print \"a\"b 'c", b"Q1"),
    (b"print \"a\"b &", b"C1"),
    (b"print \"a\"# b", b"1<print>[a]."),
    (
        b"print $(1 + (2 * 3)) x$( \"a\" )y ",
        b"1<print><$(1 + (2 * 3))><x$( \"a\" )y>.",
    ),
    (
        b"print $(1 + (2 * 3) 'x y'",
        b"1<print><$(1><+><(2><*><3)>[x y].",
    ),
    (b"print $(1 # 2)", b"1<print><$(1>."),
];

#[test]
fn lines_are_joined_and_cut_into_words(rt: HostRuntime) -> Result<(), Fail> {
    for (text, wanted) in LINES {
        assert_eq!(rt; told(rt.alloc(), *text)?.as_bytes(), *wanted);
    }
    Ok(())
}

#[test]
fn a_place_is_carried_from_line_to_line(rt: HostRuntime) -> Result<(), Fail> {
    let alloc = rt.alloc();
    let text = b"\nrun 0 &\n1\n# x\nrun 2";
    let Ok(Some(first)) = line_from(alloc, text, Place::start()) else {
        return Err(Fail::from(NoMemory));
    };
    assert_eq!(rt; first.number, 2);
    assert_eq!(rt; first.next, Place { at: 11, ended: 3 });
    let Ok(Some(second)) = line_from(alloc, text, first.next) else {
        return Err(Fail::from(NoMemory));
    };
    assert_eq!(rt; second.number, 5);
    assert_eq!(rt; second.words.len(), 2);
    assert!(rt; matches!(line_from(alloc, text, second.next), Ok(None)));
    Ok(())
}

/// Why there is no text: `$` and the place, or the name of the fault.
fn tell_refusal(why: &ExpandRefusal, out: &mut Text) -> Result<(), NoMemory> {
    match why {
        ExpandRefusal::BadDollar(place) => out.push(&[b'$', b'0' + (*place % 10) as u8]),
        ExpandRefusal::Inner(fault) => tell_fault(fault, out),
        ExpandRefusal::NoMemory => out.push(b"memory"),
    }
}

fn tell_fault(fault: &VarFault, out: &mut Text) -> Result<(), NoMemory> {
    match fault {
        VarFault::UnknownVariable(name) => {
            out.push(b"unknown ")?;
            out.push(name.as_bytes())
        }
        VarFault::Formula(_) => out.push(b"formula"),
        VarFault::Mixed(_) | VarFault::NotText(_) | VarFault::NoMemory => out.push(b"other"),
    }
}

/// What a text expands to, or why it does not.
fn expanded(alloc: Global, text: &[u8]) -> Result<Text, NoMemory> {
    match expand(alloc, text, &Worked) {
        Ok(text) => Ok(text),
        Err(why) => {
            let mut out = Text::new(alloc);
            tell_refusal(&why, &mut out)?;
            Ok(out)
        }
    }
}

const EXPANDED: &[(&[u8], &[u8])] = &[
    (b"", b""),
    (b"a b", b"a b"),
    (b"$x", b"7"),
    (b"a${x}b$x$x", b"a7b77"),
    (b"$(1 + (2)) $()", b"formula"),
    (b"$(1 + (2))$x", b"1 + (2)7"),
    (b"$(${x})", b"${x}"),
    (b"${two}", b" a  b "),
    (b"$y $", b"unknown y"),
    (b"a$ $y", b"$1"),
    (b"ab$", b"$2"),
    (b"$$x", b"$0"),
    (b"$-", b"$0"),
    (b"abc${}", b"$3"),
    (b"ab${x", b"$2"),
    (b"$x$(1 + (2)", b"$2"),
    (b"${a b}", b"unknown a b"),
    (b"$_", b"unknown _"),
    (b"$m$", b"memory"),
];

#[test]
fn names_and_formulas_are_replaced_from_left_to_right(rt: HostRuntime) -> Result<(), Fail> {
    for (text, wanted) in EXPANDED {
        assert_eq!(rt; expanded(rt.alloc(), *text)?.as_bytes(), *wanted);
    }
    Ok(())
}

/// The words of the first line of a text, if it has one.
fn first_words(alloc: Global, text: &[u8]) -> Option<RawWords> {
    if text.len() > u32::MAX as usize {
        return None;
    }
    match next_line(alloc, text, 0) {
        Ok(
            LineResult::Line {
                number: _,
                next: _,
                words,
            },
        ) => Some(words),
        _ => None,
    }
}

/// The words that the first line of a text stands for, each between angles, or why they stand for nothing.
fn substituted(alloc: Global, text: &[u8]) -> Result<Text, NoMemory> {
    let mut out = Text::new(alloc);
    if let Some(words) = first_words(alloc, text) {
        match words_of(alloc, &words, &Worked) {
            Ok(words) => tell(&words, &mut out)?,
            Err(why) => tell_refusal(&why, &mut out)?,
        }
    }
    Ok(out)
}

fn tell(words: &Words, out: &mut Text) -> Result<(), NoMemory> {
    for word in words.as_slice() {
        out.push(b"<")?;
        out.push(word.as_bytes())?;
        out.push(b">")?;
    }
    Ok(())
}

const SUBSTITUTED: &[(&[u8], &[u8])] = &[
    (
        b"print '$x' $x \"a ${two} b\"",
        b"<print><$x><7><a ${two} b>",
    ),
    (b"a${two}b c$(1 'x y)d", b"<a><a><b><b><c1><'x><yd>"),
    (b"${two}", b"<a><b>"),
    (b"'' x", b"<><x>"),
    (b"a b$ '$'", b"$1"),
    (b"a$(1", b"$1"),
    (b"$y $", b"unknown y"),
];

#[test]
fn unquoted_words_are_substituted_and_split(rt: HostRuntime) -> Result<(), Fail> {
    for (text, wanted) in SUBSTITUTED {
        assert_eq!(rt; substituted(rt.alloc(), *text)?.as_bytes(), *wanted);
    }
    Ok(())
}
