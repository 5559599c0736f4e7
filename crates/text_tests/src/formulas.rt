//! Formulas: their values, and their faults with places.
use formula::{EvalFault, eval, operands, parse};
use fx_num::{FormulaFault, NoMemory};
use std::alloc::Global;

/// Why a formula has no value.
#[derive(Clone, Copy, Debug, PartialEq, Eq)]
enum Why {
    Syntax(u32),
    DivideByZero(u32),
    Range(u32),
    TooDeep,
    Operand,
    Other,
}

/// The fault of an evaluation.
fn reason(fault: EvalFault) -> Why {
    match fault {
        EvalFault::DivideByZero(at) => Why::DivideByZero(at),
        EvalFault::Range(at) => Why::Range(at),
        EvalFault::TooDeep => Why::TooDeep,
        EvalFault::Operand => Why::Operand,
    }
}

/// The value of a formula's text that begins at depth 0, in units.
fn told(alloc: Global, text: &[u8], values: &[i128]) -> Result<i64, Why> {
    match parse(alloc, text) {
        Ok(tree) => eval(&tree, values, 0).map_err(reason),
        Err(FormulaFault::Syntax(at)) => Err(Why::Syntax(at)),
        Err(_) => Err(Why::Other),
    }
}

const ONE: i64 = 1 << 24;

const VALUES: &[(&str, Result<i64, Why>)] = &[
    // 0.99999994
    ("1/3*3", Ok(16_777_215)),
    ("-7%3", Ok(-ONE)),
    ("2^38", Ok(1 << 62)),
    ("2^39", Err(Why::Range(1))),
    ("7%0", Err(Why::DivideByZero(1))),
    ("-2^2", Ok(-4 * ONE)),
    ("2^3^2", Ok(64 * ONE)),
    ("7-2-1", Ok(4 * ONE)),
    ("2+3*4", Ok(14 * ONE)),
    ("1 < 2 == 1", Ok(ONE)),
    ("1 <= 2 && 0 || !0", Ok(ONE)),
    ("0 && 1/0", Err(Why::DivideByZero(6))),
    ("1/(1-1) + 2^39", Err(Why::DivideByZero(1))),
    ("floor(-1.5) + ceil(0.5) * round(-0.5)", Ok(-3 * ONE)),
    ("sqrt(16) - abs(-4)", Ok(0)),
    ("sqrt(-1)", Err(Why::Range(0))),
    ("2^0.5", Err(Why::Range(1))),
    ("2^64.5", Err(Why::Range(1))),
    ("1^65", Err(Why::Range(1))),
    ("1 + 3e11", Err(Why::Range(4))),
    ("-1/-3", Ok(5_592_405)),
    ("3e0 >= .3E1", Ok(ONE)),
];

#[test]
fn formulas_have_exact_values(rt: HostRuntime) {
    for (text, want) in VALUES {
        let want = *want;
        assert_eq!(rt; told(rt.alloc(), text.as_bytes(), &[]), want, "{text}");
    }
}

const REFUSED: &[(&str, u32)] = &[
    ("", 0),
    ("  ", 2),
    ("1+", 2),
    ("foo", 1),
    ("Step", 0),
    ("stepp", 4),
    ("sqrt 4", 5),
    ("sqrt", 4),
    ("2^-1", 2),
    ("1 2", 2),
    ("1 = 2", 3),
    ("1 < = 2", 4),
    ("1)", 1),
    ("(1", 2),
    ("1.2.3", 3),
    ("1e1234", 5),
    ("1234567890123456789012345", 24),
    ("v_", 2),
    ("v_a-b", 4),
    ("v_a-x.", 5),
    ("+1", 0),
];

#[test]
fn refused_at_the_first_byte_that_no_formula_has(rt: HostRuntime) {
    for (text, at) in REFUSED {
        let want = Err(Why::Syntax(*at));
        assert_eq!(rt; told(rt.alloc(), text.as_bytes(), &[]), want, "{text}");
    }
}

#[test]
fn operands_stand_from_left_to_right(rt: HostRuntime) -> Result<(), NoMemory> {
    let tree = match parse(rt.alloc(), b"v_a + sqrt((c_pe)) * step".as_slice()) {
        Ok(tree) => tree,
        Err(_) => return Err(NoMemory),
    };
    let list = operands(rt.alloc(), &tree, 7)?;
    let want = [("v_a", 7), ("c_pe", 9), ("step", 7)];
    assert_eq!(rt; list.len(), want.len());
    for (operand, (name, depth)) in list.as_slice().iter().zip(want) {
        assert_eq!(rt; operand.name.as_bytes(), name.as_bytes());
        assert_eq!(rt; operand.depth, depth);
    }
    let one = i128::from(ONE);
    assert_eq!(rt;
        eval(&tree, [one, 4 * one, 3 * one].as_slice(), 0).map_err(reason),
        Ok(7 * ONE)
    );
    assert_eq!(rt;
        eval(&tree, [one, 4 * one].as_slice(), 0).map_err(reason),
        Err(Why::Operand)
    );
    assert_eq!(rt;
        eval(&tree, [one, 1 << 90].as_slice(), 0).map_err(reason),
        Err(Why::Range(12))
    );
    Ok(())
}

/// Parentheses around a number.
fn nested(alloc: Global, levels: usize) -> Result<Vec<u8>, NoMemory> {
    let mut text = Vec::new(alloc);
    for _ in 0..levels {
        text.push(b'(')?;
    }
    text.push(b'1')?;
    for _ in 0..levels {
        text.push(b')')?;
    }
    Ok(text)
}

#[test]
fn sixty_four_levels_and_no_more(rt: HostRuntime) -> Result<(), NoMemory> {
    for (levels, depth, want) in [
        (64, 0, Ok(ONE)),
        (65, 0, Err(Why::TooDeep)),
        (1, 63, Ok(ONE)),
        (1, 64, Err(Why::TooDeep)),
    ] {
        let text = nested(rt.alloc(), levels)?;
        let tree = match parse(rt.alloc(), &text) {
            Ok(tree) => tree,
            Err(_) => return Err(NoMemory),
        };
        assert_eq!(rt; eval(&tree, [].as_slice(), depth).map_err(reason), want);
    }
    Ok(())
}

#[test]
fn a_text_has_at_most_4096_bytes(rt: HostRuntime) -> Result<(), NoMemory> {
    for (blanks, want) in [(4095, Ok(ONE)), (4096, Err(Why::Syntax(4096)))] {
        let mut text = Vec::new(rt.alloc());
        text.push(b'1')?;
        for _ in 0..blanks {
            text.push(b' ')?;
        }
        assert_eq!(rt; told(rt.alloc(), &text, [].as_slice()), want);
    }
    Ok(())
}
