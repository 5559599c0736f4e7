//! Numbers and their texts, and the small lists: what is read, printed, rounded and kept.
use arrayvec::ArrayString;
use fx_num::{
    NoMemory, NumError, Numbers, Seq, Text, print_fix, print_scaled, print_value, print_whole,
    rcbrt, read_decimal, read_whole, rsqrt,
};
use std::alloc::Global;

const DECIMALS: &[(&str, Result<i64, NumError>)] = &[
    ("0.8442", Ok(14163326)),
    ("-0.5", Ok(-8388608)),
    ("+007.250", Ok(121634816)),
    ("3e-7", Ok(5)),
    ("6.02E5", Ok(10099884032000)),
    ("-1e11", Ok(-1677721600000000000)),
    ("1.00000002980232238769531", Ok(16777216)),
    ("1.00000002980232238769532", Ok(16777217)),
    ("1.000000029802322387695313", Err(NumError::TooManyDigits)),
    ("3e11", Err(NumError::OutOfRange)),
    ("1-", Err(NumError::NotNumber)),
    ("1e+", Err(NumError::NotNumber)),
];

#[test]
fn reads_decimal_texts(rt: HostRuntime) {
    for (text, want) in DECIMALS {
        let want = *want;
        assert_eq!(rt; read_decimal(text.as_bytes()), want, "{text}");
    }
}

const WHOLE_NUMBERS: &[(&str, Result<u64, NumError>)] = &[
    ("007", Ok(7)),
    ("1000000000000000000", Ok(1000000000000000000)),
    ("10000000000000000000", Err(NumError::TooManyDigits)),
    ("-1", Err(NumError::NotNumber)),
    ("12a", Err(NumError::NotNumber)),
];

#[test]
fn reads_whole_numbers(rt: HostRuntime) {
    for (text, want) in WHOLE_NUMBERS {
        let want = *want;
        assert_eq!(rt; read_whole(text.as_bytes()), want, "{text}");
    }
}

/// The greatest magnitude that is printed.
const LARGEST: u128 = 1 << 98;

const FIXED: &[(i128, &str)] = &[
    (3, "0.00000018"),
    (16_777_215, "0.99999994"),
    (-8_388_608, "-0.50000000"),
    // exactly half of the last decimal, away from zero
    (32_768, "0.00195313"),
    (-32_768, "-0.00195313"),
    (98_304, "0.00585938"),
    (-167_772_161, "-10.00000006"),
    (4_611_686_018_427_387_904, "274877906944.00000000"),
    (
        -316_912_650_057_057_350_374_175_801_344,
        "-18889465931478580854784.00000000",
    ),
];

/// Whether a number is printed so with eight decimals.
fn is_fixed(v: i128, want: &str) -> bool {
    if v.unsigned_abs() > LARGEST {
        return false;
    }
    let mut out = ArrayString::new();
    print_fix(v, &mut out);
    out.as_str() == want
}

const PRINTED: &[(u64, &str)] = &[
    (0, "0"),
    (1_000, "1000"),
    (u64::MAX, "18446744073709551615"),
];

/// Whether a whole number is printed so.
fn is_printed(n: u64, want: &str) -> bool {
    let mut out = ArrayString::new();
    print_whole(n, &mut out);
    out.as_str() == want
}

const VALUES: &[(i64, &str)] = &[
    (0, "0"),
    (-1, "-0.00000006"),
    (16_777_215, "0.99999994"),
    (-8_388_608, "-0.5"),
    (167_772_160, "10"),
    (-16_777_216_000, "-1000"),
    (4_611_686_018_427_387_904, "274877906944"),
];

/// Whether a number is printed so without zeros at its end.
fn is_value(v: i64, want: &str) -> bool {
    let mut out = ArrayString::new();
    print_value(v, &mut out);
    out.as_str() == want
}

const QUOTIENTS: &[(i128, i128, &str)] = &[
    (0, 7, "0.00000000"),
    (1, 3, "0.33333333"),
    (2, 3, "0.66666667"),
    (7, 7, "1.00000000"),
    // half of the last decimal, away from zero
    (1, 200_000_000, "0.00000001"),
    (1, 200_000_001, "0.00000000"),
];

/// Whether a quotient is printed so.
fn is_quotient(num: i128, den: i128, want: &str) -> bool {
    if num < 0 || den < num || den < 1 || 1 << 90 < den {
        return false;
    }
    let mut out = ArrayString::new();
    print_scaled(num, den, &mut out);
    out.as_str() == want
}

#[test]
fn prints_numbers(rt: HostRuntime) {
    for (v, want) in FIXED {
        assert!(rt; is_fixed(*v, *want), "{want}");
    }
    for (n, want) in PRINTED {
        assert!(rt; is_printed(*n, *want), "{want}");
    }
    for (v, want) in VALUES {
        assert!(rt; is_value(*v, *want), "{want}");
    }
    for (num, den, want) in QUOTIENTS {
        assert!(rt; is_quotient(*num, *den, *want), "{want}");
    }
}

const SQUARE_ROOTS: &[(u128, u64)] = &[
    (0, 0),
    (1, 1),
    (2, 1),
    (3, 2),
    (6, 2),
    (7, 3),
    (281_474_976_710_656, 16_777_216),
    (18_446_744_073_709_551_615, 4_294_967_296),
    ((1 << 126) - 1, 1 << 63),
];

// 1.5³ is 3.375
const CUBE_ROOTS: &[(u128, u64)] = &[
    (0, 0),
    (1, 1),
    (3, 1),
    (4, 2),
    (15, 2),
    (16, 3),
    (4_722_366_482_869_645_213_696, 16_777_216),
    ((1 << 126) - 1, 1 << 42),
];

#[test]
fn rounds_roots_to_the_nearest(rt: HostRuntime) {
    for (a, want) in SQUARE_ROOTS {
        let (a, want) = (*a, *want);
        assert!(rt; a < 1 << 126 && rsqrt(a) == want, "{a}");
    }
    for (a, want) in CUBE_ROOTS {
        let (a, want) = (*a, *want);
        assert!(rt; a < 1 << 126 && rcbrt(a) == want, "{a}");
    }
}

/// Numbers by keyword, one keyword twice.
fn keyed(alloc: Global) -> Result<Numbers, NoMemory> {
    let mut numbers = Numbers::new(alloc);
    numbers.push(Text::from_bytes(alloc, b"temp")?, 24159191)?;
    numbers.push(Text::from_bytes(alloc, b"step")?, -7)?;
    numbers.push(Text::from_bytes(alloc, b"temp")?, 1)?;
    Ok(numbers)
}

const KEYWORDS: &[(&str, Option<i128>)] = &[
    ("temp", Some(24159191)),
    ("step", Some(-7)),
    ("tem", None),
];

#[test]
fn finds_the_first_number_with_a_keyword(rt: HostRuntime) -> Result<(), NoMemory> {
    let numbers = keyed(rt.alloc())?;
    for (keyword, want) in KEYWORDS {
        let want = *want;
        assert_eq!(rt; numbers.value_of(keyword.as_bytes()), want, "{keyword}");
    }
    assert_eq!(rt; numbers.as_slice().len(), 3);
    Ok(())
}

/// Whether a list keeps what is put into it, as a vector too.
fn lists_keep(alloc: Global) -> Result<bool, NoMemory> {
    let mut list = Seq::new(alloc);
    let empty = list.is_empty();
    for item in [3u32, 1, 4] {
        list.push(item)?;
    }
    let kept = list.len() == 3 && list.as_slice() == [3, 1, 4].as_slice();
    let list = Seq::from_vec(list.into_vec());
    Ok(empty && kept && list.as_slice() == [3, 1, 4].as_slice())
}

/// Whether a text keeps what is put into it, and is copied.
fn texts_keep(alloc: Global) -> Result<bool, NoMemory> {
    let mut text = Text::new(alloc);
    text.push(b"run ")?;
    text.push(b"0")?;
    let copy = text.copy(alloc)?;
    let other = Text::from_bytes(alloc, b"run 1")?;
    Ok(copy.as_bytes() == b"run 0".as_slice() && copy.same(&text) && !copy.same(&other))
}

#[test]
fn lists_and_texts_grow_and_copy(rt: HostRuntime) -> Result<(), NoMemory> {
    let (lists, texts) = (lists_keep(rt.alloc())?, texts_keep(rt.alloc())?);
    assert!(rt; lists, "lists");
    assert!(rt; texts, "texts");
    Ok(())
}
