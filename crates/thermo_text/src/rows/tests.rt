//! Worked headers, lines and footers.
ghost use Rattle.std.specs.Prelude.{◌≡◌, true, IfOk};
ghost use Rattle.thermo_text.specs.Thermo.{HasNumber, HasEachNumber};

use super::{footer, header, line};
use crate::columns::{Columns, Keyword, style_one};
use fx_num::{NoMemory, Numbers, Seq, Text};
use std::alloc::Global;
use std::process::Abort;
use std::test::Fail;

/// The greatest magnitude of a number in a line.
const GREATEST: u128 = 1 << 98;

/// Numbers under these keywords.
fn numbers_of(alloc: Global, list: &[(&str, i128)]) -> Result<Numbers, NoMemory> {
    let mut numbers = Numbers::new(alloc);
    for (keyword, value) in list {
        numbers.push(Text::from_bytes(alloc, keyword.as_bytes())?, *value)?;
    }
    Ok(numbers)
}

/// Whether the numbers have one for the column.
fn has_number(alloc: Global, numbers: &Numbers, keyword: &Keyword) -> Result<bool, NoMemory>
    ensures { IfOk result (λ b. b ≡ true → HasNumber numbers.now keyword.now) }
{
    let key = keyword.text(alloc)?;
    match numbers.value_of(key.as_bytes()) {
        Some(value) => Ok(value.unsigned_abs() <= GREATEST),
        None => Ok(false),
    }
}

/// Whether the numbers have every keyword of the columns.
fn has_each_number(alloc: Global, numbers: &Numbers, columns: &Columns) -> Result<bool, NoMemory>
    ensures { IfOk result (λ b. b ≡ true → HasEachNumber numbers.now columns.now) }
{
    for keyword in columns.as_slice() {
        let has = has_number(alloc, numbers, keyword)?;
        if !has {
            return Ok(false);
        }
    }
    Ok(true)
}

/// The header and the line are these.
fn check(
    rt: &impl Abort,
    alloc: Global,
    columns: &Columns,
    numbers: &Numbers,
    want: [&str; 2],
) -> Result<(), NoMemory> {
    let [want_header, want_line] = want;
    assert_eq!(rt; header(alloc, columns)?.as_bytes(), want_header.as_bytes());
    let complete = has_each_number(alloc, numbers, columns)?;
    assert!(rt; complete);
    assert_eq!(rt;
        line(alloc, columns, numbers)?.as_bytes(),
        want_line.as_bytes()
    );
    Ok(())
}

#[test]
fn style_one_at_step_0(rt: HostRuntime) -> Result<(), Fail> {
    let alloc = rt.alloc();
    let numbers = numbers_of(
        alloc,
        &[
            ("step", 0),
            ("temp", 0),
            ("epair", -516_096),
            ("emol", 0),
            ("etotal", -516_096),
            ("press", -2032),
        ],
    )?;
    let want = [
        "      Step                 Temp               E_pair                E_mol               TotEng                Press\n",
        "         0           0.00000000          -0.03076172           0.00000000          -0.03076172          -0.00012112\n",
    ];
    check(&rt, alloc, &style_one(alloc)?, &numbers, want)?;
    Ok(())
}

#[test]
fn long_cells_and_computes(rt: HostRuntime) -> Result<(), Fail> {
    let alloc = rt.alloc();
    let columns = Seq::from_vec(vec![in alloc;
        Keyword::Step,
        Keyword::Etotal,
        Keyword::Compute(Text::from_bytes(alloc, b"mobile")?),
        Keyword::Atoms,
        Keyword::Compute(Text::from_bytes(alloc, b"a_compute_with_a_long_id")?),
    ]?);
    let numbers = numbers_of(
        alloc,
        &[
            ("atoms", 2_097_152),
            ("c_a_compute_with_a_long_id", 8_388_608),
            ("c_mobile", -1),
            ("etotal", -207_126_121_597_108_224),
            ("step", 98_765_432_101),
        ],
    )?;
    let want = [
        "      Step               TotEng             c_mobile      Atoms c_a_compute_with_a_long_id\n",
        "98765432101 -12345678901.50000000          -0.00000006    2097152           0.50000000\n",
    ];
    check(&rt, alloc, &columns, &numbers, want)?;
    Ok(())
}

#[test]
fn footers(rt: HostRuntime) -> Result<(), Fail> {
    for (pairs, builds, want) in [
        (1, 0, "Neighbor pairs 1 builds 0\n"),
        (
            u64::MAX,
            274_877_906_944,
            "Neighbor pairs 18446744073709551615 builds 274877906944\n",
        ),
    ] {
        assert_eq!(rt;
            footer(rt.alloc(), pairs, builds)?.as_bytes(),
            want.as_bytes()
        );
    }
    Ok(())
}

#[test]
fn keywords_and_names(rt: HostRuntime) -> Result<(), Fail> {
    let alloc = rt.alloc();
    for (keyword, text, name) in [
        (Keyword::Pe, "pe", "PotEng"),
        (Keyword::Ke, "ke", "KinEng"),
        (Keyword::Eangle, "eangle", "E_angle"),
        (Keyword::Vol, "vol", "Volume"),
    ] {
        assert_eq!(rt; keyword.text(alloc)?.as_bytes(), text.as_bytes());
        assert_eq!(rt; keyword.name(alloc)?.as_bytes(), name.as_bytes());
    }
    Ok(())
}
