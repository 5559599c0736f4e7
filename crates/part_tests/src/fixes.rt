//! Worked lists of fixes: what is taken, removed and moved.
ghost use Rattle.std.specs.Prelude.{◌≡◌, true};
ghost use Rattle.box_geo.specs.Ids.{Rises};

use box_geo::Ids;
use fix_list::{Fix, FixList, FixRefusal};
use fx_num::{NoMemory, Text};
use std::alloc::Global;

/// Whether ids are in strictly rising order.
pub(crate) fn rise(ids: &[u32]) -> bool
    ensures { result ≡ true → Rises ids.now }
{
    for i in 1..ids.len() {
        if ids[i - 1] >= ids[i] {
            return false;
        }
    }
    true
}

// Puts a fix nve, and tells whether it was taken.
fn put(
    alloc: Global,
    fixes: &mut FixList,
    name: &[u8],
    ids: &[u32],
) -> Result<Result<(), FixRefusal>, NoMemory> {
    let name = Text::from_bytes(alloc, name)?;
    let copy = Ids::from_vec(Vec::from_slice(alloc, ids)?);
    if rise(ids) {
        Ok(fixes.put(name, Fix::Nve(copy)))
    } else {
        Err(NoMemory)
    }
}

#[test]
fn finds_the_least_id_that_two_fixes_move(rt: HostRuntime) -> Result<(), NoMemory> {
    let cases: [([&[u32]; 3], Option<u32>); 5] = [
        ([&[], &[], &[]], None),
        ([&[1, 2, 9], &[3, 4], &[5]], None),
        ([&[1, 5, 9], &[2, 9], &[5]], Some(5)),
        ([&[7], &[7], &[7]], Some(7)),
        ([&[2, 3, 4], &[1], &[1, 4]], Some(1)),
    ];
    for (lists, least) in cases {
        let mut fixes = FixList::new(rt.alloc())?;
        let names: [&[u8]; 3] = [b"a", b"b", b"c"];
        for (name, ids) in names.into_iter().zip(lists) {
            assert_eq!(rt; put(rt.alloc(), &mut fixes, name, ids)?, Ok(()));
        }
        assert_eq!(rt; fixes.moved_twice(), least);
    }
    Ok(())
}

#[test]
fn a_name_stands_once_and_can_be_given_anew(rt: HostRuntime) -> Result<(), NoMemory> {
    let alloc = rt.alloc();
    let mut fixes = FixList::new(alloc)?;
    assert_eq!(rt; put(alloc, &mut fixes, b"all", &[1, 2])?, Ok(()));
    assert_eq!(rt;
        put(alloc, &mut fixes, b"all", &[3])?,
        Err(FixRefusal::NameExists)
    );
    assert!(rt; fixes.moves(2));
    assert!(rt; !fixes.moves(3));
    let name = Text::from_bytes(alloc, b"all")?;
    assert!(rt; fixes.remove(&name));
    assert!(rt; !fixes.remove(&name));
    assert!(rt; !fixes.moves(2));
    assert_eq!(rt; put(alloc, &mut fixes, b"all", &[4])?, Ok(()));
    assert!(rt; fixes.moves(4));
    Ok(())
}
