//! What no clause says: that calls succeed, and which of them fail.
use fx_num::{NoMemory, Text};
use outside::*;
use std::alloc::Global;
use std::process::Abort;
use std::test::Fail;

/// The file `in.melt`, with the bytes `run 10`.
fn one_file(alloc: Global) -> Result<Files, NoMemory> {
    let mut items = Vec::new(alloc);
    items.push(File {
        name: Text::from_bytes(alloc, b"in.melt")?,
        bytes: Text::from_bytes(alloc, b"run 10")?,
    })?;
    Ok(Files::new(items))
}

/// Asserts that a fetch of the name gives these bytes, or this refusal.
fn check_fetch<S: Shelf>(
    rt: &(impl Abort + AllocGlobal),
    shelf: &mut S,
    name: &[u8],
    want: Result<&[u8], FetchRefusal>,
) -> Result<(), NoMemory> {
    let name = Text::from_bytes(rt.alloc(), name)?;
    match (shelf.fetch(rt.alloc(), &name), want) {
        (Ok(bytes), Ok(expected)) => assert_eq!(rt; bytes.as_bytes(), expected),
        (Err(refusal), Err(expected)) => assert_eq!(rt; refusal, expected),
        _ => panic!(rt; "one was fetched and the other was not"),
    }
    Ok(())
}

#[test]
fn a_sure_shelf_gives_its_file_and_misses_another(rt: HostRuntime) -> Result<(), Fail> {
    let files = one_file(rt.alloc())?;
    assert!(rt; files.has_distinct_names());
    let mut shelf = SureShelf::new(rt.alloc(), files)?;
    check_fetch(&rt, &mut shelf, b"in.melt", Ok(b"run 10"))?;
    check_fetch(&rt, &mut shelf, b"in.lj", Err(FetchRefusal::Missing))?;
    Ok(())
}

#[test]
fn a_shelf_in_memory_fails_at_call_one_alone(rt: HostRuntime) -> Result<(), Fail> {
    let files = one_file(rt.alloc())?;
    assert!(rt; files.has_distinct_names());
    let fail = Calls::new(vec![in rt.alloc(); 1]?);
    let mut shelf = MemShelf::new(rt.alloc(), files, fail)?;
    check_fetch(&rt, &mut shelf, b"in.melt", Ok(b"run 10"))?;
    check_fetch(&rt, &mut shelf, b"in.melt", Err(FetchRefusal::Faulted))?;
    check_fetch(&rt, &mut shelf, b"in.melt", Ok(b"run 10"))?;
    Ok(())
}

/// Asserts that the piece at this place is of the file `log`, and has this freshness and these bytes.
fn check_piece(rt: &impl Abort, pieces: &[Piece], place: usize, fresh: bool, bytes: &[u8]) {
    match pieces.get(place) {
        None => panic!(rt; "no piece {place}"),
        Some(piece) => {
            assert_eq!(rt; piece.name.as_bytes(), b"log".as_slice());
            assert_eq!(rt; piece.fresh, fresh);
            assert_eq!(rt; piece.bytes.as_bytes(), bytes);
        }
    }
}

#[test]
fn a_sure_press_keeps_each_piece(rt: HostRuntime) -> Result<(), Fail> {
    let log = Text::from_bytes(rt.alloc(), b"log")?;
    let mut press = SurePress::new(rt.alloc())?;
    press.put(rt.alloc(), &log, true, b"Step Temp")?;
    press.put(rt.alloc(), &log, false, b"0 1.44")?;
    assert_eq!(rt; press.pieces().len(), 2);
    check_piece(&rt, press.pieces(), 0, true, b"Step Temp");
    check_piece(&rt, press.pieces(), 1, false, b"0 1.44");
    Ok(())
}

#[test]
fn a_press_in_memory_keeps_five_bytes_of_a_cut_piece(rt: HostRuntime) -> Result<(), Fail> {
    let log = Text::from_bytes(rt.alloc(), b"log")?;
    let cuts = vec![in rt.alloc(); Cut { call: 1, kept: 5 }, Cut { call: 2, kept: 9 }]?;
    let mut press = MemPress::new(rt.alloc(), Cuts::new(cuts))?;
    let answers = [
        press.put(rt.alloc(), &log, true, b"Step Temp"),
        press.put(rt.alloc(), &log, false, b"0 1.4400"),
        press.put(rt.alloc(), &log, false, b"Loop"),
        press.put(rt.alloc(), &log, true, b"Done"),
    ];
    assert_eq!(rt;
        answers,
        [
            Ok(()),
            Err(PutRefusal::Faulted),
            Err(PutRefusal::Faulted),
            Ok(())
        ]
    );
    assert_eq!(rt; press.pieces().len(), 4);
    check_piece(&rt, press.pieces(), 0, true, b"Step Temp");
    check_piece(&rt, press.pieces(), 1, false, b"0 1.4");
    check_piece(&rt, press.pieces(), 2, false, b"Loop");
    check_piece(&rt, press.pieces(), 3, true, b"Done");
    Ok(())
}
