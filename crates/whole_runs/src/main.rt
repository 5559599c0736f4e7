//! Whole runs of the program over objects in memory, told by the lines of the standard input. Of each run it prints the
//! number that the program exits with, what it says on standard error, and the pieces that it puts.
//!
//! Each line of the input begins with a word that says what it does:
//!
//!     == TITLE           tells what the next runs show: the line is printed
//!     file NAME          a file with no bytes, in place of one of this name; the lines up to the next file are its own:
//!     | TEXT             a line
//!     + TEXT             a text without a line feed
//!     fill COUNT TEXT    a text so many times, without line feeds
//!     copy NAME          the bytes of another file
//!     fail CALL          the fetch of this number fails, counted from 0
//!     cut CALL KEPT      the put of this number keeps so many bytes and fails, counted from 0
//!     mend               no call fails
//!     clear              there is no file, no call fails, and texts are printed whole
//!     lines COUNT        of each text at most so many lines are printed, and `..` where there are more
//!     run WORDS          runs the program; '' stands for a word without bytes, and % for a byte that no text has
//!     unread             runs the program with words that cannot be read
//!     call WORDS         makes the top call, with no call that fails, and prints its status
//!     given WORDS        reads these words as the system gives them, the program's name first, and prints them
//!     # TEXT             nothing
//!
//! A piece is printed as `new NAME` where its file starts anew, else as `more NAME`, with its lines behind it as
//! the input would write them.
#![tactic(auto)]

mod call;
mod cases;
mod outer;
mod print;
mod system;

use cases::Cases;
use std::io;

fn main(rt: HostRuntime) -> io::Result<()> {
    let mut cases = Cases::new(rt.alloc());
    for line in rt.lines(rt.alloc()) {
        let line = line?;
        cases.obey(&rt, line.as_str())?;
    }
    Ok(())
}
