//! What is done with a file that was opened to be changed.
ghost use Rattle.std.specs.Prelude.{◌≡◌, IsTrue, OnOk, IsOk, false};
ghost use Rattle.std.specs.Fs.{asks_create, asks_truncate, asks_write, IsValidOptions};
ghost use Rattle.std.specs.Io.KnownBytes.{Appends};

use disk_outside::Failed;
use std::fs::{OpenFile, OpenOptions};
use std::io::{self, Seek, SeekFrom, Write};

/// How a file is opened that is changed: it is made where it is not there, and keeps its bytes.
pub(crate) fn options() -> OpenOptions
    ensures made { IsTrue (asks_create result) }
    ensures written { IsTrue (asks_write result) }
    ensures kept { asks_truncate result ≡ false }
    ensures allowed { IsValidOptions result }
{
    let mut options = OpenOptions::new();
    options.create(true).write(true);
    options
}

/// Writes all bytes at the place.
pub(crate) fn write_opened<F: Write + Seek>(
    opened: &mut io::Result<F>,
    at: u64,
    bytes: &[u8],
) -> Result<(), Failed>
    ensures opened { OnOk result (IsOk opened.old) }
{
    match opened {
        Ok(file) => match file.seek(SeekFrom::Start(at)) {
            Ok(_) => write_whole(file, bytes),
            Err(_) => Err(Failed),
        },
        Err(_) => Err(Failed),
    }
}

/// Writes all bytes. A write that takes some of them goes on with the rest.
fn write_whole<W: Write>(to: &mut W, bytes: &[u8]) -> Result<(), Failed>
    ensures written { OnOk result (Appends (W.contents to.old) (W.contents to.new) bytes.now) }
{
    if to.write_all(bytes).is_err() {
        return Err(Failed);
    }
    match to.flush() {
        Ok(()) => Ok(()),
        Err(_) => Err(Failed),
    }
}

/// Cuts the file to its first bytes, this many.
pub(crate) fn cut_opened<F: OpenFile>(opened: &io::Result<F>, length: u64) -> Result<(), Failed>
    ensures opened { OnOk result (IsOk opened.now) }
{
    match opened {
        Ok(file) => done(file.set_len(length)),
        Err(_) => Err(Failed),
    }
}

/// Waits until the file is on the disk.
pub(crate) fn sync_opened<F: OpenFile>(opened: &io::Result<F>) -> Result<(), Failed>
    ensures opened { OnOk result (IsOk opened.now) }
{
    match opened {
        Ok(file) => done(file.sync_all()),
        Err(_) => Err(Failed),
    }
}

/// The answer without the reason.
fn done(answer: io::Result<()>) -> Result<(), Failed>
    ensures { OnOk result (IsOk answer) }
{
    match answer {
        Ok(()) => Ok(()),
        Err(_) => Err(Failed),
    }
}
