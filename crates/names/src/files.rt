//! Names of files.
ghost use Rattle.std.specs.Prelude.{◌≡◌};
ghost use Rattle.std.specs.List.{list_all};
ghost use Rattle.names.specs.Names.{is_compressed, is_file_name, is_name_byte};

use box_geo::limits::MAX_FILE_NAME_BYTES;

/// Whether a byte may stand in the name of a file: printable ASCII, but no blank, quote, `*` or `%`.
fn is_name_byte(byte: u8) -> bool
    ensures { result ≡ is_name_byte byte }
{
    (33..=126).contains(&byte) && byte != b'"' && byte != b'\'' && byte != b'*' && byte != b'%'
}

/// Whether every byte may stand in the name of a file.
fn has_name_bytes(name: &[u8]) -> bool
    ensures { result ≡ list_all is_name_byte name.now }
{
    name.iter().all(|byte| is_name_byte(*byte))
}

/// Whether this is the name of a file: 1 to [`MAX_FILE_NAME_BYTES`] bytes that may stand in one.
pub fn is_file_name(name: &[u8]) -> bool
    ensures { result ≡ is_file_name name.now }
{
    1 <= name.len() && name.len() <= MAX_FILE_NAME_BYTES && has_name_bytes(name)
}

/// Whether the name stands for a compressed file.
pub fn is_compressed(name: &[u8]) -> bool
    ensures { result ≡ is_compressed name.now }
{
    name.ends_with(b".gz")
        || name.ends_with(b".bz2")
        || name.ends_with(b".xz")
        || name.ends_with(b".zst")
        || name.ends_with(b".lz4")
}
