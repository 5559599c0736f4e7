//! Ids.
ghost use Rattle.std.specs.Prelude.{◌≡◌};
ghost use Rattle.std.specs.List.{list_all};
ghost use Rattle.names.specs.Names.{is_compute, is_id, is_id_byte};

use box_geo::limits::MAX_NAME_BYTES;

/// Whether a byte may stand in an id: an ASCII letter or digit, or `_`.
fn is_id_byte(byte: u8) -> bool
    ensures { result ≡ is_id_byte byte }
{
    byte.is_ascii_alphanumeric() || byte == b'_'
}

/// Whether every byte may stand in an id.
fn has_id_bytes(name: &[u8]) -> bool
    ensures { result ≡ list_all is_id_byte name.now }
{
    name.iter().all(|byte| is_id_byte(*byte))
}

/// Whether this is an id, or the name of a variable: 1 to [`MAX_NAME_BYTES`] ASCII letters, digits and `_`.
pub fn is_id(name: &[u8]) -> bool
    ensures { result ≡ is_id name.now }
{
    1 <= name.len() && name.len() <= MAX_NAME_BYTES && has_id_bytes(name)
}

/// Whether this is `c_` and an id, as formulas and columns name a compute.
pub fn is_compute(name: &[u8]) -> bool
    ensures { result ≡ is_compute name.now }
{
    match name {
        [b'c', b'_', id @ ..] => is_id(id),
        _ => false,
    }
}
