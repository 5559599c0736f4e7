//! What a callback sees of an atom.

use fx_num::V3;

/// An atom as `fix external` shows it.
#[derive(Clone, Copy, Debug)]
pub struct ExternalView {
    /// The atom's id.
    pub id: u32,
    /// The atom type, from 1.
    pub kind: u8,
    /// The position, in units of 2^-24.
    pub x: V3,
}
