//! A ghost atom.

use box_geo::Site;
use fx_num::V3;

/// An image of an atom near a brick.
#[derive(Clone, Copy, Debug)]
pub struct Ghost {
    /// Where the image is now, the id of its atom, and the atom's place in the list of atoms.
    pub site: Site,
    /// Where the image was when the shell was built.
    pub built: V3,
    /// Where its atom was then, inside the box.
    pub reference: V3,
}
