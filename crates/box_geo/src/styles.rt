//! Styles: the choices that scripts make by a word.

/// What an atom may have besides a type.
#[derive(Clone, Copy, Debug, PartialEq, Eq)]
pub enum AtomStyle {
    /// Nothing.
    Atomic,
    /// Bonds and a molecule.
    Bond,
    /// Bonds, angles and a molecule.
    Angle,
    /// Bonds, angles and a molecule.
    Molecular,
}

/// The lattices, those of two dimensions last.
#[derive(Clone, Copy, Debug, PartialEq, Eq)]
pub enum LatticeStyle {
    /// Simple cubic, one atom a cell.
    Sc,
    /// Body-centred cubic, two atoms a cell.
    Bcc,
    /// Face-centred cubic, four atoms a cell.
    Fcc,
    /// Diamond, eight atoms a cell.
    Diamond,
    /// Square, one atom a cell.
    Sq,
    /// Centred square, two atoms a cell.
    Sq2,
    /// Hexagonal, two atoms a cell.
    Hex,
}

/// How the coefficients of an unset pair of types follow from those of its types.
#[derive(Clone, Copy, Debug, PartialEq, Eq)]
pub enum Mix {
    /// Sizes and cutoffs by their geometric mean.
    Geometric,
    /// Sizes and cutoffs by their arithmetic mean.
    Arithmetic,
}
