//! What forces rest on.

use pair_lj::PairSettings;

/// What forces rest on.
#[derive(Drop)]
pub struct Force {
    /// The cutoff of the pair style, in units, where one is set.
    pub pair_style: Option<i64>,
    /// The pairs of types that are set, each once, in the order in which they were first set.
    pub pairs: PairSettings,
    /// The cutoff that counts besides those of pairs, in units; 0 for none.
    pub comm_cutoff: i64,
    /// The skin, in units.
    pub skin: i64,
}
