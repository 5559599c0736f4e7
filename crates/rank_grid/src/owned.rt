//! The places of the atoms of each rank, in compressed rows.
ghost use Rattle.std.specs.Prelude.{◌≡◌, ◌+◌, ◌<◌, ◌≤◌, ℕ, slice_index, vec_len};

/// For each rank the places of its atoms in the list of atoms, in rising order.
#[derive(Drop)]
pub struct Owned {
    pub(crate) starts: Vec<u32>,
    pub(crate) places: Vec<u32>,
    ghost some: { 0 < vec_len starts },
    ghost order: { (k : ℕ) → k + 1 < vec_len starts → slice_index starts.items k ≤ slice_index starts.items (k + 1) },
    ghost within: { (k : ℕ) → k < vec_len starts → slice_index starts.items k ≤ vec_len places },
}
