//! The list of a brick.
ghost use Rattle.std.specs.Prelude.{◌≡◌, ◌^◌, ◌<◌, length};
ghost use Rattle.half_list.specs.Lists.{row_count, row_of};

use half_list::List;

/// The neighbour list of a brick: a row for each atom that it owns. Contracts see the pairs of places of
/// atoms.
#[derive(Drop)]
pub struct BrickList {
    // The places of the own atoms.
    pub(crate) own: Vec<u32>,
    // For each of them the places of its neighbours.
    pub(crate) rows: List,
    ghost few: { length own.items < 2 ^ 32 },
    ghost each: { row_count rows ≡ length own.items },
}

impl BrickList {
    /// How many rows there are: one for each atom that the brick owns.
    pub fn count(&self) -> u32
        ensures { result ≡ length self.now.own.items }
    {
        self.own.len() as u32
    }

    /// The places of the own atoms, in rising order: that of a row's atom stands at the row's number.
    pub fn own(&self) -> &[u32]
        ensures { result.now ≡ self.now.own.items }
    {
        &self.own
    }

    /// The places of the neighbours of greater id of the own atom with this number.
    pub fn row(&self, k: u32) -> &[u32]
        requires { k < length self.now.own.items }
        ensures { result.now ≡ row_of self.now.rows k }
    {
        self.rows.row(k)
    }
}
