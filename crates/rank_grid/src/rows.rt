//! What is kept for a rank.
ghost use Rattle.std.specs.Prelude.{◌≡◌, ◌<◌};
ghost use Rattle.rank_grid.specs.Owned.{row_of, rows_of};

use crate::owned::Owned;

#[tactic(auto, unfolding(crate::specs::Owned::row_of, crate::specs::Owned::rows_of))]
impl Owned {
    /// How many ranks there are.
    pub fn ranks(&self) -> usize
        ensures { result ≡ rows_of self.now }
    {
        self.starts.len() - 1
    }

    /// The places of the atoms of a rank in the list of atoms, in rising order.
    pub fn row(&self, rank: u32) -> &[u32]
        requires { rank < rows_of self.now }
        ensures { result.now ≡ row_of self.now rank }
    {
        let k = rank as usize;
        let start = self.starts[k] as usize;
        let end = self.starts[k + 1] as usize;
        &self.places[start..end]
    }
}
