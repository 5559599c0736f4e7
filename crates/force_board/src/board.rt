//! The shared words, and a thread's seat at them.
ghost use Rattle.std.specs.Prelude.{◌≡◌, ◌+◌, ◌≤◌};
ghost use Rattle.weave_core.specs.declared.limits.TheConstants.{MAX_PIECES};

use crate::rule::Law;
use atomic_table::Table;
use std::alloc::Global;
use weave_core::Part;

/// A thread's place at a board: what it has done and holds, which exists in contracts alone. It has no bytes.
pub type Seat = atomic_table::Seat<u8, Part>;

/// The shared words: word 0 counts claims, the fault word, and three force words per atom.
pub struct Board {
    pub(crate) table: Table<u8, Part, (u32, u32), Law, Global>,
    pub(crate) pieces: u32,
    pub(crate) count: u32,
    ghost key: { table.shared.key ≡ (pieces, count) },
    ghost words: { table.shared.table_id.words ≡ count + 2 },
    ghost few: { pieces ≤ MAX_PIECES },
}

impl Drop for Board {
    fn drop(self) {
        let Self {
            table,
            pieces: _,
            count: _,
        } = self;
        drop(table);
    }
}
