//! Sums of whole numbers over lists: definitions and their laws, for contracts and proofs alone.
//!
//! `specs/Totals.antt` has the sums, `proofs/Totals.antt` the laws of a sum, `proofs/Pairs.antt` the
//! laws of sums over pairs, and `proofs/Members.antt` that lists with the same members are permutations.
//!
//! Beside them stand laws of lists that many crates cite: `proofs/Lists.antt` of lists of lists and
//! their permutations, `proofs/Filters.antt` of tests, `proofs/Parts.antt` of the parts by a number.
//! `specs/Sorting.antt` says what a sort by counting makes, and [`add_up`] is the part of its code that
//! knows no items.
#![tactic(auto)]

mod running;

pub use running::add_up;
