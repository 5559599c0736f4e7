//! Regions of space under their names, and groups of atoms.
#![tactic(auto)]

mod group_table;
mod id_sets;
mod kept_regions;
mod laws;
mod point_test;
mod region_table;
mod shapes;

pub use group_table::{GroupRefusal, Groups, NamedGroup};
pub use id_sets::{difference, intersection, union_of};
pub use laws::{
    rising_ids_are_told_by_their_members, sets_of_ids_have_these_members,
    side_out_is_the_complement,
};
pub use point_test::RegionTest;
pub use region_table::{RegionRefusal, Regions};
pub use shapes::{ClosedBlock, Region};
