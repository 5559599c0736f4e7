//! Laws of half lists: that none lacks a pair while no atom has moved more than half the skin, and
//! that their rows are the near pairs, each once. Empty functions, whose clauses are the laws.
#![tactic(auto)]

mod build;
mod pairs;
mod skin;

pub use build::{
    lists_have_the_near_pairs_until_the_next_build,
    sites_stand_at_the_nearest_image_until_the_next_build,
};
pub use pairs::{
    rows_are_the_near_pairs, rows_of_sites_are_rows_of_atoms, sites_without_images_show_each_atom,
};
pub use skin::no_pair_is_missed_within_half_the_skin;
