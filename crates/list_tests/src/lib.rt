//! Tests of boxes, pair terms, quantities, lists and bricks: tables of cases, with expected values that were worked out by hand.
#![tactic(auto)]

#[cfg(test)]
mod boxes;
#[cfg(test)]
mod bricks;
#[cfg(test)]
mod neighbours;
#[cfg(test)]
mod pair_terms;
#[cfg(test)]
mod quantities;
