//! Tests of the outside, fixes, engines, boards and teams: tables of cases, with expected values that were worked out by
//! hand. Texts and numbers are in `text_tests`, boxes, pair terms and lists in `list_tests`, whole runs in `whole_runs`.
#![tactic(auto)]

#[cfg(test)]
mod boards;
#[cfg(test)]
mod engines;
#[cfg(test)]
mod fixes;
#[cfg(test)]
mod outsides;
#[cfg(test)]
mod teams;
#[cfg(test)]
mod weaves;
