//! Tests of the parts that read and write texts and numbers: tables of cases, with expected values that were worked out by hand.
#![tactic(auto)]

#[cfg(test)]
mod commands;
#[cfg(test)]
mod formulas;
#[cfg(test)]
mod lines;
#[cfg(test)]
mod numbers;
#[cfg(test)]
mod quotients;
#[cfg(test)]
mod values;
#[cfg(test)]
mod variables;
