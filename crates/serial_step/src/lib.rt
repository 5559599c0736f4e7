//! The serial step: what a step of a run means, on one list of atoms, with sums over all pairs of
//! atoms. Definitions and their laws alone, for contracts and proofs.
//!
//! `specs/Forces.antt` has the forces and the sums over pairs, `specs/Step.antt` set-up and the step
//! with its fault, `specs/Rebuild.antt` the reference positions and the two numbers of the footer.
//! Positions are wrapped by `box_geo`'s `specs/Wrap.antt`. [`laws`] has the laws of the sums, in the
//! words of `specs/Pairs.antt`. Nothing here knows of bins, lists, bricks or workers.
#![tactic(auto)]

pub mod laws;
