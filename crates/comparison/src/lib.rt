//! The comparison of one pair of models, given as tables of parts (`pair`).

#![tactic(auto)]

pub mod pair;
