//! Rules of messages: what an answer names (`verdict`), who answers (`family`), one
//! family after another (`chain`), one of two (`one_of_two`), and the family that has none
//! (`none`).

#![tactic(auto)]

pub mod chain;
pub mod family;
pub mod none;
mod one_of_two;
pub mod verdict;
