//! What is told of two texts whose models are compared, element by element.

#![tactic(auto)]

pub mod compare;
mod finding;
mod line;
mod report;
mod side;
pub mod tally;
