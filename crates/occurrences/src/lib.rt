//! How often a symbol occurs in the messages of a model: what is known of a
//! number, and its text (`figure`), and the summary of the fewest and the most
//! (`occurs`).

#![tactic(auto)]

pub mod figure;
pub mod occurs;
