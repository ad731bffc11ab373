//! A whole text is read, and all its models are kept (`listing`), each with the name that
//! it is declared under (`listed`).

#![tactic(auto)]

pub mod listed;
pub mod listing;
