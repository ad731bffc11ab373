//! The summaries of a model: each tells something exact about the messages that fit.

#![tactic(auto)]

pub mod after;
pub mod brings;
pub mod empty;
pub mod every;
pub mod symbols;
