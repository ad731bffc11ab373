//! The message set (`message_set`), and the five rule families of an expected model
//! (`families`), which its compare and judge ask.

#![tactic(auto)]

mod bounds;
mod expected;
mod families;
mod message;
pub mod message_set;
mod precedence;
pub mod state;
mod subject;
mod verdicts;
