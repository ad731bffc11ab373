//! The names of elements, and the symbols that they become: the names that are
//! known (`names`), what moves through the readers of texts (`vocabulary`), and
//! what holds of symbols whatever names are met (`law`).

#![tactic(auto)]

pub mod law;
mod name;
pub mod names;
pub mod vocabulary;
