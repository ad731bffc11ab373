//! The calls of a script: what a word writes (`read`, `written`), the words of a line in
//! turn (`reader`), the question that they ask (`question`), which call a line makes
//! (`call`), or what is wrong with it (`error`).

#![tactic(auto)]

pub mod call;
pub mod error;
pub mod question;
pub mod read;
mod reader;
mod written;
