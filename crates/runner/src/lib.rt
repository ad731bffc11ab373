//! A run over a script: it is read from a file or from standard input (`run`), its lines are
//! read into calls (`entry`), those of the set are run as one season (`asking`, `answering`),
//! and an answer is written to each (`writing`); or it ends early (`failure`).

#![tactic(auto)]

pub mod answering;
mod asking;
mod entry;
pub mod failure;
pub mod run;
mod writing;
