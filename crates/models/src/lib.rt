//! Message models.
//!
//! A table of parts is checked (`model::check`), which either refuses it or makes
//! a model (`model`). A summary (`summary`) is worked up over a model's parts and
//! tells something exact about the messages that fit.

#![tactic(auto)]

pub mod model;
pub mod summary;
