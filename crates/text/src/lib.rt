//! Reading models that are kept as texts of element declarations.

#![tactic(auto)]

mod content;
mod cursor;
pub mod declared;
mod delivery;
pub mod dtd;
mod element;
mod elements;
pub mod fault;
mod join;
mod mark;
pub mod notation;
pub mod position;
pub mod reader;
pub mod refusal;
