//! What a text of element declarations is, where its declarations stand, and what reading it gives.
//!
//! `specs/` has the definitions. The functions of `law` do nothing: their clauses are the theorems.

#![tactic(auto)]

pub mod law;
