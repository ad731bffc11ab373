//! What models are written with, and what working through them needs: parts as
//! they come from outside (`part`), why a call is refused (`refusal`), sets of
//! symbols (`symbols`), and a stack over a lent slice (`stack`).

#![tactic(auto)]

pub mod part;
pub mod refusal;
pub mod stack;
pub mod symbols;
