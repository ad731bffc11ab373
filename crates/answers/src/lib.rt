//! What a call answers (`answer`): a refusal, or what a model replies (`reply`), which may be
//! what is said of the model itself (`facts`).

#![tactic(auto)]

pub mod answer;
pub mod facts;
pub mod reply;
mod text;
