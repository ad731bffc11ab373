//! What a message set keeps of its models: which numbers have one (`slot`, `slots`), and
//! their parts, each model's in its window of the caller's sheet (`windows`).

#![tactic(auto)]

pub mod slot;
pub mod slots;
pub mod windows;
