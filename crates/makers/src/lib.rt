//! Rule families as makers write them, from what `rules` and the crates below it make
//! public: those of a board (`board`) and of a pay-out machine (`machine`).

#![tactic(auto)]

pub mod board;
pub mod machine;
