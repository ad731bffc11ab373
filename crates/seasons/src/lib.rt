//! A whole season: what one message set is asked (`call`) and answers (`answer`), and a list
//! of calls run from blank (`season`), with the law that its answers obey.

#![tactic(auto)]

pub mod answer;
pub mod call;
mod calling;
pub mod season;
