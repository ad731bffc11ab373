//! What is told of verdicts by the names of symbols: a symbol (`symbol`), a row of symbols
//! (`row`), a set (`named_set`), a verdict (`named_verdict`), and what a message does
//! against the rule, in words (`sentence`, with its `phrase`s).

#![tactic(auto)]

pub mod named_set;
pub mod named_verdict;
mod phrase;
mod row;
pub mod sentence;
pub mod symbol;
