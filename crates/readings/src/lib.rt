//! Many texts read with one vocabulary: what is asked (`call`) and answered (`answer`), and a
//! list of calls run (`readings`), with the law that its answers obey.

#![tactic(auto)]

pub mod answer;
pub mod call;
mod desk;
pub mod readings;
