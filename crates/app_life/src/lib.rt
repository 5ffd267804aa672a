//! The life of applications: which of them run, how often they were started, what their threads do, and
//! each one's handle table. An application is started at most 4 times.
#![tactic(auto)]

mod apps;
mod life;
mod registry;
mod threads;

pub use apps::Apps;
pub use threads::ThreadLife;
