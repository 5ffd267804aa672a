//! A port: its path, what it lets in, and the server ends that nobody accepted yet.
#![tactic(auto)]

pub mod port;

pub use port::Port;
