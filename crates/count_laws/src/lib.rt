//! Laws of counts: which objects a sweep leaves, told by how many entries name each.
#![tactic(auto)]

pub mod counts;
