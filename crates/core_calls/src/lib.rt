//! The calls on handles, memory references, messages, ports and connections, and the ends of threads and applications, over any core: each tests its refusals in the order of the rule, and then
//! makes its change. A call that is refused because memory ran out leaves the state as it was.
#![tactic(auto)]

pub mod accepts;
pub mod applications;
pub mod connects;
pub mod ends;
pub mod handles;
pub mod memories;
pub mod messages;
pub mod paths;
pub mod ports;
pub mod sends;
