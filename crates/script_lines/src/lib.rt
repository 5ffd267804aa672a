//! The words of a scene's text and the lines of its scripts: bytes and lines, numbers, payloads, registers, and the call that
//! each line of a thread or a client spells. What can be wrong with a scene is told here too.
#![tactic(auto)]

pub mod call_lines;
pub mod client_call_lines;
pub mod command_lines;
pub mod fault;
pub mod handle_lines;
pub mod line_words;
pub mod memory_lines;
pub mod message_lines;
pub mod numbers;
pub mod payload;
pub mod registers;
pub mod texts;
pub mod words;
