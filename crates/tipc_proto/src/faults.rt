use thiserror::Error;

/// Why bytes are no frame, or a payload no control message: the first that holds.
#[derive(Clone, Copy, Debug, PartialEq, Eq, Error)]
pub enum FrameFault {
    /// Fewer bytes than a header has: 16 for a frame, 8 for a control message.
    #[error("shorter than a header")]
    Short,
    /// The frame's bytes are not the header and as many as it says.
    #[error("not as long as the header says")]
    Length,
    /// No control message has this type.
    #[error("no such type of control message")]
    UnknownType,
    /// The body's length is not the one that the message says, or not that of its type.
    #[error("the body has not the length of its type")]
    BodyLength,
    /// Carries the place, from 0, of the first byte with which no name goes on.
    #[error("the name is broken at byte {0}")]
    Name(u32),
}
