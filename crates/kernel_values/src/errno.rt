//! The errors of the system calls, with LK's names less their prefix `ERR_`.

/// Why a call was refused. The numbers are this project's own.
#[derive(Clone, Copy, PartialEq, Eq, Debug)]
pub enum Errno {
    BadHandle = 1,
    InvalidArgs = 2,
    NotFound = 3,
    AccessDenied = 4,
    AlreadyExists = 5,
    NoResources = 6,
    NoMsg = 7,
    NotReady = 8,
    ChannelClosed = 9,
    TooBig = 10,
    NotEnoughBuffer = 11,
    NotSupported = 12,
    RecurseTooDeep = 13,
    TimedOut = 14,
    Cancelled = 15,
}
