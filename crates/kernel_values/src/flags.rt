//! The flag types: a number whose bits have names.

ghost use Rattle.std.specs.Prelude.{⊤, [], ◌∷◌, codes};

use bitflags::{Flag, Flags, bitflag_items};

/// What may be pending at an object, as the Trusty API names it. The numbers of the bits are this
/// project's own.
#[derive(Clone, Copy, PartialEq, Eq, Debug)]
pub struct Events(pub u32);

bitflag_items! {
    impl Events: u32 {
        const READY = 1;
        const ERROR = 2;
        const HUP = 4;
        const MSG = 8;
        const SEND_UNBLOCKED = 16;
    }
}

impl Flags for Events {
    type Bits = u32;

    ghost exact = { ⊤ };

    ghost table = { (codes "READY", 1) ∷ (codes "ERROR", 2) ∷ (codes "HUP", 4) ∷ (codes "MSG", 8) ∷ (codes "SEND_UNBLOCKED", 16) ∷ [] };

    ghost set_of = { λ flags. flags.0 };

    fn flags<'a>() -> &'a [Flag<Events>] {
        Events::FLAGS
    }

    fn bits(&self) -> u32 {
        self.0
    }

    fn from_bits_retain(bits: u32) -> Events {
        Events(bits)
    }
}

/// Who may connect to a port: secure applications (`TA`), the normal world (`NS`).
#[derive(Clone, Copy, PartialEq, Eq, Debug)]
pub struct PortFlags(pub u32);

bitflag_items! {
    impl PortFlags: u32 {
        const TA = 1;
        const NS = 2;
    }
}

impl Flags for PortFlags {
    type Bits = u32;

    ghost exact = { ⊤ };

    ghost table = { (codes "TA", 1) ∷ (codes "NS", 2) ∷ [] };

    ghost set_of = { λ flags. flags.0 };

    fn flags<'a>() -> &'a [Flag<PortFlags>] {
        PortFlags::FLAGS
    }

    fn bits(&self) -> u32 {
        self.0
    }

    fn from_bits_retain(bits: u32) -> PortFlags {
        PortFlags(bits)
    }
}

/// How a connect goes about a port that is not there (`WAIT_FOR_PORT`), and whether it answers at
/// once (`ASYNC`).
#[derive(Clone, Copy, PartialEq, Eq, Debug)]
pub struct ConnectFlags(pub u32);

bitflag_items! {
    impl ConnectFlags: u32 {
        const WAIT_FOR_PORT = 1;
        const ASYNC = 2;
    }
}

impl Flags for ConnectFlags {
    type Bits = u32;

    ghost exact = { ⊤ };

    ghost table = { (codes "WAIT_FOR_PORT", 1) ∷ (codes "ASYNC", 2) ∷ [] };

    ghost set_of = { λ flags. flags.0 };

    fn flags<'a>() -> &'a [Flag<ConnectFlags>] {
        ConnectFlags::FLAGS
    }

    fn bits(&self) -> u32 {
        self.0
    }

    fn from_bits_retain(bits: u32) -> ConnectFlags {
        ConnectFlags(bits)
    }
}

/// Whether a memory reference may be written.
#[derive(Clone, Copy, PartialEq, Eq, Debug)]
pub struct MemFlags(pub u32);

bitflag_items! {
    impl MemFlags: u32 {
        const WRITE = 1;
    }
}

impl Flags for MemFlags {
    type Bits = u32;

    ghost exact = { ⊤ };

    ghost table = { (codes "WRITE", 1) ∷ [] };

    ghost set_of = { λ flags. flags.0 };

    fn flags<'a>() -> &'a [Flag<MemFlags>] {
        MemFlags::FLAGS
    }

    fn bits(&self) -> u32 {
        self.0
    }

    fn from_bits_retain(bits: u32) -> MemFlags {
        MemFlags(bits)
    }
}
