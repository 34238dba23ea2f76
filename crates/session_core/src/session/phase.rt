//! The phase that a session is in.
ghost use Rattle.std.specs.Prelude.{◌≡◌};
ghost use Rattle.session_core.specs.Phases.{is_down, is_open};

/// The phase that a session is in: idle, in an open transaction, or down.
#[derive(Clone, Copy, Debug, PartialEq, Eq)]
pub(super) enum Phase {
    /// No transaction is open.
    Idle,
    /// A transaction is open.
    Open,
    /// A step met a fault: no step does anything any more.
    Down,
}

impl Phase {
    /// Whether a transaction is open.
    pub(super) fn is_open(self) -> bool
        ensures { result ≡ is_open self }
    {
        match self {
            Phase::Open => true,
            Phase::Idle | Phase::Down => false,
        }
    }

    /// Whether a step met a fault.
    pub(super) fn is_down(self) -> bool
        ensures { result ≡ is_down self }
    {
        match self {
            Phase::Down => true,
            Phase::Idle | Phase::Open => false,
        }
    }
}
