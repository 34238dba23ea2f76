//! The numbers that are drawn for the script.
ghost use Rattle.std.specs.Prelude.{◌≡◌};
ghost use Rattle.generated.specs.Draws.{drawn, stirred};

/// The factor of the linear congruential generator.
const FACTOR: u64 = 6_364_136_223_846_793_005;

/// What it adds.
const ADDEND: u64 = 1_442_695_040_888_963_407;

/// How many of the lowest bits of its state a draw leaves out.
const LOW_BITS: u32 = 33;

/// A linear congruential generator of 64 bits.
#[derive(Clone, Copy)]
pub struct Draws {
    state: u64,
}

impl Draws {
    /// The draws from a seed on.
    pub(crate) fn seeded(seed: u64) -> Draws
        ensures { result.state ≡ seed }
    {
        Draws { state: seed }
    }

    /// The next draw: the state is stirred, and its high bits are the draw.
    pub(crate) fn draw(&mut self) -> u64
        ensures state { self.new.state ≡ stirred self.old.state }
        ensures value { result ≡ drawn (stirred self.old.state) }
    {
        self.state = self.state.wrapping_mul(FACTOR).wrapping_add(ADDEND);
        self.state >> LOW_BITS
    }
}
