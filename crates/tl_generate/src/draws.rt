//! The numbers that are drawn.

ghost use Rattle.std.specs.Prelude.{◌≡◌, ◌/◌, ◌^◌};
ghost use Rattle.tl_generate.specs.Generated.{drawn};

const MULTIPLIER: u64 = 6_364_136_223_846_793_005;

const INCREMENT: u64 = 1_442_695_040_888_963_407;

/// Where the draws stand.
#[derive(Clone, Copy, Debug)]
pub(crate) struct Draws {
    pub state: u64,
}

impl Draws {
    /// The next number, below 2^31.
    pub(crate) fn draw(&mut self) -> u64
        ensures state { self.new.state ≡ drawn self.old.state }
        ensures value { result ≡ drawn self.old.state / 2 ^ 33 }
    {
        self.state = self.state.wrapping_mul(MULTIPLIER).wrapping_add(INCREMENT);
        self.state / (1 << 33)
    }
}
