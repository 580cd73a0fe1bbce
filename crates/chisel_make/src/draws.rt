//! The draws that a made problem is built from.
ghost use Rattle.std.specs.Prelude.{◌≡◌, ◌<◌, ◌^◌};
ghost use Rattle.chisel_make.specs.Draws.{draw, next};

/// The multiplier of Knuth's generator on 64 bits.
const MULTIPLIER: u64 = 6_364_136_223_846_793_005;

/// The increment of Knuth's generator on 64 bits.
const INCREMENT: u64 = 1_442_695_040_888_963_407;

/// A linear congruential generator on 64 bits, of which a draw takes the 31 highest (Knuth, *The Art of Computer
/// Programming*, volume 2, section 3.3.4).
#[derive(Clone, Copy, Debug)]
pub(crate) struct Draws {
    pub(crate) state: u64,
}

impl Draws {
    /// One step, and what it draws: a number below 2^31.
    pub(crate) fn draw(&mut self) -> u64
        ensures state { self.new.state ≡ next self.old.state }
        ensures drawn { result ≡ draw self.old.state }
    {
        self.state = self.state.wrapping_mul(MULTIPLIER).wrapping_add(INCREMENT);
        self.state >> 33
    }
}
