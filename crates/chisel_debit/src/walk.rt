ghost use Rattle.std.specs.Prelude.{◌≡◌, ◌≤◌, ℕ};

use rely_num::Atto;

/// A walk down the powers of a base, each rounded from the one before, over numbers that fall or stay.
pub(crate) trait Walk: Drop {
    /// The base.
    ghost base_of: { Self → ℕ };

    /// What it answers of a number, by the base.
    ghost answer_of: { ℕ → ℕ → ℕ };

    /// No power passed so far is the one to find for the number.
    ghost is_ahead: { Self → ℕ → Type 0 };

    fn new(base: Atto) -> Self
        ensures base { base_of result ≡ base }
        ensures ahead { (n : ℕ) → is_ahead result n };

    /// The answer of a number that is still ahead. It goes on from there.
    fn answer(&mut self, number: u64) -> u32
        requires { is_ahead self.old number }
        ensures exact { result ≡ answer_of (base_of self.old) number }
        ensures base { base_of self.new ≡ base_of self.old }
        ensures ahead { (n : ℕ) → n ≤ number → is_ahead self.new n };
}

/// What a walk from the start answers of one number. It takes no memory.
pub(crate) fn walk_to<W: Walk>(base: Atto, number: Atto) -> u32
    ensures { result ≡ W.answer_of base number }
{
    W::new(base).answer(number.get())
}
