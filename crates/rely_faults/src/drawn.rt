ghost use Rattle.std.specs.Prelude.{◌≡◌, ◌≤◌};
ghost use Rattle.rely_faults.specs.Trial.{draw};

use rand_core::utils::NextWord;
use rand_pcg::Lcg128Xsl64;
use rely_num::Atto;

/// What a chance step draws.
#[derive(Clone, Copy, Debug)]
pub struct Drawn {
    /// What a wrong step leaves, none where the step is right.
    pub wrong: Option<i64>,
    /// How many words it took.
    pub taken: u64,
}

/// Whether a step of that reliability is right, by the words that come next. What is always right takes none.
pub fn draw(p: Atto, words: &mut Lcg128Xsl64) -> Drawn
    ensures wrong { result.wrong ≡ (draw p words.old).wrong }
    ensures taken { result.taken ≡ (draw p words.old).taken }
    ensures few { result.taken ≤ 2 }
    ensures words { words.new ≡ (draw p words.old).words }
{
    if p == Atto::ONE {
        return Drawn {
            wrong: None,
            taken: 0,
        };
    }
    if words.next_word() % Atto::ONE.get() < p.get() {
        return Drawn {
            wrong: None,
            taken: 1,
        };
    }
    Drawn {
        wrong: Some(words.next_word().cast_signed()),
        taken: 2,
    }
}
