//! What a source means on a hardware, ready to be judged, run or improved.

use rely_hard::Hardware;
use rely_kernel::Linked;
use rely_num::List;

/// A hardware, and a function with those that it reaches.
#[derive(Debug, Drop)]
pub struct Meant {
    pub hardware: Hardware,
    pub linked: Linked,
}

/// The same beside the text of its source.
#[derive(Debug, Drop)]
pub struct Ready {
    pub text: List<u8>,
    pub hardware: Hardware,
    pub linked: Linked,
}

impl Ready {
    ghost use Rattle.std.specs.Prelude.{◌≡◌};
    ghost use Rattle.chisel_source.specs.Meaning.{ready_by};

    /// What is meant, with the text that it comes of.
    pub fn new(text: List<u8>, meant: Meant) -> Ready
        ensures { result ≡ ready_by text meant }
    {
        let Meant { hardware, linked } = meant;
        Ready {
            text,
            hardware,
            linked,
        }
    }
}
