//! The options of the commands.

ghost use Rattle.std.specs.Prelude.{◌≡◌};
ghost use Rattle.chisel_words.specs.Words.{callees_of, count_of, seed_of, trials_by, trials_of};

use crate::number::number;
use chisel_options::Trials;
use chisel_outside::Arg;

/// The last number of trials of one sample.
const MOST_TRIALS: u64 = 1000;

/// The options of `verify`: whether the lines of the functions that are called are wanted.
pub(crate) fn callees(options: &[Arg]) -> Option<bool>
    ensures { result ≡ callees_of options.now }
{
    match options {
        [] => Some(false),
        [option] if option.as_str() == "--callees" => Some(true),
        _ => None,
    }
}

fn seed(option: &Arg, word: &Arg) -> Option<u64>
    ensures { result ≡ seed_of option.now word.now }
{
    if option.as_str() == "--seed" {
        number(word.as_str(), u64::MAX)
    } else {
        None
    }
}

fn count(option: &Arg, word: &Arg) -> Option<u64>
    ensures { result ≡ count_of option.now word.now }
{
    if option.as_str() == "--trials" {
        number(word.as_str(), MOST_TRIALS)
    } else {
        None
    }
}

fn trials_by(seed: Option<u64>, count: Option<u64>) -> Option<Trials>
    ensures { result ≡ trials_by seed count }
{
    let seed = seed?;
    let count = count?;
    Some(Trials { seed, count })
}

/// The options of `run`, in any order, each at most once.
pub(crate) fn trials_of(options: &[Arg]) -> Option<Trials>
    ensures { result ≡ trials_of options.now }
{
    match options {
        [] => Some(Trials { seed: 1, count: 0 }),
        [option, word] => {
            let seeded = trials_by(seed(option, word), Some(0));
            seeded.or(trials_by(Some(1), count(option, word)))
        }
        [option, word, other, more] => {
            let seed_first = trials_by(seed(option, word), count(other, more));
            seed_first.or(trials_by(seed(other, more), count(option, word)))
        }
        _ => None,
    }
}
