//! The words of a command line.

ghost use Rattle.std.specs.Prelude.{◌≡◌, IfSome, option_map, map};
ghost use Rattle.chisel_words.specs.Words.{KeepsLimits, certified_command, certified_form, command_form, form, is_plain, make_form, optimise_form, run_form, verify_form, version_form};
ghost use Rattle.chisel_words.specs.Asked.{asked_by, to_certified};

use crate::number::{number, number_between};
use crate::options::{callees, trials_of};
use crate::search::search_of;
use chisel_options::{Strategy, Trials};
use chisel_outside::Arg;

/// The last size of a made problem.
const MOST_SIZE: u64 = 100;

/// What `verify` is asked.
#[derive(Clone, Copy, Debug)]
pub struct VerifyWords<'w> {
    pub source: &'w str,
    pub hardware: &'w str,
    pub function: &'w str,
    /// Whether the lines of the functions that are called are wanted.
    pub callees: bool,
}

/// What `run` is asked.
#[derive(Clone, Copy, Debug)]
pub struct RunWords<'w> {
    pub source: &'w str,
    pub hardware: &'w str,
    pub inputs: &'w str,
    pub function: &'w str,
    /// What follows each reliable run.
    pub trials: Trials,
}

/// What `optimise` is asked.
#[derive(Clone, Copy, Debug)]
pub struct OptimiseWords<'w> {
    pub source: &'w str,
    pub hardware: &'w str,
    pub inputs: &'w str,
    pub function: &'w str,
    pub search: Strategy,
}

/// What the commands are asked that take a certificate.
#[derive(Clone, Copy, Debug)]
pub struct CertifiedWords<'w> {
    pub source: &'w str,
    pub hardware: &'w str,
    pub inputs: &'w str,
    pub function: &'w str,
    pub certificate: &'w str,
}

/// What `make` is asked.
#[derive(Clone, Copy, Debug)]
pub struct MakeWords {
    /// From 1 to 100.
    pub size: u32,
    pub number: u64,
}

/// A command with its words.
#[derive(Clone, Copy, Debug)]
pub enum Asked<'w> {
    Verify(VerifyWords<'w>),
    Optimise(OptimiseWords<'w>),
    Check(CertifiedWords<'w>),
    Rewrite(CertifiedWords<'w>),
    Migrate(CertifiedWords<'w>),
    Run(RunWords<'w>),
    Make(MakeWords),
    /// The name of the program and its version.
    Version,
}

fn is_plain(word: &str) -> bool
    ensures { result ≡ is_plain word.now }
{
    match word.as_bytes() {
        [] => false,
        [first, ..] => *first != b'-',
    }
}

fn verify_words(words: &[Arg]) -> Option<Asked<'_>>
    ensures { option_map asked_by result ≡ verify_form words.now }
{
    let [source, hardware, function, options @ ..] = words else {
        return None;
    };
    let source = source.as_str();
    let hardware = hardware.as_str();
    let function = function.as_str();
    if is_plain(source) && is_plain(hardware) && is_plain(function) {
        let callees = callees(options)?;
        Some(Asked::Verify(VerifyWords {
            source,
            hardware,
            function,
            callees,
        }))
    } else {
        None
    }
}

fn run_words(words: &[Arg]) -> Option<Asked<'_>>
    ensures { option_map asked_by result ≡ run_form words.now }
{
    let [source, hardware, inputs, function, options @ ..] = words else {
        return None;
    };
    let source = source.as_str();
    let hardware = hardware.as_str();
    let inputs = inputs.as_str();
    let function = function.as_str();
    if is_plain(source) && is_plain(hardware) && is_plain(inputs) && is_plain(function) {
        let trials = trials_of(options)?;
        Some(Asked::Run(RunWords {
            source,
            hardware,
            inputs,
            function,
            trials,
        }))
    } else {
        None
    }
}

fn optimise_words(words: &[Arg]) -> Option<Asked<'_>>
    ensures { option_map asked_by result ≡ optimise_form words.now }
{
    let [source, hardware, inputs, function, options @ ..] = words else {
        return None;
    };
    let source = source.as_str();
    let hardware = hardware.as_str();
    let inputs = inputs.as_str();
    let function = function.as_str();
    if is_plain(source) && is_plain(hardware) && is_plain(inputs) && is_plain(function) {
        let search = search_of(options)?;
        Some(Asked::Optimise(OptimiseWords {
            source,
            hardware,
            inputs,
            function,
            search,
        }))
    } else {
        None
    }
}

fn certified_words(words: &[Arg]) -> Option<CertifiedWords<'_>>
    ensures { option_map to_certified result ≡ certified_form words.now }
{
    let [source, hardware, inputs, function, certificate] = words else {
        return None;
    };
    let source = source.as_str();
    let hardware = hardware.as_str();
    let inputs = inputs.as_str();
    let function = function.as_str();
    let certificate = certificate.as_str();
    if is_plain(source)
        && is_plain(hardware)
        && is_plain(inputs)
        && is_plain(function)
        && is_plain(certificate)
    {
        Some(CertifiedWords {
            source,
            hardware,
            inputs,
            function,
            certificate,
        })
    } else {
        None
    }
}

fn make_words(words: &[Arg]) -> Option<Asked<'_>>
    ensures { option_map asked_by result ≡ make_form words.now }
{
    let [size, seed] = words else {
        return None;
    };
    let size = number_between(size.as_str(), 1, MOST_SIZE)? as u32;
    let number = number(seed.as_str(), u64::MAX)?;
    Some(Asked::Make(MakeWords { size, number }))
}

fn version_words(words: &[Arg]) -> Option<Asked<'_>>
    ensures { option_map asked_by result ≡ version_form words.now }
{
    if words.is_empty() {
        Some(Asked::Version)
    } else {
        None
    }
}

/// The commands that take a certificate.
fn certified_command<'w>(command: &str, words: &'w [Arg]) -> Option<Asked<'w>>
    ensures { option_map asked_by result ≡ certified_command command.now words.now }
{
    match command {
        "check" => Some(Asked::Check(certified_words(words)?)),
        "rewrite" => Some(Asked::Rewrite(certified_words(words)?)),
        "migrate" => Some(Asked::Migrate(certified_words(words)?)),
        _ => None,
    }
}

fn command_words<'w>(command: &str, words: &'w [Arg]) -> Option<Asked<'w>>
    ensures { option_map asked_by result ≡ command_form command.now words.now }
{
    match command {
        "verify" => verify_words(words),
        "optimise" => optimise_words(words),
        "run" => run_words(words),
        "make" => make_words(words),
        "version" => version_words(words),
        "--version" => version_words(words),
        _ => certified_command(command, words),
    }
}

/// None where the words are in no form.
#[tactic(auto, using(crate::proofs::Limits::form_keeps))]
pub fn read(words: &[Arg]) -> Option<Asked<'_>>
    ensures form { option_map asked_by result ≡ form words.now }
    ensures limits { IfSome (form words.now) KeepsLimits }
{
    let [command, words @ ..] = words else {
        return None;
    };
    command_words(command.as_str(), words)
}
