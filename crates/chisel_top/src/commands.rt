//! The commands: each fetches its files in the order of work, and its family answers.

ghost use Rattle.std.specs.Prelude.{◌≡◌, ◌≤◌, List, ℕ, Option, None, Some, Ok};
ghost use Rattle.rely_num.specs.Texts.{Bytes};
ghost use Rattle.chisel_outside.specs.Outside.{Log};
ghost use Rattle.chisel_optimise.specs.Answers.{given, job_of};
ghost use Rattle.chisel_optimise.specs.Promises.{IsJob};
ghost use Rattle.chisel_words.specs.Asked.{to_certified, to_make, to_optimise, to_run, to_verify};
ghost use Rattle.chisel_words.specs.Words.{ToMake, ToOptimise, ToRun, ToVerify, ToVersion};
ghost use Rattle.chisel_files.specs.Choosing.{IsProblem, certificate_work};
ghost use Rattle.chisel_files.specs.Works.{Content, ◌then◌};
ghost use Rattle.chisel_run.specs.Answer as runs;
ghost use Rattle.chisel_run.specs.Calls.{barred_call};
ghost use Rattle.chisel_source.specs.Meaning.{AreClosed, IsReady};
ghost use Rattle.chisel_verify.specs.Answer as verify;
ghost use Rattle.chisel_top.specs.Findings.{Choosing, Judging, Running, certified_work, certifying, inputs_of, running, work_of};
ghost use Rattle.chisel_top.specs.Outcomes.{Final, Reaches};

use chisel_files::{Names, Problem, certificate, closed_ready, made, read_problem, starts};
use chisel_lines::{Answer, Fault, Grade, Reason, Refusal, version_line};
use chisel_optimise::{Asked, Task, choose};
use chisel_options::Trials;
use chisel_outside::Shelf;
use chisel_run::barred_call;
use chisel_source::Ready;
use chisel_words::{CertifiedWords, MakeWords, OptimiseWords, RunWords, VerifyWords};
use rely_kernel::Store;
use rely_num::List;
use std::alloc::Global;

/// The answer to what is asked of the claims.
fn judged<'w>(alloc: Global, ready: &Ready, callees: bool) -> Result<Answer, Fault<'w>>
    requires ready { IsReady ready.now }
    requires closed { AreClosed ready.now.linked }
    ensures { Final (Ok (Judging (verify.asked ready.now callees))) result }
{
    match chisel_verify::verify(alloc, ready, callees) {
        Ok(answer) => Ok(answer),
        Err(_) => Err(Fault::Memory),
    }
}

/// The command `verify`.
pub(crate) fn verify<'w, F: Shelf>(
    alloc: Global,
    words: VerifyWords<'w>,
    shelf: &mut F,
) -> Result<Answer, Fault<'w>>
    ensures held { (n : List ℕ) → F.held shelf.new n ≡ F.held shelf.old n }
    ensures reaches { Reaches (F.held shelf.old) (F.log shelf.old) (F.log shelf.new) (work_of (Some (ToVerify (to_verify words.entry)))) result }
{
    match closed_ready(alloc, words.source, words.hardware, words.function, shelf) {
        Ok(ready) => judged(alloc, &ready, words.callees),
        Err(fault) => Err(fault),
    }
}

/// The answer to what is asked of runs.
fn ran<'w>(
    alloc: Global,
    ready: &Ready,
    trials: Trials,
    starts: &[Store],
) -> Result<Answer, Fault<'w>>
    requires { runs.IsInput (runs.asked ready.now trials starts.now) }
    ensures { Final (Ok (Running (runs.asked ready.now trials starts.now))) result }
{
    match chisel_run::run(alloc, ready, trials, starts) {
        Ok(answer) => Ok(answer),
        Err(_) => Err(Fault::Memory),
    }
}

/// The runs of what is ready and isn't barred, from its sample inputs.
fn simulate_inputs<'w, F: Shelf>(
    alloc: Global,
    words: RunWords<'w>,
    ready: &Ready,
    shelf: &mut F,
) -> Result<Answer, Fault<'w>>
    requires ready { IsReady ready.now }
    requires closed { AreClosed ready.now.linked }
    requires unbarred { barred_call words.trials ready.now.linked.kernel ≡ None }
    ensures held { (n : List ℕ) → F.held shelf.new n ≡ F.held shelf.old n }
    ensures reaches { Reaches (F.held shelf.old) (F.log shelf.old) (F.log shelf.new) (inputs_of (to_run words.entry) ready.now) result }
{
    let starts = match starts(alloc, &ready.linked.kernel, words.inputs, shelf) {
        Ok(starts) => starts,
        Err(fault) => return Err(fault),
    };
    ran(alloc, ready, words.trials, starts.as_slice())
}

/// The runs of what is ready, unless trials are asked of a function that calls another.
fn simulate_ready<'w, F: Shelf>(
    alloc: Global,
    words: RunWords<'w>,
    ready: &Ready,
    shelf: &mut F,
) -> Result<Answer, Fault<'w>>
    requires ready { IsReady ready.now }
    requires closed { AreClosed ready.now.linked }
    ensures held { (n : List ℕ) → F.held shelf.new n ≡ F.held shelf.old n }
    ensures reaches { Reaches (F.held shelf.old) (F.log shelf.old) (F.log shelf.new) (running (to_run words.entry) ready.now) result }
{
    match barred_call(words.trials, &ready.linked.kernel) {
        Some(place) => Err(Fault::Refused(Refusal::Source(Reason::Trials, place))),
        None => simulate_inputs(alloc, words, ready, shelf),
    }
}

/// The command `run`.
pub(crate) fn simulate<'w, F: Shelf>(
    alloc: Global,
    words: RunWords<'w>,
    shelf: &mut F,
) -> Result<Answer, Fault<'w>>
    ensures held { (n : List ℕ) → F.held shelf.new n ≡ F.held shelf.old n }
    ensures reaches { Reaches (F.held shelf.old) (F.log shelf.old) (F.log shelf.new) (work_of (Some (ToRun (to_run words.entry)))) result }
{
    match closed_ready(alloc, words.source, words.hardware, words.function, shelf) {
        Ok(ready) => simulate_ready(alloc, words, &ready, shelf),
        Err(fault) => Err(fault),
    }
}

/// The answer to a task over what a problem says.
fn chosen<'w>(alloc: Global, problem: &Problem, task: Task<'_>) -> Result<Answer, Fault<'w>>
    requires problem { IsProblem problem.now }
    requires job { IsJob (job_of task) }
    ensures answered { Final (Ok (Choosing (given problem.now.ready problem.now.starts (job_of task.entry)))) result }
{
    match choose(alloc, &problem.ready, problem.starts.as_slice(), task) {
        Ok(answer) => Ok(answer),
        Err(_) => Err(Fault::Memory),
    }
}

/// The command `optimise`.
pub(crate) fn optimise<'w, F: Shelf>(
    alloc: Global,
    words: OptimiseWords<'w>,
    shelf: &mut F,
) -> Result<Answer, Fault<'w>>
    requires nodes { words.search.nodes ≤ 100000 }
    ensures held { (n : List ℕ) → F.held shelf.new n ≡ F.held shelf.old n }
    ensures reaches { Reaches (F.held shelf.old) (F.log shelf.old) (F.log shelf.new) (work_of (Some (ToOptimise (to_optimise words.entry)))) result }
{
    let names = Names {
        source: words.source,
        hardware: words.hardware,
        inputs: words.inputs,
        function: words.function,
    };
    let problem = match read_problem(alloc, names, shelf) {
        Ok(problem) => problem,
        Err(fault) => return Err(fault),
    };
    chosen(alloc, &problem, Task::Optimise(words.search))
}

/// The commands that take a certificate, of a problem.
fn certified<'w, F: Shelf>(
    alloc: Global,
    certificate_name: &'w str,
    asked: Asked,
    problem: &Problem,
    shelf: &mut F,
) -> Result<Answer, Fault<'w>>
    requires { IsProblem problem.now }
    ensures held { (n : List ℕ) → F.held shelf.new n ≡ F.held shelf.old n }
    ensures reaches { Reaches (F.held shelf.old) (F.log shelf.old) (F.log shelf.new) (certificate_work certificate_name.now then certifying asked problem.now) result }
{
    let text = match certificate(alloc, certificate_name, shelf) {
        Ok(text) => text,
        Err(fault) => return Err(fault),
    };
    chosen(alloc, problem, Task::Certify(asked, text.as_slice()))
}

/// The commands that take a certificate.
pub(crate) fn certify<'w, F: Shelf>(
    alloc: Global,
    words: CertifiedWords<'w>,
    asked: Asked,
    shelf: &mut F,
) -> Result<Answer, Fault<'w>>
    ensures held { (n : List ℕ) → F.held shelf.new n ≡ F.held shelf.old n }
    ensures reaches { Reaches (F.held shelf.old) (F.log shelf.old) (F.log shelf.new) (certified_work asked (to_certified words.entry)) result }
{
    let names = Names {
        source: words.source,
        hardware: words.hardware,
        inputs: words.inputs,
        function: words.function,
    };
    match read_problem(alloc, names, shelf) {
        Ok(problem) => certified(alloc, words.certificate, asked, &problem, shelf),
        Err(fault) => Err(fault),
    }
}

/// The command `make`, which fetches nothing.
pub(crate) fn measure<'w>(alloc: Global, words: MakeWords) -> Result<Answer, Fault<'w>>
    requires least { 1 ≤ words.size }
    requires most { words.size ≤ 100 }
    ensures { (held : Bytes → Option Content) (log : Log) → Reaches held log log (work_of (Some (ToMake (to_make words)))) result }
{
    let problem = match made(alloc, words.size, words.number) {
        Ok(problem) => problem,
        Err(fault) => return Err(fault),
    };
    chosen(alloc, &problem, Task::Measure)
}

/// The command `version`, which fetches nothing.
#[tactic(auto, using(crate::proofs::Reaching::version_answers, crate::proofs::Reaching::version_stops))]
pub(crate) fn introduce<'w>(alloc: Global) -> Result<Answer, Fault<'w>>
    ensures { (held : Bytes → Option Content) (log : Log) → Reaches held log log (work_of (Some ToVersion)) result }
{
    match version_line(alloc) {
        Ok(line) => Ok(Answer::Text(List::from_vec(line), Grade::Good)),
        Err(_) => Err(Fault::Memory),
    }
}
