//! How one conjunct grows on its way back through a statement.
//! Each step answers none where a count would reach 2^36.
ghost use Rattle.std.specs.Prelude.{◌≡◌, ◌<◌, [], ◌∷◌, IfSome, IsNone, IsTrue, length};
ghost use Rattle.std.specs.List.{AllByRecursion};
ghost use Rattle.rely_kernel.specs.Labels.{number};
ghost use Rattle.rely_kernel.specs.Paths.{count, name, forget, use_of, uses_of, paths};
ghost use Rattle.rely_kernel.specs.Text.{expr_of, exprs_of, stmt_of};
ghost use Rattle.rely_kernel.specs.Valid.{IsValid};
ghost use Rattle.rely_kernel.specs.declared.label.Label.TheVariants as label;
ghost use Rattle.rely_loops.specs.Grown.{too_many};
ghost use Rattle.rely_precond.specs.Answers.{AreFew, IsOver};
ghost use Rattle.rely_precond.specs.InRange.{ExprInRange, StmtInRange, is_plain};

use rely_kernel::{Ex, Kernel, Label, StKind};
use rely_num::{Conj, List, VarSet};

/// The most that a label is counted.
const MOST_COUNT: u64 = (1 << 36) - 1;

fn number(k: &Kernel, label: Label) -> usize
    requires { IsValid k.now }
    ensures { result ≡ number k.now label }
{
    let sites = k.sites.as_slice().len();
    match label {
        Label::Op(site) => site as usize,
        Label::Read(v) => sites + 2 * v as usize,
        Label::Write(v) => sites + 2 * v as usize + 1,
        Label::Call(place) => sites + 2 * k.vars.as_slice().len() + place as usize,
    }
}

// One more of a label.
fn count(k: &Kernel, label: Label, c: Conj) -> Option<Conj>
    requires valid { IsValid k.now }
    requires few { AreFew c.counts }
    ensures counted { IfSome result (λ d. d ≡ count k.now label c) }
    ensures few { IfSome result (λ d. AreFew d.counts) }
    ensures full { IsNone result → IsOver (count k.now label c) }
{
    let i = number(k, label);
    let mut counts = c.counts.into_vec();
    if i < counts.len() {
        if counts[i] >= MOST_COUNT {
            return None;
        }
        counts[i] += 1;
    }
    Some(Conj {
        counts: List::from_vec(counts),
        vars: c.vars,
    })
}

// A read of a variable, and its name.
fn read(k: &Kernel, v: u32, c: Conj) -> Option<Conj>
    requires valid { IsValid k.now }
    requires in_range { v < length k.now.vars }
    requires few { AreFew c.counts }
    ensures few { IfSome result (λ d. AreFew d.counts) }
    ensures counted { IfSome result (λ d. d ≡ count k.now (label.Read v) (name v c)) }
    ensures full { IsNone result → IsOver (count k.now (label.Read v) (name v c)) }
{
    let vars = c.vars.with(v);
    count(
        k,
        Label::Read(v),
        Conj {
            counts: c.counts,
            vars,
        },
    )
}

// A write of a variable, whose old value is no longer needed.
fn write(k: &Kernel, v: u32, c: Conj) -> Option<Conj>
    requires valid { IsValid k.now }
    requires in_range { v < length k.now.vars }
    requires few { AreFew c.counts }
    ensures few { IfSome result (λ d. AreFew d.counts) }
    ensures counted { IfSome result (λ d. d ≡ count k.now (label.Write v) (forget v c)) }
    ensures full { IsNone result → IsOver (count k.now (label.Write v) (forget v c)) }
{
    let vars = c.vars.without(v);
    count(
        k,
        Label::Write(v),
        Conj {
            counts: c.counts,
            vars,
        },
    )
}

/// The labels and the names of an expression.
pub(crate) fn use_of(k: &Kernel, e: &Ex, c: Conj) -> Option<Conj>
    requires valid { IsValid k.now }
    requires in_range { ExprInRange k.now (expr_of e.now) }
    requires few { AreFew c.counts }
    ensures few { IfSome result (λ d. AreFew d.counts) }
    ensures counted { IfSome result (λ d. d ≡ use_of k.now (expr_of e.now) c) }
    ensures full { IsNone result → IsOver (use_of k.now (expr_of e.now) c) }
{
    match e {
        Ex::Num(_) => Some(c),
        Ex::Read(v) => read(k, *v, c),
        Ex::Elem(a, i) => {
            let c = read(k, *a, c)?;
            use_of(k, i.get(), c)
        }
        Ex::Bin(site, x, y) => {
            let c = count(k, Label::Op(*site), c)?;
            let c = use_of(k, y.get(), c)?;
            use_of(k, x.get(), c)
        }
    }
}

// Those of the arguments whose parameters the callee's claim needs, the last argument first.
fn uses_of(k: &Kernel, needs: VarSet, es: &[Ex], c: Conj) -> Option<Conj>
    requires valid { IsValid k.now }
    requires in_range { AllByRecursion (ExprInRange k.now) (exprs_of es.now) }
    requires few { AreFew c.counts }
    ensures few { IfSome result (λ d. AreFew d.counts) }
    ensures counted { IfSome result (λ d. d ≡ uses_of k.now needs.bits 0 (exprs_of es.now) c) }
    ensures full { IsNone result → IsOver (uses_of k.now needs.bits 0 (exprs_of es.now) c) }
{
    let mut grown = c;
    let mut i = es.len();
    while i > 0 {
        i -= 1;
        if i < 64 && needs.has(i as u32) {
            grown = use_of(k, &es[i], grown)?;
        }
    }
    Some(grown)
}

/// The one path through a statement that is neither a choice nor a loop.
pub(crate) fn through(k: &Kernel, what: &StKind, c: Conj) -> Option<Conj>
    requires valid { IsValid k.now }
    requires in_range { StmtInRange k.now (stmt_of what.now) }
    requires plain { IsTrue (is_plain (stmt_of what.now)) }
    requires few { AreFew c.counts }
    ensures few { IfSome result (λ d. AreFew d.counts) }
    ensures path { IfSome result (λ d. paths k.now (stmt_of what.now) c ≡ d ∷ []) }
    ensures full { IsNone result → IsTrue (too_many (paths k.now (stmt_of what.now) c)) }
{
    match what {
        StKind::Set(v, e) => {
            let c = write(k, *v, c)?;
            use_of(k, e, c)
        }
        StKind::SetElem(a, i, e) => {
            let c = count(k, Label::Write(*a), c)?;
            let c = use_of(k, e, c)?;
            use_of(k, i, c)
        }
        StKind::Result(e) => {
            let vars = c.vars.without(63);
            use_of(
                k,
                e,
                Conj {
                    counts: c.counts,
                    vars,
                },
            )
        }
        StKind::Call(v, place, es) => {
            let c = write(k, *v, c)?;
            let c = count(k, Label::Call(*place), c)?;
            let needs = k.calls.as_slice()[*place as usize].needs;
            uses_of(k, needs, es.as_slice(), c)
        }
        _ => unreachable!(),
    }
}
