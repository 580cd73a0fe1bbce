//! A trial against the words of its generator.
ghost use Rattle.std.specs.Prelude.{◌≡◌, ◌≤◌, ◌^◌, [], ◌∷◌, None, IfOk, pos, true};
ghost use Rattle.rely_kernel.specs.Bound.{IsStart};
ghost use Rattle.rely_kernel.specs.Text.{Expr, Stmt, done, ◌then◌, block_of};
ghost use Rattle.rely_kernel.specs.Valid.{IsValid};

use rand_core::utils::NextWord;
use rand_pcg::Lcg128Xsl64;
use rely_faults::trial;
use rely_hard::read;
use rely_kernel::{Claim, Ex, Kernel, Setting, Site, Slot, St, StKind, Store, Var, fits};
use rely_machine::RunFault;
use rely_num::{Atto, List, Op, Span, VarSet};
use sqlite_items::Boxed;
use std::alloc::{AllocError, Global};
use std::process::Abort;

const NONE: Span = Span { from: 0, to: 0 };

// The second kind of `+` is always wrong; reads and writes are always right.
const HARDWARE: &[u8] =
    b"{\"base\":\"0.999\",\"operators\":[{\"op\":\"+\",\"kinds\":[{\"name\":\"exact\",\"right\":\"1\",\"energy\":1},{\"name\":\"never\",\"right\":\"0\",\"energy\":1}]}],\"memories\":[{\"name\":\"exact\",\"read\":\"1\",\"write\":\"1\",\"read_energy\":1,\"write_energy\":1,\"hold\":1}]}";

fn one<T: Drop>(alloc: Global, x: T) -> Result<List<T>, AllocError>
    ensures { IfOk result (λ l. l ≡ x ∷ []) }
{
    let mut list = Vec::new(alloc);
    list.push(x)?;
    Ok(List::from_vec(list))
}

fn two<T: Drop>(alloc: Global, x: T, y: T) -> Result<List<T>, AllocError>
    ensures { IfOk result (λ l. l ≡ x ∷ y ∷ []) }
{
    let mut list = Vec::new(alloc);
    list.push(x)?;
    list.push(y)?;
    Ok(List::from_vec(list))
}

fn parameter(alloc: Global) -> Var
    ensures scalar { result.length ≡ None }
    ensures param { result.param ≡ true }
{
    Var {
        name: List::from_vec(Vec::new(alloc)),
        length: None,
        param: true,
        memory: Slot::Named(0),
        mark: NONE,
    }
}

// `return x + y;`
fn body(alloc: Global) -> Result<List<St>, AllocError>
    ensures { IfOk result (λ ss. block_of ss ≡ Stmt.Result (Expr.Bin 0 (Expr.Read 0) (Expr.Read 1)) then done) }
{
    let x = Boxed::new(alloc, Ex::Read(0))?;
    let y = Boxed::new(alloc, Ex::Read(1))?;
    let end = St {
        at: NONE,
        what: StKind::Result(Ex::Bin(0, x, y)),
    };
    one(alloc, end)
}

fn kernel(alloc: Global) -> Result<Kernel, AllocError>
    ensures valid { IfOk result IsValid }
    ensures calls { IfOk result (λ k. k.calls ≡ []) }
    ensures starts { IfOk result (λ k. IsStart k (record { cells = (pos 2 ∷ []) ∷ (pos 3 ∷ []) ∷ []; result = pos 0 })) }
{
    let vars = two(alloc, parameter(alloc), parameter(alloc))?;
    let site = Site {
        op: Op::Add,
        kind: Slot::Named(1),
        mark: NONE,
    };
    let sites = one(alloc, site)?;
    let claim = Claim {
        target: 63,
        bound: Atto::ONE,
        needs: VarSet::EMPTY,
    };
    let claims = one(alloc, claim)?;
    let body = body(alloc)?;
    Ok(Kernel {
        name: NONE,
        vars,
        sites,
        calls: List::from_vec(Vec::new(alloc)),
        body,
        claims,
    })
}

fn start(alloc: Global) -> Result<Store, AllocError>
    ensures { IfOk result (λ s. s ≡ record { cells = (pos 2 ∷ []) ∷ (pos 3 ∷ []) ∷ []; result = pos 0 }) }
{
    let x = one(alloc, 2)?;
    let y = one(alloc, 3)?;
    Ok(Store {
        cells: two(alloc, x, y)?,
        result: 0,
    })
}

fn setting(alloc: Global) -> Result<Setting, AllocError> {
    Ok(Setting {
        sites: one(alloc, 1u8)?,
        memories: two(alloc, 0u8, 0u8)?,
    })
}

// The result, the steps and the words of a trial that takes fewer steps than the limit.
fn tried(
    rt: &impl Abort,
    alloc: Global,
    limit: u64,
    words: &mut Lcg128Xsl64,
) -> Result<(i64, u64, u64), RunFault>
    requires { limit ≤ 2 ^ 63 }
{
    let h = read(alloc, HARDWARE).expect(rt, "a hardware file");
    let k = kernel(alloc)?;
    let t = setting(alloc)?;
    let start = start(alloc)?;
    assert!(rt; fits(&k, &h, &t));
    let tried = trial(alloc, &k, &h, &t, &start, limit, words)?;
    Ok((tried.store.result, tried.steps, tried.words))
}

// The first word says that the sum is wrong, and the second is what it leaves.
#[test]
fn wrong_sum(rt: HostRuntime) {
    let alloc = rt.alloc();
    let mut words = Lcg128Xsl64::new(42, 54);
    let mut same = Lcg128Xsl64::new(42, 54);
    assert_eq!(rt; tried(&rt, alloc, 3, &mut words), Err(RunFault::Steps));
    let _first = same.next_word();
    let wrong = same.next_word().cast_signed();
    assert_eq!(rt; tried(&rt, alloc, 4, &mut words), Ok((wrong, 3, 2)));
    assert_eq!(rt; words.next_word(), same.next_word());
}
