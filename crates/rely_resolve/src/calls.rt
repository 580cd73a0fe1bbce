//! Callees: what is wrong with a call, and its call place.
ghost use Rattle.std.specs.Prelude.{◌≡◌, map, find, option_map};
ghost use Rattle.std.specs.List.{list_any};
ghost use Rattle.std.specs.Option.{option_copied};
ghost use Rattle.std.specs.Prelude.{◌≤◌, length, is_some, is_none};
ghost use Rattle.rely_kernel.specs.Valid.{claim_in_use};
ghost use Rattle.rely_resolve.specs.Kernels.{call_site, done_of};
ghost use Rattle.rely_num.specs.Texts.{same_text};
ghost use Rattle.rely_tree.specs.Shape.{ident_shape, decl_shape, said_shape, func_shape};
ghost use Rattle.rely_resolve.specs.Faults.{first_with, called_faults, callee_faults};

use crate::fault::{NameFault, noted, sooner};
use crate::names::{is_same, place_of_function};
use crate::scope::Means;
use rely_kernel::{CallSite, Claim, Kernel};
use rely_num::{Atto, Span, VarSet};
use rely_tree::{Decl, Func, Ident, Said};

/// The first function of that name.
fn function_named<'a>(functions: &[Func<'a>], name: &[u8]) -> Option<Func<'a>>
    ensures { option_map func_shape result ≡ find (λ g. same_text g.name.text name.now) (map func_shape functions.now) }
{
    for function in functions {
        if is_same(function.name.text, name) {
            return Some(*function);
        }
    }
    None
}

fn any_array(params: &[Decl]) -> bool
    ensures { result ≡ list_any (λ d. is_some d.length) (map decl_shape params.now) }
{
    for param in params {
        if param.length.is_some() {
            return true;
        }
    }
    false
}

/// Whether a claim is on the result.
fn any_on_result(claims: &[Said]) -> bool
    ensures { result ≡ list_any (λ c. is_none c.target) (map said_shape claims.now) }
{
    for claim in claims {
        if claim.target.is_none() {
            return true;
        }
    }
    false
}

fn called(span: Span, args: usize, g: Func, first: Option<NameFault>) -> Option<NameFault>
    ensures { result ≡ first_with first (called_faults span args (func_shape g.entry)) }
{
    let first = noted(first, g.params.len() != args, NameFault::Arity(span));
    let first = noted(first, any_array(g.params), NameFault::ArrayParam(span));
    noted(first, !any_on_result(g.claims), NameFault::NoClaim(span))
}

/// A callee, which is called with so many arguments.
pub(crate) fn callee(
    earlier: &[Func],
    name: Ident,
    args: usize,
    first: Option<NameFault>,
) -> Option<NameFault>
    ensures { result ≡ first_with first (callee_faults (map func_shape earlier.now) (ident_shape name.entry) args) }
{
    match function_named(earlier, name.text) {
        Some(g) => called(name.span, args, g, first),
        None => sooner(first, NameFault::NoCallee(name.span)),
    }
}

/// The claim in use of a kernel, its first on the result.
fn claim_in_use(kernel: &Kernel) -> Option<&Claim>
    ensures { option_copied result ≡ claim_in_use kernel.now }
{
    kernel.claims.as_slice().iter().find(|c| c.target == 63)
}

/// The call place of a callee, whose word `call` stands at `word`.
pub(crate) fn call_site(means: &Means, word: Span, callee: Ident) -> CallSite
    requires { length means.now.done.now ≤ 64 }
    ensures { result ≡ call_site (done_of (map func_shape means.now.done.now) means.now.kernels.now) word (ident_shape callee.entry) }
{
    let place = match place_of_function(callee.text, means.done) {
        Some(place) => place,
        None => 0,
    };
    let claim = match means.kernels.get(place) {
        Some(kernel) => claim_in_use(kernel),
        None => None,
    };
    match claim {
        Some(claim) => CallSite {
            callee: place as u32,
            bound: claim.bound,
            needs: claim.needs,
            mark: word,
        },
        None => CallSite {
            callee: place as u32,
            bound: Atto::ONE,
            needs: VarSet::EMPTY,
            mark: word,
        },
    }
}
