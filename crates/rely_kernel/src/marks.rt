ghost use Rattle.std.specs.Prelude.{◌≡◌, ◌↔◌, filter_map, fold, IfSome, IsNone, None};
ghost use Rattle.rely_kernel.specs.Setting.{IsClosed, IsEarliest, earlier, marks_of, open_mark, with_place};

use crate::kernel::{Kernel, Site, Slot, Var};
use rely_num::Span;

/// The mark of the open place that stands first in the text, none where every kind and every memory is named.
pub fn open_site(k: &Kernel) -> Option<Span>
    ensures none { IsNone result ↔ IsClosed k.now }
    ensures first { IfSome result (IsEarliest (marks_of k.now)) }
{
    let first = first_of_vars(k.vars.as_slice());
    first_of_sites(first, k.sites.as_slice())
}

#[tactic(auto, using(crate::proofs::Earliest::marks))]
fn first_of_vars(vars: &[Var]) -> Option<Span>
    ensures { result ≡ fold earlier None (filter_map (λ v. open_mark v.memory v.mark) vars.now) }
{
    let mut first = None;
    for var in vars {
        first = first_with(first, var.memory, var.mark);
    }
    first
}

#[tactic(auto, using(crate::proofs::Earliest::marks))]
fn first_of_sites(before: Option<Span>, sites: &[Site]) -> Option<Span>
    ensures { result ≡ fold earlier before (filter_map (λ s. open_mark s.kind s.mark) sites.now) }
{
    let mut first = before;
    for site in sites {
        first = first_with(first, site.kind, site.mark);
    }
    first
}

// The first mark once a place is taken in.
fn first_with(first: Option<Span>, slot: Slot, mark: Span) -> Option<Span>
    ensures { result ≡ with_place first slot mark }
{
    match slot {
        Slot::Named(_) => first,
        Slot::Free => match first {
            Some(best) if best.from <= mark.from => first,
            _ => Some(mark),
        },
    }
}
