//! The kernels, function by function.
ghost use Rattle.std.specs.Prelude.{◌≡◌, ◌≤◌, ◌<◌, ◌⊎◌, ◌+◌, ◌++◌, ◌∷◌, [], List, Bool, length, map, Some, None, Ok, Err, IfOk, IfErr, OnOk, if◌then◌else◌};
ghost use Rattle.std.specs.List.{AllByRecursion};
ghost use Rattle.rely_hard.specs.Valid.{IsHardware};
ghost use Rattle.rely_kernel.specs.Machine.{functions};
ghost use Rattle.rely_kernel.specs.Setting.{IsOn, marks_of};
ghost use Rattle.rely_kernel.specs.Valid.{IsLinked};
ghost use Rattle.rely_tree.specs.Shape.{decl_shape, func_shape, unit_shape};
ghost use Rattle.rely_tree.specs.Tree.{variables};
ghost use Rattle.rely_resolve.specs.Kernels.{done_of, kernel_of};
ghost use Rattle.rely_tree.specs.Limits.{IsFunction, IsUnit};
ghost use Rattle.rely_resolve.specs.Linked.{fault_of, linked_at, linked_from, linked_of, nothing_done, twice_among, with_function};
ghost use Rattle.rely_resolve.specs.Marked.{AreMarkedAs, AreOpenWhereMarked};
ghost use Rattle.rely_resolve.specs.Reached.{IsLinkedBy};

use crate::fault::NameFault;
use crate::kernel::{fault_of, kernel_of};
use crate::names::{is_function, place_of_function};
use crate::reach::marks;
use crate::scope::{Means, Scope};
use crate::variables::Variables;
use rely_hard::Hardware;
use rely_kernel::{Kernel, Linked};
use rely_num::List;
use rely_tree::{Func, Unit};
use std::alloc::Global;

/// The first function that has the name of an earlier one.
fn twice(functions: &[Func]) -> Option<NameFault>
    ensures { result ≡ twice_among [] (map func_shape functions.now) }
{
    for (i, function) in functions.iter().enumerate() {
        if is_function(function.name.text, &functions[..i]) {
            return Some(NameFault::Twice(function.name.span));
        }
    }
    None
}

/// Reached functions, in order of the unit, and their kernels.
#[derive(Drop)]
struct Done<'a> {
    functions: Vec<Func<'a>>,
    kernels: Vec<Kernel>,
}

/// The kernel of a function whose names may mean this, where they are as they must be.
fn meant<'a>(
    alloc: Global,
    scope: &Scope<'_, 'a>,
    done: &Done<'a>,
    f: &Func<'a>,
) -> Result<Kernel, NameFault>
    requires hardware { IsHardware scope.now.h.now }
    requires function { IsFunction (func_shape f.now) }
    requires vars { map decl_shape scope.now.vars.now.list.items ≡ variables (func_shape f.now) }
    requires params { scope.now.params.now.list.items ≡ f.now.params.now }
    requires few { length done.now.functions.items ≤ 64 }
    ensures ok { let h = scope.now.h.now in
        let before = done_of (map func_shape done.now.functions.items) done.now.kernels.items in
        let none = fault_of h (map func_shape scope.now.earlier.now) (func_shape f.now) ≡ None in
        IfOk result (λ k. none × (k ≡ kernel_of h before (func_shape f.now))) }
    ensures err { let h = scope.now.h.now in
        let fault = fault_of h (map func_shape scope.now.earlier.now) (func_shape f.now) in
        IfErr result (λ e. (e ≡ NameFault.Memory) ⊎ (fault ≡ Some e)) }
{
    if let Some(fault) = fault_of(scope, f) {
        return Err(fault);
    }
    let means = Means {
        alloc,
        h: scope.h,
        params: scope.params,
        vars: scope.vars,
        done: done.functions.as_slice(),
        kernels: done.kernels.as_slice(),
    };
    let kernel = kernel_of(&means, f)?;
    Ok(kernel)
}

/// The kernel of a function that stands after these.
fn linked<'a>(
    alloc: Global,
    h: &Hardware,
    earlier: &[Func<'a>],
    done: &Done<'a>,
    f: &Func<'a>,
) -> Result<Kernel, NameFault>
    requires hardware { IsHardware h.now }
    requires function { IsFunction (func_shape f.now) }
    requires few { length done.now.functions.items ≤ 64 }
    ensures ok { IfOk result (λ k. (fault_of h.now (map func_shape earlier.now) (func_shape f.now) ≡ None) × (k ≡ kernel_of h.now (done_of (map func_shape done.now.functions.items) done.now.kernels.items) (func_shape f.now))) }
    ensures err { IfErr result (λ e. (e ≡ NameFault.Memory) ⊎ (fault_of h.now (map func_shape earlier.now) (func_shape f.now) ≡ Some e)) }
{
    let params = Variables::new(alloc, f.params, &[])?;
    let vars = Variables::new(alloc, f.params, f.locals)?;
    let scope = Scope {
        h,
        earlier,
        params: &params,
        vars: &vars,
    };
    meant(alloc, &scope, done, f)
}

/// One more function, where it is reached.
fn push_linked<'a>(
    alloc: Global,
    h: &Hardware,
    earlier: &[Func<'a>],
    done: &mut Done<'a>,
    is_reached: bool,
    g: &Func<'a>,
) -> Result<(), NameFault>
    requires hardware { IsHardware h.now }
    requires function { IsFunction (func_shape g.now) }
    requires few { length done.old.functions.items ≤ 63 }
    ensures ok { OnOk result ((if is_reached then fault_of h.now (map func_shape earlier.now) (func_shape g.now) else None) ≡ None) }
    ensures done { OnOk result (done_of (map func_shape done.new.functions.items) done.new.kernels.items ≡ (if is_reached then with_function h.now (done_of (map func_shape done.old.functions.items) done.old.kernels.items) (func_shape g.now) else done_of (map func_shape done.old.functions.items) done.old.kernels.items)) }
    ensures few { OnOk result (length done.new.functions.items ≤ length done.old.functions.items + 1) }
    ensures err { IfErr result (λ e. (e ≡ NameFault.Memory) ⊎ ((if is_reached then fault_of h.now (map func_shape earlier.now) (func_shape g.now) else None) ≡ Some e)) }
{
    if !is_reached {
        return Ok(());
    }
    let kernel = linked(alloc, h, earlier, done, g)?;
    done.kernels.push(kernel)?;
    done.functions.push(*g)?;
    Ok(())
}

/// The last mark, which is taken off.
fn take_mark(marks: &mut Vec<bool>) -> bool
    ensures { (rest : List Bool) → (mark : Bool) → marks.old.items ≡ rest ++ mark ∷ [] → (result ≡ mark) × (marks.new.items ≡ rest) }
{
    match marks.pop() {
        Some(mark) => mark,
        None => false,
    }
}

/// The kernels of `f`, which stands behind these functions, and of those that it reaches.
fn link<'a>(
    alloc: Global,
    h: &Hardware,
    before: &[Func<'a>],
    f: &Func<'a>,
) -> Result<Linked, NameFault>
    requires hardware { IsHardware h.now }
    requires function { IsFunction (func_shape f.now) }
    requires functions { AllByRecursion IsFunction (map func_shape before.now) }
    requires few { length before.now ≤ 63 }
    ensures ok { IfOk result (λ l. linked_from h.now (func_shape f.now) [] nothing_done (map func_shape before.now) ≡ Ok l) }
    ensures err { IfErr result (λ e. (e ≡ NameFault.Memory) ⊎ (linked_from h.now (func_shape f.now) [] nothing_done (map func_shape before.now) ≡ Err e)) }
{
    let mut marks = marks(alloc, f, before)?;
    let mut done = Done {
        functions: Vec::new(alloc),
        kernels: Vec::new(alloc),
    };
    for (i, g) in before.iter().enumerate() {
        let is_reached = take_mark(&mut marks);
        if let Err(fault) = push_linked(alloc, h, &before[..i], &mut done, is_reached, g) {
            return Err(fault);
        }
    }
    let kernel = linked(alloc, h, before, &done, f)?;
    Ok(Linked {
        kernel,
        inner: List::from_vec(done.kernels),
    })
}

/// The kernels of the function of that number, and of those that it reaches.
#[tactic(auto, using(crate::proofs::Linking::linking))]
fn link_at(alloc: Global, h: &Hardware, functions: &[Func], m: usize) -> Result<Linked, NameFault>
    requires hardware { IsHardware h.now }
    requires functions { AllByRecursion IsFunction (map func_shape functions.now) }
    requires few { length functions.now ≤ 64 }
    requires within { m < length functions.now }
    ensures ok { IfOk result (λ l. linked_at h.now (map func_shape functions.now) m ≡ Ok l) }
    ensures err { IfErr result (λ e. (e ≡ NameFault.Memory) ⊎ (linked_at h.now (map func_shape functions.now) m ≡ Err e)) }
{
    link(alloc, h, &functions[..m], &functions[m])
}

/// The kernel of the function of that name, with the kernels of the functions that it reaches, in order of the unit.
/// The unit is within the limits that the parser keeps.
///
/// The kernels are valid, each calls only earlier ones, and their operators, kinds and memories are the hardware's.
pub fn resolve(
    alloc: Global,
    unit: &Unit,
    function: &str,
    h: &Hardware,
) -> Result<Linked, NameFault>
    requires hardware { IsHardware h.now }
    requires unit { IsUnit (unit_shape unit.now) }
    ensures ok { IfOk result (λ l. linked_of (unit_shape unit.now) function.now h.now ≡ Ok l) }
    ensures err { IfErr result (λ e. (e ≡ NameFault.Memory) ⊎ (linked_of (unit_shape unit.now) function.now h.now ≡ Err e)) }
    ensures valid { IfOk result IsLinked }
    ensures on { IfOk result (λ l. AllByRecursion (IsOn h.now) (functions l)) }
    ensures reached { IfOk result (IsLinkedBy h.now (unit_shape unit.now) function.now) }
    ensures marks { IfOk result (λ l. AreMarkedAs (unit_shape unit.now) function.now (marks_of l.kernel)) }
    ensures open_marks { IfOk result (λ l. AreOpenWhereMarked (unit_shape unit.now) (marks_of l.kernel)) }
{
    let functions = unit.functions;
    if let Some(fault) = twice(functions) {
        return Err(fault);
    }
    let Some(m) = place_of_function(function.as_bytes(), functions) else {
        return Err(NameFault::Function);
    };
    link_at(alloc, h, functions, m)
}
