//! The lines of the tree, and the tree that they write.
ghost use Rattle.std.specs.Prelude.{◌≡◌, ◌+◌, ◌-◌, ◌≤◌, IfOk};
ghost use Rattle.chisel_cert.specs.Node.{closing_of, tree_of, line_of};
ghost use Rattle.chisel_cert.specs.Ranges.{has_vector};
ghost use Rattle.chisel_cert.specs.State.{state_of, IsInLine, IsNextLine, IsPassed, IsRead, IsReadBy};
ghost use Rattle.chisel_cert.specs.Reading.{rule_at, own_at, own_line_at, leaf_line_at, branch_line_at, node_line_at, children_of, counted_at, node_at, tree_at, IsCounted};

use crate::cert::{Mark, Node};
use crate::fault::{CertFault, CertWhy};
use crate::limits::{LAST_DECISION, LAST_INDEX, MOST_CHILDREN, MOST_LINES};
use crate::lines::{counted_line, multipliers, number_line};
use crate::rest::{Rest, formless, line_end, number, skip};
use bumpalo::Bump;
use bumpalo::collections::into_bump_slice;
use chisel_table::{Close, CloseRule};

/// What the lines of nodes depend on: the certificate's version and its number of rows.
#[derive(Clone, Copy)]
pub(crate) struct Format {
    pub(crate) version: u8,
    pub(crate) rows: u32,
}

/// What the line of a node says.
#[derive(Clone, Copy)]
pub(crate) enum NodeLine<'a> {
    /// A decision and a number of children.
    Branch(u32, u32),
    Leaf(Mark<'a>),
}

/// A letter and a blank.
#[tactic(auto, unfolding(crate::specs::Reading::rule_at))]
fn rule<'t>(at: Rest<'t>) -> Result<(CloseRule, Rest<'t>), CertFault>
    ensures reads { IsRead rule_at at.entry result }
    ensures line { IfOk result (λ r. IsInLine (state_of at.entry) (state_of r.1)) }
{
    if let Ok(rest) = skip(at, b"c ") {
        return Ok((CloseRule::C, rest));
    }
    if let Ok(rest) = skip(at, b"i ") {
        return Ok((CloseRule::I, rest));
    }
    if let Ok(rest) = skip(at, b"d ") {
        return Ok((CloseRule::D, rest));
    }
    let rest = skip(at, b"t ")?;
    Ok((CloseRule::T, rest))
}

fn has_vector(rule: CloseRule) -> bool
    ensures { result ≡ has_vector rule }
{
    match rule {
        CloseRule::C => false,
        CloseRule::I | CloseRule::D | CloseRule::T => true,
    }
}

/// The word of a vector of its own, where the version and the rule have one.
#[tactic(auto, unfolding(crate::specs::Reading::own_at))]
fn own<'t>(at: Rest<'t>, version: u8, rule: CloseRule) -> Result<Rest<'t>, CertFault>
    ensures reads { IsPassed (own_at version rule (state_of at.entry)) result }
    ensures line { IfOk result (λ r. IsInLine (state_of at.entry) (state_of r)) }
{
    if version == 2 && has_vector(rule) {
        skip(at, b"own")
    } else {
        Err(formless(at))
    }
}

/// So many multipliers at the end of a line.
#[tactic(auto, using(crate::proofs::Each::behind_none), unfolding(crate::specs::Reading::own_line_at))]
fn own_line<'a, 't>(
    arena: &'a Bump,
    at: Rest<'t>,
    rows: u32,
) -> Result<(&'a [u64], Rest<'t>), CertFault>
    requires { at.line ≤ MOST_LINES }
    ensures reads { IsReadBy (λ x. x.now) (own_line_at rows) at.entry result }
    ensures line { IfOk result (λ r. IsNextLine (state_of at.entry) (state_of r.1)) }
{
    let (vector, rest) = multipliers(Vec::new(arena), at, rows)?;
    let rest = line_end(rest)?;
    Ok((vector, rest))
}

#[tactic(auto, unfolding(crate::specs::Reading::leaf_line_at))]
fn leaf_line<'a, 't>(
    arena: &'a Bump,
    at: Rest<'t>,
    format: Format,
) -> Result<(Mark<'a>, Rest<'t>), CertFault>
    requires { at.line ≤ MOST_LINES }
    ensures reads { IsReadBy closing_of (leaf_line_at format.version format.rows) at.entry result }
    ensures line { IfOk result (λ r. IsNextLine (state_of at.entry) (state_of r.1)) }
{
    let (rule, rest) = rule(at)?;
    if let Ok(rest) = own(rest, format.version, rule) {
        let (vector, rest) = own_line(arena, rest, format.rows)?;
        return Ok((Mark::Own(rule, vector), rest));
    }
    let (index, rest) = number_line(rest, 0, LAST_INDEX)?;
    let index = index as u32;
    Ok((Mark::Pool(Close { rule, index }), rest))
}

/// A decision and a number of children, behind the letter.
#[tactic(auto, unfolding(crate::specs::Reading::branch_line_at))]
fn branch_line<'t>(at: Rest<'t>) -> Result<((u32, u32), Rest<'t>), CertFault>
    requires { at.line ≤ MOST_LINES }
    ensures reads { IsRead branch_line_at at.entry result }
    ensures few { IfOk result (λ r. r.0.1 ≤ MOST_CHILDREN) }
    ensures line { IfOk result (λ r. IsNextLine (state_of at.entry) (state_of r.1)) }
{
    let (decision, rest) = number(at, 0, LAST_DECISION)?;
    let (children, rest) = counted_line(rest, b" ", 1, MOST_CHILDREN)?;
    Ok(((decision as u32, children as u32), rest))
}

#[tactic(auto, unfolding(crate::specs::Reading::node_line_at))]
fn node_line<'a, 't>(
    arena: &'a Bump,
    at: Rest<'t>,
    format: Format,
) -> Result<(NodeLine<'a>, Rest<'t>), CertFault>
    requires { at.line ≤ MOST_LINES }
    ensures reads { IsReadBy line_of (node_line_at format.version format.rows) at.entry result }
    ensures few { IfOk result (λ r. children_of (line_of r.0) ≤ MOST_CHILDREN) }
    ensures line { IfOk result (λ r. IsNextLine (state_of at.entry) (state_of r.1)) }
{
    if let Ok(rest) = skip(at, b"b ") {
        let ((decision, children), rest) = branch_line(rest)?;
        return Ok((NodeLine::Branch(decision, children), rest));
    }
    let (mark, rest) = leaf_line(arena, at, format)?;
    Ok((NodeLine::Leaf(mark), rest))
}

fn children_of(line: NodeLine<'_>) -> u32
    ensures { result ≡ children_of (line_of line.entry) }
{
    match line {
        NodeLine::Branch(_, children) => children,
        NodeLine::Leaf(_) => 0,
    }
}

/// One node less is wanted and its children more, and one line less is left, behind the line of that number.
#[tactic(auto, unfolding(crate::specs::Reading::counted_at))]
fn counted<'t>(at: Rest<'t>, line: u32, children: u32) -> Result<Rest<'t>, CertFault>
    requires children { children ≤ MOST_CHILDREN }
    requires wanted { at.wanted ≤ at.left }
    requires left { at.left ≤ MOST_LINES }
    ensures reads { IsPassed (counted_at line children (state_of at.entry)) result }
    ensures line { IfOk result (λ r. r.line ≡ at.entry.line) }
    ensures wanted { IfOk result (λ r. r.wanted ≡ at.entry.wanted - 1 + children) }
    ensures left { IfOk result (λ r. r.left ≡ at.entry.left - 1) }
    ensures fits { IfOk result (λ r. r.wanted ≤ r.left) }
{
    let wanted = at.wanted.saturating_sub(1) + children;
    let left = at.left.saturating_sub(1);
    if wanted > left || (wanted == 0 && left != 0) {
        let why = CertWhy::Form;
        return Err(CertFault::At { line, why });
    }
    Ok(Rest { wanted, left, ..at })
}

/// A node's line, counted.
#[tactic(auto, unfolding(crate::specs::Reading::node_at))]
fn node<'a, 't>(
    arena: &'a Bump,
    at: Rest<'t>,
    format: Format,
) -> Result<(NodeLine<'a>, Rest<'t>), CertFault>
    requires { IsCounted (state_of at) }
    ensures reads { IsReadBy line_of (node_at format.version format.rows) at.entry result }
    ensures line { IfOk result (λ r. r.1.line + r.1.left ≡ at.entry.line + at.entry.left) }
    ensures wanted { IfOk result (λ r. r.1.wanted + 1 ≡ at.entry.wanted + children_of (line_of r.0)) }
    ensures fits { IfOk result (λ r. r.1.wanted ≤ r.1.left) }
{
    let (line, rest) = node_line(arena, at, format)?;
    let rest = counted(rest, at.line, children_of(line))?;
    Ok((line, rest))
}

/// A tree in which at most so many branches stand one under another.
pub(crate) fn tree<'a, 't>(
    arena: &'a Bump,
    at: Rest<'t>,
    format: Format,
    depth: u32,
) -> Result<(Node<'a>, Rest<'t>), CertFault>
    requires { IsCounted (state_of at) }
    ensures reads { IsReadBy tree_of (tree_at format.version format.rows depth) at.entry result }
    ensures line { IfOk result (λ r. r.1.line + r.1.left ≡ at.entry.line + at.entry.left) }
    ensures wanted { IfOk result (λ r. r.1.wanted + 1 ≡ at.entry.wanted) }
    ensures fits { IfOk result (λ r. r.1.wanted ≤ r.1.left) }
{
    let (line, start) = node(arena, at, format)?;
    match line {
        NodeLine::Leaf(mark) => Ok((Node::Leaf(mark), start)),
        NodeLine::Branch(decision, count) => {
            if depth == 0 {
                let (line, why) = (at.line, CertWhy::Deep);
                return Err(CertFault::At { line, why });
            }
            let mut all = Vec::new(arena);
            let mut rest = start;
            for index in 0..count {
                let (child, after) = tree(arena, rest, format, depth - 1)?;
                all.push(child)?;
                rest = after;
            }
            let children = into_bump_slice(all);
            Ok((Node::Branch { decision, children }, rest))
        }
    }
}
