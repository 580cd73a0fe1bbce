//! The tree of a certificate, node by node.
ghost use Rattle.std.specs.Prelude.{◌≡◌, ◌&&◌, nat_lt, ◌<◌, ◌+◌, ◌^◌, OnOk, IfOk};
ghost use Rattle.chisel_table.specs.Partials.{IsPartial, is_unfixed};
ghost use Rattle.chisel_table.specs.Tables.{decision_count};
ghost use Rattle.chisel_table.specs.Valid.{IsTable};
ghost use Rattle.chisel_cert.specs.Tree.{nodes};
ghost use Rattle.chisel_cert.specs.Node.{closing_of, tree_of};
ghost use Rattle.chisel_check.specs.Prices.{IsPriced};
ghost use Rattle.chisel_check.specs.Walk.{mark_holds, node_walk, ClosingFits, TreeFits};

use crate::prices::{Priced, kept_closes, own_closes};
use chisel_cert::{Mark, Node};
use chisel_table::{
    CloseRule, Partial, Table, UNFIXED, decision_count, option_count, row_closes, row_count,
};

/// What is wrong with a certificate.
#[derive(Clone, Copy, Debug, PartialEq, Eq)]
pub enum CheckWhy {
    /// The numbers of decisions and rows aren't the table's.
    Size,
    /// An option of the choice doesn't exist, or the choice doesn't meet every row.
    Choice,
    /// The energy isn't the choice's.
    Energy,
    /// A row that is told again isn't the table's, or not what the choice spends.
    Row,
    /// A branch on a decision that doesn't exist or is fixed.
    Branch,
    /// A branch without a child for each option.
    Children,
    /// A leaf whose rule doesn't hold.
    Leaf,
}

/// The first line that fails, and why.
#[derive(Clone, Copy, Debug, PartialEq, Eq)]
pub(crate) struct Failure {
    pub(crate) line: u32,
    pub(crate) why: CheckWhy,
}

/// Whether a certificate is valid, and else its first line that fails.
#[derive(Clone, Copy, Debug, PartialEq, Eq)]
pub enum Answer {
    Yes,
    No { line: u32, why: CheckWhy },
}

/// Whether the rule of a leaf holds.
fn mark_holds(t: &Table, c: &Priced<'_>, p: &Partial, mark: Mark<'_>) -> bool
    requires table { IsTable t.now }
    requires cert { IsPriced t.now c.now }
    requires partial { IsPartial t.now p.now }
    requires mark { ClosingFits t.now (closing_of mark) }
    ensures { result ≡ mark_holds t.now c.now.cert.now p.now mark.entry }
{
    match mark {
        Mark::Pool(close) => match close.rule {
            CloseRule::C => {
                (close.index as usize) < row_count(t) && row_closes(t, close.index, p)
            }
            rule => {
                (close.index as usize) < c.cert.pool.len()
                    && kept_closes(t, &c.prices[close.index as usize], p, c.cert.choice, rule)
            }
        },
        Mark::Own(rule, l) => own_closes(t, l, p, c.cert.choice, rule),
    }
}

/// Whether the decision exists and is unfixed.
fn is_open(t: &Table, p: &Partial, decision: u32) -> bool
    requires table { IsTable t.now }
    ensures { result ≡ (nat_lt decision (decision_count t.now) && is_unfixed p.now decision) }
{
    (decision as usize) < decision_count(t) && p.is_unfixed(decision as usize)
}

/// The line after the node's, or the first that fails. The slots of the partial choice are as before where none fails.
#[tactic(auto, using(crate::proofs::Walks::walks))]
pub(crate) fn check_node(
    t: &Table,
    c: &Priced<'_>,
    node: &Node<'_>,
    p: &mut Partial,
    line: u32,
) -> Result<u32, Failure>
    requires table { IsTable t.now }
    requires cert { IsPriced t.now c.now }
    requires partial { IsPartial t.now p.old }
    requires fits { TreeFits t.now (tree_of node.now) }
    requires lines { line + nodes (tree_of node.now) < 2 ^ 32 }
    ensures walk { result ≡ node_walk t.now c.now.cert.now p.old node.now line }
    ensures counted { IfOk result (λ after. after ≡ line + nodes (tree_of node.now)) }
    ensures restored { OnOk result (p.new ≡ p.old) }
{
    match node {
        Node::Leaf(mark) => {
            if mark_holds(t, c, p, *mark) {
                Ok(line + 1)
            } else {
                let why = CheckWhy::Leaf;
                Err(Failure { line, why })
            }
        }
        Node::Branch { decision, children } => {
            let d = *decision;
            if !is_open(t, p, d) {
                let why = CheckWhy::Branch;
                return Err(Failure { line, why });
            }
            let at = d as usize;
            if children.len() != option_count(t, at) {
                let why = CheckWhy::Children;
                return Err(Failure { line, why });
            }
            let mut next = line + 1;
            for (k, child) in children.iter().enumerate() {
                p.slots[at] = k as u8;
                next = check_node(t, c, child, p, next)?;
            }
            p.slots[at] = UNFIXED;
            Ok(next)
        }
    }
}
