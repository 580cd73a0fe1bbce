//! The certificate of a text.
ghost use Rattle.std.specs.Prelude.{◌≡◌, ◌+◌, ◌<◌, ◌≤◌, Ok, Err, IfOk, IfErr};
ghost use Rattle.chisel_cert.specs.Node.{certificate_of, head_of, root_of};
ghost use Rattle.chisel_cert.specs.Ranges.{IsWithin, restated_count};
ghost use Rattle.chisel_cert.specs.Text.{text_of};
ghost use Rattle.chisel_cert.specs.Laws.{NoText};
ghost use Rattle.chisel_cert.specs.State.{state_of, IsMemoryOr, IsPassed, IsRead, IsReadBy};
ghost use Rattle.chisel_cert.specs.Reading.{head_at, tree_line_at, end_line_at, root_at, certificate_at, IsCounted};

use crate::cert::{Cert, Node};
use crate::fault::CertFault;
use crate::limits::{MOST_DEPTH, MOST_LINES, MOST_NODES, MOST_ROWS};
use crate::lines::{
    choice_line, counted_line, energy_line, row_lines, size_line, vector_lines, version_line,
};
use crate::node::{Format, tree};
use crate::rest::{Rest, formless, line_end, skip};
use bumpalo::Bump;
use std::alloc::Global;

/// The number of nodes; the root is wanted, and all lines are left.
#[tactic(auto, unfolding(crate::specs::Reading::tree_line_at))]
fn tree_line<'t>(at: Rest<'t>) -> Result<(u32, Rest<'t>), CertFault>
    requires { at.line + MOST_NODES < MOST_LINES }
    ensures reads { IsRead tree_line_at at.entry result }
    ensures counted { IfOk result (λ r. IsCounted (state_of r.1)) }
{
    let (nodes, rest) = counted_line(at, b"tree ", 1, MOST_NODES)?;
    let left = nodes as u32;
    Ok((
        left,
        Rest {
            wanted: 1,
            left,
            ..rest
        },
    ))
}

/// The last line, behind which nothing may stand.
#[tactic(auto, unfolding(crate::specs::Reading::end_line_at))]
fn end_line<'t>(at: Rest<'t>) -> Result<Rest<'t>, CertFault>
    requires { at.line ≤ MOST_LINES }
    ensures reads { IsPassed (end_line_at (state_of at.entry)) result }
{
    let rest = skip(at, b"end")?;
    let rest = line_end(rest)?;
    if rest.text.is_empty() {
        Ok(rest)
    } else {
        Err(formless(rest))
    }
}

/// The lines before the rows.
#[derive(Clone, Copy)]
pub(crate) struct Head<'a> {
    pub(crate) version: u8,
    pub(crate) decisions: u32,
    pub(crate) rows: u32,
    pub(crate) choice: Option<&'a [u8]>,
    pub(crate) energy: Option<u64>,
}

#[tactic(auto, unfolding(crate::specs::Reading::head_at))]
fn head_lines<'a, 't>(arena: &'a Bump, at: Rest<'t>) -> Result<(Head<'a>, Rest<'t>), CertFault>
    requires { at.line ≤ 1 }
    ensures reads { IsReadBy head_of head_at at.entry result }
    ensures rows { IfOk result (λ r. r.0.rows ≤ MOST_ROWS) }
    ensures line { IfOk result (λ r. r.1.line ≤ 5) }
{
    let (version, rest) = version_line(at)?;
    let ((decisions, rows), rest) = size_line(rest)?;
    let (choice, rest) = choice_line(arena, rest, decisions)?;
    let (energy, rest) = energy_line(rest, choice.is_some())?;
    let head = Head {
        version,
        decisions,
        rows,
        choice,
        energy,
    };
    Ok((head, rest))
}

/// All rows are told again in version 2, and none in version 1.
fn restated_count(format: Format) -> u32
    ensures { result ≡ restated_count format.version format.rows }
{
    if format.version == 2 { format.rows } else { 0 }
}

/// The number of nodes, the tree and the end.
#[tactic(auto, unfolding(crate::specs::Reading::root_at))]
fn tree_lines<'a, 't>(
    arena: &'a Bump,
    at: Rest<'t>,
    format: Format,
) -> Result<((u32, Node<'a>), Rest<'t>), CertFault>
    requires { at.line + MOST_NODES < MOST_LINES }
    ensures reads { IsReadBy root_of (root_at format.version format.rows) at.entry result }
{
    let (nodes, rest) = tree_line(at)?;
    let (tree, rest) = tree(arena, rest, format, MOST_DEPTH)?;
    let rest = end_line(rest)?;
    Ok(((nodes, tree), rest))
}

/// What `read` answers, by its readers.
#[tactic(auto, unfolding(crate::specs::Reading::certificate_at))]
fn certificate<'a>(arena: &'a Bump, text: &[u8]) -> Result<Cert<'a>, CertFault>
    ensures ok { IfOk result (λ c. certificate_at text.now ≡ Ok (certificate_of c)) }
    ensures err { IfErr result (λ e. IsMemoryOr e (certificate_at text.now ≡ Err e)) }
{
    let start = Rest {
        text,
        line: 1,
        wanted: 0,
        left: 0,
    };
    let (head, rest) = head_lines(arena, start)?;
    let format = Format {
        version: head.version,
        rows: head.rows,
    };
    let chosen = head.choice.is_some();
    let (restated, rest) = row_lines(arena, rest, restated_count(format), chosen)?;
    let (pool, rest) = vector_lines(arena, rest, head.rows)?;
    let ((nodes, root), _) = tree_lines(arena, rest, format)?;
    Ok(Cert {
        version: head.version,
        decisions: head.decisions,
        rows: head.rows,
        choice: head.choice,
        energy: head.energy,
        restated,
        pool,
        nodes,
        root,
    })
}

/// The certificate that a text of either version writes, its lists in the arena.
///
/// `At` has the first line that fails, `Form` before `Deep` at one line: the line is cut off, absent or not of its form,
/// the nodes that are wanted behind it don't fit the node lines that are left, or it stands behind the end; or it is a
/// branch under 256 branches. So the recursion goes at most 257 nodes deep. `Memory` comes only where an allocation fails.
#[tactic(auto, using(crate::proofs::Texts::texts))]
pub fn read<'a>(_alloc: Global, arena: &'a Bump, text: &'a [u8]) -> Result<Cert<'a>, CertFault>
    ensures ok { IfOk result (λ c. certificate_at text.now ≡ Ok (certificate_of c)) }
    ensures within { IfOk result (λ c. IsWithin (certificate_of c)) }
    ensures written { IfOk result (λ c. text_of (certificate_of c) ≡ text.now) }
    ensures err { IfErr result (λ e. IsMemoryOr e (certificate_at text.now ≡ Err e)) }
    ensures no_text { IfErr result (λ e. IsMemoryOr e (NoText text.now)) }
{
    certificate(arena, text)
}
