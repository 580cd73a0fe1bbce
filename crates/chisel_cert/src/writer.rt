//! The text of a certificate.
ghost use Rattle.std.specs.Prelude.{◌≡◌, ◌++◌, codes, decimal, length, option_copied, IfOk, OnOk};
ghost use Rattle.chisel_cert.specs.Node.{certificate_of, closing_of, tree_of, vectors_of};
ghost use Rattle.chisel_cert.specs.Text.{spaced, listed, optional, letter, version_line, size_line, choice_line, energy_line, row_line, row_lines, vector_line, vector_lines, leaf_line, branch_line, node_lines, head_lines, table_lines, tree_lines, text_of};

use crate::cert::{Cert, Mark, Node, Restated};
use chisel_table::CloseRule;
use itoa::Buffer;
use std::alloc::{AllocError, Global};

fn number(out: &mut Vec<u8>, n: u64) -> Result<(), AllocError>
    ensures { OnOk result (out.new.items ≡ out.old.items ++ decimal n) }
{
    let mut buffer = Buffer::new();
    out.extend_from_slice(buffer.format(n).as_bytes())
}

/// A word and a number.
fn labelled(out: &mut Vec<u8>, word: &[u8], n: u64) -> Result<(), AllocError>
    ensures { OnOk result (out.new.items ≡ out.old.items ++ word.now ++ decimal n) }
{
    out.extend_from_slice(word)?;
    number(out, n)
}

/// A word and the last number of a line.
fn counted_line(out: &mut Vec<u8>, word: &[u8], n: u64) -> Result<(), AllocError>
    ensures { OnOk result (out.new.items ≡ out.old.items ++ word.now ++ decimal n ++ codes "\n") }
{
    labelled(out, word, n)?;
    out.extend_from_slice(b"\n")
}

fn optional(out: &mut Vec<u8>, n: Option<u64>) -> Result<(), AllocError>
    ensures { OnOk result (out.new.items ≡ out.old.items ++ optional n) }
{
    match n {
        Some(n) => number(out, n),
        None => out.extend_from_slice(b"none"),
    }
}

/// Numbers, each behind a blank.
fn spaced(out: &mut Vec<u8>, ns: &[u64]) -> Result<(), AllocError>
    ensures { OnOk result (out.new.items ≡ out.old.items ++ spaced ns.now) }
{
    for n in ns {
        labelled(out, b" ", *n)?;
    }
    Ok(())
}

fn spaced_options(out: &mut Vec<u8>, options: &[u8]) -> Result<(), AllocError>
    ensures { OnOk result (out.new.items ≡ out.old.items ++ spaced options.now) }
{
    for option in options {
        labelled(out, b" ", u64::from(*option))?;
    }
    Ok(())
}

fn choice_line(out: &mut Vec<u8>, choice: Option<&[u8]>) -> Result<(), AllocError>
    ensures { OnOk result (out.new.items ≡ out.old.items ++ choice_line (option_copied choice.entry)) }
{
    match choice {
        Some(options) => {
            out.extend_from_slice(b"choice")?;
            spaced_options(out, options)?;
            out.extend_from_slice(b"\n")
        }
        None => out.extend_from_slice(b"choice none\n"),
    }
}

fn energy_line(out: &mut Vec<u8>, energy: Option<u64>) -> Result<(), AllocError>
    ensures { OnOk result (out.new.items ≡ out.old.items ++ energy_line energy) }
{
    out.extend_from_slice(b"energy ")?;
    optional(out, energy)?;
    out.extend_from_slice(b"\n")
}

fn version_line(out: &mut Vec<u8>, version: u8) -> Result<(), AllocError>
    ensures { OnOk result (out.new.items ≡ out.old.items ++ version_line version) }
{
    counted_line(out, b"chisel ", u64::from(version))
}

fn size_line(out: &mut Vec<u8>, decisions: u32, rows: u32) -> Result<(), AllocError>
    ensures { OnOk result (out.new.items ≡ out.old.items ++ size_line decisions rows) }
{
    labelled(out, b"size ", u64::from(decisions))?;
    counted_line(out, b" ", u64::from(rows))
}

#[tactic(auto, unfolding(crate::specs::Text::head_lines))]
fn head_lines(out: &mut Vec<u8>, c: &Cert<'_>) -> Result<(), AllocError>
    ensures { OnOk result (out.new.items ≡ out.old.items ++ head_lines (certificate_of c.now)) }
{
    version_line(out, c.version)?;
    size_line(out, c.decisions, c.rows)?;
    choice_line(out, c.choice)?;
    energy_line(out, c.energy)
}

fn row_line(out: &mut Vec<u8>, row: &Restated) -> Result<(), AllocError>
    ensures { OnOk result (out.new.items ≡ out.old.items ++ row_line row.now) }
{
    let mut buffer = Buffer::new();
    out.extend_from_slice(b"row ")?;
    out.extend_from_slice(buffer.format(row.budget).as_bytes())?;
    out.extend_from_slice(b" ")?;
    spent(out, row.spent)?;
    out.extend_from_slice(b"\n")
}

fn spent(out: &mut Vec<u8>, spent: Option<u32>) -> Result<(), AllocError>
    ensures { OnOk result (out.new.items ≡ out.old.items ++ optional spent) }
{
    match spent {
        Some(n) => number(out, u64::from(n)),
        None => out.extend_from_slice(b"none"),
    }
}

fn row_lines(out: &mut Vec<u8>, rows: &[Restated]) -> Result<(), AllocError>
    ensures { OnOk result (out.new.items ≡ out.old.items ++ row_lines rows.now) }
{
    for row in rows {
        row_line(out, row)?;
    }
    Ok(())
}

/// Numbers with a blank between two.
fn listed(out: &mut Vec<u8>, ns: &[u64]) -> Result<(), AllocError>
    ensures { OnOk result (out.new.items ≡ out.old.items ++ listed ns.now) }
{
    match ns {
        [] => Ok(()),
        [first, others @ ..] => {
            number(out, *first)?;
            spaced(out, others)
        }
    }
}

fn vector_line(out: &mut Vec<u8>, vector: &[u64]) -> Result<(), AllocError>
    ensures { OnOk result (out.new.items ≡ out.old.items ++ vector_line vector.now) }
{
    listed(out, vector)?;
    out.extend_from_slice(b"\n")
}

fn vector_lines(out: &mut Vec<u8>, vectors: &[&[u64]]) -> Result<(), AllocError>
    ensures { OnOk result (out.new.items ≡ out.old.items ++ vector_lines (vectors_of vectors.now)) }
{
    for vector in vectors {
        vector_line(out, vector)?;
    }
    Ok(())
}

#[tactic(auto, unfolding(crate::specs::Text::table_lines))]
fn table_lines(out: &mut Vec<u8>, c: &Cert<'_>) -> Result<(), AllocError>
    ensures { OnOk result (out.new.items ≡ out.old.items ++ table_lines (certificate_of c.now)) }
{
    row_lines(out, c.restated)?;
    counted_line(out, b"pool ", c.pool.len() as u64)?;
    vector_lines(out, c.pool)
}

fn letter(rule: CloseRule) -> &'static [u8]
    ensures { result.now ≡ letter rule }
{
    match rule {
        CloseRule::C => b"c",
        CloseRule::I => b"i",
        CloseRule::D => b"d",
        CloseRule::T => b"t",
    }
}

/// Numbers at the end of a line, each behind a blank.
fn vector_end(out: &mut Vec<u8>, vector: &[u64]) -> Result<(), AllocError>
    ensures { OnOk result (out.new.items ≡ out.old.items ++ spaced vector.now ++ codes "\n") }
{
    spaced(out, vector)?;
    out.extend_from_slice(b"\n")
}

fn leaf_line(out: &mut Vec<u8>, mark: Mark<'_>) -> Result<(), AllocError>
    ensures { OnOk result (out.new.items ≡ out.old.items ++ leaf_line (closing_of mark.entry)) }
{
    match mark {
        Mark::Pool(close) => {
            out.extend_from_slice(letter(close.rule))?;
            counted_line(out, b" ", u64::from(close.index))
        }
        Mark::Own(rule, vector) => {
            out.extend_from_slice(letter(rule))?;
            out.extend_from_slice(b" own")?;
            vector_end(out, vector)
        }
    }
}

fn branch_line(out: &mut Vec<u8>, decision: u32, children: usize) -> Result<(), AllocError>
    ensures { OnOk result (out.new.items ≡ out.old.items ++ branch_line decision children) }
{
    labelled(out, b"b ", u64::from(decision))?;
    counted_line(out, b" ", children as u64)
}

/// A node's line, and those of the nodes below it.
fn node_lines(out: &mut Vec<u8>, node: &Node<'_>) -> Result<(), AllocError>
    ensures { OnOk result (out.new.items ≡ out.old.items ++ node_lines (tree_of node.now)) }
{
    match node {
        Node::Leaf(mark) => leaf_line(out, *mark),
        Node::Branch { decision, children } => {
            branch_line(out, *decision, children.len())?;
            for child in children.iter() {
                node_lines(out, child)?;
            }
            Ok(())
        }
    }
}

#[tactic(auto, unfolding(crate::specs::Text::tree_lines))]
fn tree_lines(out: &mut Vec<u8>, c: &Cert<'_>) -> Result<(), AllocError>
    ensures { OnOk result (out.new.items ≡ out.old.items ++ tree_lines (certificate_of c.now)) }
{
    counted_line(out, b"tree ", u64::from(c.nodes))?;
    node_lines(out, &c.root)?;
    out.extend_from_slice(b"end\n")
}

/// The text of a certificate, in the version that it names.
///
/// A certificate beyond the limits has a text too, but `read` refuses it. The recursion goes as deep as the tree.
pub fn write(alloc: Global, c: &Cert<'_>) -> Result<Vec<u8>, AllocError>
    ensures { IfOk result (λ v. v.items ≡ text_of (certificate_of c.now)) }
{
    let mut out = Vec::new(alloc);
    head_lines(&mut out, c)?;
    table_lines(&mut out, c)?;
    tree_lines(&mut out, c)?;
    Ok(out)
}
