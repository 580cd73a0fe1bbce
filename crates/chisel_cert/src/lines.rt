//! The lines before the tree.
ghost use Rattle.std.specs.Prelude.{◌≡◌, ◌+◌, ◌^◌, ◌<◌, ◌≤◌, option_copied, IfOk, IfSome};
ghost use Rattle.chisel_cert.specs.Node.{vectors_of};
ghost use Rattle.chisel_cert.specs.State.{state_of, IsInLine, IsNextLine, IsRead, IsReadBy, each_at, more_at};
ghost use Rattle.chisel_cert.specs.Ranges.{IsBetween};
ghost use Rattle.chisel_cert.specs.Lines.{labelled_at, number_line_at, counted_line_at, listed_at, given_line_at, spaced_at, given_at, signed_at, version_line_at, size_line_at, options_line_at, choice_line_at, energy_line_at, row_line_at, pool_line_at, vector_line_at, vectors_at};

use crate::cert::Restated;
use crate::fault::CertFault;
use crate::limits::{
    LAST_OPTION, LAST_VERSION, MOST_DEBITS, MOST_DECISIONS, MOST_DEFICIT, MOST_ENERGY, MOST_LINES,
    MOST_MULTIPLIER, MOST_ROWS, MOST_VECTORS,
};
use crate::rest::{Rest, line_end, number, skip};
use bumpalo::Bump;
use bumpalo::collections::into_bump_slice;

/// A number behind a word.
#[tactic(auto, unfolding(crate::specs::Lines::labelled_at))]
fn labelled<'t>(
    at: Rest<'t>,
    word: &[u8],
    first: u128,
    last: u128,
) -> Result<(u128, Rest<'t>), CertFault>
    requires { last < 2 ^ 72 }
    ensures reads { IsRead (labelled_at word.now first last) at.entry result }
    ensures within { IfOk result (λ r. IsBetween first last r.0) }
    ensures line { IfOk result (λ r. IsInLine (state_of at.entry) (state_of r.1)) }
{
    let rest = skip(at, word)?;
    number(rest, first, last)
}

/// A number at the end of a line.
#[tactic(auto, unfolding(crate::specs::Lines::number_line_at))]
pub(crate) fn number_line<'t>(
    at: Rest<'t>,
    first: u128,
    last: u128,
) -> Result<(u128, Rest<'t>), CertFault>
    requires line { at.line ≤ MOST_LINES }
    requires last { last < 2 ^ 72 }
    ensures reads { IsRead (number_line_at first last) at.entry result }
    ensures within { IfOk result (λ r. IsBetween first last r.0) }
    ensures line { IfOk result (λ r. IsNextLine (state_of at.entry) (state_of r.1)) }
{
    let (number, rest) = number(at, first, last)?;
    let rest = line_end(rest)?;
    Ok((number, rest))
}

/// A number behind a word at the end of a line.
#[tactic(auto, unfolding(crate::specs::Lines::counted_line_at))]
pub(crate) fn counted_line<'t>(
    at: Rest<'t>,
    word: &[u8],
    first: u128,
    last: u128,
) -> Result<(u128, Rest<'t>), CertFault>
    requires line { at.line ≤ MOST_LINES }
    requires last { last < 2 ^ 72 }
    ensures reads { IsRead (counted_line_at word.now first last) at.entry result }
    ensures within { IfOk result (λ r. IsBetween first last r.0) }
    ensures line { IfOk result (λ r. IsNextLine (state_of at.entry) (state_of r.1)) }
{
    let rest = skip(at, word)?;
    number_line(rest, first, last)
}

/// A number behind a blank.
#[tactic(auto, unfolding(crate::specs::Lines::labelled_at, crate::specs::Lines::spaced_at))]
pub(crate) fn spaced<'t>(at: Rest<'t>, last: u128) -> Result<(u128, Rest<'t>), CertFault>
    requires { last < 2 ^ 72 }
    ensures reads { IsRead (spaced_at last) at.entry result }
    ensures within { IfOk result (λ r. r.0 ≤ last) }
    ensures line { IfOk result (λ r. IsInLine (state_of at.entry) (state_of r.1)) }
{
    labelled(at, b" ", 0, last)
}

/// So many multipliers more, each behind a blank.
pub(crate) fn multipliers<'a, 't>(
    mut all: Vec<u64, &'a Bump>,
    at: Rest<'t>,
    count: u32,
) -> Result<(&'a [u64], Rest<'t>), CertFault>
    ensures reads { IsReadBy (λ x. x.now) (more_at all.entry.items (spaced_at MOST_MULTIPLIER) count)
        at.entry result }
    ensures line { IfOk result (λ r. IsInLine (state_of at.entry) (state_of r.1)) }
{
    let mut rest = at;
    for index in 0..count {
        let (one, after) = spaced(rest, MOST_MULTIPLIER)?;
        all.push(one as u64)?;
        rest = after;
    }
    Ok((into_bump_slice(all), rest))
}

/// So many options, each behind a blank.
fn options<'a, 't>(
    arena: &'a Bump,
    at: Rest<'t>,
    count: u32,
) -> Result<(&'a [u8], Rest<'t>), CertFault>
    ensures reads { IsReadBy (λ x. x.now) (each_at (spaced_at LAST_OPTION) count) at.entry result }
    ensures line { IfOk result (λ r. IsInLine (state_of at.entry) (state_of r.1)) }
{
    let mut all = Vec::new(arena);
    let mut rest = at;
    for index in 0..count {
        let (one, after) = spaced(rest, LAST_OPTION)?;
        all.push(one as u8)?;
        rest = after;
    }
    Ok((into_bump_slice(all), rest))
}

/// A number where one is wanted, and else the word `none`.
#[tactic(auto, unfolding(crate::specs::Lines::given_at))]
fn given<'t>(at: Rest<'t>, last: u128, wanted: bool) -> Result<(Option<u128>, Rest<'t>), CertFault>
    requires { last < 2 ^ 72 }
    ensures reads { IsRead (given_at last wanted) at.entry result }
    ensures within { IfOk result (λ r. IfSome r.0 (λ n. n ≤ last)) }
    ensures line { IfOk result (λ r. IsInLine (state_of at.entry) (state_of r.1)) }
{
    if wanted {
        let (number, rest) = number(at, 0, last)?;
        Ok((Some(number), rest))
    } else {
        let rest = skip(at, b"none")?;
        Ok((None, rest))
    }
}

/// The same behind a word at the end of a line.
#[tactic(auto, unfolding(crate::specs::Lines::given_line_at))]
fn given_line<'t>(
    at: Rest<'t>,
    word: &[u8],
    last: u128,
    wanted: bool,
) -> Result<(Option<u128>, Rest<'t>), CertFault>
    requires line { at.line ≤ MOST_LINES }
    requires last { last < 2 ^ 72 }
    ensures reads { IsRead (given_line_at word.now last wanted) at.entry result }
    ensures within { IfOk result (λ r. IfSome r.0 (λ n. n ≤ last)) }
    ensures line { IfOk result (λ r. IsNextLine (state_of at.entry) (state_of r.1)) }
{
    let rest = skip(at, word)?;
    let (number, rest) = given(rest, last, wanted)?;
    let rest = line_end(rest)?;
    Ok((number, rest))
}

/// A budget: a sign and a number that isn't 0, or a number.
#[tactic(auto, unfolding(crate::specs::Lines::signed_at))]
fn signed<'t>(at: Rest<'t>) -> Result<(i128, Rest<'t>), CertFault>
    ensures reads { IsRead signed_at at.entry result }
    ensures line { IfOk result (λ r. IsInLine (state_of at.entry) (state_of r.1)) }
{
    if let Ok(rest) = skip(at, b"-") {
        let (number, rest) = number(rest, 1, MOST_DEFICIT)?;
        return Ok((-(number as i128), rest));
    }
    let (number, rest) = number(at, 0, MOST_DEBITS)?;
    Ok((number as i128, rest))
}

#[tactic(auto, unfolding(crate::specs::Lines::version_line_at))]
pub(crate) fn version_line<'t>(at: Rest<'t>) -> Result<(u8, Rest<'t>), CertFault>
    requires { at.line ≤ MOST_LINES }
    ensures reads { IsRead version_line_at at.entry result }
    ensures line { IfOk result (λ r. IsNextLine (state_of at.entry) (state_of r.1)) }
{
    let (version, rest) = counted_line(at, b"chisel ", 1, LAST_VERSION)?;
    Ok((version as u8, rest))
}

/// The numbers of decisions and of rows.
#[tactic(auto, unfolding(crate::specs::Lines::size_line_at))]
pub(crate) fn size_line<'t>(at: Rest<'t>) -> Result<((u32, u32), Rest<'t>), CertFault>
    requires { at.line ≤ MOST_LINES }
    ensures reads { IsRead size_line_at at.entry result }
    ensures rows { IfOk result (λ r. r.0.1 ≤ MOST_ROWS) }
    ensures line { IfOk result (λ r. IsNextLine (state_of at.entry) (state_of r.1)) }
{
    let (decisions, rest) = labelled(at, b"size ", 1, MOST_DECISIONS)?;
    let (rows, rest) = counted_line(rest, b" ", 1, MOST_ROWS)?;
    Ok(((decisions as u32, rows as u32), rest))
}

/// An option for each decision.
#[tactic(auto, unfolding(crate::specs::Lines::options_line_at))]
fn options_line<'a, 't>(
    arena: &'a Bump,
    at: Rest<'t>,
    decisions: u32,
) -> Result<(&'a [u8], Rest<'t>), CertFault>
    requires { at.line ≤ MOST_LINES }
    ensures reads { IsReadBy (λ x. x.now) (options_line_at decisions) at.entry result }
    ensures line { IfOk result (λ r. IsNextLine (state_of at.entry) (state_of r.1)) }
{
    let rest = skip(at, b"choice")?;
    let (options, rest) = options(arena, rest, decisions)?;
    let rest = line_end(rest)?;
    Ok((options, rest))
}

#[tactic(auto, unfolding(crate::specs::Lines::choice_line_at))]
pub(crate) fn choice_line<'a, 't>(
    arena: &'a Bump,
    at: Rest<'t>,
    decisions: u32,
) -> Result<(Option<&'a [u8]>, Rest<'t>), CertFault>
    requires { at.line ≤ MOST_LINES }
    ensures reads { IsReadBy option_copied (choice_line_at decisions) at.entry result }
    ensures line { IfOk result (λ r. IsNextLine (state_of at.entry) (state_of r.1)) }
{
    if let Ok(rest) = skip(at, b"choice none") {
        let rest = line_end(rest)?;
        return Ok((None, rest));
    }
    let (options, rest) = options_line(arena, at, decisions)?;
    Ok((Some(options), rest))
}

#[tactic(auto, unfolding(crate::specs::Lines::energy_line_at))]
pub(crate) fn energy_line<'t>(
    at: Rest<'t>,
    chosen: bool,
) -> Result<(Option<u64>, Rest<'t>), CertFault>
    requires { at.line ≤ MOST_LINES }
    ensures reads { IsRead (energy_line_at chosen) at.entry result }
    ensures line { IfOk result (λ r. IsNextLine (state_of at.entry) (state_of r.1)) }
{
    let (energy, rest) = given_line(at, b"energy ", MOST_ENERGY, chosen)?;
    match energy {
        Some(energy) => Ok((Some(energy as u64), rest)),
        None => Ok((None, rest)),
    }
}

#[tactic(auto, unfolding(crate::specs::Lines::row_line_at))]
fn row_line<'t>(at: Rest<'t>, chosen: bool) -> Result<(Restated, Rest<'t>), CertFault>
    requires { at.line ≤ MOST_LINES }
    ensures reads { IsRead (row_line_at chosen) at.entry result }
    ensures line { IfOk result (λ r. IsNextLine (state_of at.entry) (state_of r.1)) }
{
    let rest = skip(at, b"row ")?;
    let (budget, rest) = signed(rest)?;
    let (spent, rest) = given_line(rest, b" ", MOST_DEBITS, chosen)?;
    match spent {
        Some(spent) => Ok((restated(budget, Some(spent as u32)), rest)),
        None => Ok((restated(budget, None), rest)),
    }
}

fn restated(budget: i128, spent: Option<u32>) -> Restated
    ensures { result ≡ record { budget = budget; spent = spent } }
{
    Restated { budget, spent }
}

/// So many rows, told again.
pub(crate) fn row_lines<'a, 't>(
    arena: &'a Bump,
    at: Rest<'t>,
    count: u32,
    chosen: bool,
) -> Result<(&'a [Restated], Rest<'t>), CertFault>
    requires { at.line + count ≤ MOST_LINES }
    ensures reads { IsReadBy (λ x. x.now) (each_at (row_line_at chosen) count) at.entry result }
    ensures line { IfOk result (λ r. r.1.line ≡ at.entry.line + count) }
{
    let mut all = Vec::new(arena);
    let mut rest = at;
    for index in 0..count {
        let (one, after) = row_line(rest, chosen)?;
        all.push(one)?;
        rest = after;
    }
    Ok((into_bump_slice(all), rest))
}

/// The number of vectors.
#[tactic(auto, unfolding(crate::specs::Lines::pool_line_at))]
fn pool_line<'t>(at: Rest<'t>) -> Result<(u32, Rest<'t>), CertFault>
    requires { at.line ≤ MOST_LINES }
    ensures reads { IsRead pool_line_at at.entry result }
    ensures few { IfOk result (λ r. r.0 ≤ MOST_VECTORS) }
    ensures line { IfOk result (λ r. IsNextLine (state_of at.entry) (state_of r.1)) }
{
    let (count, rest) = counted_line(at, b"pool ", 1, MOST_VECTORS)?;
    Ok((count as u32, rest))
}

/// So many multipliers with a blank between two.
#[tactic(auto, unfolding(crate::specs::Lines::listed_at))]
fn listed<'a, 't>(
    arena: &'a Bump,
    at: Rest<'t>,
    count: u32,
) -> Result<(&'a [u64], Rest<'t>), CertFault>
    ensures reads { IsReadBy (λ x. x.now) (listed_at MOST_MULTIPLIER count) at.entry result }
    ensures line { IfOk result (λ r. IsInLine (state_of at.entry) (state_of r.1)) }
{
    let (first, rest) = number(at, 0, MOST_MULTIPLIER)?;
    let mut all = Vec::new(arena);
    all.push(first as u64)?;
    multipliers(all, rest, count.saturating_sub(1))
}

/// A vector with a multiplier for each row.
#[tactic(auto, unfolding(crate::specs::Lines::vector_line_at))]
fn vector_line<'a, 't>(
    arena: &'a Bump,
    at: Rest<'t>,
    rows: u32,
) -> Result<(&'a [u64], Rest<'t>), CertFault>
    requires { at.line ≤ MOST_LINES }
    ensures reads { IsReadBy (λ x. x.now) (vector_line_at rows) at.entry result }
    ensures line { IfOk result (λ r. IsNextLine (state_of at.entry) (state_of r.1)) }
{
    let (vector, rest) = listed(arena, at, rows)?;
    let rest = line_end(rest)?;
    Ok((vector, rest))
}

/// The number of vectors, and then the vectors.
pub(crate) fn vector_lines<'a, 't>(
    arena: &'a Bump,
    at: Rest<'t>,
    rows: u32,
) -> Result<(&'a [&'a [u64]], Rest<'t>), CertFault>
    requires { at.line + MOST_VECTORS < MOST_LINES }
    ensures reads { IsReadBy (λ x. vectors_of x.now) (vectors_at rows) at.entry result }
    ensures line { IfOk result (λ r. r.1.line ≤ at.entry.line + MOST_VECTORS + 1) }
{
    let (count, start) = pool_line(at)?;
    let mut all = Vec::new(arena);
    let mut rest = start;
    for index in 0..count {
        let (one, after) = vector_line(arena, rest, rows)?;
        all.push(one)?;
        rest = after;
    }
    Ok((into_bump_slice(all), rest))
}
