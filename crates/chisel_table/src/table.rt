//! What a table has at a decision, an option and a row.
ghost use Rattle.std.specs.Prelude.{◌≡◌, ◌<◌, [], slice_index_or};
ghost use Rattle.chisel_table.specs.Tables.{decision_count, option_count, row_count, row_at, energy_at, budget_at, spent_at};
ghost use Rattle.chisel_table.specs.Valid.{IsTable};

use rely_num::List;

/// The most decisions of a table.
pub const MAX_DECISIONS: usize = 256;

/// The most options of a decision.
pub const MAX_OPTIONS: usize = 16;

/// The most rows of a table.
pub const MAX_ROWS: usize = 2048;

/// A linear constraint on choices: what they spend in all is at most the budget, which may be negative.
#[derive(Debug, Drop)]
pub struct Row {
    pub budget: i128,
    /// For each decision the debit that each of its options spends.
    pub spent: List<List<u64>>,
}

/// The energies of choices, and the rows that a choice has to meet.
#[derive(Debug, Drop)]
pub struct Table {
    /// The energy that every choice has.
    pub fixed: u64,
    /// For each decision the energy of each of its options.
    pub energies: List<List<u64>>,
    pub rows: List<Row>,
}

/// How many decisions there are to take.
pub fn decision_count(t: &Table) -> usize
    ensures { result ≡ decision_count t.now }
{
    t.energies.len()
}

/// How many rows there are to meet.
pub fn row_count(t: &Table) -> usize
    ensures { result ≡ row_count t.now }
{
    t.rows.len()
}

/// How many options a decision has.
pub fn option_count(t: &Table, decision: usize) -> usize
    requires { decision < decision_count t.now }
    ensures { result ≡ option_count t.now decision }
{
    t.energies.as_slice()[decision].len()
}

/// The energy of an option.
pub fn energy_at(t: &Table, decision: usize, option: usize) -> u64
    requires decision { decision < decision_count t.now }
    requires option { option < option_count t.now decision }
    ensures { result ≡ energy_at t.now decision option }
{
    t.energies.as_slice()[decision].as_slice()[option]
}

/// The budget of a row.
pub fn budget_at(t: &Table, row: usize) -> i128
    requires { row < row_count t.now }
    ensures { result ≡ budget_at t.now row }
{
    t.rows.as_slice()[row].budget
}

/// The debit that an option spends in a row.
pub fn spent_at(t: &Table, row: usize, decision: usize, option: usize) -> u64
    requires table { IsTable t.now }
    requires row { row < row_count t.now }
    requires decision { decision < decision_count t.now }
    requires option { option < option_count t.now decision }
    ensures { result ≡ spent_at t.now row decision option }
{
    t.rows.as_slice()[row].spent.as_slice()[decision].as_slice()[option]
}

/// The energies of a decision's options.
pub fn energies_of(t: &Table, decision: usize) -> &[u64]
    requires { decision < decision_count t.now }
    ensures { result.now ≡ slice_index_or t.now.energies decision [] }
{
    t.energies.as_slice()[decision].as_slice()
}

/// What a decision's options spend in a row.
pub fn debits_of(t: &Table, row: usize, decision: usize) -> &[u64]
    requires table { IsTable t.now }
    requires row { row < row_count t.now }
    requires decision { decision < decision_count t.now }
    ensures { result.now ≡ slice_index_or (row_at t.now row).spent decision [] }
{
    t.rows.as_slice()[row].spent.as_slice()[decision].as_slice()
}
