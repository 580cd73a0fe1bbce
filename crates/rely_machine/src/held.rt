ghost use Rattle.std.specs.Prelude.{◌≡◌, ◌<◌, [], ◌∷◌, length, pos, IfOk, OnOk};
ghost use Rattle.std.specs.Option.{option_map_or};
ghost use Rattle.rely_kernel.specs.declared.kernel.Kernel.{Kernel};
ghost use Rattle.rely_kernel.specs.Machine.{cell, fresh, parameters, top, with_cell, zeros};
ghost use Rattle.rely_kernel.specs.Valid.{IsValid};
ghost use Rattle.rely_kernel.specs.Meaning.{read_at, written_at};
ghost use Rattle.rely_machine.specs.Starts.{started};

use crate::lists::{fill, lists_of, overwrite};
use rely_kernel::{Store, Var};
use rely_num::List;
use sqlite_items::{Items, at};
use std::alloc::{AllocError, Global};
use std::marker::Model;

/// What the variables of a running function hold, and its result: a store that changes in place.
#[derive(Debug, Drop)]
pub struct Held {
    cells: Vec<Items<i64>>,
    result: i64,
}

impl Model for Held {
    ghost use Rattle.rely_kernel.specs.declared.setting.Store.{Store};

    ghost Value = { Store };

    ghost view = { λ h. record { cells = h.cells.items; result = h.result } };
}

// A variable's numbers as a callee starts: its argument, and zeros where there is none.
fn start_of(alloc: Global, var: &Var, argument: Option<i64>) -> Result<Items<i64>, AllocError>
    ensures { IfOk result (λ cell. cell ≡ option_map_or (λ z. z ∷ []) argument (zeros var.now)) }
{
    let numbers = match argument {
        Some(z) => vec![in alloc; z; 1]?,
        None => vec![in alloc; 0i64; var.length.unwrap_or(1) as usize]?,
    };
    Ok(Items::from_vec(numbers))
}

// The same in a cell that is there, in its memory where it has as many numbers.
fn start_one(
    alloc: Global,
    cell: &mut Items<i64>,
    var: &Var,
    argument: Option<i64>,
) -> Result<(), AllocError>
    ensures { OnOk result (cell.new ≡ option_map_or (λ z. z ∷ []) argument (zeros var.now)) }
{
    let numbers = match argument {
        Some(_) => 1,
        None => var.length.unwrap_or(1) as usize,
    };
    if cell.len() == numbers {
        fill(cell, argument.unwrap_or(0));
    } else {
        *cell = start_of(alloc, var, argument)?;
    }
    Ok(())
}

// So many cells: those that are there, and empty ones behind them.
fn resize(cells: &mut Vec<Items<i64>>, n: usize) -> Result<(), AllocError>
    ensures { OnOk result (length cells.new.items ≡ n) }
{
    let alloc = *cells.allocator();
    cells.resize_with(n, || Items::new(alloc))
}

fn start_all(cells: &mut Vec<Items<i64>>, vars: &[Var], arguments: &[i64]) -> Result<(), AllocError>
    ensures { OnOk result (cells.new.items ≡ started vars.now arguments.now) }
{
    let alloc = *cells.allocator();
    resize(cells, vars.len())?;
    for (i, var) in vars.iter().enumerate() {
        start_one(alloc, &mut cells[i], var, at(arguments, i).copied())?;
    }
    Ok(())
}

// Other numbers, in the memory of the cell where it has as many.
fn copy_one(alloc: Global, cell: &mut Items<i64>, numbers: &[i64]) -> Result<(), AllocError>
    ensures { OnOk result (cell.new ≡ numbers.now) }
{
    if cell.len() == numbers.len() {
        overwrite(cell, numbers);
    } else {
        *cell = Items::from_slice(alloc, numbers)?;
    }
    Ok(())
}

fn copy_all(cells: &mut Vec<Items<i64>>, rows: &[List<i64>]) -> Result<(), AllocError>
    ensures { OnOk result (cells.new.items ≡ rows.now) }
{
    let alloc = *cells.allocator();
    resize(cells, rows.len())?;
    for (i, row) in rows.iter().enumerate() {
        copy_one(alloc, &mut cells[i], row.as_slice())?;
    }
    Ok(())
}

impl Held {
    /// No variables yet.
    pub fn new(alloc: Global) -> Held
        ensures { result ≡ record { cells = []; result = pos 0 } }
    {
        Held {
            cells: Vec::new(alloc),
            result: 0,
        }
    }

    /// A copy of a store.
    pub fn of(alloc: Global, store: &Store) -> Result<Held, AllocError>
        ensures { IfOk result (λ h. h ≡ store.now) }
    {
        let mut held = Held::new(alloc);
        held.copy_from(store)?;
        Ok(held)
    }

    /// What a store has, in the memory of what was held.
    pub fn copy_from(&mut self, store: &Store) -> Result<(), AllocError>
        ensures { OnOk result (self.new ≡ store.now) }
    {
        copy_all(&mut self.cells, store.cells.as_slice())?;
        self.result = store.result;
        Ok(())
    }

    /// What a callee starts with, an argument for each parameter and zeros in its locals, in the memory of what was held.
    pub fn start(&mut self, vars: &[Var], arguments: &[i64]) -> Result<(), AllocError>
        ensures { (k : Kernel) → IsValid k → k.vars ≡ vars.now → length arguments.now ≡ length (parameters k) → OnOk result (self.new ≡ fresh k arguments.now) }
    {
        start_all(&mut self.cells, vars, arguments)?;
        self.result = 0;
        Ok(())
    }

    /// The store that is left.
    pub fn into_store(self, alloc: Global) -> Result<Store, AllocError>
        ensures { IfOk result (λ store. store ≡ self) }
    {
        Ok(Store {
            cells: lists_of(alloc, self.cells.as_slice())?,
            result: self.result,
        })
    }

    /// The number of a scalar.
    pub fn read(&self, v: u32) -> i64
        requires { length (cell self.now v) ≡ 1 }
        ensures { result ≡ top (cell self.now v) }
    {
        self.cells[v as usize].as_slice()[0]
    }

    /// The element of an array at an index, and 0 outside.
    pub fn read_at(&self, a: u32, i: i64) -> i64
        requires { a < length self.now.cells }
        ensures { result ≡ read_at (cell self.now a) i }
    {
        if i < 0 {
            return 0;
        }
        match self.cells[a as usize].as_slice().get(i as usize) {
            Some(z) => *z,
            None => 0,
        }
    }

    /// Puts a number into a scalar.
    pub fn write(&mut self, v: u32, z: i64)
        requires { length (cell self.old v) ≡ 1 }
        ensures { self.new ≡ with_cell self.old v (z ∷ []) }
    {
        self.cells[v as usize].set(0, z);
    }

    /// Puts a number into an array at an index; outside nothing is written.
    pub fn write_at(&mut self, a: u32, i: i64, z: i64)
        requires { a < length self.old.cells }
        ensures { self.new ≡ with_cell self.old a (written_at (cell self.old a) i z) }
    {
        let cell = &mut self.cells[a as usize];
        if i >= 0 && (i as usize) < cell.len() {
            cell.set(i as usize, z);
        }
    }

    /// The result so far.
    pub fn result(&self) -> i64
        ensures { result ≡ self.now.result }
    {
        self.result
    }

    /// Puts a number into the result.
    pub fn set_result(&mut self, z: i64)
        ensures { self.new ≡ record self.old { result = z } }
    {
        self.result = z;
    }
}
