ghost use Rattle.std.specs.Prelude.{◌≡◌, length, replicate, IfOk};

use rely_num::List;
use sqlite_items::Items;
use std::alloc::{AllocError, Global};

pub fn list_of<T: Copy>(alloc: Global, row: &Items<T>) -> Result<List<T>, AllocError>
    ensures { IfOk result (λ list. list ≡ row.now) }
{
    let items = Vec::from_slice(alloc, row.as_slice())?;
    Ok(List::from_vec(items))
}

/// Rows as lists, which are no longer changed in place.
pub fn lists_of<T: Copy>(alloc: Global, rows: &[Items<T>]) -> Result<List<List<T>>, AllocError>
    ensures { IfOk result (λ lists. lists ≡ rows.now) }
{
    let mut lists = Vec::new(alloc);
    for row in rows {
        lists.push(list_of(alloc, row)?)?;
    }
    Ok(List::from_vec(lists))
}

/// Puts one item in the place of each.
pub fn fill<T: Copy + Drop>(row: &mut Items<T>, item: T)
    ensures { row.new ≡ replicate (length row.old) item }
{
    for i in 0..row.len() {
        row.set(i, item);
    }
}

/// Puts others, as many, in the place of all.
pub fn overwrite<T: Copy + Drop>(row: &mut Items<T>, items: &[T])
    requires { length items.now ≡ length row.old }
    ensures { row.new ≡ items.now }
{
    for (i, item) in items.iter().enumerate() {
        row.set(i, *item);
    }
}
