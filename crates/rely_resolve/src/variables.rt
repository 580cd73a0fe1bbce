//! The variables of a function, in a table of their names.
ghost use Rattle.std.specs.Prelude.{◌≡◌, ◌≤◌, ◌<◌, ◌+◌, ◌++◌, List, ℕ, map, length, is_some, if◌then◌else◌, Some, None, IfOk, IfSome, OnOk};
ghost use Rattle.indexmap.specs.IndexMap.{get_by};
ghost use Rattle.rely_num.specs.Texts.{same_text};
ghost use Rattle.rely_tree.specs.Shape.{decl_shape};
ghost use Rattle.rely_resolve.specs.Names.{place_of, number_of, names, is_array};
ghost use Rattle.rely_resolve.specs.Table.{Finds};

use indexmap::IndexMap;
use rely_tree::Decl;
use std::alloc::{AllocError, Global};

/// A name with its number, where it isn't there yet.
fn put<'a>(
    table: &mut IndexMap<&'a [u8], u32>,
    name: &'a [u8],
    number: u32,
) -> Result<(), AllocError>
    ensures { OnOk result ((q : List ℕ) → get_by (λ k. same_text q k.now) table.new ≡ (if is_some (get_by (λ k. same_text q k.now) table.old) then get_by (λ k. same_text q k.now) table.old else if same_text q name.now then Some number else None)) }
{
    if table.contains_key(name) {
        return Ok(());
    }
    match table.insert(name, number) {
        Ok(_) => Ok(()),
        Err(_) => Err(AllocError),
    }
}

fn table_of<'a>(alloc: Global, vars: &[Decl<'a>]) -> Result<IndexMap<&'a [u8], u32>, AllocError>
    requires { length vars.now ≤ 63 }
    ensures { IfOk result (λ m. Finds m (names (map decl_shape vars.now))) }
{
    let mut table = IndexMap::new(alloc);
    for (i, var) in vars.iter().enumerate() {
        put(&mut table, var.name.text, i as u32)?;
    }
    Ok(table)
}

/// Variables in order, and where each name stands among them.
#[derive(Drop)]
pub(crate) struct Variables<'a> {
    pub(crate) list: Vec<Decl<'a>>,
    table: IndexMap<&'a [u8], u32>,
    ghost few: { length list.items ≤ 63 },
    ghost finds: { Finds table (names (map decl_shape list.items)) },
}

impl<'a> Variables<'a> {
    /// Parameters, then locals.
    pub(crate) fn new(
        alloc: Global,
        params: &[Decl<'a>],
        locals: &[Decl<'a>],
    ) -> Result<Variables<'a>, AllocError>
        requires { length params.now + length locals.now ≤ 63 }
        ensures { IfOk result (λ vs. vs.list.items ≡ params.now ++ locals.now) }
    {
        let mut list = Vec::from_slice(alloc, params)?;
        list.extend_from_slice(locals)?;
        let table = table_of(alloc, list.as_slice())?;
        Ok(Variables { list, table })
    }

    /// The number of the first variable of that name.
    pub(crate) fn place(&self, name: &[u8]) -> Option<usize>
        ensures place { result ≡ place_of name.now (names (map decl_shape self.now.list.items)) }
        ensures within { IfSome result (λ i. i < length self.now.list.items) }
    {
        match self.table.get(name) {
            Some(number) => Some(*number as usize),
            None => None,
        }
    }

    /// The same, 0 for none.
    pub(crate) fn number(&self, name: &[u8]) -> u32
        ensures number { result ≡ number_of name.now (names (map decl_shape self.now.list.items)) }
        ensures few { result < 63 }
    {
        match self.place(name) {
            Some(place) => place as u32,
            None => 0,
        }
    }

    /// Whether the variable of that number is an array.
    pub(crate) fn is_array(&self, number: usize) -> bool
        requires { number < length self.now.list.items }
        ensures { result ≡ is_array (map decl_shape self.now.list.items) number }
    {
        self.list[number].length.is_some()
    }
}
