//! Names, looked up in lists.
ghost use Rattle.std.specs.Prelude.{◌≡◌, ◌<◌, map, length, IfSome};
ghost use Rattle.rely_num.specs.Texts.{same_text, is_among};
ghost use Rattle.rely_tree.specs.Shape.{func_shape};
ghost use Rattle.rely_resolve.specs.Names.{place_of, function_names, memory_names, kind_names};

use rely_hard::{KindSpec, MemSpec};
use rely_tree::Func;

// Whether two texts are the same.
pub(crate) fn is_same(a: &[u8], b: &[u8]) -> bool
    ensures { result ≡ same_text a.now b.now }
{
    a == b
}

pub(crate) fn place_of_function(name: &[u8], functions: &[Func]) -> Option<usize>
    ensures place { result ≡ place_of name.now (function_names (map func_shape functions.now)) }
    ensures within { IfSome result (λ i. i < length functions.now) }
{
    for (i, function) in functions.iter().enumerate() {
        if is_same(function.name.text, name) {
            return Some(i);
        }
    }
    None
}

/// Whether one of the functions has the name.
pub(crate) fn is_function(name: &[u8], functions: &[Func]) -> bool
    ensures { result ≡ is_among name.now (function_names (map func_shape functions.now)) }
{
    for function in functions {
        if is_same(name, function.name.text) {
            return true;
        }
    }
    false
}

pub(crate) fn place_of_memory(name: &[u8], memories: &[MemSpec]) -> Option<usize>
    ensures place { result ≡ place_of name.now (memory_names memories.now) }
    ensures within { IfSome result (λ i. i < length memories.now) }
{
    for (i, memory) in memories.iter().enumerate() {
        if is_same(memory.name.as_slice(), name) {
            return Some(i);
        }
    }
    None
}

pub(crate) fn place_of_kind(name: &[u8], kinds: &[KindSpec]) -> Option<usize>
    ensures place { result ≡ place_of name.now (kind_names kinds.now) }
    ensures within { IfSome result (λ i. i < length kinds.now) }
{
    for (i, kind) in kinds.iter().enumerate() {
        if is_same(kind.name.as_slice(), name) {
            return Some(i);
        }
    }
    None
}
