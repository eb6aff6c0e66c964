//! Lists of lists.

ghost use Rattle.std.specs.Prelude.{◌≡◌, All, [], IfOk, length};

use std::alloc::{AllocError, Global};

/// So many empty lists.
pub(crate) fn empty_lists<X: Drop>(alloc: Global, count: usize) -> Result<Vec<Vec<X>>, AllocError>
    ensures count { IfOk result (λ lists. length lists.items ≡ count) }
    ensures empty { IfOk result (λ lists. All (λ list. list.items ≡ []) lists.items) }
{
    let mut lists = Vec::with_capacity(alloc, count)?;
    for _ in 0..count {
        lists.push_reserved(Vec::new(alloc));
    }
    Ok(lists)
}
