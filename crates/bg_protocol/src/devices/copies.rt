//! Copies of lists.
ghost use Rattle.std.specs.Prelude.{◌≡◌, ◌≢◌, [], IfOk, OnErr};

use std::alloc::{AllocError, Global};

/// Returns a copy of the items, where an item's clone equals the item. Allocates only where there
/// are any.
pub(crate) fn copy_of<T: Clone>(alloc: Global, items: &[T]) -> Result<Vec<T>, AllocError>
    ensures ok { ((x y : T) → T.is_clone x y → y ≡ x) → IfOk result (λ copy. copy.items ≡ items.now) }
    ensures err { OnErr result (items.now ≢ []) }
{
    if items.is_empty() {
        return Ok(Vec::new(alloc));
    }
    items.to_vec(alloc)
}
