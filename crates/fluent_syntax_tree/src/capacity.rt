//! Lists that are made with just the room they need.
ghost use Rattle.std.specs.Prelude.{◌≡◌, []};

use std::alloc::Global;

/// An empty list, with room for as many items as are given where there is memory for it. Where there is none, the first
/// push says so.
pub fn list_for<X, Y>(alloc: Global, items: &Vec<X>) -> Vec<Y>
    ensures { result.items ≡ [] }
{
    match Vec::with_capacity(alloc, items.len()) {
        Ok(list) => list,
        Err(_) => Vec::new(alloc),
    }
}
