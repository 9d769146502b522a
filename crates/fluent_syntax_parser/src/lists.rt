//! What the readers add to lists.
ghost use Rattle.std.specs.Prelude.{◌≡◌, ◌∷◌, ◌++◌, [], OnErr, OnOk};

use std::alloc::AllocError;

/// Adds an item to a list. It is written once, straight into the list: `Vec::push`, which gives it back where it finds
/// no room, moves it twice.
#[inline(always)]
pub(crate) fn add<T: Drop>(list: &mut Vec<T>, item: T) -> Result<(), AllocError>
    ensures added { OnOk result (list.new.items ≡ list.old.items ++ item ∷ []) }
    ensures stays { OnErr result (list.new.items ≡ list.old.items) }
{
    list.reserve(1)?;
    list.push_reserved(item);
    Ok(())
}
