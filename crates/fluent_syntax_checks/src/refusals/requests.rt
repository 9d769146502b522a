//! Words to the library that refuses requests: requests of sizes that nothing else asks for.

use std::alloc::Global;

/// With `n` beyond it: refuse the n-th request from now on.
const REFUSE: usize = 1 << 62;

/// Refuse none from now on; the library grants it where it had refused one.
const REPORT: usize = 1 << 61;

/// Has the n-th request from now on refused, counting from 1.
pub(crate) fn refuse(alloc: Global, n: u32) {
    let _ = Vec::<u8>::with_capacity(alloc, REFUSE + n as usize);
}

/// Whether the request was refused; from now on none is.
pub(crate) fn was_refused(alloc: Global) -> bool {
    Vec::<u8>::with_capacity(alloc, REPORT).is_ok()
}
