//! Requests for memory.
use std::alloc::Global;

/// Whether one small request for memory is granted.
pub fn grants(alloc: Global) -> bool {
    let mut one = Vec::new(alloc);
    one.push(1_u8).is_ok()
}
