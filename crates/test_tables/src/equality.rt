//! The hashes of values.
use std::hash::{DefaultHasher, Hash, Hasher};

/// The hash of a value.
pub fn hash_of<T: Hash>(value: &T) -> u64 {
    let mut state = DefaultHasher::new();
    value.hash(&mut state);
    state.finish()
}
