//! What is printed.
use std::alloc::AllocError;

/// Whether this text was printed.
pub fn is_printed(printed: Result<String, AllocError>, text: &str) -> bool {
    match printed {
        Ok(printed) => printed.as_str() == text,
        Err(_) => false,
    }
}
