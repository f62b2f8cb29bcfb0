//! The numbers in the lines of a case.
use std::alloc::{AllocError, Global};

/// The number that this text is; any other text stands for the largest.
pub fn number(text: &str) -> u64 {
    text.parse::<u64>().unwrap_or(u64::MAX)
}

/// The numbers in this text.
pub fn numbers(alloc: Global, text: &str) -> Result<Vec<u64>, AllocError> {
    let mut all = Vec::new(alloc);
    for word in text.split_whitespace() {
        all.push(number(word))?;
    }
    Ok(all)
}
