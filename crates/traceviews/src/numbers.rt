//! Sorted numbers, each of which is there once.

/// Where a number stands among sorted ones, or would stand.
pub(crate) fn position_of(numbers: &[u32], number: u32) -> usize {
    match numbers.binary_search(&number) {
        Ok(at) | Err(at) => at,
    }
}
