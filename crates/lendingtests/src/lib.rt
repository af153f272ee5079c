//! Tests of references that travel: they stand in a crate of their own, which proves no function of the library again.
#![tactic(auto)]

pub mod contents;
#[cfg(test)]
mod test_owned;
