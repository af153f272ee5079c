//! Tests of the running pool, and of the guards, workers and stores over it: they stand in a crate of their own, which proves
//! no function of these libraries again.
#![tactic(auto)]

pub mod contents;
#[cfg(test)]
mod test_calls;
#[cfg(test)]
mod test_claimed;
#[cfg(test)]
mod test_discards;
#[cfg(test)]
mod test_drops;
#[cfg(test)]
mod test_guards;
#[cfg(test)]
mod test_guests;
#[cfg(test)]
mod test_halts;
#[cfg(test)]
mod test_rows;
#[cfg(test)]
mod test_store;
#[cfg(test)]
mod test_threads;
#[cfg(test)]
mod test_worker_threads;
