//! Tests of keys, acts, cells, the texts of faults, the core, schedules and watched writers: they stand in a crate of their
//! own, which proves no function of these libraries again.
#![tactic(auto)]

#[cfg(test)]
mod fake_writers;
#[cfg(test)]
mod test_acts;
#[cfg(test)]
mod test_cells;
#[cfg(test)]
mod test_core;
#[cfg(test)]
mod test_faults;
#[cfg(test)]
mod test_keys;
#[cfg(test)]
mod test_places;
#[cfg(test)]
mod test_schedules;
#[cfg(test)]
mod test_texts;
#[cfg(test)]
mod test_writers;
pub mod texts;
