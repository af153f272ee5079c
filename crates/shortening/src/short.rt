//! What is left of a schedule, and of scripts.

use traces::Script;

/// What is left of a schedule when entries are left out.
#[derive(Drop)]
pub struct Short {
    /// The entries that are left.
    pub schedule: Vec<u32>,
    /// Whether none of them can go; false where so many schedules were tried as may be, and it isn't known.
    pub least: bool,
}

/// What is left of scripts and of a schedule when commands and entries are left out.
#[derive(Drop)]
pub struct ShortPlan {
    /// The scripts with the commands that are left.
    pub scripts: Vec<Script>,
    /// The entries that are left.
    pub schedule: Vec<u32>,
    /// Whether all was tried; false where so many replays were made as may be.
    pub least: bool,
}
