//! What workers are given, and what they answer.
use shardpool::Lane;
use slotcell::ByteBuf;
use std::alloc::AllocError;
use traces::{Reply, Script};

/// A script to be run on a lane.
#[derive(Drop)]
pub struct Job {
    pub lane: Lane<ByteBuf>,
    pub script: Script,
}

/// What a script replied, line by line.
#[derive(Drop, Debug)]
pub struct Report {
    /// A reply for each line that was run, in order.
    pub replies: Vec<Reply>,
    /// The line before which the worker was stopped by its gate, counted from 0; a line from 4294967295 on counts as
    /// that. None where all lines were run.
    pub stopped_at: Option<u32>,
}

/// What came of a job: its lane, and the report. Where the row of replies was refused there is none, and no line was
/// run.
#[derive(Drop)]
pub struct Done {
    pub lane: Lane<ByteBuf>,
    pub report: Result<Report, AllocError>,
}
