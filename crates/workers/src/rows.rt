//! Rows of jobs, and of what came of them.
ghost use Rattle.std.specs.Prelude.{◌≡◌, map, length, IfOk};

use crate::jobs::{Done, Job, Report};
use shardpool::Lane;
use slotcell::ByteBuf;
use std::alloc::{AllocError, Global};
use traces::Script;

/// The jobs to run each script on the lane that stands in its place.
pub fn jobs_of(
    alloc: Global,
    lanes: Vec<Lane<ByteBuf>>,
    scripts: Vec<Script>,
) -> Result<Vec<Job>, AllocError>
    requires count { length scripts.items ≡ length lanes.items }
    ensures lanes { IfOk result (λ jobs. map (λ job. job.lane) jobs.items ≡ lanes.items) }
    ensures scripts { IfOk result (λ jobs. map (λ job. job.script) jobs.items ≡ scripts.items) }
{
    let Ok(mut jobs) = Vec::with_capacity(alloc, lanes.len()) else {
        return Err(AllocError);
    };
    let mut scripts = scripts.into_iter();
    for lane in lanes {
        let Some(script) = scripts.next() else {
            unreachable!()
        };
        jobs.push_reserved(Job { lane, script });
    }
    Ok(jobs)
}

/// The lanes of what came of jobs, and the reports, each in its place.
pub fn parts_of(
    alloc: Global,
    dones: Vec<Done>,
) -> Result<(Vec<Lane<ByteBuf>>, Vec<Result<Report, AllocError>>), AllocError>
    ensures lanes { IfOk result (λ parts. parts.0.items ≡ map (λ done. done.lane) dones.items) }
    ensures reports { IfOk result (λ parts. parts.1.items ≡ map (λ done. done.report) dones.items) }
{
    let Ok(mut lanes) = Vec::with_capacity(alloc, dones.len()) else {
        return Err(AllocError);
    };
    let Ok(mut reports) = Vec::with_capacity(alloc, dones.len()) else {
        return Err(AllocError);
    };
    for done in dones {
        let Done { lane, report } = done;
        lanes.push_reserved(lane);
        reports.push_reserved(report);
    }
    Ok((lanes, reports))
}
