//! Schedules and stops as text.
ghost use Rattle.std.specs.Prelude.{◌≡◌, IfOk, option_map};
ghost use Rattle.schedules.specs.Schedules.{entry_of, bad_entry, schedule_of, stop_of};

use crate::cut::cut;
use crate::number::read_number;
use std::alloc::{AllocError, Global};

/// The number of one to three digits, at most 255.
fn read_entry(text: &[u8]) -> Option<u32>
    ensures { result ≡ entry_of text.now }
{
    let entry = read_number(text, 3, 255)?;
    Some(entry as u32)
}

/// The schedule that a text stands for: one or more decimal numbers of one to three digits, at most
/// 255, with single commas between. None for any other text.
pub fn read_schedule(alloc: Global, text: &[u8]) -> Result<Option<Vec<u32>>, AllocError>
    ensures { IfOk result
        (λ schedule. option_map (λ v. v.items) schedule ≡ schedule_of text.now) }
{
    let mut entries = Vec::new(alloc);
    let mut rest = text;
    while let Some((front, after)) = cut(rest, b',') {
        let Some(entry) = read_entry(front) else {
            return Ok(None);
        };
        entries.push(entry)?;
        rest = after;
    }
    let Some(entry) = read_entry(rest) else {
        return Ok(None);
    };
    entries.push(entry)?;
    Ok(Some(entries))
}

/// The first part of a text, between commas, that is no entry of a schedule, and how many parts stand before it; none
/// where all are entries.
pub fn bad_entry(text: &[u8]) -> Option<(usize, &[u8])>
    ensures { option_map (λ bad. (bad.0, bad.1.now)) result ≡ bad_entry text.now }
{
    let mut before = 0;
    let mut rest = text;
    while let Some((front, after)) = cut(rest, b',') {
        if read_entry(front).is_none() {
            return Some((before, front));
        }
        before += 1;
        rest = after;
    }
    if read_entry(rest).is_none() {
        return Some((before, rest));
    }
    None
}

/// The stop that a text stands for: the number of a lane, a colon, and how many of the lane's entries
/// count; each of one to twenty decimal digits, at most 4294967295. None for any other text.
pub fn read_stop(text: &[u8]) -> Option<(u32, u32)>
    ensures { result ≡ stop_of text.now }
{
    let (lane, after) = cut(text, b':')?;
    let lane = read_number(lane, 20, 4_294_967_295)?;
    if cut(after, b':').is_some() {
        return None;
    }
    let after = read_number(after, 20, 4_294_967_295)?;
    Some((lane as u32, after as u32))
}
