//! Whether the places have the same contents behind two traces.
ghost use Rattle.std.specs.Prelude.{◌≡◌, true, None, option_copied};
ghost use Rattle.standings.specs.Behind.{content_after, content_behind, ShareAt, Share};

use crate::replies::same_bytes;
use keybits::place_of;
use seqpool::{Act, Bytes};
use traces::Turn;

/// What was published last at a place, behind an act.
fn latest_past<'a>(place: u32, act: &'a Option<Act>, latest: Option<&'a Bytes>) -> Option<&'a Bytes>
    ensures { option_copied result ≡ content_after place act.now (option_copied latest.entry) }
{
    match act {
        Some(Act::Publish { key, content, .. }) => {
            if place == place_of(*key) {
                Some(content)
            } else {
                latest
            }
        }
        _ => latest,
    }
}

/// What was published last at a place, behind these turns.
fn latest_content(turns: &[Turn], place: u32) -> Option<&Bytes>
    ensures { option_copied result ≡ content_behind place None turns.now }
{
    let mut rest = turns;
    let mut latest = None;
    while let Some((turn, more)) = rest.split_first() {
        latest = latest_past(place, &turn.act, latest);
        rest = more;
    }
    latest
}

/// Whether what was published last is the same.
fn same_latest(content: Option<&Bytes>, other: Option<&Bytes>) -> bool
    ensures { result ≡ true → option_copied content.entry ≡ option_copied other.entry }
{
    match (content, other) {
        (Some(content), Some(other)) => same_bytes(content, other),
        (None, None) => true,
        _ => false,
    }
}

/// Whether the place of a publish has the same content behind both.
fn share_at(act: &Option<Act>, turns: &[Turn], others: &[Turn]) -> bool
    ensures { result ≡ true → ShareAt turns.now others.now act.now }
{
    match act {
        Some(Act::Publish { key, .. }) => {
            let place = place_of(*key);
            same_latest(latest_content(turns, place), latest_content(others, place))
        }
        _ => true,
    }
}

/// Whether each place that was published has the same content behind both.
pub(crate) fn same_contents(turns: &[Turn], others: &[Turn]) -> bool
    ensures { result ≡ true → Share turns.now others.now turns.now }
{
    let mut rest = turns;
    while let Some((turn, more)) = rest.split_first() {
        if !share_at(&turn.act, turns, others) {
            return false;
        }
        rest = more;
    }
    true
}
