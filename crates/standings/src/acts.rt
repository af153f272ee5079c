//! Whether acts are the same.
ghost use Rattle.std.specs.Prelude.{◌≡◌, true};

use crate::replies::same_bytes;
use seqpool::{Act, Bytes};

/// Whether two answers of a get are the same.
fn same_found(content: &Option<Bytes>, other: &Option<Bytes>) -> bool
    ensures { result ≡ true → content.now ≡ other.now }
{
    match (content, other) {
        (Some(content), Some(other)) => same_bytes(content, other),
        (None, None) => true,
        _ => false,
    }
}

/// Whether two acts are the same.
fn same_act(act: &Act, other: &Act) -> bool
    ensures { result ≡ true → act.now ≡ other.now }
{
    match act {
        Act::Publish {
            lane,
            key,
            content,
            with_ref,
        } => match other {
            Act::Publish {
                lane: lane_too,
                key: key_too,
                content: content_too,
                with_ref: with_too,
            } => {
                lane == lane_too
                    && key == key_too
                    && with_ref == with_too
                    && same_bytes(content, content_too)
            }
            _ => false,
        },
        Act::Get { lane, key, reply } => match other {
            Act::Get {
                lane: lane_too,
                key: key_too,
                reply: reply_too,
            } => lane == lane_too && key == key_too && same_found(reply, reply_too),
            _ => false,
        },
        Act::Release { lane, key } => match other {
            Act::Release {
                lane: lane_too,
                key: key_too,
            } => lane == lane_too && key == key_too,
            _ => false,
        },
        Act::Clear { lane, key, reply } => match other {
            Act::Clear {
                lane: lane_too,
                key: key_too,
                reply: reply_too,
            } => lane == lane_too && key == key_too && reply == reply_too,
            _ => false,
        },
        Act::Reclaim { lane, key } => match other {
            Act::Reclaim {
                lane: lane_too,
                key: key_too,
            } => lane == lane_too && key == key_too,
            _ => false,
        },
        Act::Home { lane, place } => match other {
            Act::Home {
                lane: lane_too,
                place: place_too,
            } => lane == lane_too && place == place_too,
            _ => false,
        },
        Act::Collect { lane, places } => match other {
            Act::Collect {
                lane: lane_too,
                places: places_too,
            } => lane == lane_too && places.as_slice() == places_too.as_slice(),
            _ => false,
        },
    }
}

/// Whether two turns' acts are the same.
pub(crate) fn same_acts(act: &Option<Act>, other: &Option<Act>) -> bool
    ensures { result ≡ true → act.now ≡ other.now }
{
    match (act, other) {
        (Some(act), Some(other)) => same_act(act, other),
        (None, None) => true,
        _ => false,
    }
}
