//! Why an act isn't allowed: what of it is outside of the shape, or what would have been allowed in its place.
ghost use Rattle.std.specs.Prelude.{◌≡◌, ◌≢◌, ◌<◌, ◌≤◌, ℕ, true, false, Some, None, IfOk, IfSome, IsNone, option_map, string_bytes};
ghost use Rattle.keybits.specs.Keys.{place_of, tag_of};
ghost use Rattle.keybits.specs.Places.{shard_of};
ghost use Rattle.keybits.specs.Shapes.{IsNarrow, is_place};
ghost use Rattle.seqpool.specs.Pool.{Allowed, IsLegal, pool_after};
ghost use Rattle.seqpool.specs.declared.act.Act.TheVariants.{Get, Release};
ghost use Rattle.seqpool.specs.declared.fault.ApplyFault.TheVariants.{Memory};
ghost use Rattle.seqpool.specs.Rows.{pool_in};
ghost use Rattle.seqpool.specs.ActsText.{hex};
ghost use Rattle.explanations.specs.declared.reasons.Due.TheVariants.{Found};
ghost use Rattle.explanations.specs.Reasons.{IsKeyOutside, IsPlaceOutside, IsCollectOutside, IsOutside, AreInside, IsInside, is_reclaim_of, reclaims_of, next_key, with_content, last_content, IsRefused, IsDueIf, IsPublishDue, IsGetDue, IsClearDue, IsReclaimDue, IsDue, outside_text, general_text, found_text, due_text, TellsReason};

use crate::found::cut_of;
use keybits::{GREATEST_PLACE, Key, Place, Shape, place_of, shard_of, tag_of};
use seqpool::{Act, ApplyFault, Bytes, SeqPool, hex_pair};
use std::alloc::{AllocError, Global};

/// What of an act is outside of the shape.
#[derive(Clone, Copy)]
pub enum Outside {
    /// Its lane is none of the shape's, which are so many.
    NoLane(u32),
    /// Its key has another tag than the shape's, which is this.
    OtherPool(u32),
    /// Its place is none of the shape's.
    NoPlace,
    /// It returns a place of its lane's own shard.
    OwnShard,
    /// It collects this place, which is none of the shape's.
    CollectsNoPlace(u32),
    /// It collects this place, which isn't of its lane's shard.
    OtherShard(u32),
    /// It collects this place twice.
    Twice(u32),
}

/// What would have been allowed in place of an act.
#[derive(Drop)]
pub enum Due {
    /// A publish of this key.
    NextKey(u64),
    /// A get that finds this content.
    Found(Bytes),
    /// A get that finds none.
    Missing,
    /// A clear with this reply.
    Cleared(bool),
    /// A release of the key by this lane, which comes before its reclaim.
    HeldBy(u32),
    /// A clear of the key, which comes before its reclaim.
    Unmarked,
    /// No more is known.
    General,
}

/// What is outside of the shape of a key.
fn key_outside(shape: &Shape, key: u64) -> Option<Outside>
    ensures some { IfSome result (IsKeyOutside shape.now key) }
    ensures none { IsNone result → (tag_of key ≡ shape.now.tag) × (is_place shape.now (place_of key) ≡ true) }
{
    if u32::from(tag_of(key)) != shape.tag {
        return Some(Outside::OtherPool(shape.tag));
    }
    if !shape.is_place(place_of(key)) {
        return Some(Outside::NoPlace);
    }
    None
}

/// What is outside of the shape of a place that a lane returns.
fn place_outside(shape: &Shape, lane: u32, place: u32) -> Option<Outside>
    ensures some { IfSome result (IsPlaceOutside shape.now lane place) }
    ensures none { IsNone result → (is_place shape.now place ≡ true) × (shard_of place ≢ lane) }
{
    if !shape.is_place(place) {
        return Some(Outside::NoPlace);
    }
    if shard_of(place) == lane {
        return Some(Outside::OwnShard);
    }
    None
}

/// What is outside of the shape of places that a lane collects, at the first of them where something is.
fn collect_outside(shape: &Shape, lane: u32, places: &[u32]) -> Option<Outside>
    ensures some { IfSome result (IsCollectOutside shape.now lane places.now) }
    ensures none { IsNone result → AreInside shape.now lane places.now }
{
    for (index, place) in places.iter().enumerate() {
        if !shape.is_place(*place) {
            return Some(Outside::CollectsNoPlace(*place));
        }
        if shard_of(*place) != lane {
            return Some(Outside::OtherShard(*place));
        }
        if places[..index].contains(place) {
            return Some(Outside::Twice(*place));
        }
    }
    None
}

/// What of an act is outside of the shape.
fn outside_of(shape: &Shape, act: &Act) -> Option<Outside>
    ensures some { IfSome result (IsOutside shape.now act.now) }
    ensures none { IsNone result → IsInside shape.now act.now }
{
    if act.lane() >= shape.lanes {
        return Some(Outside::NoLane(shape.lanes));
    }
    match act {
        Act::Publish { key, .. } => key_outside(shape, *key),
        Act::Home { lane, place } => place_outside(shape, *lane, *place),
        Act::Collect { lane, places } => collect_outside(shape, *lane, places.as_slice()),
        _ => None,
    }
}

/// Whether the pool allows an act, which is then made.
fn allows(pool: &mut SeqPool, act: &Act) -> Result<bool, AllocError>
    ensures yes { IfOk result (λ yes. yes ≡ true → Allowed pool.old.shape (pool_in pool.old) act.now) }
    ensures no { IfOk result (λ yes. yes ≡ false → (pool.new ≡ pool.old) × IsRefused pool.old.shape (pool_in pool.old) act.now) }
{
    match pool.apply(act) {
        Ok(()) => Ok(true),
        Err(ApplyFault::Memory) => Err(AllocError),
        Err(_) => Ok(false),
    }
}

/// This, where the pool allows an act, which is then made.
fn due_if(pool: &mut SeqPool, act: Act, due: Due) -> Result<Due, AllocError>
    ensures { IfOk result (IsDueIf pool.old.shape (pool_in pool.old) act due) }
{
    if allows(pool, &act)? {
        return Ok(due);
    }
    Ok(Due::General)
}

/// Whether an act reclaims a key of a place.
fn is_reclaim_of(act: &Act, place: u32) -> bool
    ensures { result ≡ is_reclaim_of place act.now }
{
    match act {
        Act::Reclaim { key, .. } => place_of(*key) == place,
        _ => false,
    }
}

/// How many of some acts reclaim a key of a place.
fn reclaims_of(history: &[Act], place: u32) -> usize
    ensures { result ≡ reclaims_of history.now place }
{
    history
        .iter()
        .filter(|act| is_reclaim_of(act, place))
        .count()
}

/// The next key of a place, by the acts so far, with a tag. None where no key has room for its generation.
fn next_key(history: &[Act], tag: u8, place: u32) -> Option<u64>
    requires { place ≤ GREATEST_PLACE }
    ensures { result ≡ next_key history.now tag place }
{
    let reclaims = reclaims_of(history, place);
    if reclaims >= 4_294_967_295 {
        return None;
    }
    let key = Key::pack_tagged(tag, Place::of_number(place), reclaims as u32 + 1)?;
    Some(key.number())
}

/// What would have been allowed in place of a publish of a key.
fn publish_due(
    alloc: Global,
    history: &[Act],
    pool: &mut SeqPool,
    lane: u32,
    key: u64,
) -> Result<Due, AllocError>
    ensures { IfOk result (IsPublishDue pool.old.shape history.now (pool_in pool.old) lane key) }
{
    let Some(next) = next_key(history, tag_of(key), place_of(key)) else {
        return Ok(Due::General);
    };
    let act = Act::Publish {
        lane,
        key: next,
        content: Bytes::empty(alloc),
        with_ref: false,
    };
    due_if(pool, act, Due::NextKey(next))
}

/// The content that an act publishes under a key, or else what was found before.
fn with_content<'h>(key: u64, found: Option<&'h Bytes>, act: &'h Act) -> Option<&'h Bytes>
    ensures { option_map (λ content. content.now) result ≡ with_content key (option_map (λ content. content.now) found.entry) act.now }
{
    match act {
        Act::Publish {
            key: published,
            content,
            ..
        } if *published == key => Some(content),
        _ => found,
    }
}

/// The content of the last publish of a key.
fn last_content(history: &[Act], key: u64) -> Option<&Bytes>
    ensures { option_map (λ content. content.now) result ≡ last_content history.now key }
{
    let mut found = None;
    for act in history {
        found = with_content(key, found, act);
    }
    found
}

/// What would have been allowed in place of a get: one that finds this content.
fn found_due(
    alloc: Global,
    content: &Bytes,
    pool: &mut SeqPool,
    lane: u32,
    key: u64,
) -> Result<Due, AllocError>
    ensures { IfOk result (IsDueIf pool.old.shape (pool_in pool.old) (Get lane key (Some content.now)) (Found content.now)) }
{
    let reply = content.copy(alloc)?;
    let due = Due::Found(content.copy(alloc)?);
    let act = Act::Get {
        lane,
        key,
        reply: Some(reply),
    };
    due_if(pool, act, due)
}

/// What would have been allowed in place of a get.
fn get_due(
    alloc: Global,
    history: &[Act],
    pool: &mut SeqPool,
    lane: u32,
    key: u64,
) -> Result<Due, AllocError>
    ensures { IfOk result (IsGetDue pool.old.shape history.now (pool_in pool.old) lane key) }
{
    let act = Act::Get {
        lane,
        key,
        reply: None,
    };
    if allows(pool, &act)? {
        return Ok(Due::Missing);
    }
    match last_content(history, key) {
        Some(content) => found_due(alloc, content, pool, lane, key),
        None => Ok(Due::General),
    }
}

/// What would have been allowed in place of a clear with this reply.
fn clear_due(pool: &mut SeqPool, lane: u32, key: u64, reply: bool) -> Result<Due, AllocError>
    ensures { IfOk result (IsClearDue pool.old.shape (pool_in pool.old) lane key reply) }
{
    let reply = !reply;
    due_if(pool, Act::Clear { lane, key, reply }, Due::Cleared(reply))
}

/// The first lane that refers to a key, if one does.
fn holder_of(pool: &mut SeqPool, lanes: u32, key: u64) -> Result<Option<u32>, AllocError>
    ensures held { IfOk result (λ found. IfSome found (λ lane. Allowed pool.old.shape (pool_in pool.old) (Release lane key))) }
    ensures none { IfOk result (λ found. found ≡ None → (pool.new ≡ pool.old)
        × ((lane : ℕ) → lane < lanes → IsRefused pool.old.shape (pool_in pool.old) (Release lane key))) }
{
    for lane in 0..lanes {
        if allows(pool, &Act::Release { lane, key })? {
            return Ok(Some(lane));
        }
    }
    Ok(None)
}

/// What would have been allowed in place of a reclaim, or before it.
fn reclaim_due(pool: &mut SeqPool, lanes: u32, lane: u32, key: u64) -> Result<Due, AllocError>
    requires { lanes ≡ pool.old.shape.lanes }
    ensures { IfOk result (IsReclaimDue pool.old.shape (pool_in pool.old) lane key) }
{
    let act = Act::Clear {
        lane,
        key,
        reply: true,
    };
    if allows(pool, &act)? {
        return Ok(Due::Unmarked);
    }
    match holder_of(pool, lanes, key)? {
        Some(holder) => Ok(Due::HeldBy(holder)),
        None => Ok(Due::General),
    }
}

/// What would have been allowed in an act's place, behind these acts.
fn due_of(
    alloc: Global,
    lanes: u32,
    history: &[Act],
    pool: &mut SeqPool,
    act: &Act,
) -> Result<Due, AllocError>
    requires { lanes ≡ pool.old.shape.lanes }
    ensures { IfOk result (IsDue pool.old.shape history.now (pool_in pool.old) act.now) }
{
    match act {
        Act::Publish { lane, key, .. } => publish_due(alloc, history, pool, *lane, *key),
        Act::Get { lane, key, .. } => get_due(alloc, history, pool, *lane, *key),
        Act::Clear { lane, key, reply } => clear_due(pool, *lane, *key, *reply),
        Act::Reclaim { lane, key } => reclaim_due(pool, lanes, *lane, *key),
        _ => Ok(Due::General),
    }
}

/// What is outside of the shape, in words.
fn outside_told(alloc: Global, outside: Outside) -> Result<String, AllocError>
    ensures { IfOk result (λ text. string_bytes text ≡ outside_text outside) }
{
    match outside {
        Outside::NoLane(lanes) => {
            format!(in alloc; "the lane is none of the shape's, which are {lanes}")
        }
        Outside::OtherPool(tag) => {
            format!(in alloc; "the key is of another pool: the shape's tag is {tag}")
        }
        Outside::NoPlace => String::from_str(alloc, "the place is none of the shape's"),
        Outside::OwnShard => String::from_str(alloc, "the place is of the lane's own shard"),
        Outside::CollectsNoPlace(place) => {
            format!(in alloc; "place {place} is none of the shape's")
        }
        Outside::OtherShard(place) => {
            format!(in alloc; "place {place} isn't of the lane's shard")
        }
        Outside::Twice(place) => format!(in alloc; "place {place} stands twice"),
    }
}

/// Why an act is refused, if no more is known.
fn general_text(fault: ApplyFault) -> &'static str
    ensures { result.now ≡ general_text fault }
{
    match fault {
        ApplyFault::NotWithLane => "the place isn't with the lane",
        ApplyFault::WrongGeneration => "the key isn't the next of its place",
        ApplyFault::WrongReply => "the reply isn't the pool's",
        ApplyFault::NotHeld => "the lane has no reference to the key",
        ApplyFault::StillHeld => "a lane still refers to the key",
        ApplyFault::NotMarked => "the key isn't published",
        ApplyFault::NotHome => "a place that is collected isn't returned",
        ApplyFault::Memory => "memory was refused",
    }
}

/// Some bytes as pairs of hexadecimal digits.
fn hex_of(alloc: Global, bytes: &[u8]) -> Result<Vec<u8>, AllocError>
    ensures { IfOk result (λ text. text.items ≡ hex bytes.now) }
{
    let mut text = Vec::new(alloc);
    for byte in bytes {
        text.extend_from_slice(&hex_pair(*byte))?;
    }
    Ok(text)
}

/// That a get finds this content.
fn found_told(alloc: Global, content: &[u8]) -> Result<String, AllocError>
    ensures { IfOk result (λ text. string_bytes text ≡ found_text content.now) }
{
    if content.is_empty() {
        return String::from_str(alloc, "the pool's reply is some -");
    }
    let bytes = hex_of(alloc, content)?;
    let shown = cut_of(alloc, bytes.as_slice())?;
    format!(in alloc; "the pool's reply is some {shown}")
}

/// What would have been allowed, in words.
fn due_told(alloc: Global, fault: ApplyFault, due: &Due) -> Result<String, AllocError>
    ensures { IfOk result (λ text. string_bytes text ≡ due_text fault due.now) }
{
    match due {
        Due::NextKey(next) => format!(in alloc; "the next key of the place is {next}"),
        Due::Found(content) => found_told(alloc, content.as_slice()),
        Due::Missing => String::from_str(alloc, "the pool's reply is none"),
        Due::Cleared(true) => String::from_str(alloc, "the pool's reply is true"),
        Due::Cleared(false) => String::from_str(alloc, "the pool's reply is false"),
        Due::HeldBy(lane) => format!(in alloc; "lane {lane} still refers to the key"),
        Due::Unmarked => String::from_str(alloc, "the key isn't cleared"),
        Due::General => String::from_str(alloc, general_text(fault)),
    }
}

/// The want of memory, for which alone an act of a legal history is refused.
fn memory_of(fault: ApplyFault) -> AllocError
    requires { fault ≡ Memory }
{
    let _ = fault;
    AllocError
}

/// The pool behind some acts that are legal. The error is want of memory.
fn pool_behind(alloc: Global, shape: Shape, acts: &[Act]) -> Result<SeqPool, AllocError>
    requires narrow { IsNarrow shape }
    requires legal { IsLegal shape acts.now }
    ensures shape { IfOk result (λ pool. pool.shape ≡ shape) }
    ensures pool { IfOk result (λ pool. pool_in pool ≡ pool_after shape acts.now) }
{
    let Ok(mut pool) = SeqPool::new(alloc, shape) else {
        return Err(AllocError);
    };
    for act in acts {
        if let Err(fault) = pool.apply(act) {
            return Err(memory_of(fault));
        }
    }
    Ok(pool)
}

/// What would have been allowed in place of an act behind these acts, in words.
fn due_behind(
    alloc: Global,
    shape: Shape,
    history: &[Act],
    act: &Act,
    fault: ApplyFault,
) -> Result<String, AllocError>
    requires narrow { IsNarrow shape }
    requires legal { IsLegal shape history.now }
    requires inside { IsInside shape act.now }
    ensures { IfOk result (λ text. TellsReason shape history.now act.now fault (string_bytes text)) }
{
    let mut pool = pool_behind(alloc, shape, history)?;
    let due = due_of(alloc, shape.lanes, history, &mut pool, act)?;
    due_told(alloc, fault, &due)
}

/// Why an act isn't allowed behind these acts, by its fault, in words: what is outside of the shape, or what would have
/// been allowed. The error is want of memory.
pub(crate) fn reason_told(
    alloc: Global,
    shape: Shape,
    history: &[Act],
    act: &Act,
    fault: ApplyFault,
) -> Result<String, AllocError>
    requires narrow { IsNarrow shape }
    requires legal { IsLegal shape history.now }
    ensures { IfOk result (λ text. TellsReason shape history.now act.now fault (string_bytes text)) }
{
    match outside_of(&shape, act) {
        Some(outside) => outside_told(alloc, outside),
        None => due_behind(alloc, shape, history, act, fault),
    }
}
