//! What a seat of the table knows. No value of these types is made: contracts alone speak of them.

use seqpool::Act;
use std::collections::LinkedList;
use steplaws::Pending;

/// What a lane did that tells how it left slots.
pub enum Deed {
    /// It left one slot so.
    Left {
        /// The slot's place.
        place: u32,
        /// The number of the slot's lane.
        number: u32,
        /// How it left the slot.
        status: Status,
    },
    /// It returned this place.
    Returned(u32),
    /// It collected these places.
    Collected(LinkedList<u32>),
}

/// The record of a lane, but for its list and its fillings, which change between calls of the table too.
pub struct LaneRecord {
    /// The lane's number.
    pub lane: u32,
    /// Its acts.
    pub mine: LinkedList<Act>,
    /// What it has under way.
    pub under: Pending,
    /// The words that it pushed, each with its shard, the last one first.
    pub pushed: LinkedList<(u32, u64)>,
    /// The places of its taken chain that are still to be followed.
    pub chain: LinkedList<u32>,
    /// What it did with slots, the last deed first.
    pub deeds: LinkedList<Deed>,
    /// The cells of places, as it knows them, what it learned last first.
    pub cells: LinkedList<(u32, Stored)>,
}

/// A history that a seat was told of, with the rooms beside it.
pub struct Heard {
    /// The history.
    pub seen: LinkedList<Act>,
    /// A number beside each act of it, as in a view.
    pub rooms: LinkedList<u64>,
}

/// The view of a seat: that of a hand has the record of one lane.
pub struct View {
    /// The records of the seat's lanes.
    pub lanes: LinkedList<LaneRecord>,
    /// The history that was seen.
    pub seen: LinkedList<Act>,
    /// A number beside each act of it: beside a publish the room of its object, and 0 beside any other.
    pub rooms: LinkedList<u64>,
    /// Histories of which the seat was told, and which it didn't take in yet.
    pub told: LinkedList<Heard>,
    /// The number of steps that were made by the seat.
    pub steps: u64,
    /// The number of looks that were made by the seat.
    pub looks: u64,
}

/// What is known of the cell at a place.
pub struct Stored {
    /// Which cell it is.
    pub cell: u64,
    /// The content of its object.
    pub content: LinkedList<u64>,
    /// The room of its object.
    pub room: u64,
}

/// How a lane left a slot.
pub enum Status {
    /// It left the slot alone: the slot is as its place stands.
    Untouched,
    /// It emptied the slot.
    Emptied,
    /// It has the slot in its hands.
    InHand,
    /// It put the only share of a cell there.
    Whole,
}
