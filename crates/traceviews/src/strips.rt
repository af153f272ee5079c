//! What each place is beside the turns: its state and its count.

use crate::decoded::state_name;
use crate::numbers::position_of;
use crate::page::Page;
use crate::shapes::{Area, END, push_rect};
use keybits::{Life, State};
use std::alloc::{AllocError, Global};

/// How far strips are from each other.
pub(crate) const STRIP: u64 = 34;

/// How high a part of a strip is at least, for the place's name to stand in it.
const NAMED: u64 = 104;

/// What a place is, and since which height.
#[derive(Clone, Copy)]
pub(crate) struct Strip {
    pub(crate) place: u32,
    word: u64,
    since: u64,
}

/// The strips of some places, which are sorted.
#[derive(Drop)]
pub(crate) struct Strips {
    places: Vec<u32>,
    strips: Vec<Strip>,
    left: u64,
    top: u64,
}

/// Appends a part of the strip of a place: its colour is the state, and in it stand the state's first letter and the
/// count. Its title says what the place is.
fn push_part(strip: &Strip, x: u64, end: u64, out: &mut Page) {
    let life = Life::of_word(strip.word);
    let area = Area {
        x,
        y: strip.since,
        width: STRIP - 6,
        height: end.saturating_sub(strip.since),
    };
    out.text("<g><title>");
    out.place(strip.place);
    out.text(" ");
    out.life(strip.word);
    out.text("</title>");
    push_rect(state_name(life.state), &area, out);
    out.fill(
        "<path class=\"cut\" d=\"M% %h%\"/>\n",
        &[area.x, area.y, area.width],
    );
    if area.height >= 14 {
        push_letter(&area, &life, out);
    }
    if area.height >= NAMED {
        push_name_along(strip.place, &area, out);
    }
    out.text("</g>\n");
}

/// Appends the first letter of a state and the count.
fn push_letter(area: &Area, life: &Life, out: &mut Page) {
    out.fill(
        "<text class=\"in\" x=\"%\" y=\"%\">",
        &[
            area.x.saturating_add(STRIP / 2 - 3),
            area.y.saturating_add(14),
        ],
    );
    out.named(first_letter(life.state), u64::from(life.count));
    out.text(END);
}

/// Appends the name of a place, along its strip.
fn push_name_along(place: u32, area: &Area, out: &mut Page) {
    out.fill(
        "<text class=\"along\" transform=\"translate(% %) rotate(90)\">",
        &[
            area.x.saturating_add(STRIP / 2 - 7),
            area.y.saturating_add(26),
        ],
    );
    out.place(place);
    out.text(END);
}

/// The first letter of a state's name.
fn first_letter(state: State) -> &'static str {
    match state {
        State::Idle => "I",
        State::Present => "P",
        State::Marked => "M",
        State::Retired => "R",
    }
}

impl Strips {
    /// The strips of these places, which are sorted, before anything is known of them.
    pub(crate) fn new(
        alloc: Global,
        places: Vec<u32>,
        left: u64,
        top: u64,
    ) -> Result<Strips, AllocError> {
        let mut strips = Vec::new(alloc);
        for place in &places {
            strips.push(Strip {
                place: *place,
                word: 0,
                since: top,
            })?;
        }
        Ok(Strips {
            places,
            strips,
            left,
            top,
        })
    }

    /// Where the strip at this index is.
    pub(crate) fn left_of(&self, index: usize) -> u64 {
        STRIP.saturating_mul(index as u64).saturating_add(self.left)
    }

    /// The strips.
    pub(crate) fn strips(&self) -> &[Strip] {
        self.strips.as_slice()
    }

    /// The index of a place, or where it would stand.
    fn index_of(&self, place: u32) -> usize {
        position_of(self.places.as_slice(), place)
    }

    /// A place has this word from the top on.
    pub(crate) fn begin(&mut self, place: u32, word: u64) {
        let index = self.index_of(place);
        if index < self.strips.len() {
            self.strips[index] = Strip {
                place,
                word,
                since: self.top,
            };
        }
    }

    /// A place has this word from this height on: the part of its strip above is appended, where the word changes.
    pub(crate) fn change(&mut self, place: u32, word: u64, since: u64, out: &mut Page) {
        let index = self.index_of(place);
        if index < self.strips.len() {
            let strip = self.strips[index];
            if strip.word != word {
                push_part(&strip, self.left_of(index), since, out);
                self.strips[index] = Strip { place, word, since };
            }
        }
    }

    /// Appends what is left of each strip down to this height.
    pub(crate) fn end(&self, end: u64, out: &mut Page) {
        for (index, strip) in self.strips.iter().enumerate() {
            push_part(strip, self.left_of(index), end, out);
        }
    }
}
