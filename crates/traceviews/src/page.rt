//! A text that grows, of which a refusal of memory is told at the end.

ghost use Rattle.std.specs.Prelude.{◌≡◌, ◌++◌, ◌||◌, [], false, IfOk, codes, decimal, is_err};
ghost use Rattle.seqpool.specs.ActsText.{hex};
ghost use Rattle.traces.specs.Text.{reply_line};
ghost use Rattle.traceviews.specs.Decoded.{aim_text, counts_text, life_text, link_text, place_text, value_text};

use crate::decoded::{state_name, state_of};
use itoa::Buffer;
use keybits::{Life, Word};
use seqpool::{cut, hex_pair};
use std::alloc::{AllocError, Global};
use traces::{Reply, write_reply_line};

/// A text that grows. Where memory was refused once, it isn't whole any more, and `finish` answers so.
#[derive(Drop)]
pub(crate) struct Page {
    bytes: Vec<u8>,
    refused: bool,
}

impl Page {
    /// An empty text.
    pub(crate) fn new(alloc: Global) -> Page
        ensures { (result.refused ≡ false) × (result.bytes.items ≡ []) }
    {
        Page {
            bytes: Vec::new(alloc),
            refused: false,
        }
    }

    /// Remembers whether memory was refused.
    pub(crate) fn note(&mut self, done: Result<(), AllocError>)
        ensures refused { self.new.refused ≡ (self.old.refused || is_err done) }
        ensures bytes { self.new.bytes ≡ self.old.bytes }
    {
        if done.is_err() {
            self.refused = true;
        }
    }

    /// Appends bytes.
    pub(crate) fn bytes(&mut self, bytes: &[u8])
        ensures { self.new.refused ≡ false → (self.old.refused ≡ false) × (self.new.bytes.items ≡ self.old.bytes.items ++ bytes.now) }
    {
        let done = self.bytes.extend_from_slice(bytes);
        self.note(done);
    }

    /// Appends a text.
    pub(crate) fn text(&mut self, text: &str)
        ensures { self.new.refused ≡ false → (self.old.refused ≡ false) × (self.new.bytes.items ≡ self.old.bytes.items ++ text.now) }
    {
        self.bytes(text.as_bytes());
    }

    /// Appends a number, as decimal digits.
    pub(crate) fn number(&mut self, number: u64)
        ensures { self.new.refused ≡ false → (self.old.refused ≡ false) × (self.new.bytes.items ≡ self.old.bytes.items ++ decimal number) }
    {
        self.text(Buffer::new().format(number));
    }

    /// Appends a text and a number behind it.
    pub(crate) fn named(&mut self, text: &str, number: u64)
        ensures { self.new.refused ≡ false → (self.old.refused ≡ false)
            × (self.new.bytes.items ≡ self.old.bytes.items ++ (text.now ++ decimal number)) }
    {
        self.text(text);
        self.number(number);
    }

    /// Appends a text with these numbers in the places of its `%`.
    pub(crate) fn fill(&mut self, text: &str, numbers: &[u64]) {
        let mut rest = text.as_bytes();
        for number in numbers {
            if let Some((part, after)) = cut(rest, b'%') {
                self.bytes(part);
                self.number(*number);
                rest = after;
            }
        }
        self.bytes(rest);
    }

    /// Appends three numbers with slashes between them.
    fn triple(&mut self, shard: u32, page: u32, slot: u32)
        ensures { self.new.refused ≡ false → (self.old.refused ≡ false) × (self.new.bytes.items
            ≡ self.old.bytes.items ++ (decimal shard ++ codes "/" ++ decimal page ++ codes "/" ++ decimal slot)) }
    {
        self.number(u64::from(shard));
        self.named("/", u64::from(page));
        self.named("/", u64::from(slot));
    }

    /// Appends a place, as its shard, page and slot with slashes between them.
    pub(crate) fn place(&mut self, place: u32)
        ensures { self.new.refused ≡ false → (self.old.refused ≡ false)
            × (self.new.bytes.items ≡ self.old.bytes.items ++ place_text place) }
    {
        self.triple(place >> 16, place >> 12 & 0xf, place & 0xfff);
    }

    /// Appends a count and a generation.
    fn counts(&mut self, count: u32, generation: u32)
        ensures { self.new.refused ≡ false → (self.old.refused ≡ false)
            × (self.new.bytes.items ≡ self.old.bytes.items ++ counts_text count generation) }
    {
        self.named(" count ", u64::from(count));
        self.named(" generation ", u64::from(generation));
    }

    /// Appends what a lifecycle word says.
    pub(crate) fn life(&mut self, word: u64)
        ensures { self.new.refused ≡ false → (self.old.refused ≡ false) × (self.new.bytes.items ≡ self.old.bytes.items ++ life_text word) }
    {
        let life = Life::of_word(word);
        self.text(state_name(state_of(word)));
        self.counts(life.count, life.generation);
    }

    /// Appends the place of a shard that a link or stack word stands for.
    pub(crate) fn link(&mut self, shard: u32, word: u64)
        ensures { self.new.refused ≡ false → (self.old.refused ≡ false)
            × (self.new.bytes.items ≡ self.old.bytes.items ++ link_text shard word) }
    {
        if word == 0 {
            return self.text("end");
        }
        if word > 65_536 {
            return self.number(word);
        }
        let low = (word - 1) as u32;
        self.triple(shard, low >> 12 & 0xf, low & 0xfff);
    }

    /// Appends what a value of a word says.
    pub(crate) fn value(&mut self, word: Word, value: u64)
        ensures { self.new.refused ≡ false → (self.old.refused ≡ false)
            × (self.new.bytes.items ≡ self.old.bytes.items ++ value_text word value) }
    {
        match word {
            Word::Life { .. } => self.life(value),
            Word::Link { place } => self.link(place >> 16, value),
            Word::Stack { shard, .. } => self.link(shard, value),
        }
    }

    /// Appends which word it is: a place, or the shard and the returning lane of a stack.
    pub(crate) fn aim(&mut self, word: Word)
        ensures { self.new.refused ≡ false → (self.old.refused ≡ false) × (self.new.bytes.items ≡ self.old.bytes.items ++ aim_text word) }
    {
        match word {
            Word::Life { place } | Word::Link { place } => self.place(place),
            Word::Stack { shard, lane } => {
                self.number(u64::from(shard));
                self.named(".", u64::from(lane));
            }
        }
    }

    /// Appends the line of a reply, as the trace has it.
    pub(crate) fn reply_line(&mut self, lane: u32, reply: &Reply)
        ensures { self.new.refused ≡ false → (self.old.refused ≡ false)
            × (self.new.bytes.items ≡ self.old.bytes.items ++ reply_line lane reply.now) }
    {
        let done = write_reply_line(lane, reply, &mut self.bytes);
        self.note(done);
    }

    /// Appends bytes as pairs of hexadecimal digits.
    pub(crate) fn hex(&mut self, bytes: &[u8])
        ensures { self.new.refused ≡ false → (self.old.refused ≡ false) × (self.new.bytes.items ≡ self.old.bytes.items ++ hex bytes.now) }
    {
        for byte in bytes {
            self.bytes(&hex_pair(*byte));
        }
    }

    /// Appends another text.
    pub(crate) fn page(&mut self, other: &Page)
        ensures { self.new.refused ≡ false → (self.old.refused ≡ false)
            × (self.new.bytes.items ≡ self.old.bytes.items ++ other.now.bytes.items) }
    {
        if other.refused {
            self.refused = true;
        }
        self.bytes(other.bytes.as_slice());
    }

    /// The text.
    ///
    /// # Errors
    ///
    /// `AllocError` where memory was refused for a part of it.
    pub(crate) fn finish(self) -> Result<Vec<u8>, AllocError>
        ensures { IfOk result (λ text. (self.refused ≡ false) × (text ≡ self.bytes)) }
    {
        let Page { bytes, refused } = self;
        if refused {
            return Err(AllocError);
        }
        Ok(bytes)
    }
}
