//! Lifecycle words, and what each step makes of one.
ghost use Rattle.std.specs.Prelude.{◌≡◌, ◌==◌, ℕ, ◌+◌, ◌<◌, ◌≤◌, ◌⊎◌, IsTrue, if◌then◌else◌};
ghost use Rattle.keybits.specs.Words.{state_in, count_in, generation_in, claimable, is_hit, owes_claim};
ghost use Rattle.keybits.specs.Steps.{Changes};
ghost use Rattle.keybits.specs.declared.step.Kind.TheVariants.{Enter, Leave, Publish, Mark, Claim};

use crate::place::generation_of;

/// What a publish adds to an idle lifecycle word, which is then present.
pub const PUBLISHED_BIT: u64 = 1;

/// The bit that a mark sets in a present lifecycle word, which is then marked.
pub const MARK_BIT: u64 = 2;

/// What a reference adds to a lifecycle word, whose count has the bits 2 to 31.
pub const ONE_COUNT: u64 = 1 << 2;

/// What a generation adds to a lifecycle word, which has it in the bits 32 to 63.
pub const ONE_GENERATION: u64 = 1 << 32;

/// Whether a place's object can be got.
#[derive(Clone, Copy, Debug, PartialEq, Eq)]
pub enum State {
    /// Its place has no published object.
    Idle,
    /// It is published and can be got.
    Present,
    /// Its place has used up its generations, and no object is published there any more.
    Retired,
    /// It is published and can be got no more; the last who refers to it clears it.
    Marked,
}

impl State {
    ghost use Rattle.std.specs.Prelude.{◌≡◌, ◌<◌};
    ghost use Rattle.keybits.specs.Words.{state_bits};

    /// The two lowest bits of a word in this state.
    #[inline]
    fn bits(self) -> u64
        ensures { result ≡ state_bits self }
    {
        self as u64
    }

    /// The state that these two bits stand for.
    #[inline]
    fn of_bits(bits: u64) -> State
        requires { bits < 4 }
        ensures { state_bits result ≡ bits }
    {
        match bits {
            0 => State::Idle,
            1 => State::Present,
            2 => State::Retired,
            _ => State::Marked,
        }
    }
}

/// What the lifecycle word of a place says.
#[derive(Clone, Copy, Debug, PartialEq, Eq)]
pub struct Life {
    /// The generation of the published object, or of the one that is published next.
    pub generation: u32,
    /// How many references to the place there are, of all lanes, and calls under way that will leave
    /// it again. A word has room for 0 to 1073741823.
    pub count: u32,
    /// Whether the place's object can be got.
    pub state: State,
}

impl Life {
    ghost use Rattle.std.specs.Prelude.{◌≡◌, ◌≤◌};
    ghost use Rattle.keybits.specs.declared.words.Life.{Life};
    ghost use Rattle.keybits.specs.Words.{state_bits, word_of, state_in, count_in, generation_in};

    /// The word that says this of a place, for a count of at most 1073741823: the state has the bits
    /// 0 and 1, the count 2 to 31 and the generation 32 to 63.
    #[inline]
    pub fn word(&self) -> u64
        requires { self.now.count ≤ 1073741823 }
        ensures { result ≡ word_of self.now }
    {
        self.state.bits() + (u64::from(self.count) << 2) + (u64::from(self.generation) << 32)
    }

    /// What a word says of a place. It is the inverse of `word`.
    #[inline]
    pub fn of_word(word: u64) -> Life
        ensures generation { result.generation ≡ generation_in word }
        ensures count { result.count ≡ count_in word }
        ensures state { state_bits result.state ≡ state_in word }

        // Each the other's inverse.
        ensures said { word_of result ≡ word }
        ensures inverse { (life : Life) → life.count ≤ 1073741823 → word_of life ≡ word → result ≡ life }
    {
        Life {
            generation: (word >> 32) as u32,
            count: (word >> 2 & 0x3fff_ffff) as u32,
            state: State::of_bits(word & 0b11),
        }
    }
}

/// Whether the step of a get or a clear that counts itself, and finds this word, hits the key: the
/// key's generation, and PRESENT.
#[inline]
pub fn is_hit(key: u64, word: u64) -> bool
    ensures { result ≡ is_hit key word }
{
    // One comparison, once compiled: the key's word with any count is no more than that much greater.
    let present = claimable(generation_of(key)) - MARK_BIT;
    let counted = word.wrapping_sub(present);
    counted < ONE_GENERATION && counted % ONE_COUNT == 0
}

/// Whether a place with this lifecycle word is PRESENT: its object can be got.
#[inline]
pub fn is_present(word: u64) -> bool
    ensures { result ≡ (state_in word == 1) }
{
    Life::of_word(word).state == State::Present
}

/// Whether the one who takes one from the count, and finds this word, owes a claim: MARKED with
/// count 1.
#[inline]
pub fn owes_claim(word: u64) -> bool
    ensures { result ≡ owes_claim word }
{
    let life = Life::of_word(word);
    life.state == State::Marked && life.count == 1
}

/// The one lifecycle word from which a claim of this generation succeeds: MARKED, with count 0.
#[inline]
pub fn claimable(generation: u32) -> u64
    ensures { result ≡ claimable generation }
{
    let life = Life {
        generation,
        count: 0,
        state: State::Marked,
    };
    life.word()
}

/// The lifecycle word after a step that adds one to the count, which is below 1073741823.
#[inline]
pub fn entered(word: u64) -> u64
    requires { count_in word < 1073741823 }
    ensures step { (last : ℕ) → Changes last Enter word result }
    ensures state { state_in result ≡ state_in word }
    ensures count { count_in result ≡ count_in word + 1 }
    ensures generation { generation_in result ≡ generation_in word }
{
    word + ONE_COUNT
}

/// The lifecycle word after a step that takes one from the count, which is at least 1.
#[inline]
pub fn left(word: u64) -> u64
    requires { 1 ≤ count_in word }
    ensures step { (last : ℕ) → Changes last Leave word result }
    ensures state { state_in result ≡ state_in word }
    ensures count { count_in result + 1 ≡ count_in word }
    ensures generation { generation_in result ≡ generation_in word }
{
    word - ONE_COUNT
}

/// The lifecycle word after an object was published at an idle place; with a reference one is added
/// to the count, which is then below 1073741823.
#[inline]
pub fn published(word: u64, with_ref: bool) -> u64
    requires idle { state_in word ≡ 0 }
    requires count { IsTrue with_ref → count_in word < 1073741823 }
    ensures step { (last : ℕ) → Changes last (Publish with_ref) word result }
    ensures state { state_in result ≡ 1 }
    ensures count { count_in result ≡ (if with_ref then count_in word + 1 else count_in word) }
    ensures generation { generation_in result ≡ generation_in word }
{
    if with_ref {
        word + PUBLISHED_BIT + ONE_COUNT
    } else {
        word + PUBLISHED_BIT
    }
}

/// The lifecycle word after the object was marked, for a place that is present or marked and has a
/// count of at least 1.
#[inline]
#[tactic(auto, using(crate::proofs::WordLemmas::or_two))]
pub fn marked(word: u64) -> u64
    requires open { (state_in word ≡ 1) ⊎ (state_in word ≡ 3) }
    requires count { 1 ≤ count_in word }
    ensures step { (last : ℕ) → Changes last Mark word result }
    ensures state { state_in result ≡ 3 }
    ensures count { count_in result ≡ count_in word }
    ensures generation { generation_in result ≡ generation_in word }
{
    word | MARK_BIT
}

/// The lifecycle word after a marked place with count 0 was claimed: idle at the next generation, or
/// retired where its generation isn't below the last.
#[inline]
pub fn claimed(word: u64, last_generation: u32) -> u64
    requires marked { state_in word ≡ 3 }
    requires count { count_in word ≡ 0 }
    ensures step { generation_in word ≤ last_generation
        → Changes last_generation (Claim (generation_in word)) word result }
    ensures next { generation_in word < last_generation
        → (state_in result ≡ 0) × (generation_in result ≡ generation_in word + 1) }
    ensures retired { last_generation ≤ generation_in word
        → (state_in result ≡ 2) × (generation_in result ≡ generation_in word) }
    ensures count { count_in result ≡ 0 }
{
    if word >> 32 < u64::from(last_generation) {
        word + (ONE_GENERATION - 3)
    } else {
        word - 1
    }
}
