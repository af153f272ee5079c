//! Whether steps are the same, or alike: of the same kind and on the same word.
ghost use Rattle.std.specs.Prelude.{◌≡◌, true};
ghost use Rattle.standings.specs.Alike.{PushAlike, IsAlike, AreAlikeSteps};

use keybits::{Kind, Step, Word};

/// Whether two words are the same.
fn same_word(word: Word, other: Word) -> bool
    ensures { result ≡ true → word ≡ other }
{
    match (word, other) {
        (Word::Life { place }, Word::Life { place: at }) => place == at,
        (Word::Link { place }, Word::Link { place: at }) => place == at,
        (
            Word::Stack { shard, lane },
            Word::Stack {
                shard: of,
                lane: by,
            },
        ) => { shard == of && lane == by }
        _ => false,
    }
}

/// Whether two kinds of step are the same.
fn same_kind(kind: Kind, other: Kind) -> bool
    ensures { result ≡ true → kind ≡ other }
{
    match (kind, other) {
        (Kind::Enter, Kind::Enter) => true,
        (Kind::Leave, Kind::Leave) => true,
        (Kind::Publish { with_ref }, Kind::Publish { with_ref: with_too }) => with_ref == with_too,
        (Kind::Mark, Kind::Mark) => true,
        (Kind::Claim { generation }, Kind::Claim { generation: of }) => generation == of,
        (Kind::Link { expected }, Kind::Link { expected: top }) => expected == top,
        (
            Kind::Push { expected, link },
            Kind::Push {
                expected: top,
                link: to,
            },
        ) => expected == top && link == to,
        (Kind::Take, Kind::Take) => true,
        (Kind::Follow, Kind::Follow) => true,
        _ => false,
    }
}

/// Whether both found the same, where they are a PUSH.
fn push_alike(step: &Step, other: &Step) -> bool
    ensures { result ≡ true → PushAlike step.now.kind step.now other.now }
{
    match step.kind {
        Kind::Push { .. } => step.before == other.before,
        _ => true,
    }
}

/// Whether two steps are alike.
fn alike_steps(step: &Step, other: &Step) -> bool
    ensures { result ≡ true → IsAlike step.now other.now }
{
    same_kind(step.kind, other.kind) && same_word(step.word, other.word) && push_alike(step, other)
}

/// Whether two turns' steps are alike.
pub(crate) fn are_alike_steps(step: &Option<Step>, other: &Option<Step>) -> bool
    ensures { result ≡ true → AreAlikeSteps step.now other.now }
{
    match (step, other) {
        (Some(step), Some(other)) => alike_steps(step, other),
        (None, None) => true,
        _ => false,
    }
}

/// Whether two steps are the same.
fn same_step(step: &Step, other: &Step) -> bool
    ensures { result ≡ true → step.now ≡ other.now }
{
    same_kind(step.kind, other.kind)
        && same_word(step.word, other.word)
        && step.before == other.before
        && step.after == other.after
}

/// Whether two turns' steps are the same.
pub(crate) fn same_steps(step: &Option<Step>, other: &Option<Step>) -> bool
    ensures { result ≡ true → step.now ≡ other.now }
{
    match (step, other) {
        (Some(step), Some(other)) => same_step(step, other),
        (None, None) => true,
        _ => false,
    }
}
