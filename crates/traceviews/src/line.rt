//! What a line of a trace's text says.
use keybits::Word;
use traces::Reply;

/// The name of a kind of step. Of the step's operands a line says nothing.
#[derive(Clone, Copy, PartialEq, Eq)]
pub enum StepName {
    Enter,
    Leave,
    Publish,
    Mark,
    Claim,
    Link,
    Push,
    Take,
    Follow,
}

/// A step by its name: on which word it was made, and the word before and after it.
#[derive(Clone, Copy)]
pub struct NamedStep {
    pub name: StepName,
    pub word: Word,
    pub before: u64,
    pub after: u64,
}

/// What a line says of its lane.
#[derive(Drop)]
pub enum Entry {
    /// The lane made this step.
    Step(NamedStep),
    /// The lane's next command replied so.
    Reply(Reply),
}

/// A line of a trace's text.
#[derive(Drop)]
pub struct Line {
    /// The number of the lane.
    pub lane: u32,
    pub entry: Entry,
}
