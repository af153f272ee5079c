//! The laws of the home places of a shard, as calls that do nothing: whoever calls one may use its law in a proof.
ghost use Rattle.keybits.specs.HomeLaws.{FunctionLaw, EmptyLaw, UnchangedLaw, PushLaw, TakeLaw};

/// The stack words of a shard and the link words determine which places are home: returned to the shard and not taken
/// yet. Where each stack word is 0 none is.
pub fn home_law()
    ensures function { FunctionLaw }
    ensures empty { EmptyLaw }
{}

/// The home places of a shard stay where neither a stack word of the shard nor the link word of a home place is
/// changed. So they stay at a LINK of a place to return, at a PUSH that fails and at a FOLLOW.
pub fn unchanged_law()
    ensures { UnchangedLaw }
{}

/// A PUSH that succeeds, after the LINK of its place to the word that it finds, makes that place home and changes
/// nothing else.
pub fn push_law()
    ensures { PushLaw }
{}

/// A TAKE finds a stack word from which the link words lead through home places, each once, to the end. These are then
/// home no more, and nothing else changes.
pub fn take_law()
    ensures { TakeLaw }
{}
