//! Laws of the turns of a lawful trace, as calls that do nothing: whoever calls one may use its law in a proof. They
//! tell what a lawful trace says, step by step and command by command, to whom doesn't follow the books of its lanes.

ghost use Rattle.traces.specs.TurnLaws.{FirstStepLaw, NextStepLaw, ActsLaw, LaneActsLaw, ScriptLaw, SkipLaw, PublishedLaw, ReadLaw, FoundLaw};

/// Each step finds in its word what the last step on that word left, whichever lane made it; the first step on a word
/// finds the word's first value.
pub fn words_law()
    ensures first { FirstStepLaw }
    ensures next { NextStepLaw }
{}

/// The acts of the turns, in order, are a legal history of the pool of one thread, in which a lane's acts are those of
/// its own turns.
pub fn acts_law()
    ensures legal { ActsLaw }
    ensures lanes { LaneActsLaw }
{}

/// Each lane goes through its script, command by command: its replies are those of the commands that are done, one
/// each, and its steps and acts are theirs and those of the command that is under way. A command that is done was
/// skipped, or made no call, or made the steps of its call, from the first to the last.
pub fn script_law()
    ensures { ScriptLaw }
{}

/// What the reply of a command that is done tells. It is skip just where the command hadn't what it needs. A publish is
/// of the bytes that were written to its register since its create, in order. A read is of the content that the key of
/// its register was published with. A get found a content just where its Get shows it.
pub fn replies_law()
    ensures skip { SkipLaw }
    ensures published { PublishedLaw }
    ensures read { ReadLaw }
    ensures found { FoundLaw }
{}
