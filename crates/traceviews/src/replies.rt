//! A reply, as it is read.

ghost use Rattle.seqpool.specs.ReadTexts.{Without, Finds};
ghost use Rattle.traceviews.specs.ReadLines.{Reads, IsPlainText, HasOperand, IsReplyText};

use crate::fault::{LineFault, Wanted};
use crate::fields::read_content;
use seqpool::{cut, is_word, read_key};
use std::alloc::Global;
use traces::Reply;

/// A reply that is one word of its own.
fn read_plain(text: &[u8]) -> Option<Reply>
    ensures { Finds IsPlainText text.now result }
{
    if is_word(text, "ok") {
        Some(Reply::Done)
    } else if is_word(text, "none") {
        Some(Reply::Missing)
    } else if is_word(text, "true") {
        Some(Reply::Cleared(true))
    } else if is_word(text, "false") {
        Some(Reply::Cleared(false))
    } else if is_word(text, "skip") {
        Some(Reply::Skip)
    } else if is_word(text, "full") {
        Some(Reply::Full)
    } else if is_word(text, "memory") {
        Some(Reply::Memory)
    } else {
        None
    }
}

/// A reply without a space: a word of its own, or the content that was read.
fn read_short(alloc: Global, text: &[u8]) -> Result<Reply, LineFault>
    requires { Without 32 text.now }
    ensures { Reads IsReplyText text.now result }
{
    match read_plain(text) {
        Some(reply) => Ok(reply),
        None => {
            let content = read_content(alloc, text)?;
            Ok(Reply::Content(content))
        }
    }
}

/// A reply with this first word and this operand.
fn read_long(alloc: Global, word: &[u8], operand: &[u8]) -> Result<Reply, LineFault>
    requires { Without 32 word.now }
    ensures { Reads (HasOperand word.now) operand.now result }
{
    if is_word(word, "some") {
        let content = read_content(alloc, operand)?;
        Ok(Reply::Found(content))
    } else if is_word(word, "filling") {
        let Some(key) = read_key(operand) else {
            return Err(LineFault::Lacks(Wanted::Reply));
        };
        Ok(Reply::Filling(key))
    } else if is_word(word, "key") {
        let Some(key) = read_key(operand) else {
            return Err(LineFault::Lacks(Wanted::Reply));
        };
        Ok(Reply::Key(key))
    } else {
        Err(LineFault::Lacks(Wanted::Reply))
    }
}

/// The reply of a text.
pub(crate) fn read_reply(alloc: Global, text: &[u8]) -> Result<Reply, LineFault>
    ensures { Reads IsReplyText text.now result }
{
    match cut(text, b' ') {
        Some((word, operand)) => read_long(alloc, word, operand),
        None => read_short(alloc, text),
    }
}
