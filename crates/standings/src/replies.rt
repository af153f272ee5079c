//! Whether replies are the same.
ghost use Rattle.std.specs.Prelude.{◌≡◌, true};

use seqpool::Bytes;
use traces::Reply;

/// Whether two contents are the same.
pub(crate) fn same_bytes(bytes: &Bytes, others: &Bytes) -> bool
    ensures same { result ≡ true → bytes.now ≡ others.now }
    ensures whole { bytes.now ≡ others.now → result ≡ true }
{
    bytes.as_slice() == others.as_slice()
}

/// Whether two replies are the same.
fn same_reply(reply: &Reply, other: &Reply) -> bool
    ensures same { result ≡ true → reply.now ≡ other.now }
    ensures whole { reply.now ≡ other.now → result ≡ true }
{
    match (reply, other) {
        (Reply::Filling(key), Reply::Filling(more)) => key == more,
        (Reply::Full, Reply::Full) => true,
        (Reply::Memory, Reply::Memory) => true,
        (Reply::Done, Reply::Done) => true,
        (Reply::Key(key), Reply::Key(more)) => key == more,
        (Reply::Found(content), Reply::Found(more)) => same_bytes(content, more),
        (Reply::Missing, Reply::Missing) => true,
        (Reply::Content(content), Reply::Content(more)) => same_bytes(content, more),
        (Reply::Cleared(cleared), Reply::Cleared(more)) => cleared == more,
        (Reply::Skip, Reply::Skip) => true,
        _ => false,
    }
}

/// Whether two rows of replies are the same.
pub fn same_replies(replies: &[Reply], others: &[Reply]) -> bool
    ensures same { result ≡ true → replies.now ≡ others.now }
    ensures whole { replies.now ≡ others.now → result ≡ true }
{
    if replies.len() != others.len() {
        return false;
    }
    for i in 0..replies.len() {
        if !same_reply(&replies[i], &others[i]) {
            return false;
        }
    }
    true
}
