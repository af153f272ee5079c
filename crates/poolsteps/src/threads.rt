//! What goes from thread to thread.

use crate::directory::Directory;
use crate::objects::Objects;
use std::marker::{Send, Sync};

// A directory is shared among threads, and what a lane has goes to its own.
fn crosses<T: Send + Drop>(directory: &Directory<T>, objects: &Objects<T>) {
    is_shared(directory);
    is_sent(directory);
    is_sent(objects);
}

fn is_shared<S: Sync>(_: &S) {}

fn is_sent<S: Send>(_: &S) {}
