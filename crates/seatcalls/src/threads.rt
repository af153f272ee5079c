//! What goes from thread to thread.

use crate::claimed::Claimed;
use crate::ended::Ended;
use crate::guests::Guest;
use crate::references::GuestRef;
use slotcell::Clear;
use std::marker::{Send, Sync};

// A guest, its reference and the place that it claimed go from thread to thread, and threads share a reference.
fn crosses<T: Clear + Drop + Send + Sync>(
    guest: &Guest<T>,
    reference: &GuestRef<T>,
    claimed: &Claimed<T>,
    ended: &Ended<T>,
) {
    is_sent(guest);
    is_sent(reference);
    is_shared(reference);
    is_sent(claimed);
    is_sent(ended);
}

fn is_shared<S: Sync>(_: &S) {}

fn is_sent<S: Send>(_: &S) {}
