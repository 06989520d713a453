//! A mailbox is shared between threads, and its desk and its posts may be sent from one to another.

use crate::answers::{Envelope, PostWait};
use crate::mailbox::{Desk, Mailbox, Post};

fn may_share<T: Send + Sync>(_value: &T) {}

fn may_send<T: Send>(_value: &T) {}

#[allow(dead_code)]
fn crosses_threads(
    mailbox: &Mailbox,
    desk: &Desk,
    post: &Post,
    envelope: &Envelope,
    wait: &PostWait,
) {
    may_share(mailbox);
    may_send(desk);
    may_send(post);
    may_send(envelope);
    may_send(wait);
}
