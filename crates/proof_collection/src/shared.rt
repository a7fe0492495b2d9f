//! A log goes to the thread of its worker and back; who makes logs may be read from several threads.

use crate::lines::KeepsLines;
use crate::maker::KeepsNothing;
use crate::owner_log::OwnerLog;
use proof_logger::Unlogged;

/// Takes a type that may be sent.
const fn is_sent<T: Send>() {}

/// Takes a type that may be shared.
const fn is_shared<T: Sync>() {}

/// A log may be sent.
const fn log_is_sent<'a>() {
    is_sent::<OwnerLog<'a>>();
    is_sent::<Unlogged>();
}

/// Who makes logs may be shared.
const fn makers_are_shared<'a>() {
    is_shared::<KeepsLines<'a>>();
    is_shared::<KeepsNothing<'a>>();
}
