//! A worker hands its account back from its thread, so an account may be sent to another thread and read from several.

use crate::account::Account;

/// Takes a type that may be sent and shared.
const fn is_shared<T: Send + Sync>() {}

/// An account may be sent and shared.
const fn account_is_shared() {
    is_shared::<Account>();
}
