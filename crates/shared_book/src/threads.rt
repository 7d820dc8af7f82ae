//! That threads may share the book and carry its callers, wherever the book itself may cross
//! threads.

use crate::bell::Bell;
use crate::caller::Caller;
use crate::callers::Callers;
use crate::locked::Locked;
use crate::room::Room;
use crate::shared::SharedBook;
use auth_events::Controller;
use nonce_words::NonceWords;
use std::sync::Mutex;
use turnstile::Turnstile;

fn is_shared<T: Send + Sync>() {}

fn is_sent<T: Send>() {}

pub(crate) fn cross_bell() {
    is_shared::<Bell>();
}

pub(crate) fn cross_room<B: Controller + Send>() {
    is_shared::<Mutex<Room<B>>>();
}

pub(crate) fn cross_parts<B: Controller + Send>() {
    is_shared::<Turnstile<Locked<B>>>();
    is_shared::<NonceWords>();
}

pub(crate) fn cross_callers<B: Controller + Send>() {
    is_sent::<Caller<B>>();
    is_sent::<Callers<B>>();
}

pub(crate) fn cross_threads<B: Controller + Send>() {
    is_shared::<SharedBook<B>>();
}
