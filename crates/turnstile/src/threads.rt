//! That threads may share a turnstile and carry passes, wherever the value itself may cross
//! threads.
use crate::pass::Pass;
use crate::passes::Passes;
use crate::told::Told;
use crate::turnstile::Turnstile;

fn is_shared<T: Send + Sync>() {}

fn is_sent<T: Send>() {}

pub(crate) fn cross_threads<S: Told + Send>() {
    is_shared::<Turnstile<S>>();
    is_sent::<Pass<S>>();
    is_sent::<Passes<S>>();
}
