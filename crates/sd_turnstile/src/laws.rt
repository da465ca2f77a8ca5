//! Laws of a turnstile: functions that do nothing, each the home of a statement.

use crate::shift::Shift;
use crate::turnstile::{Pass, Turnstile};

fn is_shared<T: Send + Sync>(_value: &T) {}

fn is_sent<T: Send>(_value: &T) {}

/// A turnstile may be shared by threads, and a pass may go to another thread, where the value may.
pub fn crossing<V: Shift + Send>(turnstile: &Turnstile<V>, pass: &Pass<V>) {
    is_shared(turnstile);
    is_sent(pass);
}
