//! A bell that is rung where a prompt is answered or lost. Those who wait for an answer sleep on
//! it. No contract rests on it.

use std::sync::{Condvar, Mutex, Wait};

/// A number that changes at each ring.
#[derive(Drop)]
pub(crate) struct Bell {
    rings: Mutex<u32>,
    rung: Condvar,
}

impl Bell {
    pub(crate) fn new() -> Bell {
        Bell {
            rings: Mutex::new(0),
            rung: Condvar::new(),
        }
    }

    /// Wakes all who sleep on the bell.
    pub(crate) fn ring<R: Wait>(&self, rt: &R) {
        let mut rings = self.rings.lock(rt);
        *rings = rings.wrapping_add(1);
        drop(rings);
        self.rung.notify_all();
    }

    /// What the number is now.
    pub(crate) fn heard<R: Wait>(&self, rt: &R) -> u32 {
        *self.rings.lock(rt)
    }

    /// Sleeps until the number is another one.
    pub(crate) fn sleep<R: Wait>(&self, rt: &R, heard: u32) {
        let _rings = self
            .rung
            .wait_while(rt, self.rings.lock(rt), |rings| *rings == heard);
    }
}
