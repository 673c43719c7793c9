//! A bell wakes those who wait: for a link, at a door or at the bell itself.

use std::sync::Wait;

/// What wakes those who wait. It is rung when another than their peer has something for them.
pub trait Bell: Drop {
    /// Rings it. Who waits looks again, and so does who begins to wait afterwards.
    fn ring(&self);

    /// Waits until it is rung, at most a second. A ring since the last wait isn't lost. One waits at it.
    fn wait<R: Wait>(&self, rt: &R);
}

/// The bell of objects in memory, at which nobody waits: ringing and waiting do nothing.
#[derive(Clone, Copy)]
pub struct MemBell;

impl Bell for MemBell {
    fn ring(&self) {}

    fn wait<R: Wait>(&self, _rt: &R) {}
}
