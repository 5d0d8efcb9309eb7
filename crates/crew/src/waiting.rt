//! Waiting for a lock.
use std::hint::spin_loop;
use std::sync::{RwLock, RwLockReadGuard, RwLockWriteGuard, Wait};
use std::thread::yield_now;

/// How often a worker that can't go on without the lock tries for it before it sleeps. Sleeping and
/// waking take longer than another worker usually holds the lock, and a woken worker often finds it
/// taken again.
const TRIES: u32 = 2200;

/// After how many of these tries it yields its processor to a waiting thread before each further
/// one.
const PATIENCE: u32 = 200;

/// Waits a little before the next try.
fn pause(tries: u32) {
    if tries < PATIENCE {
        spin_loop();
    } else {
        yield_now();
    }
}

/// The value under a lock, to read, once nobody writes.
pub fn read_soon<'l, T>(rt: &impl Wait, lock: &'l RwLock<T>) -> RwLockReadGuard<'l, T> {
    for tries in 0..TRIES {
        if let Some(guard) = lock.try_read() {
            return guard;
        }
        pause(tries);
    }
    lock.read(rt)
}

/// The value under a lock, to write, once nobody else has it.
pub fn write_soon<'l, T>(rt: &impl Wait, lock: &'l RwLock<T>) -> RwLockWriteGuard<'l, T> {
    for tries in 0..TRIES {
        if let Some(guard) = lock.try_write() {
            return guard;
        }
        pause(tries);
    }
    lock.write(rt)
}
