//! A meeting of threads, with a limit of looks.
use std::sync::atomic::{AtomicU64, Ordering};
use std::thread;

/// Looks of a thread for the others before it goes on without them, if they ought to come.
pub const PATIENT: u64 = 20_000_000;

/// The same if they ought not to come.
pub const SHORT: u64 = 200_000;

/// A meeting of threads, each with a bit of its own.
#[derive(Drop)]
pub struct Meeting {
    all: u64,
    looks: u64,
    arrived: AtomicU64,
    missed: AtomicU64,
}

impl Meeting {
    /// A meeting of the threads of these bits, with so many looks each.
    pub fn of(all: u64, looks: u64) -> Meeting {
        Meeting {
            all,
            looks,
            arrived: AtomicU64::new(0),
            missed: AtomicU64::new(0),
        }
    }

    /// Whether the thread of this bit ought to come.
    pub fn awaits(&self, bit: u64) -> bool {
        self.all & bit != 0
    }

    /// Waits until all have arrived.
    pub fn meet(&self, bit: u64) {
        self.arrived.fetch_or(bit, Ordering::SeqCst);
        for _ in 0..self.looks {
            if self.arrived.load(Ordering::SeqCst) == self.all {
                return;
            }
            thread::yield_now();
        }
        self.missed.fetch_add(1, Ordering::SeqCst);
    }

    /// The number of threads that went on alone.
    pub fn missed(&self) -> u64 {
        self.missed.load(Ordering::SeqCst)
    }
}
