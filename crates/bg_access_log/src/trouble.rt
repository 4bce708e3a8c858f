//! What operators are to be told of a log.

use std::io;
use std::sync::atomic::{AtomicBool, AtomicI32, AtomicU32, AtomicU64, Ordering};

/// The number of writes in a row, 100 milliseconds apart, after which the log is said to take nothing.
const WRITES_IN_A_ROW: u32 = 10;

/// What operators are to be told of a log.
#[derive(Debug, Drop)]
pub enum LogTrouble {
    /// The file has taken no byte for about a second, for this reason.
    TakesNothing(io::Error),
    /// This is over, or lines were lost without it, or the log has ended: so many lines were lost.
    LinesLost(u64),
}

/// How the writes of a log go. The writer and the workers note it, and another thread tells it.
#[derive(Drop)]
pub(crate) struct Trouble {
    /// The number of writes in a row of which the file took no byte.
    failures: AtomicU32,
    /// The error number of the last of these writes.
    error: AtomicI32,
    /// The number of lost lines that were not told yet.
    lost: AtomicU64,
    /// Whether the current series of failures was told.
    is_told: AtomicBool,
}

impl Trouble {
    /// There is none.
    pub(crate) fn new() -> Trouble {
        Trouble {
            failures: AtomicU32::new(0),
            error: AtomicI32::new(0),
            lost: AtomicU64::new(0),
            is_told: AtomicBool::new(false),
        }
    }

    /// Notes that the file took no byte of a write, with the error number, or that it took some or all.
    pub(crate) fn note_write(&self, error: Option<i32>) {
        match error {
            Some(error) => {
                self.error.store(error, Ordering::SeqCst);
                if self.failures.load(Ordering::SeqCst) < WRITES_IN_A_ROW {
                    self.failures.fetch_add(1, Ordering::SeqCst);
                }
            }
            None => self.failures.store(0, Ordering::SeqCst),
        }
    }

    /// Notes that lines were lost.
    pub(crate) fn note_lost(&self, lines: u64) {
        self.lost.fetch_add(lines, Ordering::SeqCst);
    }

    /// What is to be told now: each series of failures once when it has lasted for a second, and once when it is
    /// over, with the number of lost lines. Lines that are lost without a series are told too.
    pub(crate) fn take(&self) -> Option<LogTrouble> {
        let failures = self.failures.load(Ordering::SeqCst);
        if failures >= WRITES_IN_A_ROW {
            return match self.is_told.swap(true, Ordering::SeqCst) {
                true => None,
                false => Some(LogTrouble::TakesNothing(io::Error::from_raw_os_error(
                    self.error.load(Ordering::SeqCst),
                ))),
            };
        }
        if failures > 0 {
            return None;
        }
        let was_told = self.is_told.swap(false, Ordering::SeqCst);
        let lost = self.lost.swap(0, Ordering::SeqCst);
        if was_told || lost > 0 {
            Some(LogTrouble::LinesLost(lost))
        } else {
            None
        }
    }
}
