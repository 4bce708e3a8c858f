//! The log.
ghost use Rattle.std.specs.Prelude.{◌≡◌, ◌++◌, if◌then◌else◌};

use crate::log_entry::LogEntry;
use crate::log_file::LogFile;
use crate::lost_lines::LostLines;
use crate::notices::Notices;
use crate::time_text::{TimeText, TimeTexts};
use crate::trouble::{LogTrouble, Trouble};
use std::alloc::Global;
use std::sync::atomic::{AtomicBool, AtomicU64, Ordering};
use std::sync::{Mutex, Wait};
use std::time::{Clock, Duration};
use std::{io, mem, thread};

/// The maximum number of bytes of the queue. Further lines are lost and counted. At 20,000 lines a second, 2,000 lines
/// come between two writes. If a line has 250 bytes, as most have, the queue has room for the lines of 3 seconds, in which
/// the disk may take nothing; if each line is as long as can be, 6,500 bytes, for those of 125 milliseconds.
const MOST_BYTES: usize = 1 << 24;

/// How often a thread tries to hand a notice to the writer, which holds the notices only while it takes them.
const TRIES_TO_HAND_OVER: u32 = 10_000;

/// The number of milliseconds between two writes, and the number of these pauses after which the writer
/// opens the file again.
const PAUSE_MILLIS: u64 = 100;

const PAUSES_BETWEEN_OPENINGS: u32 = 10;

/// What waits to be written.
#[derive(Drop)]
struct Queue {
    bytes: Vec<u8>,
    /// The number of lost lines that the log has not reported yet.
    lost: u64,
}

/// An access log. Workers share it, and one more thread writes it.
#[derive(Drop)]
pub struct AccessLog {
    alloc: Global,
    times: Mutex<TimeTexts>,
    queue: Mutex<Queue>,
    /// Only the writer uses it.
    file: Mutex<LogFile>,
    notices: Mutex<Notices>,
    trouble: Trouble,
    /// The number of connections that ended without having sent a byte, and that no line has told of yet.
    idle_connections: AtomicU64,
    is_over: AtomicBool,
}

impl AccessLog {
    /// Opens the file of this path to append to it, and creates it if it is missing. `-` is standard error.
    /// An error if the file cannot be opened, or if an allocation fails.
    pub fn open(alloc: Global, path: &str) -> io::Result<AccessLog> {
        Ok(AccessLog {
            alloc,
            times: Mutex::new(TimeTexts::new()),
            queue: Mutex::new(Queue {
                bytes: Vec::new(alloc),
                lost: 0,
            }),
            file: Mutex::new(LogFile::open(alloc, path)?),
            notices: Mutex::new(Notices::new(alloc)),
            trouble: Trouble::new(),
            idle_connections: AtomicU64::new(0),
            is_over: AtomicBool::new(false),
        })
    }

    /// The time of day now. `None` if the clock fails, if it is before 1970, or if an allocation fails.
    pub fn time<R: Clock + Wait>(&self, rt: &R) -> Option<TimeText> {
        self.times.lock(rt).now(rt, self.alloc)
    }

    /// Notes that a connection has ended without having sent a byte. It is no request, and gets no line.
    pub fn note_idle_connection(&self) {
        self.idle_connections.fetch_add(1, Ordering::SeqCst);
    }

    /// The number of these connections that no entry has told of yet, for the next entry; `None` if there are none.
    pub fn take_idle_connections(&self) -> Option<u64> {
        match self.idle_connections.load(Ordering::SeqCst) {
            0 => None,
            _ => Some(self.idle_connections.swap(0, Ordering::SeqCst)),
        }
    }

    /// Adds a line. If the queue would have more than 16,777,216 bytes, or if an allocation fails, the line
    /// is lost and counted, and the next entry tells of its idle connections.
    pub fn add<R: Wait>(&self, rt: &R, entry: &LogEntry) {
        let line = entry.to_line(self.alloc);
        let mut queue = self.queue.lock(rt);
        let is_kept = match line {
            Ok(line) => queue.keeps(&line),
            Err(_) => false,
        };
        if !is_kept {
            queue.lost = queue.lost.saturating_add(1);
            self.trouble.note_lost(1);
            if let Some(count) = entry.idle_connections {
                self.idle_connections.fetch_add(count, Ordering::SeqCst);
            }
        }
    }

    /// What operators are to be told now. Call it about once a second, and once more after
    /// [`AccessLog::run_writer`] has returned. It waits for nothing.
    pub fn take_trouble(&self) -> Option<LogTrouble> {
        self.trouble.take()
    }

    /// Hands a line for standard error to the writer, if the log is standard error and the writer runs. Returns
    /// whether that is so; otherwise the caller may write the line itself. Two threads must not both write: each would
    /// ask first whether standard error takes 4,096 bytes, and one of them could then be blocked. It waits for nothing;
    /// if more than 65,536 bytes of such lines wait, the line is lost.
    pub fn hand_over(&self, line: &[u8]) -> bool {
        for _ in 0..TRIES_TO_HAND_OVER {
            if let Some(mut notices) = self.notices.try_lock() {
                return notices.add(line);
            }
        }
        true
    }

    /// Writes the added lines every 100 milliseconds, and sooner if the file takes them in parts. If lines were lost, it writes a line with their number
    /// when the file takes bytes again. It opens the file again about once a second, but while a line is written only
    /// in part, once the file has taken nothing for a minute. After [`AccessLog::end`] it makes one last write and
    /// returns; lines that the file does not take then are lost.
    pub fn run_writer<R: Clock + Wait>(&self, rt: &R) {
        let mut file = self.file.lock(rt);
        self.notices.lock(rt).set_taken(file.is_standard_error());
        let mut pauses = 0u32;
        for _ in rt.forever() {
            let is_over = self.is_over.load(Ordering::SeqCst);
            if pauses >= PAUSES_BETWEEN_OPENINGS {
                pauses = 0;
                file.open_anew();
            }
            if is_over {
                self.write_last(rt, &mut file);
                return;
            }
            self.write_out(rt, &mut file);
            self.trouble.note_write(file.last_error());
            if !file.waits_for_room(PAUSE_MILLIS as i32) {
                thread::sleep(rt, Duration::from_millis(PAUSE_MILLIS));
            }
            pauses = pauses.saturating_add(1);
        }
    }

    /// Makes [`AccessLog::run_writer`] return after a last write.
    pub fn end(&self) {
        self.is_over.store(true, Ordering::SeqCst);
    }

    /// Writes the queue and the notices a last time, and notes the lines that the file does not take.
    fn write_last<R: Clock + Wait>(&self, rt: &R, file: &mut LogFile) {
        self.notices.lock(rt).set_taken(false);
        self.write_out(rt, file);
        let (bytes, _) = self.take(rt);
        self.trouble.note_lost(lines_in(file.rest()));
        self.trouble.note_lost(lines_in(&bytes));
        self.trouble.note_write(None);
    }

    /// Writes the notices and the queue, as far as the file takes them.
    fn write_out<R: Clock + Wait>(&self, rt: &R, file: &mut LogFile) {
        if !file.write_rest() {
            return;
        }
        let notices = self.notices.lock(rt).take(self.alloc);
        if !file.write(notices) {
            return;
        }
        let (bytes, lost) = self.take(rt);
        if !file.write(bytes) || lost == 0 {
            self.lose(rt, lost);
            return;
        }
        match self.line_of_lost(rt, lost) {
            // the file keeps what it does not take of the line, and so the number is not told twice
            Some(line) => {
                file.write(line);
            }
            None => self.lose(rt, lost),
        }
    }

    /// Takes the bytes of the queue and the number of lost lines.
    fn take<R: Wait>(&self, rt: &R) -> (Vec<u8>, u64) {
        let mut queue = self.queue.lock(rt);
        let bytes = mem::replace(&mut queue.bytes, Vec::new(self.alloc));
        let lost = mem::replace(&mut queue.lost, 0);
        (bytes, lost)
    }

    /// Adds to the number of lost lines.
    fn lose<R: Wait>(&self, rt: &R, lost: u64) {
        let mut queue = self.queue.lock(rt);
        queue.lost = queue.lost.saturating_add(lost);
    }

    /// The line with the number of lost lines; `None` if an allocation fails.
    fn line_of_lost<R: Clock + Wait>(&self, rt: &R, lost: u64) -> Option<Vec<u8>> {
        LostLines {
            time: self.time(rt),
            lost,
        }
        .to_line(self.alloc)
        .ok()
    }
}

/// The number of lines that end in these bytes.
fn lines_in(bytes: &[u8]) -> u64 {
    bytes.iter().filter(|byte| **byte == b'\n').count() as u64
}

impl Queue {
    /// Adds a line. Returns whether there was room.
    fn keeps(&mut self, line: &[u8]) -> bool
        ensures kept { self.new.bytes.items
            ≡ (if result then self.old.bytes.items ++ line.now else self.old.bytes.items) }
        ensures lost { self.new.lost ≡ self.old.lost }
    {
        self.bytes.len().saturating_add(line.len()) <= MOST_BYTES
            && self.bytes.extend_from_slice(line).is_ok()
    }
}
