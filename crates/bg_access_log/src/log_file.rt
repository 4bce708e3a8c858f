//! The file of the log.
ghost use Rattle.std.specs.Prelude.{◌≡◌, ◌≤◌, ◌-◌, ◌⊎◌, [], Some, drop, slice_get, true};

use libc::net::{POLLOUT, poll};
use libc::types::pollfd;
use libc::{
    EACCES, EAGAIN, O_APPEND, O_CLOEXEC, O_CREAT, O_NOCTTY, O_RDWR, O_WRONLY, SEEK_END,
    STDERR_FILENO,
};
use os::FromRawFd;
use std::alloc::Global;
use std::io;
use std::os::fd::{AsRawFd, OwnedFd, RawFd};

/// The permissions of a new file; the process's umask can remove some.
const MODE: u32 = 0o640;

/// The most bytes of one write to standard error. A pipe that is ready takes as many without waiting
/// (PIPE_BUF of pipe(7)).
const PIECE: usize = 4096;

/// How often the file stays open although it is to be opened again, because a part of a line was written and the
/// rest was not taken: for about a minute.
const MOST_WAITS: u32 = 60;

/// A file to which bytes are appended, and the bytes that it has not taken yet.
#[derive(Drop)]
pub(crate) struct LogFile {
    /// `None` for standard error.
    path: Option<String>,
    file: Option<OwnedFd>,
    /// Whether the file may end in a part of a line that will not be completed. A line end is written first then.
    is_torn: bool,
    rest: Vec<u8>,
    /// The number of bytes of the rest that were written.
    written: usize,
    /// How often the file was to be opened again since it last took bytes, and stayed open.
    waits: u32,
    /// The error number of the last write, if the file took no byte.
    error: Option<i32>,
}

impl LogFile {
    /// Opens the file of this path; `-` is standard error.
    pub(crate) fn open(alloc: Global, path: &str) -> io::Result<LogFile> {
        let mut log = LogFile {
            path: None,
            file: None,
            is_torn: false,
            rest: Vec::new(alloc),
            written: 0,
            waits: 0,
            error: None,
        };
        if path != "-" {
            let file = open_to_append(path)?;
            log.is_torn = ends_in_part(&file, false);
            log.file = Some(file);
            log.path = Some(String::from_str(alloc, path)?);
        }
        Ok(log)
    }

    /// Opens the path again, so that a file that was renamed gets no further bytes. If that fails, the
    /// previous file stays open. It also stays open while it has a part of a line: the rest of the line belongs to the
    /// same file. If it takes nothing for about a minute, the whole line is written to the file that is opened then.
    pub(crate) fn open_anew(&mut self) {
        let start = line_start(&self.rest, self.written);
        let is_in_line = start < self.written;
        if is_in_line && self.waits < MOST_WAITS {
            self.waits += 1;
            return;
        }
        if let Some(path) = &self.path
            && let Ok(file) = open_to_append(path.as_str())
        {
            self.is_torn = ends_in_part(&file, self.is_torn || is_in_line);
            self.file = Some(file);
            self.written = start;
            self.waits = 0;
        }
    }

    /// If the file took a part of the last write, waits until it takes more, for at most so many milliseconds. Returns
    /// whether it took a part: then there is no need to wait in another way.
    pub(crate) fn waits_for_room(&self, most_millis: i32) -> bool {
        if self.error.is_some() || self.rest().is_empty() {
            return false;
        }
        let file = match &self.file {
            Some(file) => file.as_raw_fd(),
            None => STDERR_FILENO,
        };
        takes_bytes(file, most_millis);
        true
    }

    /// Whether the log is standard error.
    pub(crate) fn is_standard_error(&self) -> bool {
        self.file.is_none()
    }

    /// The error number of the last write, if the file took no byte of it.
    pub(crate) fn last_error(&self) -> Option<i32> {
        self.error
    }

    /// The bytes that the file has not taken yet.
    pub(crate) fn rest(&self) -> &[u8]
        ensures { result.now ≡ drop self.now.written self.now.rest.items }
    {
        self.rest.as_slice().get(self.written..).unwrap_or(&[])
    }

    /// Writes bytes, and keeps the rest of them for [`LogFile::write_rest`]. Returns whether the file took all. All earlier
    /// bytes have to be written before.
    pub(crate) fn write(&mut self, bytes: Vec<u8>) -> bool
        ensures kept { self.new.rest ≡ bytes }
        ensures all { result ≡ true → drop self.new.written self.new.rest.items ≡ [] }
    {
        self.rest = bytes;
        self.written = 0;
        self.write_rest()
    }

    /// Writes the bytes that the file has not taken yet. Returns whether it took all.
    pub(crate) fn write_rest(&mut self) -> bool
        ensures kept { self.new.rest ≡ self.old.rest }
        ensures all { result ≡ true → drop self.new.written self.new.rest.items ≡ [] }
    {
        self.error = None;
        self.begin_again_if_truncated();
        for pieces in 0..self.rest.len() {
            if self.rest().is_empty() {
                return true;
            }
            if !self.write_piece() {
                if pieces > 0 {
                    self.error = None;
                }
                return false;
            }
        }
        self.rest().is_empty()
    }

    /// Goes back to the start of the line that was written in part, if the file has become empty (`copytruncate` of
    /// logrotate).
    fn begin_again_if_truncated(&mut self)
        ensures { self.new.rest ≡ self.old.rest }
    {
        let start = line_start(&self.rest, self.written);
        if start < self.written
            && let Some(file) = &self.file
            && length_of(file) == 0
        {
            self.written = start;
        }
    }

    /// Makes one write, of a line end if the file may end in a part of a line. Returns whether the file took a byte.
    fn write_piece(&mut self) -> bool
        ensures { self.new.rest ≡ self.old.rest }
    {
        let count = match &self.file {
            Some(file) if self.is_torn => libc::write(file.as_raw_fd(), b"\n"),
            Some(file) => libc::write(file.as_raw_fd(), self.rest()),
            None => write_if_ready(STDERR_FILENO, self.rest()),
        };
        if count <= 0 {
            self.error = Some(match &self.file {
                Some(_) => os::errno(),
                None => EAGAIN,
            });
            return false;
        }
        self.waits = 0;
        if self.is_torn {
            self.is_torn = false;
        } else {
            self.written = self.written.saturating_add(count as usize);
        }
        true
    }
}

/// Where the line begins of which the bytes before `end` are the first.
fn line_start(bytes: &[u8], end: usize) -> usize
    ensures before { result ≤ end }
    ensures begins { (result ≡ 0) ⊎ (slice_get bytes.now (result - 1) ≡ Some 10) }
{
    for back in 0..end {
        if bytes.get(end - back - 1) == Some(&b'\n') {
            return end - back;
        }
    }
    0
}

/// The number of bytes of a file; below 0 of a FIFO.
fn length_of(file: &OwnedFd) -> i64 {
    libc::lseek(file.as_raw_fd(), 0, SEEK_END)
}

/// Whether a file ends in a part of a line; `otherwise` if that cannot be read, as of a FIFO.
fn ends_in_part(file: &OwnedFd, otherwise: bool) -> bool {
    let length = length_of(file);
    if length == 0 {
        return false;
    }
    let mut last = [0u8; 1];
    if length < 0 || libc::pread(file.as_raw_fd(), &mut last, length - 1) < 1 {
        return otherwise;
    }
    last[0] != b'\n'
}

/// Writes to a descriptor that other processes may share, so it cannot be made non-blocking. Gives -1 if it
/// takes nothing now.
fn write_if_ready(file: RawFd, bytes: &[u8]) -> isize {
    if !takes_bytes(file, 0) {
        return -1;
    }
    libc::write(file, &bytes[..bytes.len().min(PIECE)])
}

/// Whether a descriptor takes bytes now, or within so many milliseconds.
fn takes_bytes(file: RawFd, most_millis: i32) -> bool {
    let mut asked = [pollfd {
        fd: file,
        events: POLLOUT,
        revents: 0,
    }];
    poll(&mut asked, most_millis) > 0
}

/// Opens a file to append to it, and creates it if it is missing. Neither this nor a later write waits for
/// the reader of a FIFO: Linux opens a FIFO at once to read and write (fifo(7)).
fn open_to_append(path: &str) -> io::Result<OwnedFd> {
    let flags = O_APPEND | O_CREAT | O_NOCTTY | O_CLOEXEC;
    let mut file = os::open_with(path.as_bytes(), O_RDWR | flags, MODE);
    if file < 0 && os::errno() == EACCES {
        // it may be written, but not read
        file = os::open_with(path.as_bytes(), O_WRONLY | flags, MODE);
    }
    if file < 0 {
        return Err(io::Error::from_raw_os_error(os::errno()));
    }
    os::set_nonblocking(file, true);
    Ok(unsafe { OwnedFd::from_raw_fd(file) })
}
