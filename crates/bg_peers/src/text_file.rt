//! Files of text that the system keeps.

use libc::close;
use os::open_read;
use std::alloc::{AllocError, Global};

/// The number of bytes that one read asks for, and the maximum number of reads: 64 MiB, which is about 400,000 sockets.
/// The system gives no more bytes of its own tables at once.
const PIECE: usize = 4_096;

const MOST_READS: usize = 1 << 14;

/// The text of a file, or its first 64 MiB; what was read of it if a read fails, and nothing if it cannot be opened. The
/// only error is an allocation failure.
pub(crate) fn text_of(alloc: Global, path: &[u8]) -> Result<Vec<u8>, AllocError> {
    let mut text = Vec::new(alloc);
    let file = open_read(path);
    if file < 0 {
        return Ok(text);
    }
    let outcome = read_file(file, &mut text);
    close(file);
    outcome?;
    Ok(text)
}

fn read_file(file: i32, text: &mut Vec<u8>) -> Result<(), AllocError> {
    for _ in 0..MOST_READS {
        let start = text.len();
        text.resize(start.saturating_add(PIECE), 0)?;
        let count = libc::read(file, &mut text[start..]);
        text.truncate(start.saturating_add(count.max(0) as usize));
        if count <= 0 {
            return Ok(());
        }
    }
    Ok(())
}
