//! The line that says how many lines were lost.
ghost use Rattle.std.specs.Prelude.{◌≡◌, IfOk};
ghost use Rattle.bg_access_log.specs.Lines.{Adds, lost_line_text, lost_object};

use crate::line::{add_number, add_text};
use crate::time_text::{TimeText, text_of};
use json::Writer;
use std::alloc::{AllocError, Global};

/// So many lines were lost before the line that says so. It has the keys `time`, null if it is `None`, and `lost`.
#[derive(Drop)]
pub(crate) struct LostLines {
    /// When the line was made, as `AccessLog::time` gives it.
    pub(crate) time: Option<TimeText>,
    pub(crate) lost: u64,
}

impl LostLines {
    /// The line, with its end. An error only if an allocation fails.
    pub(crate) fn to_line(&self, alloc: Global) -> Result<Vec<u8>, AllocError>
        ensures { IfOk result (λ line. line.items ≡ lost_line_text self.now) }
    {
        let mut line = Writer::new(Vec::new(alloc));
        self.add_object(&mut line)?;
        let mut bytes = line.into_inner();
        bytes.push(b'\n')?;
        Ok(bytes)
    }

    /// Writes the object of the line.
    fn add_object(&self, line: &mut Writer) -> Result<(), AllocError>
        ensures { Adds result line.old line.new (lost_object self.now) }
    {
        line.begin_object()?;
        add_text(line, "time", text_of(&self.time))?;
        add_number(line, "lost", Some(self.lost))?;
        line.end_object()
    }
}
