//! Whole lines, and how they are read.
ghost use Rattle.std.specs.Prelude.{Bool, IfOk, ◌≡◌};
ghost use Rattle.bg_control_port.specs.Lines.{Whole};
ghost use Rattle.bg_control_port.specs.Steps.{whole_of};

use std::alloc::AllocError;

/// A line that is whole.
#[derive(Clone, Copy, Drop)]
pub enum WholeLine<'a> {
    /// These bytes, with their line end, if they have one. They are 1 to 4,098, and at most the last one is a line break, LF.
    Bytes(&'a [u8]),
    /// The line was too long, and was skipped.
    TooLong,
}

/// Reads whole lines, and says which are answered before all that wait. Each line is read once.
pub trait ReadsLines<L> {
    /// Whether a line may be read so.
    ghost reads: { Self → Whole → L → Type 0 };

    /// Whether a line that was read so is urgent.
    ghost puts_first: { Self → L → Bool };

    /// Reads a line. The only error is an allocation failure.
    fn read(&self, line: WholeLine<'_>) -> Result<L, AllocError>
        ensures { IfOk result (λ read. reads self.now (whole_of line.entry) read) };

    /// Whether a line is urgent.
    fn is_urgent(&self, line: &L) -> bool
        ensures { result ≡ puts_first self.now line.now };
}
