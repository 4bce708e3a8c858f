//! The next bytes of an input that are taken.
ghost use Rattle.std.specs.Prelude.{◌≡◌, ◌<◌, ◌≤◌, [], ℕ, length, None, Some, true, IfNone, IfOk, IfSome, IsFalse, OnErr};
ghost use Rattle.bg_http_read.specs.Bodies.{is_whole};
ghost use Rattle.bg_http_read.specs.BodyFaults.{malformed};
ghost use Rattle.bg_http_read.specs.declared.body.BodyStage.TheVariants as stage;
ghost use Rattle.bg_relay.specs.Places.{FailsHere};
ghost use Rattle.bg_relay.specs.Steps.{IsStep, Waits, data_of};

use bg_http_read::{BodyStage, find_line, find_trailers};

/// The next bytes of an input that are taken.
#[derive(Clone, Copy, Drop)]
pub(crate) struct Step {
    /// Their number.
    pub(crate) count: usize,
    /// Whether they are bytes of the body, and not of its framing.
    pub(crate) is_data: bool,
    /// The stage after them.
    pub(crate) next: BodyStage,
}

impl Step {
    /// The bytes of the body that it takes.
    pub(crate) fn data<'a>(&self, bytes: &'a [u8]) -> &'a [u8]
        requires { self.now.count ≤ length bytes.now }
        ensures { result.now ≡ data_of bytes.now self.now }
    {
        if self.is_data {
            &bytes[..self.count]
        } else {
            &[]
        }
    }
}

/// The bytes are no part of a body.
#[derive(Drop)]
pub(crate) struct Malformed;

/// The step that takes the first bytes, and of the body's bytes at most `room`. `None` if more bytes are needed, if there is no
/// room, or if the body is whole.
pub(crate) fn next_step(
    stage: BodyStage,
    bytes: &[u8],
    room: usize,
) -> Result<Option<Step>, Malformed>
    ensures step { IfOk result (λ found. IfSome found (IsStep stage bytes.now room)) }
    ensures waits { IfOk result (λ found. IfNone found
        (IsFalse (is_whole stage) → 0 < room → Waits stage bytes.now)) }
    ensures refused { OnErr result (FailsHere malformed stage bytes.now) }
{
    match stage {
        BodyStage::Length(left) => Ok(length_step(bytes, left, room)),
        BodyStage::Line => line_step(bytes),
        BodyStage::Data(0) => line_end_step(bytes),
        BodyStage::Data(left) => Ok(data_step(bytes, left, room)),
        BodyStage::Trailers => trailers_step(bytes),
        BodyStage::ToTheEnd => Ok(all_step(bytes, room)),
        BodyStage::Whole => Ok(None),
    }
}

/// The step over the available bytes of a body whose length is known.
fn length_step(bytes: &[u8], left: usize, room: usize) -> Option<Step>
    ensures step { IfSome result (IsStep (stage.Length left) bytes.now room) }
    ensures waits { IfNone result (0 < left → 0 < room → bytes.now ≡ []) }
{
    let count = bytes.len().min(left).min(room);
    step_over(count, BodyStage::Length(left - count))
}

/// The step over the line of a chunk.
fn line_step(bytes: &[u8]) -> Result<Option<Step>, Malformed>
    ensures step { IfOk result (λ found. IfSome found (λ step. (room : ℕ) → IsStep stage.Line bytes.now room step)) }
    ensures waits { IfOk result (λ found. IfNone found (Waits stage.Line bytes.now)) }
    ensures refused { OnErr result (FailsHere malformed stage.Line bytes.now) }
{
    match find_line(bytes) {
        Ok(Some((count, size))) => Ok(Some(Step {
            count,
            is_data: false,
            next: stage_after_line(size),
        })),
        Ok(None) => Ok(None),
        Err(_) => Err(Malformed),
    }
}

/// The stage after the line of a chunk of so many bytes.
fn stage_after_line(size: u64) -> BodyStage
    ensures last { size ≡ 0 → result ≡ stage.Trailers }
    ensures chunk { 0 < size → result ≡ stage.Data size }
{
    if size == 0 {
        BodyStage::Trailers
    } else {
        BodyStage::Data(size as usize)
    }
}

/// The step over the available bytes of a chunk's data.
fn data_step(bytes: &[u8], left: usize, room: usize) -> Option<Step>
    requires { 0 < left }
    ensures step { IfSome result (IsStep (stage.Data left) bytes.now room) }
    ensures waits { IfNone result (0 < left → 0 < room → bytes.now ≡ []) }
{
    let count = bytes.len().min(left).min(room);
    step_over(count, BodyStage::Data(left - count))
}

/// The step over the CR LF after a chunk's data.
fn line_end_step(bytes: &[u8]) -> Result<Option<Step>, Malformed>
    ensures step { IfOk result (λ found. IfSome found (λ step. (room : ℕ) → IsStep (stage.Data 0) bytes.now room step)) }
    ensures waits { IfOk result (λ found. IfNone found (Waits (stage.Data 0) bytes.now)) }
    ensures refused { OnErr result (FailsHere malformed (stage.Data 0) bytes.now) }
{
    match bytes {
        [] | [b'\r'] => Ok(None),
        [b'\r', b'\n', ..] => Ok(Some(Step {
            count: 2,
            is_data: false,
            next: BodyStage::Line,
        })),
        _ => Err(Malformed),
    }
}

/// The step over the trailers, which are dropped.
fn trailers_step(bytes: &[u8]) -> Result<Option<Step>, Malformed>
    ensures step { IfOk result (λ found. IfSome found (λ step. (room : ℕ) → IsStep stage.Trailers bytes.now room step)) }
    ensures waits { IfOk result (λ found. IfNone found (Waits stage.Trailers bytes.now)) }
    ensures refused { OnErr result (FailsHere malformed stage.Trailers bytes.now) }
{
    match find_trailers(bytes) {
        Ok(Some(count)) => Ok(Some(Step {
            count,
            is_data: false,
            next: BodyStage::Whole,
        })),
        Ok(None) => Ok(None),
        Err(_) => Err(Malformed),
    }
}

/// The step over the available bytes of a body that goes to the end of the input.
fn all_step(bytes: &[u8], room: usize) -> Option<Step>
    ensures step { IfSome result (IsStep stage.ToTheEnd bytes.now room) }
    ensures waits { IfNone result (0 < room → bytes.now ≡ []) }
{
    step_over(bytes.len().min(room), BodyStage::ToTheEnd)
}

/// The step over so many bytes of the body, if there are any.
fn step_over(count: usize, next: BodyStage) -> Option<Step>
    ensures none { count ≡ 0 → result ≡ None }
    ensures some { 0 < count → result ≡ Some (record { count = count; is_data = true; next = next }) }
{
    if count == 0 {
        return None;
    }
    Some(Step {
        count,
        is_data: true,
        next,
    })
}
