//! A body that is passed on as it comes.
ghost use Rattle.std.specs.Prelude.{◌≡◌, ◌≤◌, ◌+◌, ◌++◌, ℕ, List, [], if◌then◌else◌, drop, length, take};
ghost use Rattle.std.specs.Prelude.{Err, IfErr, IfOk, IfSome, IsErr, IsFalse, IsOk, IsTrue, None, Ok, OnOk};
ghost use Rattle.bg_http_read.specs.Bodies.{can_end, is_whole as whole_at};
ghost use Rattle.bg_http_read.specs.declared.body.BodyStage.TheVariants as stage;
ghost use Rattle.bg_relay.specs.Framings.{incoming_of, most_to_come as most_of, outgoing_of};
ghost use Rattle.bg_relay.specs.Places.{first_stage as first_of};
ghost use Rattle.bg_relay.specs.Relays.{BreaksOff, IsFaultAt, IsRefusedBehind, KeepsSides, PassesOn};
ghost use Rattle.bg_relay.specs.Relays.{StandsFor, WaitsFor, ended_by, is_too_large, wants_input, with_written};
ghost use Rattle.bg_relay.specs.declared.relay_fault.RelayFault.TheVariants as fault;

use crate::framing::{Framing, Sides, first_stage, is_whole, most_to_come};
use crate::pieces::push_piece;
use crate::relay_fault::RelayFault;
use crate::steps::next_step;
use bg_http_read::BodyStage;
use std::alloc::{AllocError, Global};
use std::marker::Model;

/// A body that is passed on as it comes: what is read of it in the framing of the input is written in the framing of the output. It
/// has no socket: its caller feeds it what came, writes what it gives, and tells both.
pub struct Relay {
    incoming: Framing,
    outgoing: Framing,
    window: usize,
    /// The most bytes of the input that may be taken, and how many more of them may be.
    most: usize,
    left: usize,
    stage: BodyStage,
    fault: Option<RelayFault>,
    /// What is to be written.
    rest: Vec<u8>,
}

/// The bytes behind the first `count`.
fn behind(bytes: &[u8], count: usize) -> &[u8]
    requires { count ≤ length bytes.now }
    ensures { result.now ≡ drop count bytes.now }
{
    &bytes[count..]
}

impl Drop for Relay {
    /// Drops the fields by one call, so that the proofs of what owns a value are short (CONTRIBUTING.md, "What a check costs").
    fn drop(self) {
        let Relay {
            incoming: _,
            outgoing: _,
            window: _,
            most: _,
            left: _,
            stage: _,
            fault: _,
            rest: _,
        } = self;
    }
}

impl Model for Relay {
    ghost use Rattle.std.specs.Prelude.{◌≤◌, ◌+◌, IfSome, IsFalse, length, not};
    ghost use Rattle.bg_http_read.specs.Bodies.{is_whole};
    ghost use Rattle.bg_relay.specs.Pieces.{behind};
    ghost use Rattle.bg_relay.specs.Relays.{RelayState};

    ghost Value = { RelayState };

    ghost view = { λ r. record {
      incoming = r.incoming;
      outgoing = r.outgoing;
      window = r.window;
      most = r.most;
      left = r.left;
      stage = r.stage;
      fault = r.fault;
      rest = r.rest.items;
    } };

    ghost invariant = { λ r. (length r.rest.items + behind (not (is_whole r.stage)) ≤ r.window + 25)
        × IfSome r.fault (λ fault. IsFalse (is_whole r.stage)) };
}

impl Relay {
    /// A relay before the first byte of a body. Its output is filled up while it has fewer than `window` bytes; with a window of 0
    /// no byte of a body is taken. Of a body whose length is not told at most `most` bytes are taken, with its chunk lines and trailers.
    /// The only error is an allocation failure.
    pub fn new(alloc: Global, sides: Sides, window: usize, most: usize) -> Result<Relay, AllocError>
        ensures sides { IfOk result (λ relay. (relay.incoming ≡ incoming_of sides)
            × (relay.outgoing ≡ outgoing_of sides) × (relay.window ≡ window)) }
        ensures stage { IfOk result (λ relay. (relay.stage ≡ first_of (incoming_of sides))
            × (relay.fault ≡ None)) }
        ensures limit { IfOk result (λ relay. relay.most ≡ most_of (incoming_of sides) most) }
        ensures stands { IfOk result (λ relay. StandsFor relay [] []) }
    {
        let incoming = sides.incoming();
        let outgoing = sides.outgoing();
        let stage = first_stage(incoming);
        let most = most_to_come(incoming, most);
        let mut rest = Vec::new(alloc);
        push_piece(&mut rest, outgoing, &[], is_whole(stage))?;
        Ok(Relay {
            incoming,
            outgoing,
            window,
            most,
            left: most,
            stage,
            fault: None,
            rest,
        })
    }

    /// Whether the body is whole: all of it was taken from the input, and the output ends with its end.
    pub fn is_whole(&self) -> bool
        ensures { result ≡ whole_at self.now.stage }
    {
        is_whole(self.stage)
    }

    /// Whether more of the input is to be fed: the body is not whole, no fault has ended it, and the output has room. If it has
    /// none, the caller does not read from the source.
    pub fn wants_input(&self) -> bool
        ensures { result ≡ wants_input self.now }
    {
        self.fault.is_none() && !is_whole(self.stage) && self.rest.len() < self.window
    }

    /// The fault that ended it, if one did.
    pub fn fault(&self) -> Option<RelayFault>
        ensures { result ≡ self.now.fault }
    {
        self.fault
    }

    /// What is to be written next.
    pub fn rest(&self) -> &[u8]
        ensures rest { result.now ≡ self.now.rest }
        ensures within { length self.now.rest ≤ self.now.window + 25 }
    {
        self.rest.as_slice()
    }

    /// Notes that so many bytes more were written, at most the rest.
    pub fn wrote(&mut self, count: usize)
        ensures state { self.new ≡ with_written self.old count }
        ensures stands { (input written : List ℕ) → StandsFor self.old input written
            → StandsFor self.new input (written ++ take count self.old.rest) }
    {
        if count >= self.rest.len() {
            self.rest.clear();
            return;
        }
        let left = self.rest.len() - count;
        self.rest.rotate_left(count);
        self.rest.truncate(left);
    }

    /// Takes bytes of the input as far as there is room, and gives their number. Those behind them are to be fed again: at once, if
    /// the output has room again, or with more bytes, if they end within a line or trailers, of which fewer than 16,384 bytes wait.
    /// If the body is whole, they are not of it.
    ///
    /// Chunks are read as `bg_http_read` reads them: extensions and trailers are dropped, a line may have 1,024 bytes, and trailers
    /// 16,384 bytes and 64 fields. A chunk of the input need not be a chunk of the output.
    ///
    /// The fault is Malformed, TooLarge or OutOfMemory. It is TooLarge, and none of the bytes is taken, if they and those that were
    /// taken before are more than the limit, and the body is not whole. After a fault nothing more is taken: each call gives the same
    /// fault again.
    pub fn feed(&mut self, bytes: &[u8]) -> Result<usize, RelayFault>
        ensures fits { IfOk result (λ taken. taken ≤ length bytes.now) }
        ensures stands { IfOk result (λ taken. PassesOn self.old self.new (take taken bytes.now)) }
        ensures waits { IfOk result (λ taken. WaitsFor self.new (drop taken bytes.now)) }
        ensures is_open { IfOk result (λ taken. self.new.fault ≡ None) }
        ensures refused { IfErr result (λ fault. self.old.fault ≡ None
            → BreaksOff self.old self.new bytes.now fault) }
        ensures limit { self.old.fault ≡ None → IsTrue (is_too_large self.old bytes.now)
            → (result ≡ Err fault.TooLarge) × (self.new ≡ ended_by fault.TooLarge self.old) }
        ensures stays { IfSome self.old.fault (λ fault. (result ≡ Err fault) × (self.new ≡ self.old)) }
        ensures whole { IsTrue (whole_at self.old.stage) → (result ≡ Ok 0) × (self.new ≡ self.old) }
        ensures sides { KeepsSides self.old self.new }
    {
        if let Some(fault) = self.fault {
            return Err(fault);
        }
        let taken = self.take_within_limit(bytes);
        if let Err(fault) = &taken {
            self.fault = Some(*fault);
        }
        taken
    }

    /// The input has ended. The body is whole then if it goes to the end of the input; otherwise it is cut off, and its end is not
    /// written. In the framing that goes to the end of the connection no end is written: so the caller resets the connection of a
    /// body that is cut off.
    ///
    /// The fault is Cut, OutOfMemory, or the fault that ended the relay before.
    pub fn end_input(&mut self) -> Result<(), RelayFault>
        ensures stands { OnOk result (PassesOn self.old self.new []) }
        ensures whole { OnOk result (IsTrue (whole_at self.new.stage) × (self.new.fault ≡ None)) }
        ensures cut { self.old.fault ≡ None → IsFalse (can_end self.old.stage)
            → (result ≡ Err fault.Cut) × (self.new ≡ ended_by fault.Cut self.old) }
        ensures memory { self.old.fault ≡ None → IsTrue (can_end self.old.stage)
            → IfErr result (λ named. (named ≡ fault.OutOfMemory) × (self.new ≡ ended_by named self.old)) }
        ensures stays { IfSome self.old.fault (λ named. (result ≡ Err named) × (self.new ≡ self.old)) }
        ensures again { IsTrue (whole_at self.old.stage) → IsOk result × (self.new ≡ self.old) }
        ensures sides { KeepsSides self.old self.new }
    {
        if let Some(fault) = self.fault {
            return Err(fault);
        }
        if is_whole(self.stage) {
            return Ok(());
        }
        let ended = self.end_here();
        if let Err(fault) = ended {
            self.fault = Some(fault);
        }
        ended
    }

    /// The input has ended here, before the body was whole. A fault changes nothing.
    fn end_here(&mut self) -> Result<(), RelayFault>
        requires is_open { self.old.fault ≡ None }
        requires missing { IsFalse (whole_at self.old.stage) }
        ensures stands { OnOk result (PassesOn self.old self.new []) }
        ensures whole { OnOk result (self.new.stage ≡ stage.Whole) }
        ensures is_open { self.new.fault ≡ None }
        ensures refused { IfErr result (λ named. (self.new ≡ self.old)
            × (named ≡ (if can_end self.old.stage then fault.OutOfMemory else fault.Cut))) }
        ensures cut { IsFalse (can_end self.old.stage) → IsErr result }
        ensures sides { KeepsSides self.old self.new }
    {
        let BodyStage::ToTheEnd = self.stage else {
            return Err(RelayFault::Cut);
        };
        if push_piece(&mut self.rest, self.outgoing, &[], true).is_err() {
            return Err(RelayFault::OutOfMemory);
        }
        self.stage = BodyStage::Whole;
        Ok(())
    }

    /// Takes bytes of the input as far as there is room, unless more came than may be taken, and gives their number.
    fn take_within_limit(&mut self, bytes: &[u8]) -> Result<usize, RelayFault>
        requires { self.old.fault ≡ None }
        ensures fits { IfOk result (λ taken. taken ≤ length bytes.now) }
        ensures stands { IfOk result (λ taken. PassesOn self.old self.new (take taken bytes.now)) }
        ensures waits { IfOk result (λ taken. WaitsFor self.new (drop taken bytes.now)) }
        ensures refused { IfErr result (λ named. IsRefusedBehind self.old self.new bytes.now named) }
        ensures limit { IsTrue (is_too_large self.old bytes.now) → (result ≡ Err fault.TooLarge) × (self.new ≡ self.old) }
        ensures is_open { self.new.fault ≡ None }
        ensures whole { IsTrue (whole_at self.old.stage) → (result ≡ Ok 0) × (self.new ≡ self.old) }
        ensures sides { KeepsSides self.old self.new }
    {
        if is_whole(self.stage) {
            return Ok(0);
        }
        if bytes.len() > self.left {
            return Err(RelayFault::TooLarge);
        }
        self.take_all(bytes)
    }

    /// Takes bytes of the input as far as there is room, and gives their number.
    fn take_all(&mut self, bytes: &[u8]) -> Result<usize, RelayFault>
        requires is_open { self.old.fault ≡ None }
        requires within { length bytes.now ≤ self.old.left }
        ensures fits { IfOk result (λ taken. taken ≤ length bytes.now) }
        ensures stands { IfOk result (λ taken. PassesOn self.old self.new (take taken bytes.now)) }
        ensures waits { IfOk result (λ taken. WaitsFor self.new (drop taken bytes.now)) }
        ensures refused { IfErr result (λ named. IsRefusedBehind self.old self.new bytes.now named) }
        ensures is_open { self.new.fault ≡ None }
        ensures sides { KeepsSides self.old self.new }
    {
        let mut taken = 0;
        loop {
            match self.take(behind(bytes, taken)) {
                Ok(0) => return Ok(taken),
                Ok(count) => taken += count,
                Err(fault) => return Err(fault),
            }
        }
    }

    /// Takes the next bytes of the input, and gives their number: 0 if none can be taken. A fault changes nothing.
    fn take(&mut self, bytes: &[u8]) -> Result<usize, RelayFault>
        requires is_open { self.old.fault ≡ None }
        requires within { length bytes.now ≤ self.old.left }
        ensures fits { IfOk result (λ count. count ≤ length bytes.now) }
        ensures stands { IfOk result (λ count. PassesOn self.old self.new (take count bytes.now)) }
        ensures waits { IfOk result (λ count. count ≡ 0
            → (self.new ≡ self.old) × WaitsFor self.old bytes.now) }
        ensures refused { IfErr result (λ named. (self.new ≡ self.old)
            × IsFalse (whole_at self.old.stage) × IsFaultAt named self.old.stage self.old.left bytes.now) }
        ensures counts { IfOk result (λ count. self.new.left + count ≡ self.old.left) }
        ensures is_open { self.new.fault ≡ None }
        ensures sides { KeepsSides self.old self.new }
    {
        let room = self.window.saturating_sub(self.rest.len());
        let step = match next_step(self.stage, bytes, room) {
            Ok(Some(step)) => step,
            Ok(None) => return Ok(0),
            Err(_) => return Err(RelayFault::Malformed),
        };
        let is_last = is_whole(step.next);
        if push_piece(&mut self.rest, self.outgoing, step.data(bytes), is_last).is_err() {
            return Err(RelayFault::OutOfMemory);
        }
        self.stage = step.next;
        self.left -= step.count;
        Ok(step.count)
    }
}
