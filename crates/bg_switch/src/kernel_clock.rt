//! The boot clock of the kernel.
ghost use Rattle.std.specs.Prelude.{◌≡◌, ◌+◌, ◌-◌, ◌*◌, ◌/◌, ◌^◌, min, true};

use bg_script::BootClock;
use libc::types::timespec;

/// The number of Linux's clock that counts since the machine's start, time in suspension included (clock_gettime(2)).
const CLOCK_BOOTTIME: i32 = 7;

/// The boot clock of the kernel. That the kernel gives its readings is trusted.
#[derive(Clone, Copy, Drop)]
pub struct KernelClock;

impl BootClock for KernelClock {
    ghost reads = { λ _ _. true };

    fn milliseconds(&self) -> u64 {
        let mut time = timespec {
            tv_sec: 0,
            tv_nsec: 0,
        };
        if libc::clock_gettime(CLOCK_BOOTTIME, &mut time) != 0 || time.tv_sec < 0 {
            return u64::MAX;
        }
        whole_milliseconds(time.tv_sec.unsigned_abs(), time.tv_nsec.unsigned_abs())
    }
}

/// The whole milliseconds in this many seconds and nanoseconds, at most `u64::MAX`.
fn whole_milliseconds(seconds: u64, nanoseconds: u64) -> u64
    ensures { result ≡ min (seconds * 1000 + nanoseconds / 1000000) (2 ^ 64 - 1) }
{
    seconds
        .saturating_mul(1000)
        .saturating_add(nanoseconds / 1_000_000)
}
