//! The orders of standard input.

use crate::serving::Run;
use bg_book::{Control, Desk};
use bg_ledger::Names;
use bg_revisions::{Name, Ports};
use std::alloc::AllocError;
use std::io::Read;
use std::sync::Wait;

/// A moment, in seconds from the start, at which a revision that is not active is scaled down.
const LATE: u64 = 3_600;

/// Carries out the orders of standard input. Its end, and each other byte, begins the shutdown.
pub fn carry_out_orders<'a, N: Names, R: Input + Wait>(run: &Run<'a, R>, desk: &Desk<N>) {
    for _ in 0..u64::MAX {
        let mut byte = [0; 1];
        let Ok(1) = run.rt.reader().read(&mut byte) else {
            break;
        };
        if !is_carried_out(run, desk, byte[0]) {
            break;
        }
    }
    run.port.shut_down();
}

/// Carries out an order. Gives whether it is one; a shutdown is not.
fn is_carried_out<'a, N: Names, R: Wait>(run: &Run<'a, R>, desk: &Desk<N>, order: u8) -> bool {
    match order {
        b's' => take_place(run, desk).is_ok(),
        b'd' => set_down(run, 1).is_ok(),
        b'u' => set_down(run, 0).is_ok(),
        _ => false,
    }
}

/// Lets the second revision take the place of the first one, which is then scaled down.
fn take_place<'a, N: Names, R: Wait>(run: &Run<'a, R>, desk: &Desk<N>) -> Result<(), AllocError> {
    let deploy = Control::Deploy {
        name: Name::new(run.alloc, "v2")?,
        ports: Ports::new(run.alloc, &[run.words.next])?,
    };
    let available = Control::Available {
        revision: 2,
        size: 1,
    };
    // what is refused changes nothing, and the check of it fails
    let _ = desk.control_with_compaction(run.rt, &deploy);
    let _ = desk.control_with_compaction(run.rt, &available);
    let _ = desk.control_with_compaction(run.rt, &Control::Tick(LATE));
    Ok(())
}

/// Says that the first so many endpoints are down.
fn set_down<'a, R: Wait>(run: &Run<'a, R>, count: usize) -> Result<(), AllocError> {
    if let Some(directory) = run.directory {
        let ports = run.words.endpoints.as_slice();
        directory.set_down(run.rt, ports[..count.min(ports.len())].to_vec(run.alloc)?);
    }
    Ok(())
}
