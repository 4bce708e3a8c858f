//! Requests that are received before their connections are served. They end as those that are read while they are
//! served, and nothing is read from their clients.

use crate::cases::{CASES, check_case};
use crate::connections::{Receiving, SOUND, Setting};
use crate::messages::{Expected, expect, refusal};
use bg_forward::End;
use bg_http::RequestFault;
use std::test::Fail;

#[test]
fn received_requests_end_alike(rt: HostRuntime) -> Result<(), Fail> {
    for case in &CASES {
        let outcome = check_case(&rt, rt.alloc(), case, Receiving::Before)?;
        assert_eq!(rt; outcome.reads_while_served, 0, "{}", case.setting.name);
    }
    Ok(())
}

/// How the connection of each fault ends.
const FAULTS: [(RequestFault, End); 8] = [
    (RequestFault::Bad, End::Refused(400)),
    (RequestFault::TooLarge, End::Refused(413)),
    (RequestFault::HeadTooLarge, End::Refused(431)),
    (RequestFault::NotDone, End::Refused(501)),
    (RequestFault::OutOfMemory, End::Refused(503)),
    (RequestFault::Closed, End::Closed),
    (RequestFault::ReadFailed, End::ReadFailed),
    (RequestFault::WriteFailed, End::WriteFailed),
];

#[test]
fn faults_end_their_connections(rt: HostRuntime) -> Result<(), Fail> {
    for (fault, end) in FAULTS {
        let setting = Setting {
            receiving: Receiving::Fault(fault),
            ..SOUND
        };
        let written = match end {
            End::Refused(status) => refusal(status),
            _ => "",
        };
        let outcome = expect(&rt, rt.alloc(), &setting, Expected::outside(end, written))?;
        assert_eq!(rt; outcome.reads_while_served, 0, "{fault:?}");
    }
    Ok(())
}
