//! A stream whose reads are interrupted without end.
use crate::paced_stream::{Pace, PacedStream};
use crate::passing::{Kind, read};
use bg_http::RequestFault;
use std::alloc::Global;

fn fault(alloc: Global, kind: Kind<'_>) -> Option<RequestFault> {
    let mut stream = PacedStream::new(alloc, b"", Pace::InterruptedAlways);
    read(alloc, kind, &mut stream).err()
}

#[test]
fn reads_that_are_always_interrupted_fail(rt: HostRuntime) {
    for kind in [Kind::Request, Kind::ResponseTo(b"GET")] {
        assert_eq!(rt; fault(rt.alloc(), kind), Some(RequestFault::ReadFailed));
    }
}
