//! The tokens take no bytes: each side is as large as its index and four numbers, and blanks have no
//! size.
use bg_ledger::{Blanks, Seat, SeatRecord};
use std::marker::Brand;
use std::mem::size_of;

#[test]
fn tokens_take_no_bytes(rt: HostRuntime) {
    let numbers = size_of::<(u32, [u64; 4])>();
    assert_eq!(rt; size_of::<Seat<Brand>>(), numbers);
    assert_eq!(rt; size_of::<SeatRecord<Brand>>(), numbers);
    assert_eq!(rt; size_of::<Blanks>(), 0);
}
