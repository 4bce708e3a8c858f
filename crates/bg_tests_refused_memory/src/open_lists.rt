//! The call of `bg_openlist` that allocates.

use crate::asking::made;
use crate::stop::Stop;
use bg_openlist::OpenLists;
use std::alloc::Global;

pub fn make_calls<R: AllocGlobal + Print + Eprint>(rt: &R) -> Result<(), Stop> {
    let lists = make_lists(rt)?;
    show_lists(rt, &lists)
}

fn show_lists<R: Print>(rt: &R, lists: &OpenLists<u64>) -> Result<(), Stop> {
    println!(rt;
        "{} {:?} {:?}",
        lists.len(0),
        lists.front(0),
        lists.list_of(0)
    )?;
    Ok(())
}

fn make_lists<R: AllocGlobal + Print + Eprint>(rt: &R) -> Result<OpenLists<u64>, Stop> {
    made(rt, "OpenLists::new", || new_lists(rt.alloc()))
}

fn new_lists(alloc: Global) -> Result<OpenLists<u64>, Stop> {
    Ok(OpenLists::new(alloc, 8)?)
}
