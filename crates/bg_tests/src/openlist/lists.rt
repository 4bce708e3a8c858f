//! A worked example of the lists. Each value is dropped once, and another thread may have the lists.
ghost use Rattle.std.specs.Prelude.{◌≡◌, ◌<◌};

use bg_openlist::OpenLists;
use std::marker::{Send, Sync};
use std::process::Abort;
use std::rc::Rc;
use std::test::Fail;

fn put<T>(rt: &impl Abort, lists: &mut OpenLists<T>, list: usize, node: usize, value: T)
    requires list { list < 64 }
    requires node { node < lists.old.nodes }
    ensures { lists.new.nodes ≡ lists.old.nodes }
{
    assert!(rt; lists.list_of(node).is_none());
    lists.link(list, node, value);
}

fn take<T>(rt: &impl Abort, lists: &mut OpenLists<T>, node: usize) -> T
    ensures { lists.new.nodes ≡ lists.old.nodes }
{
    assert!(rt; lists.list_of(node).is_some());
    lists.unlink(node)
}

/// Whether the list has just these nodes and values, in this order.
fn holds(lists: &OpenLists<u64>, list: usize, want: &[(usize, u64)]) -> bool {
    if lists.len(list) != want.len() {
        return false;
    }
    let mut at = lists.front(list);
    for (node, value) in want.iter() {
        match at {
            Some((found, held)) if found == *node && held == value => at = lists.next(found),
            _ => return false,
        }
    }
    at.is_none()
}

#[test]
fn unlinks_in_the_middle(rt: HostRuntime) -> Result<(), Fail> {
    let mut lists = OpenLists::new(rt.alloc(), 4)?;
    for node in 0..3 {
        put(&rt, &mut lists, 5, node, 10 + node as u64);
    }
    assert_eq!(rt; take(&rt, &mut lists, 1), 11);
    assert!(rt; holds(&lists, 5, &[(0, 10), (2, 12)]));
    for list in [4, 64] {
        assert!(rt; holds(&lists, list, &[]), "list {list}");
    }
    for (node, list) in [(0, Some(5)), (1, None), (2, Some(5)), (3, None), (4, None)] {
        assert_eq!(rt; lists.list_of(node), list, "node {node}");
    }
    assert_eq!(rt; lists.next(1), None);
    Ok(())
}

#[test]
fn drop_once(rt: HostRuntime) -> Result<(), Fail> {
    let counted = Rc::new(rt.alloc(), 0)?;
    let mut lists = OpenLists::new(rt.alloc(), 10)?;
    for node in 0..10 {
        put(&rt, &mut lists, node % 3, node, counted.clone()?);
    }
    assert_eq!(rt; Rc::strong_count(&counted), 11);
    for node in 0..4 {
        take(&rt, &mut lists, 2 * node);
    }
    assert_eq!(rt; Rc::strong_count(&counted), 7);
    drop(lists);
    assert_eq!(rt; Rc::strong_count(&counted), 1);
    Ok(())
}

#[test]
fn links_as_many_nodes_as_there_may_be(rt: HostRuntime) -> Result<(), Fail> {
    let mut lists = OpenLists::new(rt.alloc(), 2048)?;
    for node in 0..2048 {
        put(&rt, &mut lists, 63, node, node as u64);
    }
    assert_eq!(rt; lists.len(63), 2048);
    assert_eq!(rt; take(&rt, &mut lists, 0), 0);
    assert_eq!(rt; take(&rt, &mut lists, 2047), 2047);
    let mut kept = Vec::new(rt.alloc());
    for node in 1..2047 {
        if node % 2 == 1 {
            assert_eq!(rt; take(&rt, &mut lists, node), node as u64);
        } else {
            kept.push((node, node as u64))?;
        }
    }
    assert_eq!(rt; kept.len(), 1023);
    assert!(rt; holds(&lists, 63, &kept));
    Ok(())
}

fn crosses<X: Send>(value: X) -> X {
    value
}

fn is_shared<X: Sync>(_value: &X) {}

#[test]
fn may_cross_threads(rt: HostRuntime) -> Result<(), Fail> {
    let mut lists = OpenLists::new(rt.alloc(), 1)?;
    put(&rt, &mut lists, 63, 0, 7u64);
    let mut lists = crosses(lists);
    is_shared(&lists);
    assert_eq!(rt; take(&rt, &mut lists, 0), 7);
    Ok(())
}
