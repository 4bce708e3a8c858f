//! The nodes, and the steps that change one node or two neighbours.
ghost use Rattle.std.specs.Prelude.{◌≡◌, ◌+◌, ◌<◌, slice_index_or, slice_set, option_map, replicate, IfOk, Some, None};
ghost use Rattle.std.specs.Vec.{vec_len};
ghost use Rattle.bg_openlist.specs.Family.{shown};
ghost use Rattle.bg_openlist.specs.Nodes.{AllLinked, IsAt, IsLoop, SameBlock, nexts, node_size, prevs, tags, values};

use crate::pointers::{Link, follow, follow_mut, place_of};
use std::alloc::{AllocError, Global};

/// One cell of the block: a list's head, a free node or a linked node.
#[derive(Drop)]
pub(crate) struct Node<T> {
    pub(crate) prev: Link<T>,
    pub(crate) next: Link<T>,
    /// The list in which the node is linked. It has no meaning for a free node or a head.
    pub(crate) list: usize,
    /// A linked node holds a value; a free node and a head hold none.
    pub(crate) value: Option<T>,
}

/// The two nodes between which a node stands.
struct Neighbours<T> {
    prev: Link<T>,
    next: Link<T>,
}

/// The link to the node of this number.
pub(crate) fn link_to<T>(nodes: &Vec<Node<T>>, index: usize) -> Link<T>
    requires { index < vec_len nodes.now }
    ensures at { IsAt (node_size T.row) nodes.now result }
    ensures index { result.index ≡ index }
{
    Link {
        ptr: place_of(nodes, index),
        index,
    }
}

/// The node to which the link leads.
pub(crate) fn node_at<T>(nodes: &Vec<Node<T>>, at: Link<T>) -> &Node<T>
    requires { IsAt (node_size T.row) nodes.now at }
    ensures { result.now ≡ slice_index_or nodes.now.items at.index result.now }
{
    follow(nodes, at.ptr, at.index)
}

/// The list of a node, if the node holds a value.
pub(crate) fn list_borne<T>(nodes: &Vec<Node<T>>, index: usize) -> Option<usize>
    requires { index < vec_len nodes.now }
    ensures { result ≡ option_map (λ _. slice_index_or (tags nodes.now.items) index 0)
        (slice_index_or (values nodes.now.items) index None) }
{
    let node = node_at(nodes, link_to(nodes, index));
    match &node.value {
        Some(_value) => Some(node.list),
        None => None,
    }
}

/// The number and the value of the node after this one; `None` if a head follows.
pub(crate) fn node_after<T>(nodes: &Vec<Node<T>>, index: usize) -> Option<(usize, &T)>
    requires within { index < vec_len nodes.now }
    requires linked { AllLinked (node_size T.row) nodes.now }
    ensures near { slice_index_or (nexts nodes.now.items) index 0 < vec_len nodes.now }
    ensures next { let next = slice_index_or (nexts nodes.now.items) index 0 in shown result
        ≡ option_map (λ x. (next, x)) (slice_index_or (values nodes.now.items) next None) }
{
    let next = node_at(nodes, link_to(nodes, index)).next;
    match &node_at(nodes, next).value {
        Some(value) => Some((next.index, value)),
        None => None,
    }
}

fn set_next<T>(nodes: &mut Vec<Node<T>>, at: Link<T>, to: Link<T>)
    requires at { IsAt (node_size T.row) nodes.old at }
    requires to { IsAt (node_size T.row) nodes.old to }
    requires linked { AllLinked (node_size T.row) nodes.old }
    ensures block { SameBlock nodes.old nodes.new }
    ensures linked { AllLinked (node_size T.row) nodes.new }
    ensures nexts { nexts nodes.new.items ≡ slice_set (nexts nodes.old.items) at.index to.index }
    ensures prevs { prevs nodes.new.items ≡ prevs nodes.old.items }
    ensures tags { tags nodes.new.items ≡ tags nodes.old.items }
    ensures values { values nodes.new.items ≡ values nodes.old.items }
{
    follow_mut(nodes, at.ptr, at.index).next = to;
}

fn set_prev<T>(nodes: &mut Vec<Node<T>>, at: Link<T>, to: Link<T>)
    requires at { IsAt (node_size T.row) nodes.old at }
    requires to { IsAt (node_size T.row) nodes.old to }
    requires linked { AllLinked (node_size T.row) nodes.old }
    ensures block { SameBlock nodes.old nodes.new }
    ensures linked { AllLinked (node_size T.row) nodes.new }
    ensures nexts { nexts nodes.new.items ≡ nexts nodes.old.items }
    ensures prevs { prevs nodes.new.items ≡ slice_set (prevs nodes.old.items) at.index to.index }
    ensures tags { tags nodes.new.items ≡ tags nodes.old.items }
    ensures values { values nodes.new.items ≡ values nodes.old.items }
{
    follow_mut(nodes, at.ptr, at.index).prev = to;
}

/// Fills a node, and links it to the two nodes between which it will stand. Gives the value that it held.
fn fill<T>(
    nodes: &mut Vec<Node<T>>,
    at: Link<T>,
    between: Neighbours<T>,
    list: usize,
    value: T,
) -> Option<T>
    requires at { IsAt (node_size T.row) nodes.old at }
    requires between { IsAt (node_size T.row) nodes.old between.prev
        × IsAt (node_size T.row) nodes.old between.next }
    requires linked { AllLinked (node_size T.row) nodes.old }
    ensures block { SameBlock nodes.old nodes.new }
    ensures linked { AllLinked (node_size T.row) nodes.new }
    ensures nexts { nexts nodes.new.items
        ≡ slice_set (nexts nodes.old.items) at.index between.next.index }
    ensures prevs { prevs nodes.new.items
        ≡ slice_set (prevs nodes.old.items) at.index between.prev.index }
    ensures tags { tags nodes.new.items ≡ slice_set (tags nodes.old.items) at.index list }
    ensures values { values nodes.new.items
        ≡ slice_set (values nodes.old.items) at.index (Some value) }
    ensures held { result ≡ slice_index_or (values nodes.old.items) at.index None }
{
    let Neighbours { prev, next } = between;
    let node = follow_mut(nodes, at.ptr, at.index);
    node.prev = prev;
    node.next = next;
    node.list = list;
    node.value.replace(value)
}

/// Takes the value out of a node.
fn take<T>(nodes: &mut Vec<Node<T>>, at: Link<T>) -> Option<T>
    requires at { IsAt (node_size T.row) nodes.old at }
    requires linked { AllLinked (node_size T.row) nodes.old }
    ensures block { SameBlock nodes.old nodes.new }
    ensures linked { AllLinked (node_size T.row) nodes.new }
    ensures nexts { nexts nodes.new.items ≡ nexts nodes.old.items }
    ensures prevs { prevs nodes.new.items ≡ prevs nodes.old.items }
    ensures tags { tags nodes.new.items ≡ tags nodes.old.items }
    ensures values { values nodes.new.items ≡ slice_set (values nodes.old.items) at.index None }
    ensures held { result ≡ slice_index_or (values nodes.old.items) at.index None }
{
    follow_mut(nodes, at.ptr, at.index).value.take()
}

/// Links the two neighbours of a node to each other. Gives the number of the node's list, and takes its value.
pub(crate) fn detach<T>(nodes: &mut Vec<Node<T>>, at: Link<T>) -> (usize, Option<T>)
    requires at { IsAt (node_size T.row) nodes.old at }
    requires linked { AllLinked (node_size T.row) nodes.old }
    ensures block { SameBlock nodes.old nodes.new }
    ensures linked { AllLinked (node_size T.row) nodes.new }
    ensures near { (slice_index_or (prevs nodes.old.items) at.index 0 < vec_len nodes.old)
        × (slice_index_or (nexts nodes.old.items) at.index 0 < vec_len nodes.old) }
    ensures nexts { nexts nodes.new.items ≡ slice_set (nexts nodes.old.items)
        (slice_index_or (prevs nodes.old.items) at.index 0)
        (slice_index_or (nexts nodes.old.items) at.index 0) }
    ensures prevs { prevs nodes.new.items ≡ slice_set (prevs nodes.old.items)
        (slice_index_or (nexts nodes.old.items) at.index 0)
        (slice_index_or (prevs nodes.old.items) at.index 0) }
    ensures tags { tags nodes.new.items ≡ tags nodes.old.items }
    ensures values { values nodes.new.items ≡ slice_set (values nodes.old.items) at.index None }
    ensures list { result.0 ≡ slice_index_or (tags nodes.old.items) at.index 0 }
    ensures held { result.1 ≡ slice_index_or (values nodes.old.items) at.index None }
{
    let node = node_at(nodes, at);
    let prev = node.prev;
    let next = node.next;
    let list = node.list;
    set_next(nodes, prev, next);
    set_prev(nodes, next, prev);
    (list, take(nodes, at))
}

/// Fills a node, and inserts it directly before a head. Gives the value that the node held.
pub(crate) fn attach<T>(
    nodes: &mut Vec<Node<T>>,
    head: Link<T>,
    at: Link<T>,
    list: usize,
    value: T,
) -> Option<T>
    requires head { IsAt (node_size T.row) nodes.old head }
    requires at { IsAt (node_size T.row) nodes.old at }
    requires linked { AllLinked (node_size T.row) nodes.old }
    ensures block { SameBlock nodes.old nodes.new }
    ensures linked { AllLinked (node_size T.row) nodes.new }
    ensures near { slice_index_or (prevs nodes.old.items) head.index 0 < vec_len nodes.old }
    ensures nexts { nexts nodes.new.items ≡ slice_set
        (slice_set (nexts nodes.old.items) at.index head.index)
        (slice_index_or (prevs nodes.old.items) head.index 0) at.index }
    ensures prevs { prevs nodes.new.items ≡ slice_set
        (slice_set (prevs nodes.old.items) at.index
        (slice_index_or (prevs nodes.old.items) head.index 0)) head.index at.index }
    ensures tags { tags nodes.new.items ≡ slice_set (tags nodes.old.items) at.index list }
    ensures values { values nodes.new.items
        ≡ slice_set (values nodes.old.items) at.index (Some value) }
    ensures held { result ≡ slice_index_or (values nodes.old.items) at.index None }
{
    let last = node_at(nodes, head).prev;
    let between = Neighbours {
        prev: last,
        next: head,
    };
    let held = fill(nodes, at, between, list, value);
    set_next(nodes, last, at);
    set_prev(nodes, head, at);
    held
}

/// Makes `count` nodes, each empty and linked to itself. The only error is an allocation failure.
pub(crate) fn empty_nodes<T: Drop>(alloc: Global, count: usize) -> Result<Vec<Node<T>>, AllocError>
    ensures { IfOk result (λ v. (vec_len v ≡ count) × IsLoop (node_size T.row) v count
        × (values v.items ≡ replicate count None)) }
{
    let mut nodes = Vec::with_capacity(alloc, count)?;
    for _ in 0..count {
        let node = Node {
            prev: Link::dangling(),
            next: Link::dangling(),
            list: 0,
            value: None,
        };
        match nodes.push(node) {
            Ok(()) => {}
            Err(_refused) => return Err(AllocError),
        }
    }
    for index in 0..count {
        close(&mut nodes, index);
    }
    Ok(nodes)
}

/// Links one node to itself.
fn close<T>(nodes: &mut Vec<Node<T>>, index: usize)
    requires within { index < vec_len nodes.old }
    requires loops { IsLoop (node_size T.row) nodes.old index }
    ensures block { SameBlock nodes.old nodes.new }
    ensures loops { IsLoop (node_size T.row) nodes.new (index + 1) }
    ensures values { values nodes.new.items ≡ values nodes.old.items }
{
    let at = link_to(nodes, index);
    let node = follow_mut(nodes, at.ptr, at.index);
    node.prev = at;
    node.next = at;
}
