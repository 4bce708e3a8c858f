//! The lists.
ghost use Rattle.std.specs.Prelude.{◌≡◌, ◌<◌, ◌≤◌, ℕ, List, [], ◌∷◌, ◌++◌, ◌≢◌, false, true, length, map, replicate, slice_get, slice_set, Some, None, IfOk};
ghost use Rattle.bg_openlist.specs.Family.{IsFamily, empty_family, is_linked, list_at, list_of, next_of, places, shown, value_of, without_node};

use crate::nodes::{Node, attach, detach, empty_nodes, link_to, list_borne, node_after};
use crate::pointers::Stride;
use std::alloc::{AllocError, Global};
use std::marker::Model;

/// The number of lists. It is also the cell of the first node, which follows the heads.
const LISTS: usize = 64;

/// Sixty-four lists over one block of nodes. Each node is free, or it is in one list and has a value.
#[derive(Drop)]
pub struct OpenLists<T> {
    nodes: Vec<Node<T>>,
    lens: [usize; 64],
    stride: Stride<Node<T>>,
}

impl<T> Model for OpenLists<T> {
    ghost use Rattle.bg_openlist.specs.Family.{Family};

    ghost Value = { Family T };

    ghost use Rattle.bg_openlist.specs.Block.{HoldsLists, family_of};

    ghost view = { λ a. family_of a.nodes a.lens };

    ghost invariant = { λ a. HoldsLists a.stride.bytes a.nodes a.lens };
}

impl<T: Drop> OpenLists<T> {
    /// Makes sixty-four empty lists over 1 to 2,048 free nodes. The only error is an allocation failure. No other call
    /// allocates.
    pub fn new(alloc: Global, nodes: usize) -> Result<OpenLists<T>, AllocError>
        requires { (1 ≤ nodes) × (nodes ≤ 2048) }
        ensures empty { IfOk result (λ f. f ≡ empty_family nodes) }
        ensures places { IfOk result (λ f. places f ≡ replicate nodes None) }
        ensures family { IfOk result IsFamily }
    {
        let nodes = empty_nodes(alloc, LISTS + nodes)?;
        Ok(OpenLists {
            nodes,
            lens: no_lengths(),
            stride: Stride::new(),
        })
    }
}

impl<T> OpenLists<T> {
    /// The number of nodes in a list; 0 for a list number from 64 on.
    pub fn len(&self, list: usize) -> usize
        ensures len { result ≡ length (list_at self.now list) }
        ensures family { IsFamily self.now }
    {
        if list < LISTS { self.lens[list] } else { 0 }
    }

    /// The first node of a list, with its value.
    pub fn front(&self, list: usize) -> Option<(usize, &T)>
        ensures front { shown result ≡ slice_get (list_at self.now list) 0 }
        ensures family { IsFamily self.now }
    {
        self.stride.shows();
        if list >= LISTS {
            return None;
        }
        let (index, value) = node_after(&self.nodes, list)?;
        Some((index - LISTS, value))
    }

    /// The node that follows another in its list, with its value. `None` if the node is the last one or free.
    pub fn next(&self, node: usize) -> Option<(usize, &T)>
        ensures next { shown result ≡ next_of self.now node }
        ensures family { IsFamily self.now }
    {
        self.stride.shows();
        self.list_of(node)?;
        let (index, value) = node_after(&self.nodes, LISTS + node)?;
        Some((index - LISTS, value))
    }

    /// The list of a node; `None` if it is free.
    pub fn list_of(&self, node: usize) -> Option<usize>
        ensures list { result ≡ list_of self.now node }
        ensures family { IsFamily self.now }
    {
        if node >= self.nodes.len() - LISTS {
            return None;
        }
        list_borne(&self.nodes, LISTS + node)
    }

    /// Appends a free node with a value to a list.
    pub fn link(&mut self, list: usize, node: usize, value: T)
        requires list { list < 64 }
        requires node { node < self.old.nodes }
        requires free { is_linked self.old node ≡ false }
        ensures lists { self.new.lists ≡ slice_set self.old.lists list
            (list_at self.old list ++ (node, value) ∷ []) }
        ensures others { (l : ℕ) → (l ≢ list) → list_at self.new l ≡ list_at self.old l }
        ensures nodes { self.new.nodes ≡ self.old.nodes }
        ensures places { places self.new ≡ slice_set (places self.old) node (Some (list, value)) }
        ensures family { IsFamily self.new }
    {
        self.stride.shows();
        let head = link_to(&self.nodes, list);
        let at = link_to(&self.nodes, LISTS + node);
        let held = attach(&mut self.nodes, head, at, list, value);
        self.lens[list] += 1;
        match held {
            None => {}
            Some(_value) => unreachable!(),
        }
    }

    /// Removes a linked node from its list, and gives its value.
    pub fn unlink(&mut self, node: usize) -> T
        requires { is_linked self.old node ≡ true }
        ensures value { value_of self.old node ≡ Some result }
        ensures lists { self.new.lists ≡ map (without_node node) self.old.lists }
        ensures others { (l : ℕ) → (list_of self.old node ≢ Some l)
            → list_at self.new l ≡ list_at self.old l }
        ensures nodes { self.new.nodes ≡ self.old.nodes }
        ensures places { places self.new ≡ slice_set (places self.old) node None }
        ensures family { IsFamily self.new }
    {
        self.stride.shows();
        let at = link_to(&self.nodes, LISTS + node);
        let (list, held) = detach(&mut self.nodes, at);
        self.lens[list] -= 1;
        match held {
            Some(value) => value,
            None => unreachable!(),
        }
    }
}

fn no_lengths() -> [usize; 64]
    ensures { result ≡ replicate 64 0 }
{
    [0; 64]
}
