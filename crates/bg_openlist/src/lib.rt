//! Sixty-four lists over one block of nodes, linked by raw pointers. Removing a node from the middle of its list
//! needs no search and no allocation.
//!
//! The block is one vector of cells. The first sixty-four cells are the heads of the lists. The nodes follow them;
//! node k is cell 64 + k. Each list is a ring through its own head, so a link always leads to a cell: no link is
//! null, and the first and the last node are no special cases. In this example, node 4 and then node 0 are in list
//! 1, node 2 is in list 2, and nodes 1 and 3 are free. The arrows are the links to the next cell; each cell also has
//! a link to the previous one.
//!
//! ```text
//! cell      0      1      2     ..    63  |   64     65     66     67     68
//!         head   head   head        head  | node 0 node 1 node 2 node 3 node 4
//!         list 0 list 1 list 2     list 63| in 1    free  in 2    free  in 1
//!
//! list 1:  cell 1 ──► cell 68 ──► cell 64 ──► cell 1
//! list 2:  cell 2 ──► cell 66 ──► cell 2
//! list 0:  cell 0 ──► cell 0
//! ```
//!
//! Callers see a family of lists of (node, value), in which no node occurs twice.
#![tactic(auto)]

mod nodes;
mod open_lists;
mod pointers;

pub use open_lists::OpenLists;
