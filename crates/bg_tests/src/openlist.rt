//! The lists that are linked by pointers.

mod lists;
