//! Raw pointers into a block of cells, and the few functions that make and dereference them.
ghost use Rattle.std.specs.Prelude.{◌≡◌, ℕ, ◌*◌, ◌^◌, ◌<◌, slice_index_or, ⊤};
ghost use Rattle.std.specs.Borrow.{sem};
ghost use Rattle.std.specs.Vec.{vec_len, vec_capacity, vec_ptr, vec_follows_item};
ghost use Rattle.std.specs.Mem.{type_size};
ghost use denote.RawPtr.{InBlock};
ghost use denote.Sharing.{said};
ghost use Rattle.bg_openlist.specs.Places.{LeadsTo, place, stride_owns};

use crate::nodes::Node;
use std::alloc::{AllocError, Allocator};
use std::marker::{Model, PhantomData, Send, Sync};
use std::ptr::{self, NonNull};

/// The address and the number of a node in the block. A link owns nothing: only the owner of the block can
/// dereference it.
pub(crate) struct Link<T> {
    pub(crate) ptr: *mut Node<T>,
    pub(crate) index: usize,
}

impl<T> Clone for Link<T> {
    ghost is_clone = { λ x y. y ≡ x };

    ghost is_infallible = { λ _. ⊤ };

    fn clone(&self) -> Result<Link<T>, AllocError> {
        Ok(*self)
    }
}

impl<T> Copy for Link<T> {}

impl<T> Link<T> {
    /// A link that leads nowhere.
    pub(crate) fn dangling() -> Link<T> {
        Link {
            ptr: ptr::null_mut(),
            index: 0,
        }
    }
}

unsafe impl<T> Send for Link<T> {}

unsafe impl<T> Sync for Link<T> {}

/// The distance from one cell to the next in bytes, as a number that proofs see. It takes no space at run time.
#[derive(Drop)]
pub(crate) struct Stride<X> {
    mark: PhantomData<*const X>,
    ghost bytes: { ℕ },
}

impl<X> Model for Stride<X> {
    ghost also_owns = { λ s. stride_owns X.row s.bytes };

    ghost also_shares = { λ s _ κ. said (stride_owns X.row s.bytes) κ };
}

unsafe impl<X> Send for Stride<X> {}

unsafe impl<X> Sync for Stride<X> {}

impl<X> Stride<X> {
    pub(crate) fn new() -> Stride<X>
        ensures { result.bytes ≡ type_size X.row }
    {
        Stride { mark: PhantomData }
    }

    /// Proves how many bytes these are. It does nothing at run time.
    pub(crate) fn shows(&self)
        ensures { self.now.bytes ≡ type_size X.row }
    {}
}

/// Proves that the block has an address and that its size in bytes is below 2^63. It does nothing at run time.
fn is_placed<X, B: Allocator>(block: &Vec<X, B>)
    ensures { InBlock (vec_ptr block.now) × (vec_capacity block.now * type_size X.row < 2 ^ 63) }
{}

/// The address of the cell of this number.
pub(crate) fn place_of<X, B: Allocator>(block: &Vec<X, B>, index: usize) -> *mut X
    requires { index < vec_len block.now }
    ensures { result ≡ place (type_size X.row) block.now index }
{
    is_placed(block);
    let first = block.as_ptr();
    unsafe { NonNull::new_unchecked(first.cast_mut()).add(index).as_ptr() }
}

/// The cell to which the pointer leads. The code uses only the pointer; contracts identify the cell by its number.
pub(crate) fn follow<X, B: Allocator>(block: &Vec<X, B>, ptr: *mut X, index: usize) -> &X
    requires { LeadsTo (type_size X.row) block.now ptr index }
    ensures { result.now ≡ slice_index_or block.now.items index result.now }
{
    unsafe { &*ptr }
}

/// The cell to which the pointer leads, for writing.
pub(crate) fn follow_mut<X, B: Allocator>(
    block: &mut Vec<X, B>,
    ptr: *mut X,
    index: usize,
) -> &mut X
    requires { LeadsTo (type_size X.row) block.old ptr index }
    ensures* writes_back { sem 𝓛
        (vec_follows_item X.row B.row B.Allocator block.entry index result) }
    ensures value { result.now ≡ slice_index_or block.old.items index result.now }
{
    unsafe { &mut *ptr }
}
