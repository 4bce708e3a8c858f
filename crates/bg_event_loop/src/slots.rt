//! Values at keys.

use std::alloc::{AllocError, Global};

/// Values at keys. The key of a value that has left is given again only after [`Slots::reuse_keys`], so that no event of
/// the old value reaches a new one.
#[derive(Drop)]
pub(crate) struct Slots<T: Drop> {
    places: Vec<Option<T>>,
    free: Vec<usize>,
    left: Vec<usize>,
    used: usize,
}

impl<T: Drop> Slots<T> {
    pub(crate) fn new(alloc: Global) -> Slots<T> {
        Slots {
            places: Vec::new(alloc),
            free: Vec::new(alloc),
            left: Vec::new(alloc),
            used: 0,
        }
    }

    /// The number of keys that were given at once: each key is below it.
    pub(crate) fn bound(&self) -> usize {
        self.places.len()
    }

    /// Whether there is no value.
    pub(crate) fn is_empty(&self) -> bool {
        self.used == 0
    }

    /// The key of the next value.
    fn give_key(&mut self) -> Result<usize, AllocError> {
        if let Some(key) = self.free.pop() {
            return Ok(key);
        }
        let key = self.places.len();
        self.places.push(None)?;
        Ok(key)
    }

    /// Puts a value here, and gives its key.
    pub(crate) fn put(&mut self, value: T) -> Result<usize, AllocError> {
        let key = self.give_key()?;
        if let Some(place) = self.places.get_mut(key) {
            *place = Some(value);
        }
        self.used = self.used.saturating_add(1);
        Ok(key)
    }

    /// The value at a key.
    pub(crate) fn get(&self, key: usize) -> Option<&T> {
        match self.places.get(key) {
            Some(Some(value)) => Some(value),
            Some(None) | None => None,
        }
    }

    pub(crate) fn get_mut(&mut self, key: usize) -> Option<&mut T> {
        match self.places.get_mut(key) {
            Some(Some(value)) => Some(value),
            Some(None) | None => None,
        }
    }

    /// Lets the value at a key leave.
    pub(crate) fn remove(&mut self, key: usize) {
        let Some(place) = self.places.get_mut(key) else {
            return;
        };
        if let Some(_value) = place.take() {
            self.used = self.used.saturating_sub(1);
            // without memory, the key is not given again
            let _ = self.left.push(key);
        }
    }

    /// Lets the keys of the values that have left be given again.
    pub(crate) fn reuse_keys(&mut self) {
        for key in self.left.iter() {
            let _ = self.free.push(*key);
        }
        self.left.clear();
    }
}
