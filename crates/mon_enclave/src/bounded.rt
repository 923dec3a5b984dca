// A list whose room is taken when it is made.
ghost use Rattle.std.specs.Prelude.{◌≡◌, ◌≤◌, ◌<◌, [], ◌∷◌, ◌++◌, length, drop, slice_set, IfOk};

use std::alloc::{AllocError, Global};
use std::marker::Model;

/// A list of at most `N` items, with room for all of them from the start. Contracts see the list.
#[derive(Debug, Drop)]
pub struct Bounded<T, const N: usize> {
    items: Vec<T>,
}

impl<T, const N: usize> Model for Bounded<T, N> {
    ghost use Rattle.std.specs.Prelude.{List, ◌≤◌, vec_len, vec_capacity};
    ghost use Rattle.std.specs.Coded.{coded_list};

    ghost Value = { List T };

    ghost coded = { coded_list T.code };

    ghost view = { λ b. b.items.items };

    ghost invariant = { λ b. (vec_len b.items ≤ N) × (N ≤ vec_capacity b.items) };
}

impl<T, const N: usize> Bounded<T, N> {
    /// The empty list.
    pub fn new(alloc: Global) -> Result<Self, AllocError>
        ensures { IfOk result (λ list. list ≡ []) }
    {
        Ok(Bounded {
            items: Vec::with_capacity(alloc, N)?,
        })
    }

    pub fn as_slice(&self) -> &[T]
        ensures items { result.now ≡ self.now }
        ensures few { length self.now ≤ N }
    {
        self.items.as_slice()
    }

    pub fn len(&self) -> usize
        ensures value { result ≡ length self.now }
        ensures few { length self.now ≤ N }
    {
        self.items.len()
    }
}

impl<T: Drop, const N: usize> Bounded<T, N> {
    /// Takes all items out. The room stays.
    pub fn clear(&mut self)
        ensures { self.new ≡ [] }
    {
        self.items.clear();
    }

    /// Puts an item last, without memory.
    pub fn push(&mut self, item: T)
        requires { length self.old < N }
        ensures { self.new ≡ self.old ++ item ∷ [] }
    {
        self.items.push(item).unwrap();
    }

    /// Puts another item at a place.
    pub fn set(&mut self, place: usize, item: T)
        requires { place < length self.old }
        ensures { self.new ≡ slice_set self.old place item }
    {
        self.items[place] = item;
    }

    /// Takes the first item out. The room stays.
    pub fn remove_first(&mut self)
        requires { 0 < length self.old }
        ensures { self.new ≡ drop 1 self.old }
    {
        self.items.remove(0);
    }
}
