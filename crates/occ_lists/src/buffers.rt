//! Lists that are used again from row to row, so that evaluating a row takes no memory once the lists are long enough.
ghost use Rattle.std.specs.Prelude.{◌≡◌, []};

use crate::occ::Occ;
use doc_types::Hit;
use std::alloc::Global;

/// Empty lists that have room.
#[derive(Drop)]
pub struct Buffers {
    occs: Vec<Vec<Occ>>,
    places: Vec<Vec<(u16, u32)>>,
    hits: Vec<Vec<Hit>>,
    alloc: Global,
}

impl Buffers {
    /// None yet, and where to take memory.
    pub fn new(alloc: Global) -> Buffers {
        Buffers {
            occs: Vec::new(alloc),
            places: Vec::new(alloc),
            hits: Vec::new(alloc),
            alloc,
        }
    }

    /// An empty list of occurrences.
    pub fn take_occs(&mut self) -> Vec<Occ>
        ensures { result.items ≡ [] }
    {
        match self.occs.pop() {
            Some(list) => emptied(list),
            None => Vec::new(self.alloc),
        }
    }

    /// Keeps a list for the next use. Where there is no memory to keep it, it goes.
    pub fn keep_occs(&mut self, list: Vec<Occ>) {
        let _ = self.occs.push(list);
    }

    /// An empty list of places.
    pub fn take_places(&mut self) -> Vec<(u16, u32)>
        ensures { result.items ≡ [] }
    {
        match self.places.pop() {
            Some(list) => emptied(list),
            None => Vec::new(self.alloc),
        }
    }

    /// Keeps a list of places for the next use, where there is memory for that.
    pub fn keep_places(&mut self, list: Vec<(u16, u32)>) {
        let _ = self.places.push(list);
    }

    /// An empty list of hits.
    pub fn take_hits(&mut self) -> Vec<Hit>
        ensures { result.items ≡ [] }
    {
        match self.hits.pop() {
            Some(list) => emptied(list),
            None => Vec::new(self.alloc),
        }
    }

    /// Keeps a list of hits for the next use, where there is memory for that.
    pub fn keep_hits(&mut self, list: Vec<Hit>) {
        let _ = self.hits.push(list);
    }

    /// Where lists take their memory.
    pub fn alloc(&self) -> Global {
        self.alloc
    }
}

/// The list without its elements.
fn emptied<T: Drop>(list: Vec<T>) -> Vec<T>
    ensures { result.items ≡ [] }
{
    let mut list = list;
    list.clear();
    list
}
