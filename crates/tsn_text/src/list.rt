//! Lists in the making.
use std::alloc::{AllocError, Global};

/// A list in the making.
#[derive(Drop)]
pub struct ListBuilder<T> {
    list: Vec<T>,
    is_refused: bool,
}

impl<T: Copy> ListBuilder<T> {
    /// An empty list.
    pub fn new(alloc: Global) -> ListBuilder<T> {
        ListBuilder {
            list: Vec::new(alloc),
            is_refused: false,
        }
    }

    /// The list; the error says that there was no memory for all of it.
    pub fn finish(self) -> Result<Vec<T>, AllocError> {
        let ListBuilder { list, is_refused } = self;
        if is_refused {
            drop(list);
            return Err(AllocError);
        }
        Ok(list)
    }

    /// Memory was refused for what was to be in it.
    pub fn refuse(&mut self) {
        self.is_refused = true;
    }

    /// The list so far.
    pub fn list(&self) -> &[T] {
        self.list.as_slice()
    }

    /// One more.
    pub fn push(&mut self, one: T) {
        if !self.is_refused {
            self.is_refused = self.list.push(one).is_err();
        }
    }

    /// Takes the last one away.
    pub fn pop(&mut self) -> Option<T> {
        self.list.pop()
    }

    /// Empties it.
    pub fn clear(&mut self) {
        self.list.clear();
    }
}
