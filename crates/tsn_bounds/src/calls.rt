//! Which links are to be looked at, since bounds of their streams changed.
use crate::number::{index, is_marked, mark, next, push};
use std::alloc::{AllocError, Global};

/// The links that are to be looked at, one after another.
#[derive(Drop)]
pub struct Calls {
    waiting: Vec<u32>,
    // How many of them were looked at.
    passed: usize,
    is_waiting: Vec<bool>,
}

impl Calls {
    /// Over no links.
    pub fn none(alloc: Global) -> Calls {
        Calls {
            waiting: Vec::new(alloc),
            passed: 0,
            is_waiting: Vec::new(alloc),
        }
    }

    /// Makes them ones over so many links. The error says that there was no memory.
    pub fn size(&mut self, links: usize) -> Result<(), AllocError> {
        self.is_waiting.resize(links, false)
    }

    /// Notes that a link is to be looked at.
    pub fn call(&mut self, link: usize) -> Result<(), AllocError> {
        if link >= self.is_waiting.len() || is_marked(&self.is_waiting, link) {
            return Ok(());
        }
        mark(&mut self.is_waiting, link, true);
        push(&mut self.waiting, index(link))
    }

    /// The link that is to be looked at next.
    pub fn next(&mut self) -> Option<usize> {
        let Some(&first) = self.waiting.get(self.passed) else {
            self.dismiss();
            return None;
        };
        let link = first as usize;
        self.passed = next(self.passed);
        mark(&mut self.is_waiting, link, false);
        Some(link)
    }

    /// No link is to be looked at.
    pub fn dismiss(&mut self) {
        for link in &self.waiting {
            mark(&mut self.is_waiting, *link as usize, false);
        }
        self.waiting.clear();
        self.passed = 0;
    }
}
