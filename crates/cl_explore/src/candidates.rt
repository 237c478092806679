//! Nodes with like keys. What is found here is compared in full: nothing but time depends on it.

use std::alloc::{AllocError, Global};

/// The numbers of nodes, in lines by their keys.
#[derive(Drop)]
pub(crate) struct Candidates {
    /// The last node of each line, and 1.
    lines: Vec<usize>,
    /// The node before each one in its line, and 1, with its key.
    before: Vec<(u64, usize)>,
}

impl Candidates {
    /// No nodes, in 2^16 lines.
    pub(crate) fn new(alloc: Global) -> Result<Candidates, AllocError> {
        let mut lines = Vec::new(alloc);
        for _line in 0..65536 {
            lines.push(0)?;
        }
        Ok(Candidates {
            lines,
            before: Vec::new(alloc),
        })
    }

    /// The last node in the line of a key, if there is one.
    pub(crate) fn last(&self, key: u64) -> Option<usize> {
        let last = *self.lines.get((key % 65536) as usize)?;
        if last == 0 { None } else { Some(last - 1) }
    }

    /// Whether the node of this number has the key.
    pub(crate) fn has_key(&self, node: usize, key: u64) -> bool {
        match self.before.get(node) {
            None => false,
            Some(there) => there.0 == key,
        }
    }

    /// The node before this one in its line, if there is one.
    pub(crate) fn earlier(&self, node: usize) -> Option<usize> {
        let before = self.before.get(node)?.1;
        if before == 0 { None } else { Some(before - 1) }
    }

    /// One more node, with its key.
    pub(crate) fn add(&mut self, key: u64) -> Result<(), AllocError> {
        let line = (key % 65536) as usize;
        let before = *self.lines.get(line).unwrap_or(&0);
        self.before.push((key, before))?;
        let count = self.before.len();
        if line < self.lines.len() {
            self.lines[line] = count;
        }
        Ok(())
    }
}
