//! Lists of numbers by node, kept by hand: what the test compares a pool with.
use std::alloc::{AllocError, Global};

#[derive(Drop)]
pub(crate) struct Lists {
    nodes: Vec<Vec<u32>>,
}

impl Lists {
    pub(crate) fn new(alloc: Global, count: u32) -> Result<Lists, AllocError> {
        let mut nodes = Vec::new(alloc);
        for _ in 0..count {
            nodes.push(Vec::new(alloc))?;
        }
        Ok(Lists { nodes })
    }

    pub(crate) fn node(&self, node: u32) -> &[u32] {
        match self.nodes.get(node as usize) {
            Some(list) => list,
            None => &[],
        }
    }

    pub(crate) fn push(&mut self, node: u32, pin: u32) -> Result<(), AllocError> {
        if let Some(list) = self.nodes.get_mut(node as usize) {
            list.push(pin)?;
        }
        Ok(())
    }

    // The node that has the pin, and where in its list.
    pub(crate) fn place(&self, pin: u32) -> (usize, usize) {
        for node in 0..self.nodes.len() {
            if let Some(at) = index_of(&self.nodes[node], pin) {
                return (node, at);
            }
        }
        (0, 0)
    }

    pub(crate) fn remove(&mut self, pin: u32) {
        let (node, at) = self.place(pin);
        if let Some(list) = self.nodes.get_mut(node)
            && at < list.len()
        {
            let _ = list.remove(at);
        }
    }

    pub(crate) fn insert(&mut self, place: (usize, usize), pin: u32) -> Result<(), AllocError> {
        if let Some(list) = self.nodes.get_mut(place.0)
            && place.1 <= list.len()
        {
            list.insert(place.1, pin)?;
        }
        Ok(())
    }

    // Takes the items from a place on out of a list.
    pub(crate) fn cut(
        &mut self,
        alloc: Global,
        node: u32,
        at: usize,
    ) -> Result<Vec<u32>, AllocError> {
        let mut rest = Vec::new(alloc);
        if let Some(list) = self.nodes.get_mut(node as usize) {
            for index in at..list.len() {
                rest.push(list[index])?;
            }
            list.truncate(at);
        }
        Ok(rest)
    }

    pub(crate) fn extend(&mut self, node: u32, pins: &[u32]) -> Result<(), AllocError> {
        for pin in pins {
            self.push(node, *pin)?;
        }
        Ok(())
    }
}

fn index_of(list: &[u32], pin: u32) -> Option<usize> {
    for at in 0..list.len() {
        if list[at] == pin {
            return Some(at);
        }
    }
    None
}
