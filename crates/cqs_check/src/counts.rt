//! How many numbers stand, counted in a tree of pairs: the leaf of a number is 1 while it stands,
//! and each node is the sum of its two children. Node 1 is the root, and the children of node i are
//! the nodes 2 i and 2 i + 1.

ghost use Rattle.std.specs.Prelude.{◌≡◌, ℕ, ◌+◌, ◌-◌, ◌*◌, ◌<◌, ◌≤◌, ◌^◌, IfOk, slice_index};
ghost use Rattle.cqs_check.specs.Trees.{IsTree, IsRaised, IsLowered, stands_before, size_of, raised_of, leaf, IsBeside};

use std::alloc::{AllocError, Global};

#[derive(Drop)]
pub struct Counts {
    /// How many leaves there are: a power of two. The leaf of number k is node `size + k`.
    size: usize,
    nodes: Vec<u32>,
    /// How often a number began to stand. No node is above it.
    raised: u32,
}

impl Counts {
    /// Counts for so many numbers and more, none of which stands.
    pub fn new(alloc: Global, most: u32) -> Result<Self, AllocError>
        ensures { IfOk result (λ c. IsTree c × (most ≤ size_of c) × (raised_of c ≡ 0)
            × ((k : ℕ) → leaf c k ≡ 0)) }
    {
        let size = (most as usize).next_power_of_two();
        let nodes = vec![in alloc; 0u32; size + size]?;
        Ok(Counts {
            size,
            nodes,
            raised: 0,
        })
    }

    /// For how many numbers there are leaves.
    pub fn size(&self) -> usize
        ensures { result ≡ size_of self.now }
    {
        self.size
    }

    /// What stands below the left neighbour of a node, where that has the same parent.
    fn beside(&self, base: usize, place: usize) -> u32
        requires tree { IsTree self.now }
        requires within { base ≤ size_of self.now }
        requires low { place < base }
        ensures { IsBeside self.now base place result }
    {
        if place % 2 == 1 {
            self.nodes[base + place - 1]
        } else {
            0
        }
    }

    /// How many numbers below this one stand.
    pub fn before(&self, number: usize) -> u32
        requires tree { IsTree self.now }
        requires low { number < size_of self.now }
        ensures { result ≡ stands_before self.now number }
    {
        let mut base = self.size;
        let mut place = number;
        let mut total = 0;
        'levels: while base > 1 {
            total += self.beside(base, place);
            base /= 2;
            place /= 2;
        }
        total
    }

    /// This number stands from now on.
    pub fn raise(&mut self, number: usize)
        requires tree { IsTree self.old }
        requires low { number < size_of self.old }
        requires few { raised_of self.old + 1 < 2 ^ 32 }
        ensures tree { IsTree self.new }
        ensures raised { IsRaised self.old number self.new }
    {
        self.raised += 1;
        self.nodes[self.size + number] += 1;
        let mut node = (self.size + number) / 2;
        'parents: while node > 0 {
            self.nodes[node] += 1;
            node /= 2;
        }
    }

    /// This number stands no longer.
    pub fn lower(&mut self, number: usize)
        requires tree { IsTree self.old }
        requires low { number < size_of self.old }
        requires stands { 0 < leaf self.old number }
        ensures tree { IsTree self.new }
        ensures lowered { IsLowered self.old number self.new }
    {
        self.nodes[self.size + number] -= 1;
        let mut node = (self.size + number) / 2;
        'parents: while node > 0 {
            self.nodes[node] -= 1;
            node /= 2;
        }
    }
}
