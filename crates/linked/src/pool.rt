//! The nodes of a store, and how lists of them are shared, freed and used again. Clauses speak of nodes and numbers, not of a
//! pool and a chain, since the invariants of the store do.
ghost use Rattle.std.specs.Prelude.{◌≡◌, ℕ, ◌+◌, ◌^◌, ◌<◌, ◌≤◌, length, drop, slice_set};
ghost use Rattle.linked.specs.Chains.{node_at};
ghost use Rattle.linked.specs.Moves.{shared, HoldsSomehow, LetGo, TopDropped};

use crate::chain::Chain;
use crate::node::Node;
use cell::cell::Cell;

/// The nodes that a store was given; those that no list uses are linked from `free` on.
/// They are an arena by index, since lists share their lower nodes and a step allocates nothing.
#[derive(Drop)]
pub struct Pool {
    pub(crate) nodes: Vec<Node>,
    pub(crate) free: u32,
}

impl Pool {
    /// A pool over a memory: its first nodes are free, linked one to the next, and the others are left as they are.
    pub fn new(memory: Vec<Node>, size: usize) -> Pool
        requires { (size ≤ length memory.items) × (size < 2 ^ 32) }
        ensures free { result.free ≡ 0 }
        ensures linked { (k : ℕ) → k < size → ((node_at result.nodes.items k).link ≡ k + 1) × ((node_at result.nodes.items k).holders ≡ 0) }
        ensures beyond { drop size result.nodes.items ≡ drop size memory.items }
        ensures len { length result.nodes.items ≡ length memory.items }
    {
        let mut nodes = memory;
        link_free(nodes.as_mut_slice(), size);
        Pool { nodes, free: 0 }
    }

    /// Adds a cell on top of a list, in the first free node.
    pub fn push(&mut self, list: Chain, cell: Cell) -> Chain
        requires { (self.old.free < length self.old.nodes.items) × (list.len + 1 < 2 ^ 32) }
        ensures list { result ≡ record { top = self.old.free; len = list.len + 1 } }
        ensures nodes { self.new.nodes.items ≡ slice_set self.old.nodes.items self.old.free (record { cell = cell; link = list.top; holders = 1 }) }
        ensures free { self.new.free ≡ (node_at self.old.nodes.items self.old.free).link }
    {
        let at = self.free;
        self.free = self.nodes[at as usize].link;
        self.nodes[at as usize] = Node {
            cell,
            link: list.top,
            holders: 1,
        };
        Chain {
            top: at,
            len: list.len + 1,
        }
    }

    /// One holder more for the top of a list, if the list has any node.
    pub fn share(&mut self, list: Chain)
        requires { 0 < list.len → (list.top < length self.old.nodes.items) × ((node_at self.old.nodes.items list.top).holders + 1 < 2 ^ 32) }
        ensures nodes { self.new.nodes.items ≡ shared self.old.nodes.items list.top list.len }
        ensures free { self.new.free ≡ self.old.free }
    {
        if list.len == 0 {
            return;
        }
        self.nodes[list.top as usize].holders += 1;
    }

    /// Takes the top off a list: it becomes the first free node, unless others hold it.
    pub fn drop_top(&mut self, list: Chain)
        requires some { 0 < list.len }
        requires held { HoldsSomehow self.old.nodes.items self.old.free list.top list.len }
        requires small { 1 < list.len → (node_at self.old.nodes.items (node_at self.old.nodes.items list.top).link).holders + 1 < 2 ^ 32 }
        ensures { TopDropped self.old.nodes.items self.new.nodes.items self.old.free self.new.free list.top list.len }
    {
        let node = &mut self.nodes[list.top as usize];
        if node.holders > 1 {
            node.holders -= 1;
            let rest = Chain {
                top: node.link,
                len: list.len - 1,
            };
            self.share(rest);
            return;
        }
        self.free_node(list.top);
    }

    /// Lets a list go: from the top down, nodes that nothing else holds become free.
    pub fn let_go(&mut self, list: Chain)
        requires { HoldsSomehow self.old.nodes.items self.old.free list.top list.len }
        ensures { LetGo self.old.nodes.items self.new.nodes.items self.old.free self.new.free list.top list.len }
    {
        let mut at = list.top;
        // Along the links, since no slice has the nodes of a list.
        for _ in 0..list.len {
            let node = &mut self.nodes[at as usize];
            if node.holders > 1 {
                node.holders -= 1;
                return;
            }
            let below = node.link;
            self.free_node(at);
            at = below;
        }
    }

    /// Makes a node the first free one.
    fn free_node(&mut self, at: u32)
        requires { at < length self.old.nodes.items }
        ensures nodes { self.new.nodes.items ≡ slice_set self.old.nodes.items at (record { cell = (node_at self.old.nodes.items at).cell; link = self.old.free; holders = 0 }) }
        ensures free { self.new.free ≡ at }
    {
        let node = &mut self.nodes[at as usize];
        node.link = self.free;
        node.holders = 0;
        self.free = at;
    }
}

/// Links the first nodes one to the next, all of them without a holder.
fn link_free(nodes: &mut [Node], size: usize)
    requires { (size ≤ length nodes.old) × (size < 2 ^ 32) }
    ensures linked { (k : ℕ) → k < size → ((node_at nodes.new k).link ≡ k + 1) × ((node_at nodes.new k).holders ≡ 0) }
    ensures beyond { drop size nodes.new ≡ drop size nodes.old }
    ensures len { length nodes.new ≡ length nodes.old }
{
    for (i, node) in nodes[..size].iter_mut().enumerate() {
        node.link = i as u32 + 1;
        node.holders = 0;
    }
}
