//! The last access of each thread, in a binary trie over the bits of thread numbers. A search takes at most 33 steps,
//! whatever the count and the numbers of the threads.

ghost use Rattle.std.specs.Prelude.{◌≡◌, ◌<◌, ◌++◌, [], length, map, OnOk};
ghost use Rattle.std.specs.Vec.{vec_len, vec_capacity};
ghost use Rattle.accesses.specs.ByThread.{AreFound, IsSearched, linked_in, next_of, notes_of};
ghost use Rattle.accesses.specs.Kept.{with_access};
ghost use Rattle.accesses.specs.Links.{link_from};
ghost use Rattle.accesses.specs.declared.by_thread.Node.{Node as Visited};

use crate::lasts::Noted;
use atom_order::Link;
use jvms_machine::machine::ThreadId;
use std::alloc::{AllocError, Global};
use std::marker::Model;

/// A node with the access of one thread. Up to two nodes follow it, one for each value of the next bit.
#[derive(Clone, Copy, Debug)]
struct Node {
    /// The access.
    noted: Noted,
    /// The index of the node for threads whose next bit is 0. An index that is not greater than this node's means none.
    even: usize,
    /// The index of the node for threads whose next bit is 1. An index that is not greater than this node's means none.
    odd: usize,
}

/// The end of a search for a thread.
#[derive(Clone, Copy, Debug)]
enum Search {
    /// The index of the thread's node.
    At(usize),
    /// The node where the search ends: no node follows on the side of the thread's next bit, so the thread has no node.
    Behind { index: usize, is_odd: bool },
}

/// The last access of each thread, in the order of the threads' first accesses.
#[derive(Debug, Drop)]
pub struct ByThread {
    nodes: Vec<Node>,
}

impl Model for ByThread {
    ghost use Rattle.std.specs.Vec.{vec_capacity};
    ghost use Rattle.accesses.specs.ByThread.{AreFound, notes_of};
    ghost use Rattle.accesses.specs.Room.{NotedRoom};

    ghost Value = { NotedRoom };

    ghost view = { λ a. record {
      items = notes_of a.nodes.items;
      capacity = vec_capacity a.nodes;
    } };

    ghost invariant = { λ a. AreFound a.nodes.items };
}

impl ByThread {
    /// Returns an empty record of accesses.
    pub fn new(alloc: Global) -> Self
        ensures { result.items ≡ [] }
    {
        ByThread {
            nodes: Vec::new(alloc),
        }
    }

    /// Reserves the memory for one more thread.
    pub fn reserve(&mut self) -> Result<(), AllocError>
        ensures items { self.new.items ≡ self.old.items }
        ensures room { OnOk result (length self.new.items < self.new.capacity) }
    {
        self.nodes.reserve(1)
    }

    /// Removes all accesses, and keeps their memory.
    pub fn clear(&mut self)
        ensures items { self.new.items ≡ [] }
        ensures capacity { self.new.capacity ≡ self.old.capacity }
    {
        self.nodes.clear();
    }

    /// Records an access. It replaces the last one of its thread.
    pub fn note(&mut self, noted: Noted)
        requires { length self.old.items < self.old.capacity }
        ensures { self.new.items ≡ with_access noted self.old.items }
    {
        note_in(&mut self.nodes, noted);
    }

    /// Appends the links from all accesses to event `number`.
    pub fn push_links(&self, number: u64, links: &mut Vec<Link>) -> Result<(), AllocError>
        ensures { OnOk result
            (links.new.items ≡ links.old.items ++ map (link_from number) self.now.items) }
    {
        push_links_from(self.nodes.as_slice(), number, links)
    }
}

impl Node {
    /// Returns the index of the next node on a side.
    fn next(&self, is_odd: bool) -> usize
        ensures { result ≡ next_of self.now is_odd }
    {
        if is_odd { self.odd } else { self.even }
    }
}

/// Searches for the node of a thread.
fn find(nodes: &[Node], thread: ThreadId) -> Search
    requires { AreFound nodes.now }
    ensures { IsSearched nodes.now thread result }
{
    let mut at = 0;
    let mut bits = thread;
    while at < nodes.len() {
        if nodes[at].noted.thread == thread {
            return Search::At(at);
        }
        let is_odd = bits % 2 == 1;
        let next = nodes[at].next(is_odd);
        if next <= at || next >= nodes.len() {
            return Search::Behind { index: at, is_odd };
        }
        at = next;
        bits /= 2;
    }
    Search::Behind {
        index: 0,
        is_odd: false,
    }
}

/// Sets the next node on a side. Without a node at `index` nothing changes.
fn link(nodes: &mut Vec<Node>, index: usize, is_odd: bool, next: usize)
    ensures items { nodes.new.items ≡ linked_in nodes.old.items index is_odd next }
    ensures capacity { vec_capacity nodes.new ≡ vec_capacity nodes.old }
{
    if index >= nodes.len() {
        return;
    }
    if is_odd {
        nodes[index].odd = next;
    } else {
        nodes[index].even = next;
    }
}

/// Records an access. It replaces the last one of its thread.
fn note_in(nodes: &mut Vec<Node>, noted: Noted)
    requires found { AreFound nodes.old.items }
    requires room { vec_len nodes.old < vec_capacity nodes.old }
    ensures found { AreFound nodes.new.items }
    ensures noted { notes_of nodes.new.items ≡ with_access noted (notes_of nodes.old.items) }
{
    match find(nodes.as_slice(), noted.thread) {
        Search::At(index) => nodes[index].noted = noted,
        Search::Behind { index, is_odd } => {
            let count = nodes.len();
            link(nodes, index, is_odd, count);
            nodes.push_reserved(Node {
                noted,
                even: 0,
                odd: 0,
            });
        }
    }
}

/// Appends the links from the accesses of nodes to event `number`.
fn push_links_from(nodes: &[Node], number: u64, links: &mut Vec<Link>) -> Result<(), AllocError>
    ensures { OnOk result (links.new.items
        ≡ links.old.items ++ map (λ (n : Visited). link_from number n.noted) nodes.now) }
{
    for node in nodes {
        links.push(node.noted.link(number))?;
    }
    Ok(())
}
