//! Arrays of numbers, each made from another by a change of one item. They share what they have in common: an array is
//! a tree whose nodes have four children (Driscoll et al., 'Making data structures persistent', 1989).

ghost use Rattle.std.specs.Prelude.{◌≡◌, ◌∷◌, true, ◌<◌, ◌≤◌, ◌^◌, ◌==◌, ◌++◌, ◌-◌, ℕ, List, IfOk, IfSome, length, if◌then◌else◌};
ghost use Rattle.classes.specs.PersistentArrays.{HasNode, HasZeros, IsTree, IsUnionOfTrees, child, item_at};

use std::alloc::{AllocError, Global};

/// A node: its four children, which at the last level are the items.
pub type Node = [u32; 4];

/// The nodes of arrays. An array is named by its root. Array 0 has 0 at each index.
#[derive(Debug, Drop)]
pub struct PersistentArrays {
    pub nodes: Vec<Node>,
    /// The number of levels of nodes.
    pub levels: usize,
    /// The number of indices.
    pub count: usize,
    pub ghost enough: { count ≤ 4 ^ levels },
}

/// Returns the number of levels of nodes that an array of `count` items needs.
fn levels_for(count: usize) -> usize
    ensures { count ≤ 4 ^ result }
{
    let mut levels = 0;
    let mut left = count;
    while left > 0 {
        left /= 4;
        levels += 1;
    }
    levels
}

/// Returns the child of a node at a digit, or 0 if there is no such node.
fn child(nodes: &[Node], node: u32, digit: usize) -> u32
    requires { digit < 4 }
    ensures { result ≡ child nodes.now node digit }
{
    match nodes.get(node as usize) {
        Some(node) => node[digit],
        None => 0,
    }
}

/// Returns the number of the node that comes after `count` others, unless there are too many.
fn next_node(count: usize) -> Result<u32, AllocError>
    ensures { IfOk result (λ number. number ≡ count) }
{
    u32::try_from(count).map_err(|_| AllocError)
}

/// Returns the root of a new array that differs from another in one item. `levels` levels of nodes are above the items.
fn put(
    nodes: &mut Vec<Node>,
    levels: usize,
    root: u32,
    index: usize,
    item: u32,
) -> Result<u32, AllocError>
    requires { IsTree nodes.old.items levels root }
    ensures more { IfOk result
        (λ root. (more : List (List ℕ)) × (nodes.new.items ≡ nodes.old.items ++ more)) }
    ensures tree { IfOk result (IsTree nodes.new.items levels) }
    ensures items { IfOk result (λ new. (i : ℕ) → i < 4 ^ levels → index < 4 ^ levels
        → item_at nodes.new.items levels new i
        ≡ (if i == index then item else item_at nodes.old.items levels root i)) }
{
    if levels == 0 {
        return Ok(item);
    }
    let mut node = nodes[root as usize];
    let digit = index % 4;
    node[digit] = put(nodes, levels - 1, node[digit], index / 4, item)?;
    let number = next_node(nodes.len())?;
    nodes.push(node)?;
    Ok(number)
}

/// Returns the root of the node with these children: one of two roots that has them, or a new one.
fn root_of(nodes: &mut Vec<Node>, node: Node, a: u32, b: u32) -> Result<u32, AllocError>
    requires a { a < length nodes.old.items }
    requires b { b < length nodes.old.items }
    ensures more { IfOk result
        (λ _. (more : List (List ℕ)) × (nodes.new.items ≡ nodes.old.items ++ more)) }
    ensures root { IfOk result (λ root. HasNode nodes.new.items root node) }
{
    if nodes[a as usize] == node {
        return Ok(a);
    }
    if nodes[b as usize] == node {
        return Ok(b);
    }
    let number = next_node(nodes.len())?;
    nodes.push(node)?;
    Ok(number)
}

/// Returns the root of an array whose items have the bits of those of two others. It is one of these where it has the
/// same items. Each node takes one of the steps that are left, and without one there is no result.
fn union(
    nodes: &mut Vec<Node>,
    steps: &mut usize,
    levels: usize,
    a: u32,
    b: u32,
) -> Result<Option<u32>, AllocError>
    requires zero { HasZeros nodes.old.items }
    requires a { IsTree nodes.old.items levels a }
    requires b { IsTree nodes.old.items levels b }
    ensures more { IfOk result
        (λ _. (more : List (List ℕ)) × (nodes.new.items ≡ nodes.old.items ++ more)) }
    ensures union { IfOk result (λ root. IfSome root
        (IsUnionOfTrees nodes.old.items nodes.new.items levels a b)) }
{
    if a == b || b == 0 {
        return Ok(Some(a));
    }
    if a == 0 {
        return Ok(Some(b));
    }
    if levels == 0 {
        return Ok(Some(a | b));
    }
    if *steps == 0 {
        return Ok(None);
    }
    *steps -= 1;
    let low = nodes[a as usize];
    let high = nodes[b as usize];
    let mut node = low;
    for digit in 0..4 {
        match union(nodes, steps, levels - 1, low[digit], high[digit])? {
            Some(child) => node[digit] = child,
            None => return Ok(None),
        }
    }
    Ok(Some(root_of(nodes, node, a, b)?))
}

impl PersistentArrays {
    /// Creates array 0 alone, whose indices are below a count.
    pub fn new(alloc: Global, count: usize) -> Result<Self, AllocError>
        ensures enough { IfOk result (λ arrays. count ≤ 4 ^ arrays.levels) }
        ensures zeros { IfOk result (λ arrays. HasZeros arrays.nodes.items) }
        ensures tree { IfOk result (λ arrays. IsTree arrays.nodes.items arrays.levels 0) }
        ensures items { IfOk result (λ arrays. (i : ℕ)
            → item_at arrays.nodes.items arrays.levels 0 i ≡ 0) }
    {
        let nodes = vec![in alloc; [0; 4]]?;
        let levels = levels_for(count);
        Ok(PersistentArrays {
            nodes,
            levels,
            count,
        })
    }

    /// Returns the item at an index of the array of a root.
    pub fn item(&self, root: u32, index: usize) -> u32
        ensures { result ≡ item_at self.now.nodes.items self.now.levels root index }
    {
        let mut at = root;
        let mut left = index;
        for _level in 0..self.levels {
            at = child(self.nodes.as_slice(), at, left % 4);
            left /= 4;
        }
        at
    }

    /// Decides whether arrays have an index.
    pub fn has_index(&self, index: usize) -> bool
        ensures { result ≡ true → index < 4 ^ self.now.levels }
    {
        index < self.count
    }

    /// Creates an array that differs from that of a root in one item, and returns its root.
    pub fn with_item(&mut self, root: u32, index: usize, item: u32) -> Result<u32, AllocError>
        requires tree { IsTree self.old.nodes.items self.old.levels root }
        requires index { index < 4 ^ self.old.levels }
        ensures levels { self.new.levels ≡ self.old.levels }
        ensures more { IfOk result (λ root. (more : List (List ℕ))
            × (self.new.nodes.items ≡ self.old.nodes.items ++ more)) }
        ensures tree { IfOk result (IsTree self.new.nodes.items self.new.levels) }
        ensures items { IfOk result (λ new. (i : ℕ) → i < 4 ^ self.old.levels
            → item_at self.new.nodes.items self.old.levels new i
            ≡ (if i == index then item else item_at self.old.nodes.items self.old.levels root i)) }
    {
        put(&mut self.nodes, self.levels, root, index, item)
    }

    /// Creates an array whose items have the bits of those of two others, and returns its root. Where one of these has
    /// the same items, it is that one. Takes at most the steps that are left, and returns `None` if it needs more.
    pub fn union(&mut self, steps: &mut usize, a: u32, b: u32) -> Result<Option<u32>, AllocError>
        requires zero { HasZeros self.old.nodes.items }
        requires a { IsTree self.old.nodes.items self.old.levels a }
        requires b { IsTree self.old.nodes.items self.old.levels b }
        ensures levels { self.new.levels ≡ self.old.levels }
        ensures more { IfOk result (λ _. (more : List (List ℕ))
            × (self.new.nodes.items ≡ self.old.nodes.items ++ more)) }
        ensures union { IfOk result (λ root. IfSome root
            (IsUnionOfTrees self.old.nodes.items self.new.nodes.items self.old.levels a b)) }
    {
        union(&mut self.nodes, steps, self.levels, a, b)
    }
}
