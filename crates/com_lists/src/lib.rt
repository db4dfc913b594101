//! Linked lists by index: a list of nodes for each head, no node in two, and each change in constant
//! time on average. Nodes that no list has had take room, and nothing is written there.
#![tactic(auto)]

ghost use Rattle.std.specs.Prelude.{◌≡◌, ◌+◌, ◌-◌, ◌<◌, ◌≤◌, [], ◌∷◌, ◌++◌, length, replicate, None, IsSome, OnOk};
ghost use Rattle.std.specs.Prelude.{OnErr, IfOk, IfSome, MatchOption, slice_get, slice_set};
ghost use Rattle.std.specs.Prelude.{vec_len, vec_capacity};
ghost use Rattle.std.specs.Option.{ForSome};
ghost use Rattle.com_lists.specs.Linked.{IsApart, list_of, holder_of, next_in_all, with_last, without_node};
ghost use Rattle.com_lists.specs.Chain.{free_node, node_at};
ghost use Rattle.com_lists.specs.Chain.{with_after, with_before, with_first, with_last_node};

use std::alloc::Global;
use std::marker::Model;

/// Want of memory.
pub use std::alloc::AllocError as Memory;

// What is kept of a node: the head whose list has it, and its neighbours there.
#[derive(Debug, Clone, Copy)]
struct Node {
    holder: Option<u32>,
    before: Option<u32>,
    after: Option<u32>,
}

impl Node {
    // A node in no list.
    const FREE: Node = Node {
        holder: None,
        before: None,
        after: None,
    };
}

// What is kept of the nodes, seen as the list of it. Room is kept for all of them, and a node is written
// only when it, or one behind it, is first put into a list: those that are not written are in no list.
#[derive(Debug, Drop)]
struct Nodes {
    written: Vec<Node>,
    count: u32,
}

impl Model for Nodes {
    ghost use Rattle.std.specs.Prelude.{◌-◌, ◌≤◌, ◌++◌, List, replicate, vec_len, vec_capacity};
    ghost use Rattle.com_lists.specs.declared.Node.{Node};
    ghost use Rattle.com_lists.specs.Chain.{free_node};

    ghost Value = { List Node };

    ghost view = { λ s. s.written.items ++ replicate (s.count - vec_len s.written) free_node };

    ghost invariant = { λ s. (vec_len s.written ≤ s.count) × (s.count ≤ vec_capacity s.written) };
}

impl Nodes {
    // No nodes.
    fn new(alloc: Global) -> Self
        ensures { result ≡ [] }
    {
        Nodes {
            written: Vec::new(alloc),
            count: 0,
        }
    }

    // How many nodes there are.
    fn len(&self) -> usize
        ensures { result ≡ length self.now }
    {
        self.count as usize
    }

    // Adds nodes in no list until there are so many. It writes none of them.
    fn grow(&mut self, count: u32) -> Result<(), Memory>
        requires { length self.old ≤ count }
        ensures nodes { OnOk result (self.new
            ≡ self.old ++ replicate (count - length self.old) free_node) }
        ensures err { OnErr result (self.new ≡ self.old) }
    {
        self.written.reserve(count as usize - self.written.len())?;
        self.count = count;
        Ok(())
    }

    // What is kept of a node.
    fn at(&self, node: u32) -> Node
        ensures { result ≡ node_at self.now node }
    {
        match self.written.get(node as usize) {
            Some(kept) => *kept,
            None => Node::FREE,
        }
    }

    // Lets this be kept of a node. It takes no memory.
    fn set(&mut self, node: u32, kept: Node)
        requires { node < length self.old }
        ensures { self.new ≡ slice_set self.old node kept }
    {
        let index = node as usize;
        if index < self.written.len() {
            self.written[index] = kept;
            return;
        }
        write_behind(&mut self.written, index, kept);
    }

    // What is kept of a node that is in a list, and so is written.
    fn linked(&self, node: u32) -> Node
        requires { IsSome (node_at self.now node).holder }
        ensures { result ≡ node_at self.now node }
    {
        self.written[node as usize]
    }

    // Lets this be kept of a node that is in a list, and so is written.
    fn rewrite(&mut self, node: u32, kept: Node)
        requires { IsSome (node_at self.old node).holder }
        ensures { self.new ≡ slice_set self.old node kept }
    {
        self.written[node as usize] = kept;
    }
}

// Writes a node behind those that are written, and nodes in no list between. There is room for them.
#[inline(never)]
fn write_behind(written: &mut Vec<Node>, index: usize, kept: Node)
    requires behind { vec_len written.old ≤ index }
    requires room { index < vec_capacity written.old }
    ensures items { written.new.items
        ≡ (written.old.items ++ replicate (index - vec_len written.old) free_node) ++ kept ∷ [] }
    ensures len { vec_len written.new ≡ index + 1 }
    ensures capacity { vec_capacity written.old ≤ vec_capacity written.new }
{
    fill(written, index);
    written.push_reserved(kept);
}

// Writes nodes in no list until so many are written. There is room for them.
fn fill(written: &mut Vec<Node>, count: usize)
    requires more { vec_len written.old ≤ count }
    requires room { count ≤ vec_capacity written.old }
    ensures items { written.new.items
        ≡ written.old.items ++ replicate (count - vec_len written.old) free_node }
    ensures len { vec_len written.new ≡ count }
    ensures capacity { vec_capacity written.old ≤ vec_capacity written.new }
{
    let Ok(()) = written.resize(count, Node::FREE) else {
        unreachable!()
    };
}

// What is kept of a head: the ends of its list.
#[derive(Debug, Clone, Copy)]
struct Head {
    first: Option<u32>,
    last: Option<u32>,
}

impl Head {
    // The head of an empty list.
    const EMPTY: Head = Head {
        first: None,
        last: None,
    };
}

/// Lists of nodes, one for each head, seen as the list of these lists and the number of nodes.
///
/// Heads and nodes are numbered from 0. A node stands in at most one list, and there once.
#[derive(Debug, Drop)]
pub struct Lists {
    heads: Vec<Head>,
    nodes: Nodes,
}

impl Model for Lists {
    ghost use Rattle.std.specs.Prelude.{length};
    ghost use Rattle.com_lists.specs.Linked.{Linked};
    ghost use Rattle.com_lists.specs.Chain.{lists_of, StandsFor};

    ghost Value = { Linked };

    ghost view = { λ s. record {
      lists = lists_of s.heads.items s.nodes;
      nodes = length s.nodes;
    } };

    ghost invariant = { λ s. StandsFor s.heads.items s.nodes (lists_of s.heads.items s.nodes) };
}

impl Lists {
    /// No heads and no nodes.
    pub fn empty(alloc: Global) -> Self
        ensures lists { result.lists ≡ [] }
        ensures nodes { result.nodes ≡ 0 }
    {
        Lists {
            heads: Vec::new(alloc),
            nodes: Nodes::new(alloc),
        }
    }

    /// So many heads with empty lists, and so many nodes in no list.
    pub fn new(alloc: Global, heads: u32, nodes: u32) -> Result<Self, Memory>
        ensures lists { IfOk result (λ made. made.lists ≡ replicate heads []) }
        ensures nodes { IfOk result (λ made. made.nodes ≡ nodes) }
    {
        let mut lists = Lists::empty(alloc);
        lists.grow(heads, nodes)?;
        Ok(lists)
    }

    /// Adds heads with empty lists and nodes in no list until there are so many. The lists stay.
    pub fn grow(&mut self, heads: u32, nodes: u32) -> Result<(), Memory>
        requires heads { length self.old.lists ≤ heads }
        requires nodes { self.old.nodes ≤ nodes }
        ensures lists { OnOk result (self.new.lists
            ≡ self.old.lists ++ replicate (heads - length self.old.lists) []) }
        ensures nodes { OnOk result (self.new.nodes ≡ nodes) }
        ensures err { OnErr result (self.new ≡ self.old) }
    {
        let more = heads as usize - self.heads.len();
        self.heads.reserve(more)?;
        self.nodes.grow(nodes)?;
        self.heads.resize(heads as usize, Head::EMPTY)
    }

    /// How many heads there are.
    pub fn heads(&self) -> usize
        ensures { result ≡ length self.now.lists }
    {
        self.heads.len()
    }

    /// How many nodes there are.
    pub fn nodes(&self) -> usize
        ensures count { result ≡ self.now.nodes }
        ensures apart { IsApart self.now }
    {
        self.nodes.len()
    }

    /// Puts a node that is in no list at the end of the list of a head.
    pub fn push_back(&mut self, head: u32, node: u32)
        requires head { head < length self.old.lists }
        requires node { node < self.old.nodes }
        requires free { holder_of self.old node ≡ None }
        ensures { self.new ≡ with_last self.old head node }
    {
        let last = self.heads[head as usize].last;
        set_next(&mut self.heads, &mut self.nodes, head, last, Some(node));
        set_previous(&mut self.heads, &mut self.nodes, head, None, Some(node));
        let kept = Node {
            holder: Some(head),
            before: last,
            after: None,
        };
        self.nodes.set(node, kept);
    }

    /// The first node of the list of a head. `None` exactly where the list is empty.
    pub fn front(&self, head: u32) -> Option<u32>
        requires { head < length self.now.lists }
        ensures node { result ≡ slice_get (list_of self.now head) 0 }
        ensures within { IfSome result (λ node. node < self.now.nodes) }
    {
        self.heads[head as usize].first
    }

    /// Takes the first node out of the list of a head. `None` exactly where the list is empty.
    pub fn pop_front(&mut self, head: u32) -> Option<u32>
        requires { head < length self.old.lists }
        ensures node { result ≡ slice_get (list_of self.old head) 0 }
        ensures lists { MatchOption result (self.new ≡ self.old) (λ node. self.new
            ≡ without_node self.old node) }
    {
        let node = self.front(head)?;
        self.unlink(node);
        Some(node)
    }

    /// Takes a node out of the list that it is in, wherever it stands there. All else stays.
    pub fn unlink(&mut self, node: u32)
        requires { IsSome (holder_of self.old node) }
        ensures { self.new ≡ without_node self.old node }
    {
        let Node {
            holder,
            before,
            after,
        } = self.nodes.linked(node);
        let Some(head) = holder else { unreachable!() };
        set_next(&mut self.heads, &mut self.nodes, head, before, after);
        set_previous(&mut self.heads, &mut self.nodes, head, after, before);
        self.nodes.rewrite(node, Node::FREE);
    }

    /// The node right behind this one in its list. `None` exactly where this one is the last.
    pub fn next(&self, node: u32) -> Option<u32>
        requires { IsSome (holder_of self.now node) }
        ensures { result ≡ next_in_all node self.now.lists }
    {
        self.nodes.at(node).after
    }

    /// The head whose list has the node. `None` exactly where no list has it.
    pub fn holder(&self, node: u32) -> Option<u32>
        requires { node < self.now.nodes }
        ensures head { result ≡ holder_of self.now node }
        ensures apart { IsApart self.now }
    {
        self.nodes.at(node).holder
    }
}

// Lets `after` follow `before` in the list of `head`, or begin it where nothing stands before.
fn set_next(
    heads: &mut Vec<Head>,
    nodes: &mut Nodes,
    head: u32,
    before: Option<u32>,
    after: Option<u32>,
)
    requires head { head < vec_len heads.old }
    requires before { ForSome before (λ b. IsSome (node_at nodes.old b).holder) }
    ensures heads_len { vec_len heads.new ≡ vec_len heads.old }
    ensures heads { heads.new.items ≡ with_first head before after heads.old.items }
    ensures nodes_len { length nodes.new ≡ length nodes.old }
    ensures nodes { nodes.new ≡ with_after before after nodes.old }
{
    match before {
        None => heads[head as usize].first = after,
        Some(before) => {
            let kept = nodes.linked(before);
            nodes.rewrite(before, Node { after, ..kept });
        }
    }
}

// Lets `before` stand before `after` in the list of `head`, or end it where nothing stands behind.
fn set_previous(
    heads: &mut Vec<Head>,
    nodes: &mut Nodes,
    head: u32,
    after: Option<u32>,
    before: Option<u32>,
)
    requires head { head < vec_len heads.old }
    requires after { ForSome after (λ a. IsSome (node_at nodes.old a).holder) }
    ensures heads_len { vec_len heads.new ≡ vec_len heads.old }
    ensures heads { heads.new.items ≡ with_last_node head after before heads.old.items }
    ensures nodes_len { length nodes.new ≡ length nodes.old }
    ensures nodes { nodes.new ≡ with_before after before nodes.old }
{
    match after {
        None => heads[head as usize].last = before,
        Some(after) => {
            let kept = nodes.linked(after);
            nodes.rewrite(after, Node { before, ..kept });
        }
    }
}
