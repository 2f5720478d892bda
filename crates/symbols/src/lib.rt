// The symbol table, under the Rust's names: nodes, numbered as they are made, joined by edges with names. The nodes below a node
// are its scope. A table is plain data and goes in and comes back by value; inside a call, look-ups lend its edges and copy
// nothing. A call on a table that is not sound is refused (1), and a refused caller has its own table still.
#![tactic(auto)]

ghost use Rattle.std.specs.Prelude.{◌≡◌, ◌+◌, ◌<◌, ◌≤◌, length};
ghost use Rattle.edges.specs.Edges.{max_nodes, max_edges};
ghost use Rattle.symbols.specs.Symbols.{left, left_node, new, with_data, with_edge, with_node, inserted, grown};
ghost use Rattle.symbols.specs.Symbols.{insert, update_data, ensure_index, export};
ghost use Rattle.symbols.specs.Says.{says_changed, says_inserted};

use edges::{WIDTH, wide};
use refusals::Refusal;
use soundness::is_node;

// How many nodes a table holds, with the root; also how many places the list of query_all has.
pub const NODES: usize = edges::NODES;

// How many words the edges have.
pub const WORDS: usize = edges::WORDS;

// Of each node its number, if it has one.
pub type Numbers = [Option<i64>; NODES];

// How many nodes and edges there are; the edges in the order of adding, three words each; and the numbers of the nodes.
#[derive(Clone, Copy, Debug, PartialEq, Eq)]
pub struct SymbolTable {
    pub nodes: usize,
    pub edges: usize,
    pub links: [u16; WORDS],
    pub numbers: Numbers,
}

// The table with new nodes, and the deepest of them.
#[derive(Clone, Copy, Debug, PartialEq, Eq)]
pub struct Inserted {
    pub table: SymbolTable,
    pub node: u16,
}

impl SymbolTable {
    // The root alone, without a number.
    #[tactic(auto, unfolding(crate::specs::Symbols::new))]
    pub fn new() -> SymbolTable
        ensures { result ≡ new }
    {
        SymbolTable {
            nodes: 1,
            edges: 0,
            links: [0u16; WORDS],
            numbers: [None; NODES],
        }
    }

    // A new node below another, by this name.
    pub fn insert(self, parent: u16, id: u16, value: Option<i64>) -> Result<Inserted, Refusal>
        ensures { says_inserted self result ≡ left_node self (insert self parent id value) }
    {
        growth::may_insert(&self.links, self.edges, self.nodes, parent, id)?;
        let node = self.nodes as u16;
        let table = self.with_child(parent, id, value);
        Ok(Inserted { table, node })
    }

    // A node's number anew, or none.
    pub fn update_data(self, nx: u16, value: Option<i64>) -> Result<SymbolTable, Refusal>
        ensures { says_changed self result ≡ left self (update_data self nx value) }
    {
        if !is_node(&self.links, self.edges, self.nodes, nx) {
            return Err(Refusal::Argument);
        }
        Ok(self.with_data(nx, value))
    }

    // Another name for a node: an edge to it from the end of a path, whose missing nodes are made.
    pub fn export(self, node: u16, parent: u16, path: &[u16]) -> Result<SymbolTable, Refusal>
        ensures { says_changed self result ≡ left self (export self node parent path.now) }
    {
        let there = growth::may_export(&self.links, self.edges, self.nodes, node, parent, path)?;
        let last = path.len() - 1;
        let made = self.grown(there.node, &path[there.depth..last]);
        Ok(made.table.with_edge(made.node, path[last], node))
    }

    // The node at the end of a path, whose missing nodes are made.
    pub fn ensure_index(self, nx: u16, path: &[u16]) -> Result<Inserted, Refusal>
        ensures { says_inserted self result ≡ left_node self (ensure_index self nx path.now) }
    {
        let there = growth::may_ensure(&self.links, self.edges, self.nodes, nx, path)?;
        Ok(self.grown(there.node, &path[there.depth..]))
    }

    // New nodes below s, one below the other, by these names.
    fn grown(self, s: u16, names: &[u16]) -> Inserted
        requires { (self.nodes + length names.now ≤ max_nodes) × (self.edges + length names.now ≤ max_edges) }
        ensures { (result.table, result.node) ≡ grown self s names.now }
    {
        let mut table = self;
        let mut node = s;
        for x in names {
            let parent = node;
            node = table.nodes as u16;
            table = table.with_child(parent, *x, None);
        }
        Inserted { table, node }
    }

    // One more node, below s by the name x.
    #[tactic(auto, using(crate::proofs::Tables::node_edges))]
    fn with_child(self, s: u16, x: u16, value: Option<i64>) -> SymbolTable
        requires { (self.nodes < max_nodes) × (self.edges < max_edges) }
        ensures { result ≡ inserted self s x value }
    {
        let node = self.nodes as u16;
        self.with_node(value).with_edge(s, x, node)
    }

    // One more node.
    #[tactic(auto, unfolding(crate::specs::Symbols::with_node))]
    fn with_node(mut self, value: Option<i64>) -> SymbolTable
        requires { self.nodes < max_nodes }
        ensures { result ≡ with_node self value }
    {
        let node = self.nodes;
        self.numbers[node] = value;
        self.nodes = node + 1;
        self
    }

    // One more edge, from s under the name x to n.
    fn with_edge(mut self, s: u16, x: u16, n: u16) -> SymbolTable
        requires { self.edges < max_edges }
        ensures { result ≡ with_edge self s x n }
    {
        let at = WIDTH * self.edges;
        self.links[at] = s;
        self.links[at + 1] = x;
        self.links[at + 2] = n;
        self.edges += 1;
        self
    }

    // Another number for a node, or none.
    #[tactic(auto, unfolding(crate::specs::Symbols::with_data))]
    fn with_data(mut self, nx: u16, value: Option<i64>) -> SymbolTable
        requires { nx < max_nodes }
        ensures { result ≡ with_data self nx value }
    {
        self.numbers[wide(nx)] = value;
        self
    }
}
