// Look-ups in the edges of a table: in the first n of them, which are in the order of adding, so that each goes from the last to
// the first. The edges are lent; nothing is copied. Edges may be anything: a count above what there is room for counts as that.
#![tactic(auto)]

ghost use Rattle.std.specs.Prelude.{◌≡◌, ◌<◌, min};
ghost use Rattle.edges.specs.Edges.{max_edges, last_edge, child_of, parent_of, step_of, walk_of, has, there_of, elsewhere, taken, edge_at, held};

// How many nodes a table holds, with the root; also how many places the list of query_all has.
pub const NODES: usize = 1024;

// How many edges a table holds.
pub const EDGES: usize = 2048;

// The last edge that there is room for.
const LAST: usize = 2047;

// How many words the edges have, three each.
pub const WORDS: usize = 6144;

// How many words an edge has.
pub const WIDTH: usize = 3;

// How many ids a path has at most.
pub const LONGEST: usize = 4;

// The id in a path that means the parent.
pub const SUPER: u16 = 0;

// In node `from` the name `id` means node `to`.
#[derive(Clone, Copy, Debug, PartialEq, Eq)]
pub struct Edge {
    pub from: u16,
    pub id: u16,
    pub to: u16,
}

// The deepest node of a path that is there, and how many ids of the path lead to it.
#[derive(Clone, Copy, Debug, PartialEq, Eq)]
pub struct There {
    pub node: u16,
    pub depth: usize,
}

// A node's number as an index.
pub fn wide(nx: u16) -> usize
    ensures { result ≡ nx }
{
    nx as usize
}

// Edge i, or the last that there is room for.
pub fn edge_at(links: &[u16; WORDS], i: usize) -> Edge
    ensures { result ≡ edge_at links.now (min i last_edge) }
{
    edge_in(links, i.min(LAST))
}

// Edge i.
#[tactic(auto, unfolding(crate::specs::Edges::edge_at))]
fn edge_in(links: &[u16; WORDS], i: usize) -> Edge
    requires { i < max_edges }
    ensures { result ≡ edge_at links.now i }
{
    let at = WIDTH * i;
    Edge {
        from: links[at],
        id: links[at + 1],
        to: links[at + 2],
    }
}

// How many edges there are by a count: no more than there is room for.
pub fn at_most(n: usize) -> usize
    ensures { result ≡ min n max_edges }
{
    n.min(EDGES)
}

// Where the last added edge from s under the name x leads.
pub fn child(links: &[u16; WORDS], n: usize, s: u16, x: u16) -> Option<u16>
    ensures { result ≡ child_of (held links.now n) s x }
{
    for i in (0..at_most(n)).rev() {
        let edge = edge_in(links, i);
        if edge.from == s && edge.id == x {
            return Some(edge.to);
        }
    }
    None
}

// Where the last added edge to s comes from.
pub fn parent(links: &[u16; WORDS], n: usize, s: u16) -> Option<u16>
    ensures { result ≡ parent_of (held links.now n) s }
{
    for i in (0..at_most(n)).rev() {
        let edge = edge_in(links, i);
        if edge.to == s {
            return Some(edge.from);
        }
    }
    None
}

// Where one id of a path leads.
#[tactic(auto, unfolding(crate::specs::Edges::step_of))]
fn step(links: &[u16; WORDS], n: usize, s: u16, x: u16) -> Option<u16>
    ensures { result ≡ step_of (held links.now n) s x }
{
    if x == SUPER {
        parent(links, n, s)
    } else {
        child(links, n, s, x)
    }
}

// Where the whole path leads from s.
pub fn walk(links: &[u16; WORDS], n: usize, s: u16, path: &[u16]) -> Option<u16>
    ensures { result ≡ walk_of (held links.now n) path.now s }
{
    let mut at = s;
    for x in path {
        let Some(next) = step(links, n, at, *x) else {
            return None; // the path breaks off
        };
        at = next;
    }
    Some(at)
}

// Whether a super stands in the path.
pub fn has_super(path: &[u16]) -> bool
    ensures { result ≡ has 0 path.now }
{
    path.contains(&SUPER)
}

// How much of the path is there below s.
pub fn deepest(links: &[u16; WORDS], n: usize, s: u16, path: &[u16]) -> There
    ensures { result ≡ there_of (held links.now n) s path.now }
{
    let mut node = s;
    for (depth, x) in path.iter().enumerate() {
        let Some(next) = child(links, n, node, *x) else {
            return There { node, depth };
        };
        node = next;
    }
    There {
        node,
        depth: path.len(),
    }
}

// Whether an edge from s under the name x leads to another node than `to`.
pub fn is_taken(links: &[u16; WORDS], n: usize, s: u16, x: u16, to: u16) -> bool
    ensures { result ≡ taken (held links.now n) s x to }
{
    for i in (0..at_most(n)).rev() {
        if leads_elsewhere(edge_in(links, i), s, x, to) {
            return true;
        }
    }
    false
}

// Whether the edge is one from s under the name x, and leads to another node than `to`.
#[tactic(auto, unfolding(crate::specs::Edges::elsewhere))]
fn leads_elsewhere(edge: Edge, s: u16, x: u16, to: u16) -> bool
    ensures { result ≡ elsewhere s x to edge }
{
    edge.from == s && edge.id == x && edge.to != to
}
