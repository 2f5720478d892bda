// What a table may be given: whether it takes a new name, and where the new nodes of a path begin. Each test of document 01, in its
// order, over edges that are lent; nothing is changed here.
#![tactic(auto)]

ghost use Rattle.std.specs.Prelude.{◌&&◌, ◌≡◌, ◌+◌, ◌≤◌, eqb};
ghost use Rattle.refusals.specs.Says.{says};
ghost use Rattle.edges.specs.Edges.{max_nodes, max_edges, max_path, has, chain, taken, there_of, edges_in, held};
ghost use Rattle.soundness.specs.Steps.{Ends};
ghost use Rattle.growth.specs.Growth.{is_new_path, room, front, may_insert, may_ensure, export_from, may_export};

use edges::{EDGES, LONGEST, NODES, SUPER, There, WORDS, deepest, has_super, parent, wide};
use refusals::Refusal;
use soundness::is_node;

// Whether a table takes a new node below another, by this name.
pub fn may_insert(
    links: &[u16; WORDS],
    n: usize,
    nodes: usize,
    above: u16,
    id: u16,
) -> Result<(), Refusal>
    ensures { says result ≡ may_insert nodes n (edges_in links.now n) above id tt }
{
    if !is_node(links, n, nodes, above) {
        return Err(Refusal::Argument);
    }
    if id == SUPER {
        return Err(Refusal::Argument);
    }
    if !has_room(nodes, n, 1, 1) {
        return Err(Refusal::NoRoom);
    }
    Ok(())
}

// Whether a table takes the missing nodes of a path.
pub fn may_ensure(
    links: &[u16; WORDS],
    n: usize,
    nodes: usize,
    nx: u16,
    path: &[u16],
) -> Result<There, Refusal>
    ensures { says result ≡ may_ensure nodes n (edges_in links.now n) nx path.now
        (there_of (edges_in links.now n) nx path.now) }
{
    if !is_node(links, n, nodes, nx) {
        return Err(Refusal::Argument);
    }
    if !is_new_path(path) {
        return Err(Refusal::Argument);
    }
    let there = deepest(links, n, nx, path);
    let missing = path.len() - there.depth;
    if !has_room(nodes, n, missing, missing) {
        return Err(Refusal::NoRoom);
    }
    Ok(there)
}

// Whether a table takes another name for a node: an edge to it from the end of a path.
pub fn may_export(
    links: &[u16; WORDS],
    n: usize,
    nodes: usize,
    node: u16,
    above: u16,
    path: &[u16],
) -> Result<There, Refusal>
    ensures { says result ≡ may_export nodes n (edges_in links.now n) node above path.now
        (there_of (edges_in links.now n) above (front path.now)) }
{
    if !is_node(links, n, nodes, above) {
        return Err(Refusal::Argument);
    }
    if nodes <= wide(node) {
        return Err(Refusal::Argument);
    }
    if !is_new_path(path) {
        return Err(Refusal::Argument);
    }
    if path.len() == 0 {
        return Err(Refusal::Argument);
    }
    let last = path.len() - 1;
    let there = deepest(links, n, above, &path[0..last]);
    let missing = last - there.depth;
    export_from(links, n, nodes, node, there, missing, path[last])
}

// The export behind its first tests: so many nodes are missing below `there`, and the edge gets the name `id`.
fn export_from(
    links: &[u16; WORDS],
    n: usize,
    nodes: usize,
    node: u16,
    there: There,
    missing: usize,
    id: u16,
) -> Result<There, Refusal>
    requires { (nodes ≤ max_nodes) × (n ≤ max_edges) × (missing ≤ max_path) × Ends (held links.now n) there.node }
    ensures { says result ≡ export_from nodes n (held links.now n) node there.node missing id there }
{
    if on_chain(links, n, there.node, node) {
        return Err(Refusal::Loop);
    }
    if is_taken(links, n, missing, there.node, id, node) {
        return Err(Refusal::NameTaken);
    }
    if !has_room(nodes, n, missing, missing + 1) {
        return Err(Refusal::NoRoom);
    }
    Ok(there)
}

// Whether node x is on the chain of s to the root.
fn on_chain(links: &[u16; WORDS], n: usize, s: u16, x: u16) -> bool
    requires { Ends (held links.now n) s }
    ensures { result ≡ has x (chain (held links.now n) s) }
{
    let mut at = s;
    // The next scope is read from the edges: no index is counted.
    while at != x {
        let Some(up) = parent(links, n, at) else {
            return false;
        };
        at = up;
    }
    true
}

// Whether the name leads elsewhere already; where nodes are missing, it leads nowhere.
fn is_taken(links: &[u16; WORDS], n: usize, missing: usize, s: u16, x: u16, to: u16) -> bool
    ensures { result ≡ (eqb missing 0 && taken (held links.now n) s x to) }
{
    missing == 0 && edges::is_taken(links, n, s, x, to)
}

// Whether there is room for i more nodes and j more edges.
fn has_room(nodes: usize, n: usize, i: usize, j: usize) -> bool
    requires { (nodes ≤ max_nodes) × (n ≤ max_edges) }
    ensures { result ≡ room (nodes + i) (n + j) }
{
    i <= NODES - nodes && j <= EDGES - n
}

// Whether a table may be given the path: not too long, and no super in it.
fn is_new_path(path: &[u16]) -> bool
    ensures { result ≡ is_new_path path.now }
{
    path.len() <= LONGEST && !has_super(path)
}
