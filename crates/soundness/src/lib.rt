// Whether a table is sound, in as many steps as it has nodes and edges: each edge is read twice at most, and the walks up from
// all nodes mark each node once.
#![tactic(auto)]

ghost use Rattle.std.specs.Prelude.{true, List, ◌≡◌, ℕ, ◌+◌, ◌<◌, ◌≤◌, length, replicate};
ghost use Rattle.edges.specs.declared.Edge.{Edge};
ghost use Rattle.edges.specs.Edges.{max_nodes, max_edges, edges_in};
ghost use Rattle.soundness.specs.Sound.{fits, all_fit, all_below, rooted, sound_edges, is_node_in};
ghost use Rattle.soundness.specs.Steps.{Parents, Small, Tells, Known};

use edges::{EDGES, Edge, NODES, SUPER, WORDS, edge_at, wide};

// Whether the table is sound, and nx a node of it.
pub fn is_node(links: &[u16; WORDS], n: usize, nodes: usize, nx: u16) -> bool
    ensures { result ≡ is_node_in nodes n (edges_in links.now n) nx }
{
    is_sound(links, n, nodes) && wide(nx) < nodes
}

// Whether nodes and edges, n of them, are a sound table.
#[tactic(auto, unfolding(crate::specs::Sound::sound_edges))]
fn is_sound(links: &[u16; WORDS], n: usize, nodes: usize) -> bool
    ensures { result ≡ sound_edges nodes n (edges_in links.now n) }
{
    if nodes < 1 || NODES < nodes || EDGES < n || !edges_fit(links, n, nodes) {
        return false;
    }
    let up = parents(links, n);
    let mut seen = [0u16; NODES];
    all_reach(&up, &mut seen, nodes)
}

// Whether every edge joins two of the nodes, under a name, and none leads into the root.
fn edges_fit(links: &[u16; WORDS], n: usize, nodes: usize) -> bool
    requires { n ≤ max_edges }
    ensures { result ≡ all_fit nodes (edges_in links.now n) }
{
    for i in (0..n).rev() {
        if !edge_fits(edge_at(links, i), nodes) {
            return false;
        }
    }
    true
}

// Whether the edge joins two of the nodes, under a name, and does not lead into the root.
#[tactic(auto, using(crate::proofs::Sound::not_zero), unfolding(crate::specs::Sound::fits))]
fn edge_fits(edge: Edge, nodes: usize) -> bool
    ensures { result ≡ fits nodes edge }
{
    wide(edge.from) < nodes && wide(edge.to) < nodes && edge.to != 0 && edge.id != SUPER
}

// Of each node its parent's number and 1, or 0 where it has none.
fn parents(links: &[u16; WORDS], n: usize) -> [u16; NODES]
    requires { (n ≤ max_edges) × (all_fit max_nodes (edges_in links.now n) ≡ true) }
    ensures { Parents result (edges_in links.now n) }
{
    let mut up = [0u16; NODES];
    for i in 0..n {
        let edge = edge_at(links, i);
        up[wide(edge.to)] = edge.from + 1;
    }
    up
}

// Whether the chain of every node ends at the root. `seen`, all zero at first, marks the nodes that are known to have such a
// chain.
fn all_reach(up: &[u16; NODES], seen: &mut [u16; NODES], nodes: usize) -> bool
    requires { (0 < nodes) × (nodes ≤ max_nodes) × Small up.now × (seen.old ≡ replicate max_nodes 0) }
    ensures { (es : List Edge) → Tells up.now es nodes → result ≡ all_below nodes (rooted es) }
{
    seen[0] = 1;
    for s in 1..nodes {
        if !reaches(up, seen, s) {
            return false;
        }
    }
    true
}

// Whether the chain of s ends at the root: it meets a node that an earlier walk has marked, and not one of its own. So all walks
// together mark each node once.
fn reaches(up: &[u16; NODES], seen: &mut [u16; NODES], s: usize) -> bool
    requires { (s < max_nodes) × Small up.now × (length seen.old ≡ max_nodes) }
    ensures { (length seen.new ≡ max_nodes)
        × ((es : List Edge) (n : ℕ) → Tells up.now es n → s < n → Known es s seen.old
        → (result ≡ rooted es s) × (result ≡ true → Known es (s + 1) seen.new)) }
{
    let own = s as u16 + 1;
    let mut at = s;
    // The next node is read from the table of parents: no index is counted.
    while seen[at] == 0 {
        seen[at] = own;
        let p = wide(up[at]);
        if p == 0 {
            return false;
        }
        at = p - 1;
    }
    seen[at] != own
}
