// An index of the edges of a table, made while they are added. It has a word for each bucket of scopes and ids, the newest edge in
// it; for each node, its parent; and for each edge, the next older one of its bucket: one more than each of these numbers, and 0
// where there is none. So a look-up reads one bucket and not all edges. Its words may be anything: every look-up ends.
#![tactic(auto)]

ghost use Rattle.std.specs.Prelude.{◌≡◌, ◌<◌, min, get_or};
ghost use Rattle.edges.specs.Edges.{max_nodes, max_edges, has};
ghost use Rattle.index.specs.Index.{bucket, older_than, is_named, child_by, parent_by, id_at, path_in, ids_of, step_by, walk_by, noted, added, index_of};

use edges::{EDGES, Edge, LONGEST, NODES, SUPER, WORDS, at_most, edge_at, wide};

// How many words an index has.
pub const INDEX: usize = 4096;

// Behind the buckets' words stand those of the nodes, and behind these the edges'.
const OF_NODES: usize = 1024;

const OF_EDGES: usize = 2048;

// The bucket of the edges from s under the name x: of nodes that differ, one id never meets in one bucket.
fn bucket(s: u16, x: u16) -> usize
    ensures { result ≡ bucket s x }
{
    (wide(s) + wide(x)) % NODES
}

// The index with edge i, if a table has room for it.
#[tactic(auto, unfolding(crate::specs::Index::added))]
pub fn add(index: &mut [u16; INDEX], i: usize, edge: Edge)
    ensures { index.new ≡ added index.old i edge }
{
    if i < EDGES && wide(edge.from) < NODES && wide(edge.to) < NODES {
        note(index, i, edge);
    }
}

// Its three words: what was newest in the bucket is the next older one.
#[tactic(auto, unfolding(crate::specs::Index::noted))]
fn note(index: &mut [u16; INDEX], i: usize, edge: Edge)
    requires { (i < max_edges) × (edge.from < max_nodes) × (edge.to < max_nodes) }
    ensures { index.new ≡ noted index.old i edge }
{
    let b = bucket(edge.from, edge.id);
    index[OF_EDGES + i] = index[b];
    index[b] = i as u16 + 1;
    index[OF_NODES + wide(edge.to)] = edge.from + 1;
}

// The index of n edges, of no more than there is room for.
pub fn of(links: &[u16; WORDS], n: usize) -> [u16; INDEX]
    ensures { result ≡ index_of links.now (min n max_edges) }
{
    let mut index = [0u16; INDEX];
    for i in 0..at_most(n) {
        add(&mut index, i, edge_at(links, i));
    }
    index
}

// The edge of a bucket next older than edge i, and 1.
#[tactic(auto, unfolding(crate::specs::Index::older_than))]
fn older(index: &[u16; INDEX], i: usize) -> usize
    ensures { result ≡ older_than index.now i }
{
    if i < EDGES {
        wide(index[OF_EDGES + i])
    } else {
        0
    }
}

// Whether the edge is one from s under the name x.
fn is_named(edge: Edge, s: u16, x: u16) -> bool
    ensures { result ≡ is_named s x edge }
{
    edge.from == s && edge.id == x
}

// Where the last added edge from s under the name x leads, by the index of n edges: after n turns at most.
pub fn child(index: &[u16; INDEX], links: &[u16; WORDS], n: usize, s: u16, x: u16) -> Option<u16>
    ensures { result ≡ child_by index.now links.now n s x }
{
    let mut k = wide(index[bucket(s, x)]);
    for turn in 0..n {
        if k == 0 {
            return None;
        }
        let edge = edge_at(links, k - 1);
        if is_named(edge, s, x) {
            return Some(edge.to);
        }
        k = older(index, k - 1);
    }
    None
}

// Where the last added edge to s comes from, by the index.
#[tactic(auto, unfolding(crate::specs::Index::parent_by))]
pub fn parent(index: &[u16; INDEX], s: u16) -> Option<u16>
    ensures { result ≡ parent_by index.now s }
{
    if NODES <= wide(s) {
        return None;
    }
    index[OF_NODES + wide(s)].checked_sub(1)
}

// Where one id of a path leads.
#[tactic(auto, unfolding(crate::specs::Index::step_by))]
fn step(index: &[u16; INDEX], links: &[u16; WORDS], n: usize, s: u16, x: u16) -> Option<u16>
    ensures { result ≡ step_by index.now links.now n s x }
{
    if x == SUPER {
        parent(index, s)
    } else {
        child(index, links, n, s, x)
    }
}

// The four words of a path: its first ids, 0 behind them.
#[tactic(auto, unfolding(crate::specs::Index::ids_of))]
pub fn ids_of(path: &[u16]) -> [u16; LONGEST]
    ensures { result ≡ ids_of path.now }
{
    [
        word_at(path, 0),
        word_at(path, 1),
        word_at(path, 2),
        word_at(path, 3),
    ]
}

// An id of a path, 0 behind its end.
fn word_at(path: &[u16], i: usize) -> u16
    ensures { result ≡ get_or path.now i 0 }
{
    if i < path.len() { path[i] } else { 0 }
}

// The id at i of a path in words, 0 behind the fourth.
#[tactic(auto, unfolding(crate::specs::Index::id_at))]
fn id_at(ids: &[u16; LONGEST], i: usize) -> u16
    ensures { result ≡ id_at ids.now i }
{
    if i < LONGEST { ids[i] } else { 0 }
}

// Where the whole path leads from s: it has so many ids, in words.
pub fn walk(
    index: &[u16; INDEX],
    links: &[u16; WORDS],
    n: usize,
    s: u16,
    ids: &[u16; LONGEST],
    count: usize,
) -> Option<u16>
    ensures { result ≡ walk_by index.now links.now n (path_in ids.now count) s }
{
    let mut at = s;
    for i in 0..count {
        let Some(next) = step(index, links, n, at, id_at(ids, i)) else {
            return None; // the path breaks off
        };
        at = next;
    }
    Some(at)
}

// Whether a super stands in a path of so many ids.
pub fn has_super(ids: &[u16; LONGEST], count: usize) -> bool
    ensures { result ≡ has 0 (path_in ids.now count) }
{
    for i in 0..count {
        if id_at(ids, i) == SUPER {
            return true;
        }
    }
    false
}
