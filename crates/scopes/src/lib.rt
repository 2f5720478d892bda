// The query from a scope outward: the innermost scope in which the whole path resolves wins. A table's edges are lent; a table that
// is not sound, a node that it has not, and a path of more than 4 ids are refused (1).
#![tactic(auto)]

ghost use Rattle.std.specs.Prelude.{◌≡◌, ◌+◌, ◌<◌, length, replicate};
ghost use Rattle.refusals.specs.Answer.{mapped};
ghost use Rattle.refusals.specs.Memory.{over};
ghost use Rattle.refusals.specs.Says.{says};
ghost use Rattle.edges.specs.Edges.{max_nodes, query_of, all_of, edges_in, held};
ghost use Rattle.scopes.specs.Scopes.{query_in, query_edges, query_all_in, listed, list_after};
ghost use Rattle.soundness.specs.Steps.{Ends};
ghost use Rattle.scopes.specs.Steps.{answers, tallied};

use edges::{EDGES, LONGEST, NODES, WORDS, has_super, parent, walk};
use refusals::Refusal;
use soundness::is_node;

// How many answers are written, and how many scopes wait for one.
#[derive(Clone, Copy, Debug, PartialEq, Eq)]
struct Tally {
    written: usize,
    waiting: usize,
}

// What a path means in a scope of n edges and so many nodes.
pub fn query(
    links: &[u16; WORDS],
    n: usize,
    nodes: usize,
    nx: u16,
    path: &[u16],
) -> Result<Option<u16>, Refusal>
    ensures { says result ≡ query_in nodes n (edges_in links.now n) nx path.now }
{
    if !is_node(links, n, nodes, nx) {
        return Err(Refusal::Argument);
    }
    if LONGEST < path.len() {
        return Err(Refusal::Argument);
    }
    Ok(ask(links, n, nx, path))
}

// The nodes that a path means in a scope and in each scope around it, and how many they are.
pub fn query_all(
    links: &[u16; WORDS],
    n: usize,
    nodes: usize,
    nx: u16,
    path: &[u16],
    list: &mut [u16],
) -> Result<usize, Refusal>
    ensures { (says result ≡ mapped length
        (query_all_in nodes n (edges_in links.now n) nx path.now (length list.old)))
        × (list.new ≡ list_after list.old
        (query_all_in nodes n (edges_in links.now n) nx path.now (length list.old))) }
{
    if !is_node(links, n, nodes, nx) {
        return Err(Refusal::Argument);
    }
    if LONGEST < path.len() {
        return Err(Refusal::Argument);
    }
    if list.len() != NODES {
        return Err(Refusal::Argument);
    }
    list.fill(0);
    Ok(ask_all(links, n, nx, path, list))
}

// The query in edges that may be those of no sound table, for who asks many: nothing is tested but that edges and path are no
// more than fit. A chain is followed over as many nodes as a table has at most. Of a sound table it is the query itself.
pub fn query_edges(
    links: &[u16; WORDS],
    n: usize,
    nx: u16,
    path: &[u16],
) -> Result<Option<u16>, Refusal>
    ensures { says result ≡ query_edges links.now n nx path.now }
{
    if EDGES < n {
        return Err(Refusal::Argument);
    }
    if LONGEST < path.len() {
        return Err(Refusal::Argument);
    }
    Ok(ask_any(links, n, nx, path))
}

// The query from s: the whole path, else the same from the parent. What is left of the chain to the root falls.
fn ask(links: &[u16; WORDS], n: usize, s: u16, path: &[u16]) -> Option<u16>
    requires { Ends (held links.now n) s }
    ensures { result ≡ query_of (held links.now n) s path.now }
{
    if let Some(node) = walk(links, n, s, path) {
        return Some(node);
    }
    if has_super(path) {
        return None;
    }
    let up = parent(links, n, s)?;
    ask(links, n, up, path)
}

// The same in edges that may be anything, with a count of the nodes that are left.
fn ask_any(links: &[u16; WORDS], n: usize, s: u16, path: &[u16]) -> Option<u16>
    ensures { result ≡ query_of (held links.now n) s path.now }
{
    let mut at = s;
    for left in (0..NODES).rev() {
        if let Some(node) = walk(links, n, at, path) {
            return Some(node);
        }
        if has_super(path) {
            return None;
        }
        at = parent(links, n, at)?;
    }
    None
}

// The answers of the query from s and from each scope above it, into a list of zeros; and how many they are. Each scope is asked
// once: where it fails, it waits for the answer of the next above it.
fn ask_all(links: &[u16; WORDS], n: usize, s: u16, path: &[u16], list: &mut [u16]) -> usize
    requires { Ends (held links.now n) s × (list.old ≡ replicate max_nodes 0) }
    ensures { (list.new ≡ listed (all_of (held links.now n) s path.now))
        × (result ≡ length (all_of (held links.now n) s path.now)) }
{
    let waits = !has_super(path);
    let mut at = s;
    let mut tally = Tally {
        written: 0,
        waiting: 0,
    };
    // The next scope is read from the edges: no index is counted.
    loop {
        let reached = walk(links, n, at, path);
        tally = noted(list, tally, reached, waits);
        let Some(up) = parent(links, n, at) else {
            return tally.written;
        };
        at = up;
    }
}

// What a scope's own answer adds: it is written for this scope and for all that wait; where there is none, this one waits too.
fn noted(list: &mut [u16], tally: Tally, reached: Option<u16>, waits: bool) -> Tally
    requires { tally.written + tally.waiting < length list.old }
    ensures { (result ≡ tallied reached waits tally)
        × (list.new ≡ over list.old tally.written (answers reached (tally.waiting + 1))) }
{
    match reached {
        Some(node) => {
            let written = tally.written;
            let end = written + tally.waiting + 1;
            list[written..end].fill(node);
            Tally {
                written: end,
                waiting: 0,
            }
        }
        None if waits => Tally {
            waiting: tally.waiting + 1,
            ..tally
        },
        None => tally,
    }
}
