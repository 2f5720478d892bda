// Names on a tape: the node that a name record reaches from the scope in which it is read, and the notes of these nodes, by offset.
#![tactic(auto)]

ghost use Rattle.std.specs.Prelude.{◌≡◌, ◌-◌, ◌/◌, length, replicate};
ghost use Rattle.refusals.specs.Says.{says};
ghost use Rattle.lookup.specs.Lookup.{node_of};
ghost use Rattle.lookup.specs.Notes.{noted, note_of};

use edges::{LONGEST, wide};
use refusals::Refusal;
use symbols::{NODES, WORDS};

// The node that the query from the scope finds for a name record, in the edges of a table.
pub fn node_of(
    links: &[u16; WORDS],
    edges: usize,
    scope: u16,
    name: &[u8],
) -> Result<Option<u16>, Refusal>
    ensures { says result ≡ node_of links.now edges scope name.now }
{
    let n = ids_in(name.len());
    if LONGEST < n {
        return Err(Refusal::Argument);
    }
    let path = [
        little::u16_at(name, 2),
        little::u16_at(name, 4),
        little::u16_at(name, 6),
        little::u16_at(name, 8),
    ];
    scopes::query_edges(links, edges, scope, &path[..n])
}

// Makes every note zero.
pub fn clear(nodes: &mut [u16])
    ensures { nodes.new ≡ replicate (length nodes.old) 0 }
{
    nodes.fill(0);
}

// The node of a record that is a name, noted at its offset, if there is room for it.
#[tactic(auto, unfolding(crate::specs::Notes::note_of))]
pub fn note(
    nodes: &mut [u16],
    at: usize,
    rec: &[u8],
    links: &[u16; WORDS],
    edges: usize,
    scope: u16,
)
    ensures { nodes.new ≡ note_of nodes.old at rec.now links.now edges scope }
{
    if at < nodes.len() && tape::is_name(little::u8_at(rec, 0)) {
        nodes[at] = plus_one(node_of(links, edges, scope, rec));
    }
}

// One more than the node that is found; 0 where there is none that a table has.
fn plus_one(found: Result<Option<u16>, Refusal>) -> u16
    ensures { result ≡ noted (says found) }
{
    match found {
        Ok(Some(node)) if wide(node) < NODES => node + 1,
        _ => 0,
    }
}

// How many ids a name record of this length has.
fn ids_in(len: usize) -> usize
    ensures { result ≡ (len - 2) / 2 }
{
    len.saturating_sub(2) / 2
}
