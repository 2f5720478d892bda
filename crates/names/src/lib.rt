// The names of a tape: scopes, labels and constants are declared in tape order, and only then is each name record resolved, from the
// scope in which it stands. Declaration k is node k, and its edge, edge k - 1, leaves the scope around it.
#![tactic(auto)]

ghost use Rattle.std.specs.Prelude.{◌≡◌, ◌+◌, ◌*◌, ◌≤◌, ◌<◌, length, replicate};
ghost use Rattle.refusals.specs.AnswerAt.{Fine};
ghost use Rattle.refusals.specs.Says.{says_at};
ghost use Rattle.edges.specs.Edges.{max_edges};
ghost use Rattle.form.specs.Form.{tape_form};
ghost use Rattle.form.specs.Says.{fault_number};
ghost use Rattle.lookup.specs.Notes.{notes_of};
ghost use Rattle.names.specs.Scopes.{scope_at};
ghost use Rattle.names.specs.Names.{declare_of, notes_after};
ghost use Rattle.names.specs.Steps.{taken_in, fault_of, edges_after, enclosing, walk_after, tabled, table_of, declared_on};

use edges::{WIDTH, wide};
use form::LONGEST;
use refusals::{Fault, Refusal};
use symbols::{NODES, SymbolTable, WORDS};
use tape::{CLOSE_SCOPE, OPEN_SCOPE};

// Between two records: how many names are declared, and the node of the innermost scope.
#[derive(Clone, Copy, Debug, PartialEq, Eq)]
struct Walk {
    names: usize,
    scope: u16,
}

// Declares the names of a tape, and notes at each name record the node that it reaches: one more than the node, or 0.
pub fn declare(tape: &[u8], nodes: &mut [u16]) -> Result<SymbolTable, Fault>
    ensures { (says_at result ≡ declare_of tape.now (length nodes.old))
        × (nodes.new ≡ notes_after tape.now nodes.old (declare_of tape.now (length nodes.old))) }
{
    if nodes.len() != LONGEST {
        return Err(Refusal::Argument.at(0));
    }
    form::form(tape)?;
    declare_sound(tape, nodes)
}

// The same where the form of the tape is accepted.
fn declare_sound(tape: &[u8], nodes: &mut [u16]) -> Result<SymbolTable, Fault>
    requires { tape_form tape.now ≡ Fine tt }
    ensures { (says_at result ≡ declared_on tape.now)
        × (nodes.new ≡ notes_after tape.now nodes.old (declared_on tape.now)) }
{
    let mut links = [0u16; WORDS];
    let edges = fill(tape, &mut links)?;
    resolve(tape, &links, edges, nodes);
    Ok(SymbolTable {
        nodes: edges + 1,
        edges,
        links,
        numbers: [None; NODES],
    })
}

// Writes the edges of all declarations, in tape order, and says how many there are.
fn fill(tape: &[u8], links: &mut [u16; WORDS]) -> Result<usize, Fault>
    requires { (tape_form tape.now ≡ Fine tt) × (links.old ≡ replicate 6144 0) }
    ensures { tabled links.new (says_at result) ≡ declared_on tape.now }
{
    let mut walk = Walk { names: 0, scope: 0 };
    let mut at: usize = 0;
    // A record's length is the step of this walk: no index is counted.
    while at < tape.len() {
        let rec = tape::record(tape, at);
        if form::is_last(rec) {
            return Ok(walk.names);
        }
        fault_of(links, walk, rec).map_err(|why| why.at(at))?;
        put(links, walk, rec);
        walk = behind(links, walk, rec);
        at += rec.len();
    }
    Ok(walk.names)
}

// Notes at each name record the node that it reaches from the scope in which it stands.
fn resolve<'a>(tape: &'a [u8], links: &'a [u16; WORDS], edges: usize, nodes: &mut [u16])
    requires { (tape_form tape.now ≡ Fine tt) × (declared_on tape.now ≡ Fine (table_of links.now edges)) }
    ensures { nodes.new
        ≡ notes_of tape.now links.now edges (scope_at tape.now) nodes.old }
{
    let mut walk = Walk { names: 0, scope: 0 };
    let mut at: usize = 0;
    // A record's length is the step of this walk: no index is counted.
    while at < tape.len() {
        let rec = tape::record(tape, at);
        if form::is_last(rec) {
            return;
        }
        lookup::note(nodes, at, rec, links, edges, walk.scope);
        walk = behind(links, walk, rec);
        at += rec.len();
    }
}

// Refuses a record whose id is in the scope already, or for which there is no room.
#[tactic(auto, unfolding(crate::specs::Steps::fault_of))]
fn fault_of(links: &[u16; WORDS], walk: Walk, rec: &[u8]) -> Result<(), Refusal>
    requires { walk.names ≤ max_edges }
    ensures { fault_number result ≡ fault_of links.now walk rec.now }
{
    if !form::declares(little::u8_at(rec, 0)) {
        return Ok(());
    }
    if is_taken(links, walk.names, walk.scope, little::u16_at(rec, 1)) {
        return Err(Refusal::NameTaken);
    }
    if NODES <= walk.names + 1 {
        return Err(Refusal::NoRoom);
    }
    Ok(())
}

// Whether one of the first n edges leaves the scope by this id.
#[tactic(auto, using(crate::proofs::Records::look_up))]
fn is_taken(links: &[u16; WORDS], n: usize, scope: u16, id: u16) -> bool
    requires { n ≤ max_edges }
    ensures { result ≡ taken_in links.now n scope id }
{
    edges::child(links, n, scope, id).is_some()
}

// Writes the edge of the name that a record declares, if it declares one.
#[tactic(auto, unfolding(crate::specs::Steps::edges_after))]
fn put(links: &mut [u16; WORDS], walk: Walk, rec: &[u8])
    requires { (walk.names < max_edges) × (3 * walk.names + 3 ≤ length links.old) }
    ensures { links.new ≡ edges_after links.old walk rec.now }
{
    if form::declares(little::u8_at(rec, 0)) {
        let at = WIDTH * walk.names;
        links[at] = walk.scope;
        links[at + 1] = little::u16_at(rec, 1);
        links[at + 2] = (walk.names + 1) as u16;
    }
}

// Behind a record.
#[tactic(auto, unfolding(crate::specs::Steps::walk_after))]
fn behind(links: &[u16; WORDS], walk: Walk, rec: &[u8]) -> Walk
    requires { (walk.names < max_edges) × (walk.scope ≤ max_edges) }
    ensures { result ≡ walk_after links.now walk rec.now }
{
    let kind = little::u8_at(rec, 0);
    let names = walk.names + 1;
    if kind == OPEN_SCOPE {
        return Walk {
            names,
            scope: names as u16,
        };
    }
    if kind == CLOSE_SCOPE {
        return Walk {
            scope: around(links, walk.scope),
            ..walk
        };
    }
    if form::declares(kind) {
        return Walk { names, ..walk };
    }
    walk
}

// The scope around a scope; around the root, the root.
fn around(links: &[u16; WORDS], scope: u16) -> u16
    requires { scope ≤ max_edges }
    ensures { result ≡ enclosing links.now scope }
{
    if scope == 0 {
        return 0;
    }
    links[WIDTH * (wide(scope) - 1)]
}
