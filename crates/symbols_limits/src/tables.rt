// Tables, and the path that is asked about.
use cases::u16_of;
use replay::room::Room;
use symbols::SymbolTable;

// How many edges a table has at most, and how many ids a path has here.
const EDGES: usize = 2048;

const IDS: usize = 5;

pub type Path = Room<u16, IDS>;

// Another path: ID ID ..
pub fn set_path(path: &mut Path, line: &[u8]) {
    path.clear();
    for i in 1..=script::words(script::words_from(line, 1)) {
        path.push_all(&[u16_of(line, i)]);
    }
}

// The table with so many nodes and edges, whatever that means: NODES EDGES.
pub fn sized(table: SymbolTable, line: &[u8]) -> SymbolTable {
    SymbolTable {
        nodes: script::number(line, 1),
        edges: script::number(line, 2),
        ..table
    }
}

// Gives the table one edge more, if there is room, whatever it joins: FROM ID TO.
pub fn link(table: &mut SymbolTable, line: &[u8]) {
    let edge = table.edges;
    if edge < EDGES {
        table.links[3 * edge] = u16_of(line, 1);
        table.links[3 * edge + 1] = u16_of(line, 2);
        table.links[3 * edge + 2] = u16_of(line, 3);
        table.edges = edge + 1;
    }
}

// Gives the table scopes below the node `last`, each below the one before, up to node `end`.
pub fn chain(table: &mut SymbolTable, last: u16, end: u16) {
    for i in last..end {
        if let Ok(inserted) = table.insert(i, name_below(i), None) {
            *table = inserted.table;
        }
    }
}

// The name of the scope below a scope: 1 in the root, 2 elsewhere.
fn name_below(nx: u16) -> u16 {
    if nx == 0 { 1 } else { 2 }
}

// Gives the table so many edges, by exports of node 1 from the root by the name 1, which it has.
pub fn crowd(table: &mut SymbolTable, edges: usize) {
    for i in table.edges..edges {
        if let Ok(changed) = table.export(1, 0, &[1]) {
            *table = changed;
        }
    }
}
