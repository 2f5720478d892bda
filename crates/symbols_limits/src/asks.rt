// Groups of calls, each printed behind its name.
use crate::show::{answered, done, found, got, made};
use cases::{print_line, u16_of};
use std::io;
use symbols::SymbolTable;

// How many places a list has here at most.
const LONGEST: usize = 1025;

// What every call answers at a node and by a name: NODE ID NAME.
pub fn calls(rt: &impl Print, line: &[u8], table: SymbolTable) -> io::Result<()> {
    let nx = u16_of(line, 1);
    let id = u16_of(line, 2);
    print_line(rt, script::words_from(line, 3))?;
    writes(rt, table, nx, id)?;
    found(rt, b"  parent", questions::parent(table, nx))?;
    found(rt, b"  child", questions::child(table, nx, id))?;
    reads(rt, table, nx, &[id])
}

// What every call answers that gives a table, and get.
fn writes(rt: &impl Print, table: SymbolTable, nx: u16, id: u16) -> io::Result<()> {
    let path = [id];
    got(rt, b"  get", questions::get(table, nx))?;
    made(rt, b"  insert", table, table.insert(nx, id, None))?;
    done(rt, b"  update_data", table, table.update_data(nx, Some(1)))?;
    done(
        rt,
        b"  export of it from the root",
        table,
        table.export(nx, 0, &path),
    )?;
    done(
        rt,
        b"  export of node 1 below it",
        table,
        table.export(1, nx, &path),
    )?;
    made(rt, b"  ensure_index", table, table.ensure_index(nx, &path))?;
    Ok(())
}

// Prints what a path means in a scope.
pub fn reads(rt: &impl Print, table: SymbolTable, nx: u16, path: &[u16]) -> io::Result<()> {
    let mut list = [0u16; 1024];
    found(rt, b"  try_index", questions::try_index(table, nx, path))?;
    found(rt, b"  query", questions::query(table, nx, path))?;
    answered(
        rt,
        b"  query_all",
        questions::query_all(table, nx, path, &mut list),
    )
}

// What every call that takes a path answers in the root, and whether it left a node behind: NAME.
pub fn path_calls(
    rt: &impl Print,
    line: &[u8],
    table: SymbolTable,
    path: &[u16],
) -> io::Result<()> {
    print_line(rt, script::words_from(line, 1))?;
    reads(rt, table, 0, path)?;
    grows(rt, table, path)?;
    exports(rt, table, 1, path)
}

// Prints what ensure_index answers in the root, and what the name 5 is then.
fn grows(rt: &impl Print, table: SymbolTable, path: &[u16]) -> io::Result<()> {
    let after = made(rt, b"  ensure_index", table, table.ensure_index(0, path))?;
    found(rt, b"  child afterwards", questions::child(after, 0, 5))
}

// The same of an export.
fn exports(rt: &impl Print, table: SymbolTable, node: u16, path: &[u16]) -> io::Result<()> {
    let after = done(rt, b"  export", table, table.export(node, 0, path))?;
    found(rt, b"  child afterwards", questions::child(after, 0, 5))
}

// How many nodes query_all lists from node 1, and what stands then at the places 0, 1, 2 and 1,023: PLACES NAME.
pub fn list_of(rt: &impl Print, line: &[u8], table: SymbolTable, path: &[u16]) -> io::Result<()> {
    let places = script::number(line, 1);
    let mut list = [7u16; LONGEST];
    if LONGEST < places {
        return println!(rt; "too long");
    }
    let answer = questions::query_all(table, 1, path, &mut list[..places]);
    answered(rt, script::words_from(line, 2), answer)?;
    print_places(rt, &list)
}

// Prints what stands at the first places of a list, and at the last but one.
fn print_places(rt: &impl Print, list: &[u16; LONGEST]) -> io::Result<()> {
    for at in [0, 1, 2, 1023] {
        println!(rt; "  place {at}: {}", list[at])?;
    }
    Ok(())
}

// An export, and which node is the next then; hands back the table: NODE PARENT NAME.
pub fn exported(
    rt: &impl Print,
    line: &[u8],
    table: SymbolTable,
    path: &[u16],
) -> io::Result<SymbolTable> {
    let after = tried(rt, line, table, path)?;
    made(rt, b"  insert afterwards", after, after.insert(0, 9, None))?;
    Ok(after)
}

// An export alone: NODE PARENT NAME.
pub fn tried(
    rt: &impl Print,
    line: &[u8],
    table: SymbolTable,
    path: &[u16],
) -> io::Result<SymbolTable> {
    let answer = table.export(u16_of(line, 1), u16_of(line, 2), path);
    done(rt, script::words_from(line, 3), table, answer)
}

// An insert; hands back the table: NODE ID NAME.
pub fn inserted(rt: &impl Print, line: &[u8], table: SymbolTable) -> io::Result<SymbolTable> {
    let answer = table.insert(u16_of(line, 1), u16_of(line, 2), None);
    made(rt, script::words_from(line, 3), table, answer)
}

// The child of a node: NODE ID NAME.
pub fn child(rt: &impl Print, line: &[u8], table: SymbolTable) -> io::Result<()> {
    let answer = questions::child(table, u16_of(line, 1), u16_of(line, 2));
    found(rt, script::words_from(line, 3), answer)
}

// What calls answer that need none, one and two new nodes: NAME.
pub fn room(rt: &impl Print, line: &[u8], table: SymbolTable) -> io::Result<()> {
    print_line(rt, script::words_from(line, 1))?;
    made(rt, b"  insert", table, table.insert(0, 5, None))?;
    println!(rt; " no new node")?;
    new_nodes(rt, table, &[], &[5])?;
    println!(rt; " one new node")?;
    new_nodes(rt, table, &[5], &[5, 6])?;
    println!(rt; " two new nodes")?;
    new_nodes(rt, table, &[5, 6], &[5, 6, 7])
}

// The same by a path; an export needs one edge more, and so its path is longer.
fn new_nodes(rt: &impl Print, table: SymbolTable, path: &[u16], longer: &[u16]) -> io::Result<()> {
    grows(rt, table, path)?;
    exports(rt, table, 2, longer)
}

// A query of edges that are lent: EDGES NODE NAME.
pub fn lent(rt: &impl Print, line: &[u8], table: SymbolTable, path: &[u16]) -> io::Result<()> {
    let edges = script::number(line, 1);
    let answer = scopes::query_edges(&table.links, edges, u16_of(line, 2), path);
    found(rt, script::words_from(line, 3), answer)
}
