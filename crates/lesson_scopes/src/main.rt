// A lesson on names: which node a name means where an inner and an outer scope both have it. A station has a gate, and the gate
// asks. What is printed is to be read aloud.
#![tactic(auto)]

use console::Console;
use std::io;
use symbols::SymbolTable;

// The names, each with a number of its own.
const COUNTER: u16 = 1;

const GATE: u16 = 2;

const READER: u16 = 3;

const LIGHT: u16 = 4;

// The nodes in which names are defined or asked for. Nodes are numbered as they are made; the station is the root.
const IN_STATION: u16 = 0;

const IN_GATE: u16 = 2;

const IN_READER: u16 = 4;

// Two counters by one name; the gate's own is defined further down than the place that asks.
fn counters(rt: &impl Print, table: &mut SymbolTable) -> io::Result<()> {
    println!(rt; "The station is node 0.")?;
    print!(rt; "The station defines a counter")?;
    define(rt, table, IN_STATION, COUNTER)?;
    print!(rt; "The station defines a gate, a scope inside it")?;
    define(rt, table, IN_STATION, GATE)?;
    print!(rt; "The gate asks for counter")?;
    ask(rt, *table, IN_GATE, &[COUNTER])?;
    println!(rt; ", because it has none yet, and the station around it has one.")?;
    print!(rt; "Further down the gate defines a counter too")?;
    define(rt, table, IN_GATE, COUNTER)?;
    print!(rt; "The gate asks for counter, in the same place")?;
    ask(rt, *table, IN_GATE, &[COUNTER])?;
    println!(rt; ", because the inner scope is asked first, wherever in it the name is defined.")?;
    print!(rt; "On a tape all names are defined before any is asked for: ")?;
    println!(rt; "there the gate's counter is node 3 from the first line on.")?;
    print!(rt; "The station asks for counter")?;
    ask(rt, *table, IN_STATION, &[COUNTER])?;
    println!(rt; ", because no scope looks into a scope inside it.")
}

// Two readers, of which the outer one has a light: a path counts only as a whole.
fn paths(rt: &impl Print, table: &mut SymbolTable) -> io::Result<()> {
    print!(rt; "The station defines a reader")?;
    define(rt, table, IN_STATION, READER)?;
    print!(rt; "In this reader it defines a light")?;
    define(rt, table, IN_READER, LIGHT)?;
    print!(rt; "The gate defines a reader, without a light")?;
    define(rt, table, IN_GATE, READER)?;
    print!(rt; "The gate asks for reader")?;
    ask(rt, *table, IN_GATE, &[READER])?;
    println!(rt; ", because it has a reader of its own.")?;
    print!(rt; "The gate asks for reader.light")?;
    ask(rt, *table, IN_GATE, &[READER, LIGHT])?;
    println!(rt;
        ", because its own reader has no light, so the station is asked for the whole path."
    )
}

// Defines a name in a scope, and says which node that makes.
fn define(rt: &impl Print, table: &mut SymbolTable, scope: u16, name: u16) -> io::Result<()> {
    match table.insert(scope, name, None) {
        Ok(inserted) => {
            *table = inserted.table;
            println!(rt; ": node {}.", inserted.node)
        }
        Err(_) => println!(rt; ": refused."),
    }
}

// Asks what a path means from a scope, and says where the look-up ends.
fn ask(rt: &impl Print, table: SymbolTable, scope: u16, path: &[u16]) -> io::Result<()> {
    match questions::query(table, scope, path) {
        Ok(Some(node)) => print!(rt; ": node {node}"),
        Ok(None) => print!(rt; ": nothing"),
        Err(_) => print!(rt; ": refused"),
    }
}

// The lesson in two parts: one name, and a path of two.
fn lesson(rt: &impl Print) -> io::Result<()> {
    let mut table = SymbolTable::new();
    counters(rt, &mut table)?;
    paths(rt, &mut table)
}

fn main() {
    let _ = lesson(&Console);
}
