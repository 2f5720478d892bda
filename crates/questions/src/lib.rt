// What is asked of a symbol table, under the Rust's names: a node's number, and the nodes that names mean. A question changes nothing; on a
// table that is not sound it is refused (1). The table goes in by value, and its edges are lent to the look-ups.
#![tactic(auto)]

ghost use Rattle.std.specs.Prelude.{◌≡◌, length};
ghost use Rattle.refusals.specs.Answer.{mapped};
ghost use Rattle.refusals.specs.Says.{says};
ghost use Rattle.scopes.specs.Scopes.{list_after};
ghost use Rattle.symbols.specs.Symbols.{get, child, parent, try_index, query, query_all};

use edges::{LONGEST, SUPER, wide};
use refusals::Refusal;
use soundness::is_node;
use symbols::SymbolTable;

// A node's number, if it has one.
pub fn get(table: SymbolTable, nx: u16) -> Result<Option<i64>, Refusal>
    ensures { says result ≡ get table nx }
{
    if !is_node(&table.links, table.edges, table.nodes, nx) {
        return Err(Refusal::Argument);
    }
    Ok(table.numbers[wide(nx)])
}

// The node at the end of a path.
pub fn try_index(table: SymbolTable, nx: u16, path: &[u16]) -> Result<Option<u16>, Refusal>
    ensures { says result ≡ try_index table nx path.now }
{
    if !is_node(&table.links, table.edges, table.nodes, nx) {
        return Err(Refusal::Argument);
    }
    if LONGEST < path.len() {
        return Err(Refusal::Argument);
    }
    Ok(edges::walk(&table.links, table.edges, nx, path))
}

// The node that a node was last put under.
pub fn parent(table: SymbolTable, nx: u16) -> Result<Option<u16>, Refusal>
    ensures { says result ≡ parent table nx }
{
    if !is_node(&table.links, table.edges, table.nodes, nx) {
        return Err(Refusal::Argument);
    }
    Ok(edges::parent(&table.links, table.edges, nx))
}

// The node that a name means in a node.
pub fn child(table: SymbolTable, nx: u16, id: u16) -> Result<Option<u16>, Refusal>
    ensures { says result ≡ child table nx id }
{
    if !is_node(&table.links, table.edges, table.nodes, nx) {
        return Err(Refusal::Argument);
    }
    if id == SUPER {
        return Err(Refusal::Argument);
    }
    Ok(edges::child(&table.links, table.edges, nx, id))
}

// The node that a path means in a scope: the innermost scope decides in which the whole path is found.
pub fn query(table: SymbolTable, nx: u16, path: &[u16]) -> Result<Option<u16>, Refusal>
    ensures { says result ≡ query table nx path.now }
{
    scopes::query(&table.links, table.edges, table.nodes, nx, path)
}

// The nodes that a path means in a scope and in each scope around it, and how many they are.
pub fn query_all(
    table: SymbolTable,
    nx: u16,
    path: &[u16],
    list: &mut [u16],
) -> Result<usize, Refusal>
    ensures { (says result ≡ mapped length (query_all table nx path.now (length list.old)))
        × (list.new ≡ list_after list.old (query_all table nx path.now (length list.old))) }
{
    scopes::query_all(&table.links, table.edges, table.nodes, nx, path, list)
}
