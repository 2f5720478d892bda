// Number lists: one number for each label and constant of a tape, in tape order. A build gathers one from the numbers of the nodes; a
// check spreads one over the nodes. Total: a number past an end is 0, and what has no room is left out.
#![tactic(auto)]

ghost use Rattle.std.specs.Prelude.{Some, None, ◌≡◌, ◌+◌, ◌<◌, ◌^◌, pos, length, get_or, set, replicate};
ghost use Rattle.refusals.specs.Answer.{pick};
ghost use Rattle.edges.specs.Edges.{max_nodes};
ghost use Rattle.symbols.specs.Symbols.{number_or0};
ghost use Rattle.form.specs.Form.{is_numbered};
ghost use Rattle.number_list.specs.Calls.{onto, gathered, spread_of};
ghost use Rattle.number_list.specs.Steps.{put_in};

use symbols::{NODES, Numbers};

// How many numbers a list has for a tape, and the numbers by node.
#[derive(Clone, Copy, Debug, PartialEq, Eq)]
pub struct ByNode {
    pub count: usize,
    pub numbers: Numbers,
}

// Makes every number of a list zero.
pub fn clear(list: &mut [i64])
    ensures { list.new ≡ replicate (length list.old) (pos 0) }
{
    list.fill(0);
}

// Writes the numbers of a tape's labels and constants, taken by node, into a list, and gives how many they are. A node without one gives 0.
pub fn gather<'a>(tape: &'a [u8], numbers: &'a [Option<i64>], list: &mut [i64]) -> usize
    ensures { (result ≡ length (gathered tape.now numbers.now))
        × (list.new ≡ onto list.old (gathered tape.now numbers.now)) }
{
    let mut names: usize = 0;
    let mut count: usize = 0;
    let mut at: usize = 0;
    // A record's length is the step of this walk: no index is counted.
    while at < tape.len() {
        let rec = tape::record(tape, at);
        if form::is_last(rec) {
            return count;
        }
        let kind = little::u8_at(rec, 0);
        count = listed(kind, numbers, names, list, count);
        names += form::names_in(kind);
        at += rec.len();
    }
    count
}

// The list with the number of the next node, where a record of this kind has one; and how many numbers it has then.
#[tactic(auto, unfolding(crate::specs::Steps::put_in))]
fn listed(kind: u8, numbers: &[Option<i64>], names: usize, list: &mut [i64], count: usize) -> usize
    requires { (names < 2 ^ 63) × (count < 2 ^ 63) }
    ensures { (result ≡ pick (is_numbered kind) (count + 1) count)
        × (list.new ≡ put_in list.old count kind (number_or0 (get_or numbers.now (names + 1) None))) }
{
    if form::is_numbered(kind) {
        put(list, count, number_of(numbers, names + 1));
        return count + 1;
    }
    count
}

// Spreads a list's numbers over the nodes of a tape's labels and constants.
pub fn spread<'a>(tape: &'a [u8], list: &'a [i64]) -> ByNode
    ensures { result ≡ spread_of tape.now list.now }
{
    let mut numbers = [None; NODES];
    let count = spread_into(tape, list, &mut numbers);
    ByNode { count, numbers }
}

// The same, into a lent array that says of no node that it has a number.
fn spread_into<'a>(tape: &'a [u8], list: &'a [i64], numbers: &mut [Option<i64>]) -> usize
    requires { numbers.old ≡ replicate max_nodes None }
    ensures { (result ≡ (spread_of tape.now list.now).count)
        × (numbers.new ≡ (spread_of tape.now list.now).numbers) }
{
    let mut names: usize = 0;
    let mut count: usize = 0;
    let mut at: usize = 0;
    // A record's length is the step of this walk: no index is counted.
    while at < tape.len() {
        let rec = tape::record(tape, at);
        if form::is_last(rec) {
            return count;
        }
        let kind = little::u8_at(rec, 0);
        count = valued(kind, list, count, names, numbers);
        names += form::names_in(kind);
        at += rec.len();
    }
    count
}

// The next node with the next number of a list, where a record of this kind has one; and how many numbers were taken then.
#[tactic(auto, unfolding(crate::specs::Steps::put_in))]
fn valued(kind: u8, list: &[i64], count: usize, names: usize, numbers: &mut [Option<i64>]) -> usize
    requires { (names < 2 ^ 63) × (count < 2 ^ 63) }
    ensures { (result ≡ pick (is_numbered kind) (count + 1) count)
        × (numbers.new ≡ put_in numbers.old (names + 1) kind (Some (get_or list.now count (pos 0)))) }
{
    if form::is_numbered(kind) {
        put(numbers, names + 1, Some(number_at(list, count)));
        return count + 1;
    }
    count
}

// The number of that index, or 0 past the end.
fn number_at(list: &[i64], i: usize) -> i64
    ensures { result ≡ get_or list.now i (pos 0) }
{
    list.get(i).copied().unwrap_or(0)
}

// The number of that node, or 0 where it has none and past the end.
fn number_of(numbers: &[Option<i64>], node: usize) -> i64
    ensures { result ≡ number_or0 (get_or numbers.now node None) }
{
    numbers.get(node).copied().flatten().unwrap_or(0)
}

// Puts something at that index; past the end, nothing.
fn put<T: Copy>(list: &mut [T], i: usize, x: T)
    ensures { list.new ≡ set list.old i x }
{
    if i < list.len() {
        list[i] = x;
    }
}
