// Where a label stands first among many: slots by a hash of its numbers, and below each a tree by their bits.
// Nothing is promised of the table; that each label is found no later than it stands is looked at in the end.
ghost use Rattle.std.specs.Prelude.{◌≡◌, ◌<◌, get_or, IfSome};
ghost use Rattle.label.specs.Key.{count, key_at, means_at, empty, slot_of, place_of, seek_of, sooner_of, Seen};

use crate::Key;

#[derive(Clone, Copy)]
pub struct Table;

impl Table {
    // Labels that it takes: as many as the longest sequence has words.
    pub const LABELS: usize = 65536;

    // Numbers that are kept of each: its own two, and what it means.
    pub const NUMBERS: usize = 3;

    // Slots that a hash leads to.
    pub const FIRST: usize = 65536;

    // Those, and two below each label.
    pub const SLOTS: usize = 196608;

    // What stands in a slot that no label has.
    pub const EMPTY: u32 = 4294967294;

    // Steps down a tree: one for each bit of a label, and one.
    const STEPS: u64 = 129;
}

fn number(x: u32) -> usize
    ensures { result ≡ x }
{
    x as usize
}

// What stands in a slot.
fn entry(table: &[u32], slot: usize) -> usize
    ensures { result ≡ get_or table.now slot empty }
{
    number(*table.get(slot).unwrap_or(&Table::EMPTY))
}

// The numbers of a label.
fn key_at(keys: &[u64], j: usize) -> Key
    requires { j < count keys.now }
    ensures { result ≡ key_at keys.now j }
{
    let lo = keys[Table::NUMBERS * j];
    let hi = keys[Table::NUMBERS * j + 1];
    Key { lo, hi }
}

// What a label means.
pub fn means_at(keys: &[u64], j: usize) -> u64
    requires { j < count keys.now }
    ensures { result ≡ means_at keys.now j }
{
    keys[Table::NUMBERS * j + 2]
}

fn slot_of(k: Key) -> usize
    ensures { result ≡ slot_of k }
{
    let lo = k.lo % 4294967291 * 2654435769 / 65536;
    let hi = k.hi % 4294967279 * 2246822519 / 65536;
    ((lo + hi) % 65536) as usize
}

// The slot in which a label stands, or in which it would.
fn place(keys: &[u64], table: &[u32], k: Key) -> usize
    ensures { result ≡ place_of keys.now table.now k }
{
    let n = keys.len() / Table::NUMBERS;
    let mut slot = slot_of(k);
    let mut bits = k.lo;
    let mut others = k.hi;
    for _ in 0..Table::STEPS {
        let at = entry(table, slot);
        if n <= at {
            return slot;
        }
        let here = key_at(keys, at);
        if here == k {
            return slot;
        }
        slot = Table::FIRST + 2 * at + (bits % 2) as usize;
        let rest = bits / 2;
        bits = others;
        others = rest;
    }
    slot
}

// A label's place as the table has it; the number of labels where it has none.
pub fn seek(keys: &[u64], table: &[u32], k: Key) -> usize
    ensures { result ≡ seek_of keys.now table.now k }
{
    let n = keys.len() / Table::NUMBERS;
    let slot = place(keys, table, k);
    let at = entry(table, slot);
    if n <= at {
        return n;
    }
    let here = key_at(keys, at);
    if here == k {
        return at;
    }
    n
}

// A label's place put into a slot that is free.
fn put(table: &mut [u32], n: usize, slot: usize, j: usize) {
    if table.len() <= slot {
        return;
    }
    if Table::LABELS <= j {
        return;
    }
    if number(table[slot]) < n {
        return;
    }
    table[slot] = j as u32;
}

fn build(keys: &[u64], table: &mut [u32]) {
    let n = keys.len() / Table::NUMBERS;
    for j in 0..n {
        let k = key_at(keys, j);
        let slot = place(keys, table, k);
        put(table, n, slot, j);
    }
}

fn sooner(double: usize, at: usize, j: usize) -> usize
    ensures { result ≡ sooner_of double at j }
{
    if j <= at {
        return double;
    }
    if double <= j {
        return double;
    }
    j
}

// The first label that stood before, their number where none did; nothing where one is found later than it stands or not at all.
fn look(keys: &[u64], table: &[u32]) -> Option<usize>
    ensures { IfSome result (Seen keys.now table.now) }
{
    let n = keys.len() / Table::NUMBERS;
    let mut double = n;
    for j in 0..n {
        let k = key_at(keys, j);
        let at = seek(keys, table, k);
        if j < at {
            return None;
        }
        double = sooner(double, at, j);
    }
    Some(double)
}

// A table for the labels, and what a look at it tells; nothing where it is not to be used.
pub fn prepare(keys: &[u64], table: &mut [u32]) -> Option<usize>
    ensures { IfSome result (Seen keys.now table.new) }
{
    if Table::LABELS < keys.len() / Table::NUMBERS {
        return None;
    }
    build(keys, table);
    look(keys, table)
}
