// Judges Mobile XMF: eight checks in order over a file's rows.
#![tactic(auto)]

ghost use Rattle.std.specs.Prelude.{◌≡◌, ◌&&◌, ◌≤◌, ◌<◌, ◌*◌, ◌+◌, eqb, length};
ghost use Rattle.rows.specs.Rows.{node_width, item_width, nodes_in, items_in, ItemIn, ItemRows};
ghost use Rattle.file.specs.Asking.{answered, nodes_left, items_left};
ghost use Rattle.file.specs.Own.{those, part, Tables};
ghost use Rattle.description.specs.Row.{is_field};
ghost use Rattle.mobile.specs.Mobile.{all, role_of_type, role_of_row, role_of, files_only, is_plain, plain_references, no_unpackers, is_need, are_needs, is_short, field_size, is_small, small_fields, mobile};
ghost use Rattle.mobile.specs.Pass.{besides, child, children, one_tune_of, tune_needs_of, later};
ghost use Rattle.mobile.specs.Told.{told, NextRow, Judges};

use cursor::{Cursor, FilePlace, Item, Node};
use file::Summary;
use refusals::{Reason, Refusal};

// What a child is, by its type: a tune (0 or 1), instruments (5), or something else, which may not stand here.
#[derive(Clone, Copy)]
enum Role {
    Tune,
    Instruments,
    Other,
}

// Children of one kind: none, one, in that row, or more.
#[derive(Clone, Copy)]
enum Few {
    None,
    One(usize),
    More,
}

// What the children are: whether each may stand here, the tunes and the instruments.
#[derive(Clone, Copy)]
struct Children {
    typed: bool,
    tunes: Few,
    instruments: Few,
}

// Version 2.00, type 2, revision 1.
fn right_edition(version: u64, kind: u64, revision: u64) -> bool
    ensures { result ≡ (eqb version 200 && (eqb kind 2 && eqb revision 1)) }
{
    version == 200 && kind == 2 && revision == 1
}

// Whether the root is a folder and all others are file nodes.
fn files_only(nodes: &[u64], many: usize) -> bool
    requires { many * node_width ≤ length nodes.now }
    ensures { result ≡ files_only (nodes_in many nodes.now) }
{
    if many == 0 {
        return false;
    }
    let root = rows::node_at(nodes, 0);
    if root.contained == 0 {
        return false;
    }
    for i in 1..many {
        let row = rows::node_at(nodes, i);
        if row.contained != 0 {
            return false;
        }
    }
    true
}

#[tactic(auto, unfolding(crate::specs::Mobile::is_plain))]
fn is_plain(row: Node) -> bool
    ensures { result ≡ is_plain row }
{
    row.reference == 1 || row.reference == 2
}

// Whether every node uses reference 1 or 2.
fn plain_references(nodes: &[u64], many: usize) -> bool
    requires { many * node_width ≤ length nodes.now }
    ensures { result ≡ plain_references (nodes_in many nodes.now) }
{
    for i in 0..many {
        let row = rows::node_at(nodes, i);
        if !is_plain(row) {
            return false;
        }
    }
    true
}

// Whether no node has unpackers.
fn no_unpackers(nodes: &[u64], many: usize) -> bool
    requires { many * node_width ≤ length nodes.now }
    ensures { result ≡ no_unpackers (nodes_in many nodes.now) }
{
    for i in 0..many {
        let row = rows::node_at(nodes, i);
        if row.unpacker_count != 0 {
            return false;
        }
    }
    true
}

// The first item row of the standard field from row `from` on, or `end`.
fn next_row(items: &[u64], many: usize, field: u64, from: usize, end: usize) -> usize
    requires { (many * item_width ≤ length items.now) × (from ≤ end) × (end ≤ many) }
    ensures { NextRow field (items_in many items.now) from end result }
{
    for i in from..end {
        if description::is_field(rows::item_at(items, i), field) {
            return i;
        }
    }
    end
}

// What a child of the type is.
#[tactic(auto, unfolding(crate::specs::Mobile::role_of_type))]
fn role_of_type(v: u64) -> Role
    ensures { result ≡ role_of_type v }
{
    match v {
        0 | 1 => Role::Tune,
        5 => Role::Instruments,
        _ => Role::Other,
    }
}

// What a child is whose one row of field 3 is this.
fn role_of_row(file: &[u8], row: Item) -> Role
    requires { ItemIn (length file.now) row }
    ensures { result ≡ role_of_row file.now row }
{
    if !description::is_binary(row) {
        return Role::Other;
    }
    let place = row.place as usize;
    let size = row.size as usize;
    if size == 0 {
        return Role::Other;
    }
    if file[place] != 0 {
        return Role::Other;
    }
    let end = place + size;
    let c = Cursor {
        at: FilePlace(place + 1),
    };
    match c.number(file, FilePlace(end), Reason::CutShort) {
        Err(_) => Role::Other,
        Ok((v, next)) => {
            let at = next.at;
            if at.0 != end {
                return Role::Other;
            }
            role_of_type(v)
        }
    }
}

// What a child is whose own item rows begin at `at` and end at `end`.
fn role_of(file: &[u8], items: &[u64], many: usize, at: usize, end: usize) -> Role
    requires { ItemRows (length file.now) many items.now × (at ≤ end) × (end ≤ many) }
    ensures { result ≡ role_of file.now (part (items_in many items.now) at end) }
{
    let first = next_row(items, many, 3, at, end);
    if end <= first {
        return Role::Other;
    }
    let second = next_row(items, many, 3, first + 1, end);
    if second < end {
        return Role::Other;
    }
    role_of_row(file, rows::item_at(items, first))
}

// The child in the row besides others of its kind.
fn besides(row: usize, others: Few) -> Few
    ensures { result ≡ besides row others }
{
    match others {
        Few::None => Few::One(row),
        Few::One(_) => Few::More,
        Few::More => Few::More,
    }
}

// The child in the row, which is that, besides the others.
fn child(role: Role, row: usize, c: Children) -> Children
    ensures { result ≡ child role row c }
{
    let typed = c.typed;
    let tunes = c.tunes;
    let instruments = c.instruments;
    match role {
        Role::Tune => {
            let tunes = besides(row, tunes);
            Children {
                typed,
                tunes,
                instruments,
            }
        }
        Role::Instruments => {
            let instruments = besides(row, instruments);
            Children {
                typed,
                tunes,
                instruments,
            }
        }
        Role::Other => Children {
            typed: false,
            tunes,
            instruments,
        },
    }
}

// What the children are, from the last to the first: each node's own item rows end where those of the next begin.
fn children_of(file: &[u8], nodes: &[u64], items: &[u64], n: usize, m: usize) -> Children
    requires { Tables file.now nodes.now items.now n m }
    ensures { result ≡ children file.now (nodes_in n nodes.now) (items_in m items.now) }
{
    let mut c = Children {
        typed: true,
        tunes: Few::None,
        instruments: Few::None,
    };
    let mut end = m;
    let mut i = n;
    while 1 < i {
        i = i - 1;
        let row = rows::node_at(nodes, i);
        let at = end - row.rows as usize;
        c = child(role_of(file, items, m, at, end), i, c);
        end = at;
    }
    c
}

// Whether there is one tune, and at most one of instruments, which is earlier.
fn one_tune(tunes: Few, instruments: Few) -> bool
    ensures { result ≡ one_tune_of tunes instruments }
{
    match tunes {
        Few::One(t) => match instruments {
            Few::None => true,
            Few::One(k) => k < t,
            Few::More => false,
        },
        Few::None => false,
        Few::More => false,
    }
}

// Whether the row, of field 13, may stand where it is, and is readable.
#[tactic(auto, unfolding(crate::specs::Mobile::is_need))]
fn is_need(file: &[u8], row: Item, tune: usize) -> bool
    requires { ItemIn (length file.now) row }
    ensures { result ≡ is_need file.now tune row }
{
    row.node == tune as u64 && description::is_binary(row) && description::is_readable(file, row)
}

// Whether there are rows of field 13, and all may stand where they are, and are readable.
fn are_needs(file: &[u8], items: &[u64], many: usize, tune: usize) -> bool
    requires { ItemRows (length file.now) many items.now }
    ensures { result ≡ are_needs file.now tune (those (is_field 13) (items_in many items.now)) }
{
    let mut i = next_row(items, many, 13, 0, many);
    if many <= i {
        return false;
    }
    while i < many {
        if !is_need(file, rows::item_at(items, i), tune) {
            return false;
        }
        i = next_row(items, many, 13, i + 1, many);
    }
    true
}

// Whether field 13 is on the tune, and there only, and readable.
fn tune_needs(file: &[u8], items: &[u64], many: usize, tunes: Few) -> bool
    requires { ItemRows (length file.now) many items.now }
    ensures { result ≡ tune_needs_of file.now tunes (items_in many items.now) }
{
    match tunes {
        Few::One(t) => are_needs(file, items, many, t),
        Few::None => false,
        Few::More => false,
    }
}

// Whether every header length is at most 65,535.
fn short_headers(nodes: &[u64], many: usize) -> bool
    requires { many * node_width ≤ length nodes.now }
    ensures { result ≡ all is_short (nodes_in many nodes.now) }
{
    for i in 0..many {
        let row = rows::node_at(nodes, i);
        if 65535 < row.header {
            return false;
        }
    }
    true
}

// The field number of the row, or its name's length.
#[tactic(auto, unfolding(crate::specs::Mobile::field_size))]
fn field_size(row: Item) -> u64
    ensures { result ≡ field_size row }
{
    if row.kind == 0 {
        row.field
    } else {
        row.name_length
    }
}

// Whether every field number and name length is at most 256.
fn small_items(items: &[u64], many: usize) -> bool
    requires { many * item_width ≤ length items.now }
    ensures { result ≡ all is_small (items_in many items.now) }
{
    for i in 0..many {
        if 256 < field_size(rows::item_at(items, i)) {
            return false;
        }
    }
    true
}

// Whether header lengths, field numbers and name lengths are small enough.
#[tactic(auto, unfolding(crate::specs::Mobile::small_fields))]
fn small_fields(nodes: &[u64], items: &[u64], n: usize, m: usize) -> bool
    requires { (n * node_width ≤ length nodes.now) × (m * item_width ≤ length items.now) }
    ensures { result ≡ small_fields (nodes_in n nodes.now) (items_in m items.now) }
{
    short_headers(nodes, n) && small_items(items, m)
}

// The first of checks 5 to 8 that fails, 0 if none. The children are gone through once.
fn later_verdict(file: &[u8], nodes: &[u64], items: &[u64], n: usize, m: usize) -> u64
    requires { Tables file.now nodes.now items.now n m }
    ensures { result ≡ later file.now (nodes_in n nodes.now) (items_in m items.now) }
{
    let c = children_of(file, nodes, items, n, m);
    if !c.typed {
        return 5;
    }
    let tunes = c.tunes;
    let instruments = c.instruments;
    if !one_tune(tunes, instruments) {
        return 6;
    }
    if !tune_needs(file, items, m, tunes) {
        return 7;
    }
    if !small_fields(nodes, items, n, m) {
        return 8;
    }
    0
}

// The first check that fails, 0 if none.
fn verdict(file: &[u8], nodes: &[u64], items: &[u64], s: Summary) -> u64
    requires { Tables file.now nodes.now items.now s.nodes s.items }
    ensures { Judges s file.now nodes.now items.now result }
{
    let edition = s.edition;
    if !right_edition(s.version, edition.kind, edition.revision) {
        return 1;
    }
    let n = s.nodes;
    if !files_only(nodes, n) {
        return 2;
    }
    if !plain_references(nodes, n) {
        return 3;
    }
    if !no_unpackers(nodes, n) {
        return 4;
    }
    later_verdict(file, nodes, items, n, s.items)
}

// Judges Mobile XMF: reads the file into the two tables and gives the verdict, which is the number of the first check that fails, 0 if none.
pub fn judge(file: &[u8], nodes: &mut [u64], items: &mut [u64]) -> Result<u64, Refusal>
    ensures answer { told result ≡ answered nodes.old items.old file.now mobile }
    ensures nodes { nodes.new ≡ nodes_left nodes.old items.old file.now mobile }
    ensures items { items.new ≡ items_left nodes.old items.old file.now mobile }
{
    let s = file::read_file(file, nodes, items)?;
    Ok(verdict(file, nodes, items, s))
}
