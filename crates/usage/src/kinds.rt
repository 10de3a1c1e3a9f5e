// Where the bytes of a file go: a line a kind, or one line a file.
ghost use Rattle.std.specs.Prelude.{◌≡◌, length};
ghost use Rattle.room.specs.Counts.{Counts};
ghost use Rattle.account.specs.Totals.{zeros};
ghost use Rattle.lines.specs.Answer.{Gives};
ghost use Rattle.usage.specs.Bytes.{kind_line, total, kind_lines, bytes_line, bytes_answer, bytes_line_answer};

use account::{Kinds, Totals};
use lines::{Made, conclude, put_end, refuse};

// Puts the line of a kind.
pub fn put_kind(out: &mut [u8], to: usize, name: &[u8], bytes: usize) -> usize
    ensures { Counts out.old out.new to (kind_line name.now bytes) result }
{
    let a = room::put_bytes(out, to, name);
    let b = text::put_number(out, a, bytes as u64);
    room::put_byte(out, b, 0x0a)
}

// All bytes. A sum stays at the greatest number.
fn total(k: Kinds) -> usize
    ensures { result ≡ total k }
{
    let inline = room::on(k.inline, k.rest);
    let references = room::on(k.references, inline);
    let unpackers = room::on(k.unpackers, references);
    let hidden = room::on(k.hidden, unpackers);
    let visible = room::on(k.visible, hidden);
    let metadata = room::on(k.metadata, visible);
    let nodes = room::on(k.nodes, metadata);
    room::on(k.header, nodes)
}

// Puts the lines of the kinds, and of all bytes.
pub fn put_kinds(out: &mut [u8], to: usize, k: Kinds) -> usize
    ensures { Counts out.old out.new to (kind_lines k) result }
{
    let a = put_kind(out, to, b"file header", k.header);
    let b = put_kind(out, a, b"node frames", k.nodes);
    let c = put_kind(out, b, b"metadata frames", k.metadata);
    let d = put_kind(out, c, b"visible data", k.visible);
    let e = put_kind(out, d, b"hidden data", k.hidden);
    let f = put_kind(out, e, b"unpackers", k.unpackers);
    let g = put_kind(out, f, b"references", k.references);
    let h = put_kind(out, g, b"inline resources", k.inline);
    let i = put_kind(out, h, b"all else", k.rest);
    put_kind(out, i, b"total", total(k))
}

// Puts the kinds in one line.
fn put_in_line(out: &mut [u8], tail: &[u8], k: Kinds) -> usize
    ensures { Counts out.old out.new 0 (bytes_line tail.now k) result }
{
    let letter = room::put_byte(out, 0, b'B');
    let a = text::put_number(out, letter, k.header as u64);
    let b = text::put_number(out, a, k.nodes as u64);
    let c = text::put_number(out, b, k.metadata as u64);
    let d = text::put_number(out, c, k.visible as u64);
    let e = text::put_number(out, d, k.hidden as u64);
    let f = text::put_number(out, e, k.unpackers as u64);
    let g = text::put_number(out, f, k.references as u64);
    let h = text::put_number(out, g, k.inline as u64);
    let i = text::put_number(out, h, k.rest as u64);
    let j = text::put_number(out, i, total(k) as u64);
    put_end(out, j, tail)
}

// The totals of no file.
pub fn no_totals() -> Totals
    ensures { result ≡ zeros }
{
    let kinds = Kinds {
        header: 0,
        nodes: 0,
        metadata: 0,
        visible: 0,
        hidden: 0,
        unpackers: 0,
        references: 0,
        inline: 0,
        rest: 0,
    };
    Totals {
        files: 0,
        refused: 0,
        kinds,
    }
}

pub fn make_bytes(file: &[u8], tail: &[u8], text: &mut [u8]) -> Made
    ensures { Gives (length text.old) result text.new (bytes_answer (length text.old) tail.now file.now) }
{
    let mut nodes = program::node_table();
    let mut items = program::item_table();
    match account::account(file, &mut nodes, &mut items, no_totals()).kinds {
        Err(e) => refuse(text, tail, e),
        Ok(k) => {
            let end = put_kinds(text, 0, k);
            conclude(text, tail, end, 0)
        }
    }
}

pub fn make_bytes_line(file: &[u8], tail: &[u8], text: &mut [u8]) -> Made
    ensures { Gives (length text.old) result text.new (bytes_line_answer (length text.old) tail.now file.now) }
{
    let mut nodes = program::node_table();
    let mut items = program::item_table();
    match account::account(file, &mut nodes, &mut items, no_totals()).kinds {
        Err(e) => refuse(text, tail, e),
        Ok(k) => {
            let end = put_in_line(text, tail, k);
            conclude(text, tail, end, 0)
        }
    }
}
