// The runs of a file: the longest spans of places of one kind, in file order.
#![tactic(auto)]

ghost use Rattle.std.specs.Prelude.{◌<◌, length};
ghost use Rattle.room.specs.Counts.{Counts};
ghost use Rattle.lines.specs.Answer.{Gives};
ghost use Rattle.text.specs.Text.{tabbed};
ghost use Rattle.spans.specs.Runs.{runs_of, name_of, run_line, run_lines, Ends, runs_answer};

use lines::{Made, conclude, refuse};

// Puts the field of a kind: a tab and its name.
fn put_name(out: &mut [u8], to: usize, kind: u8) -> usize
    ensures { Counts out.old out.new to (tabbed (name_of kind)) result }
{
    match kind {
        0 => room::put_bytes(out, to, b"\tfile header"),
        1 => room::put_bytes(out, to, b"\tnode frames"),
        2 => room::put_bytes(out, to, b"\tmetadata frames"),
        3 => room::put_bytes(out, to, b"\tvisible data"),
        4 => room::put_bytes(out, to, b"\thidden data"),
        5 => room::put_bytes(out, to, b"\tunpackers"),
        6 => room::put_bytes(out, to, b"\treferences"),
        7 => room::put_bytes(out, to, b"\tinline resources"),
        8 => room::put_bytes(out, to, b"\tall else"),
        _ => room::put_byte(out, to, 0x09),
    }
}

// Puts the line of a run.
fn put_run(out: &mut [u8], to: usize, place: usize, size: usize, kind: u8) -> usize
    ensures { Counts out.old out.new to (run_line (record { place = place; size = size; kind = kind })) result }
{
    let a = room::put_byte(out, to, b'K');
    let b = text::put_number(out, a, place as u64);
    let c = text::put_number(out, b, size as u64);
    let d = put_name(out, c, kind);
    room::put_byte(out, d, 0x0a)
}

// Where the run that begins at `place` ends.
fn run_end(kinds: &[u8], place: usize) -> usize
    requires { place < length kinds.now }
    ensures { Ends kinds.now place result }
{
    for at in place + 1..kinds.len() {
        if kinds[at] != kinds[place] {
            return at;
        }
    }
    kinds.len()
}

// Puts the lines of the runs of these kinds.
fn put_runs(out: &mut [u8], kinds: &[u8]) -> usize
    ensures { Counts out.old out.new 0 (run_lines (runs_of kinds.now)) result }
{
    let mut next: usize = 0;
    let mut place: usize = 0;
    while place < kinds.len() {
        let end = run_end(kinds, place);
        next = put_run(out, next, place, end - place, kinds[place]);
        place = end;
    }
    next
}

pub fn make_runs(file: &[u8], text: &mut [u8]) -> Made
    ensures { Gives (length text.old) result text.new (runs_answer (length text.old) file.now) }
{
    let mut nodes = program::node_table();
    let mut items = program::item_table();
    let mut kinds = program::file_buffer();
    match account::mark(file, &mut nodes, &mut items, &mut kinds) {
        Err(e) => refuse(text, b"", e),
        Ok(n) => {
            let end = put_runs(text, &kinds[..n]);
            conclude(text, b"", end, 0)
        }
    }
}
