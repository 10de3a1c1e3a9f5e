// Runs the cases that standard input holds, a line each, and writes the answer of each: a line, two for a shelf, and an empty one where the question is none.
//
// The first word of a line is the question, and a single letter one of the command's. Most questions go on with the file's bytes in hex, the node words and the
// item words to lend. The lent words are the first of tables that hold 7 in every word; the answer ends with ` stale` where a word that was not lent is no longer 7.
#![tactic(auto)]

mod cards;
mod numbers;
mod printed;
mod row_cases;
mod said;
mod shelves;
mod sums;
mod texts;
mod written;

ghost use Rattle.std.specs.Prelude.{◌≡◌, ◌≤◌, length, IfOk};

use casetext::STALE;
use said::put_unless;
use std::io::Result;

// The most times that standard input is read.
const MOST_READS: usize = 1000;

// Asks a question of a file, with these words and bytes lent.
fn ask_file(
    line: &[u8],
    file: &[u8],
    nodes: &mut [u64],
    items: &mut [u64],
    bytes: &mut [u8],
    out: &mut [u8],
) -> usize {
    let one = row_cases::ask(line, file, nodes, items, out);
    if one > 0 {
        return one;
    }
    let two = numbers::ask(line, file, nodes, items, out);
    if two > 0 {
        return two;
    }
    written::ask(line, file, nodes, items, bytes, out)
}

// Lends the words that a line says to a question of a file.
fn lend(
    line: &[u8],
    file: &[u8],
    nodes: &mut [u64],
    items: &mut [u64],
    bytes: &mut [u8],
    out: &mut [u8],
) -> usize {
    let n = casetext::read_number(line, 2, nodes.len());
    let m = casetext::read_number(line, 3, items.len());
    let mut end = ask_file(line, file, &mut nodes[0..n], &mut items[0..m], bytes, out);
    end = put_unless(out, end, nodes, n, STALE);
    put_unless(out, end, items, m, STALE)
}

// Lends tables of stale words.
fn ask_tables(line: &[u8], file: &[u8], bytes: &mut [u8], out: &mut [u8]) -> usize {
    let mut nodes = casetext::node_buffer();
    let mut items = casetext::item_buffer();
    match casetext::field(line, 0) {
        b"shelf" => shelves::shelf(line, &mut nodes, bytes, out),
        b"bytessum" => sums::sum(line, &mut nodes, &mut items, out),
        _ => lend(line, file, &mut nodes, &mut items, bytes, out),
    }
}

// Answers a case; `given` is its second field.
fn answer(line: &[u8], given: &[u8], bytes: &mut [u8], out: &mut [u8]) -> usize {
    if let [letter] = casetext::field(line, 0) {
        return printed::ask(line, *letter, given, bytes, out);
    }
    let end = texts::ask(line, given, bytes, out);
    if end > 0 {
        return end;
    }
    ask_tables(line, given, bytes, out)
}

// Runs one case and writes its answer.
fn run(rt: &impl Print, line: &[u8]) -> Result<()> {
    let mut file = io::large_buffer();
    let mut bytes = io::large_buffer();
    let mut out = casetext::text_buffer();
    let k = casetext::read_bytes(line, 1, &mut file);
    let end = answer(line, &file[..k], &mut bytes, &mut out);
    casetext::write_line(rt, &mut out, end)
}

// Runs the cases of a text, and answers where the first line starts that has no end.
fn run_lines(rt: &impl Print, text: &[u8]) -> Result<usize>
    ensures { IfOk result (λ n. n ≤ length text.now) }
{
    let mut at = 0;
    let mut end = casetext::find_mark(text, 0, b'\n');
    while end < text.len() {
        run(rt, &text[at..end])?;
        at = end + 1;
        end = casetext::find_mark(text, at, b'\n');
    }
    Ok(at)
}

// Moves the bytes from `from` to `end` to the front, and answers how many they are.
fn to_front(text: &mut [u8], from: usize, end: usize) -> usize
    requires { (from ≤ end) × (end ≤ length text.old) }
    ensures { result ≤ length text.new }
{
    text.copy_within(from..end, 0);
    end - from
}

// Reads more behind the first bytes, runs what lines there are, and keeps the rest; answers how many bytes that is.
fn run_more(rt: &(impl Input + Print), text: &mut [u8], kept: usize) -> Result<usize>
    requires { kept ≤ length text.old }
    ensures counted { IfOk result (λ n. n ≤ length text.new) }
    ensures long { length text.new ≡ length text.old }
{
    let end = kept + program::read_input(&mut rt.reader(), &mut text[kept..])?;
    let at = run_lines(rt, &text[0..end])?;
    Ok(to_front(text, at, end))
}

// Runs the cases of standard input.
fn main(rt: HostRuntime) -> Result<()> {
    let mut text = casetext::text_buffer();
    let mut kept = 0;
    for _ in 0..MOST_READS {
        kept = run_more(&rt, &mut text, kept)?;
    }
    Ok(())
}
