// Whether a file is accepted.
ghost use Rattle.std.specs.Prelude.{length};
ghost use Rattle.room.specs.Counts.{Counts};
ghost use Rattle.lines.specs.Answer.{Gives};
ghost use Rattle.checks.specs.Checked.{ok_line, check_answer};

use lines::{Made, conclude, put_end, refuse};

// Puts the line of an accepted file: its version and its length.
fn put_ok(out: &mut [u8], tail: &[u8], version: u64, size: usize) -> usize
    ensures { Counts out.old out.new 0 (ok_line tail.now version size) result }
{
    let a = room::put_bytes(out, 0, b"ok\t");
    let b = text::put_version(out, a, version);
    let c = text::put_number(out, b, size as u64);
    put_end(out, c, tail)
}

pub fn make_check(file: &[u8], tail: &[u8], text: &mut [u8]) -> Made
    ensures { Gives (length text.old) result text.new (check_answer (length text.old) tail.now file.now) }
{
    let mut nodes = program::node_table();
    let mut items = program::item_table();
    match file::read_file(file, &mut nodes, &mut items) {
        Err(e) => refuse(text, tail, e),
        Ok(s) => {
            let end = put_ok(text, tail, s.version, file.len());
            conclude(text, tail, end, 0)
        }
    }
}
