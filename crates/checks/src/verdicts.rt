// Whether a file is Mobile XMF.
ghost use Rattle.std.specs.Prelude.{◌≡◌, length};
ghost use Rattle.room.specs.Counts.{Counts};
ghost use Rattle.lines.specs.Answer.{Gives};
ghost use Rattle.checks.specs.Checked.{verdict_line, verdict_status, verdict_answer};

use lines::{Made, conclude, put_end, refuse};

// Puts the line of a verdict.
fn put_verdict(out: &mut [u8], tail: &[u8], verdict: u64) -> usize
    ensures { Counts out.old out.new 0 (verdict_line tail.now verdict) result }
{
    let a = room::put_byte(out, 0, b'V');
    let b = text::put_number(out, a, verdict);
    put_end(out, b, tail)
}

// The status of a verdict: 3 where a check fails.
#[tactic(auto, unfolding(crate::specs::Checked::verdict_status))]
fn verdict_status(verdict: u64) -> u64
    ensures { result ≡ verdict_status verdict }
{
    if verdict == 0 { 0 } else { 3 }
}

pub fn make_verdict(file: &[u8], tail: &[u8], text: &mut [u8]) -> Made
    ensures { Gives (length text.old) result text.new (verdict_answer (length text.old) tail.now file.now) }
{
    let mut nodes = program::node_table();
    let mut items = program::item_table();
    match mobile::judge(file, &mut nodes, &mut items) {
        Err(e) => refuse(text, tail, e),
        Ok(v) => {
            let end = put_verdict(text, tail, v);
            conclude(text, tail, end, verdict_status(v))
        }
    }
}
