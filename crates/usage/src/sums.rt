// Sums over files.
ghost use Rattle.std.specs.Prelude.{◌≡◌, length};
ghost use Rattle.io.specs.Counts as io;
ghost use Rattle.room.specs.Counts.{Counts};
ghost use Rattle.room.specs.Room.{good};
ghost use Rattle.account.specs.Totals.{zeros, refused_one, totals_left};
ghost use Rattle.lines.specs.Answer.{Gives};
ghost use Rattle.usage.specs.Bytes.{kinds_in, with_file, sum_lines, sums_of, sums_told};

use crate::kinds::{no_totals, put_kind, put_kinds};
use account::Totals;
use lines::{Made, conclude, refuse};
use refusals::{Reason, Refusal};

// The totals of the files so far, or a refusal.
pub type Sums = Result<Totals, Refusal>;

// The sums of no file.
pub fn no_sums() -> Sums
    ensures { sums_told result ≡ good zeros }
{
    Ok(no_totals())
}

// One more file, which is too long.
fn add_long(t: Totals) -> Totals
    ensures { result ≡ refused_one t }
{
    Totals {
        files: room::on(t.files, 1),
        refused: room::on(t.refused, 1),
        kinds: t.kinds,
    }
}

// One more file.
fn add_short(t: Totals, file: &[u8]) -> Totals
    ensures { result ≡ totals_left t (kinds_in file.now) }
{
    let mut nodes = program::node_table();
    let mut items = program::item_table();
    account::account(file, &mut nodes, &mut items, t).totals
}

// The sums with one more file. A file that is refused or too long is counted, and so is that it was refused; a 1,001st ends the sums.
pub fn add_file(sums: Sums, file: &[u8]) -> Sums
    ensures { sums_told result ≡ with_file (sums_told sums) file.now }
{
    let t = sums?;
    if account::MOST_FILES <= t.files {
        return Err(Refusal(Reason::TooManyFiles, 0));
    }
    if file.len() > program::LONGEST {
        return Ok(add_long(t));
    }
    Ok(add_short(t, file))
}

// Puts the lines of sums.
fn put_sums(out: &mut [u8], t: Totals) -> usize
    ensures { Counts out.old out.new 0 (sum_lines t) result }
{
    let a = put_kind(out, 0, b"files", t.files);
    let b = put_kind(out, a, b"refused", t.refused);
    put_kinds(out, b, t.kinds)
}

// The answer of the sums.
pub fn make_sums(sums: Sums, text: &mut [u8]) -> Made
    ensures prefix_len { io.IsPrefixLen result.size text.new }
    ensures gives { Gives (length text.old) result text.new (sums_of (length text.old) (sums_told sums)) }
{
    match sums {
        Err(e) => refuse(text, b"", e),
        Ok(t) => {
            let end = put_sums(text, t);
            conclude(text, b"", end, 0)
        }
    }
}
