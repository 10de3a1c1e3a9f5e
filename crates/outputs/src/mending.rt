// The copy of a file whose header is mended, and the lines that tell of it.
ghost use Rattle.std.specs.Prelude.{◌≡◌, Ok, Err, MatchResult, length};
ghost use Rattle.lines.specs.Answer.{Gives};
ghost use Rattle.outputs.specs.Mended.{mended_answer, mend_lines_answer};

use lines::{Made, settle};
use refusals::Refusal;

// Room for the lines, of which there are two at most.
fn line_buffer() -> [u8; 256]
    ensures { 256 ≡ length result }
{
    [0; 256]
}

// The bytes of the copy.
fn copy_written(said: Result<(usize, usize), Refusal>) -> Result<usize, Refusal>
    ensures { MatchResult said (λ sizes. result ≡ Ok sizes.0) (λ e. result ≡ Err e) }
{
    said.map(|sizes| sizes.0)
}

// The bytes of the lines.
fn lines_written(said: Result<(usize, usize), Refusal>) -> Result<usize, Refusal>
    ensures { MatchResult said (λ sizes. result ≡ Ok sizes.1) (λ e. result ≡ Err e) }
{
    said.map(|sizes| sizes.1)
}

// The copy.
pub fn make_mended(file: &[u8], text: &mut [u8]) -> Made
    ensures { Gives (length text.old) result text.new (mended_answer (length text.old) file.now) }
{
    let mut nodes = program::node_table();
    let mut items = program::item_table();
    let mut lines = line_buffer();
    let said = mend::mend(file, &mut nodes, &mut items, text, &mut lines);
    settle(text, b"", copy_written(said))
}

// The lines.
pub fn make_mend_lines(file: &[u8], text: &mut [u8]) -> Made
    ensures { Gives (length text.old) result text.new (mend_lines_answer (length text.old) file.now) }
{
    let mut nodes = program::node_table();
    let mut items = program::item_table();
    let mut copy = io::large_buffer();
    let said = mend::mend(file, &mut nodes, &mut items, &mut copy, text);
    settle(text, b"", lines_written(said))
}
