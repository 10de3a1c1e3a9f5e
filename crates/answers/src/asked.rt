// Every question that the command asks of a file, and the answer.
ghost use Rattle.std.specs.Prelude.{length};
ghost use Rattle.io.specs.Counts.{IsPrefixLen};
ghost use Rattle.lines.specs.Answer.{Gives};
ghost use Rattle.answers.specs.Questions.{answer_to, answer_of};

use find::Field;
use frames::Frames;
use lines::Made;

// A question. Its numbers are rows, but for the channel and the resource of `Count`. The name or the title that a question has is lent beside it. What is asked
// of a sheet (`Moved`), of a tag (`Tag`) or of a text (the conversions) is lent as the file.
#[derive(Clone, Copy)]
pub enum Asked {
    Sheet,
    Sheet2,
    Moved,
    Check,
    Rows,
    Verdict,
    Near(usize, Field),
    Own(usize, Field),
    Place(usize),
    Resource(usize),
    Origin(usize),
    Needs,
    RowNeeds(usize),
    Count(usize, u64, u64),
    Bytes,
    BytesLine,
    RowTag(usize, bool, Frames),
    Tag(Frames),
    Titles,
    Corrected(usize),
    Retitled(usize),
    Utf8,
    Utf16,
    Runs,
    Mended,
    MendLines,
}

// Makes the answer for a file that is not too long.
#[tactic(auto, unfolding(crate::specs::Questions::answer_to))]
fn make_short(asked: Asked, word: &[u8], file: &[u8], tail: &[u8], text: &mut [u8]) -> Made
    ensures { Gives (length text.old) result text.new (answer_to word.now tail.now (length text.old) file.now asked) }
{
    match asked {
        Asked::Sheet => outputs::make_sheet(file, false, tail, text),
        Asked::Sheet2 => outputs::make_sheet(file, true, tail, text),
        Asked::Moved => outputs::make_moved(file, text),
        Asked::Check => checks::make_check(file, tail, text),
        Asked::Rows => tables::make_rows(file, text),
        Asked::Verdict => checks::make_verdict(file, tail, text),
        Asked::Near(row, field) => tables::make_found(file, true, row, field, word, text),
        Asked::Own(row, field) => tables::make_found(file, false, row, field, word, text),
        Asked::Place(row) => places::make_place(file, row, text),
        Asked::Resource(row) => places::make_resource(file, row, text),
        Asked::Origin(row) => places::make_origin(file, row, text),
        Asked::Needs => needs::make_needs(file, text),
        Asked::RowNeeds(row) => needs::make_row_needs(file, row, text),
        Asked::Count(row, channel, resource) => {
            needs::make_count(file, row, channel, resource, text)
        }
        Asked::Bytes => usage::make_bytes(file, tail, text),
        Asked::BytesLine => usage::make_bytes_line(file, tail, text),
        Asked::RowTag(row, meant, which) => { frames::make_row_tag(file, row, meant, which, text) }
        Asked::Tag(which) => frames::make_tag(file, which, text),
        Asked::Titles => titles::make_titles(file, text),
        Asked::Corrected(row) => titles::make_corrected(file, row, word, text),
        Asked::Retitled(row) => titles::make_retitled(file, row, word, text),
        Asked::Utf8 => outputs::make_utf8(file, text),
        Asked::Utf16 => outputs::make_utf16(file, text),
        Asked::Runs => spans::make_runs(file, text),
        Asked::Mended => outputs::make_mended(file, text),
        Asked::MendLines => outputs::make_mend_lines(file, text),
    }
}

// Makes the answer for a file, whose line ends in the field that is lent.
pub fn make(asked: Asked, word: &[u8], file: &[u8], tail: &[u8], text: &mut [u8]) -> Made
    ensures prefix_len { IsPrefixLen result.size text.new }
    ensures gives { Gives (length text.old) result text.new (answer_of word.now tail.now (length text.old) file.now asked) }
{
    if file.len() > program::LONGEST {
        return lines::refuse_long(text, tail);
    }
    make_short(asked, word, file, tail, text)
}
