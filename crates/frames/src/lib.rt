// The frames of an ID3 tag, which is lent by itself or is the data of an item row.
#![tactic(auto)]

ghost use Rattle.std.specs.Prelude.{◌≡◌, [], length};
ghost use Rattle.room.specs.Counts.{Counts};
ghost use Rattle.rows.specs.Rows.{ItemIn};
ghost use Rattle.lines.specs.Answer.{printed, Gives};
ghost use Rattle.needs.specs.Needed.{Puts};
ghost use Rattle.frames.specs.Tags.{name_bytes, frame_line, all_lines, one_line, tag_lines, tag_answer, withheld, shown_tag, row_tag_answer};
ghost use Rattle.id3.specs.Frames.{frames_of, frame_at};

use cursor::Item;
use id3::TagFrame;
use lines::{Made, refuse};
use needs::{hidden, put_answered};
use refusals::{Reason, Refusal};

// All frames, or the frame of a number.
#[derive(Clone, Copy)]
pub enum Frames {
    All,
    One(usize),
}

// The four bytes of a name that is given as a number.
fn name_bytes(name: u64) -> [u8; 4]
    ensures { result ≡ name_bytes name }
{
    [
        (name / 16777216 % 256) as u8,
        (name / 65536 % 256) as u8,
        (name / 256 % 256) as u8,
        (name % 256) as u8,
    ]
}

// Puts the line of a frame.
fn put_frame(out: &mut [u8], to: usize, i: usize, x: TagFrame) -> usize
    ensures { Counts out.old out.new to (frame_line i x) result }
{
    let name = name_bytes(x.name);
    let a = room::put_byte(out, to, b'F');
    let b = text::put_number(out, a, i as u64);
    let c = room::put_byte(out, b, 0x09);
    let d = text::put_escaped(out, c, &name, 0, 4);
    let e = text::put_number(out, d, x.place as u64);
    let f = text::put_number(out, e, x.size as u64);
    room::put_byte(out, f, 0x0a)
}

// Puts the lines of all frames. The tag is walked once for each.
fn put_frames(out: &mut [u8], tag: &[u8]) -> Result<usize, Refusal>
    ensures { Puts out.old out.new 0 (all_lines (frames_of tag.now)) result }
{
    let count = id3::frame_count(tag)?;
    let mut next: usize = 0;
    for i in 0..count {
        let x = id3::frame(tag, i)?;
        next = put_frame(out, next, i, x);
    }
    Ok(next)
}

// Puts the line of one frame.
fn put_one(out: &mut [u8], tag: &[u8], i: usize) -> Result<usize, Refusal>
    ensures { Puts out.old out.new 0 (one_line i (frame_at i tag.now)) result }
{
    let x = id3::frame(tag, i)?;
    Ok(put_frame(out, 0, i, x))
}

// Puts the lines that are asked for.
fn put_tag(out: &mut [u8], tag: &[u8], which: Frames) -> Result<usize, Refusal>
    ensures { Puts out.old out.new 0 (tag_lines which tag.now) result }
{
    match which {
        Frames::All => put_frames(out, tag),
        Frames::One(i) => put_one(out, tag, i),
    }
}

pub fn make_tag(tag: &[u8], which: Frames, text: &mut [u8]) -> Made
    ensures { Gives (length text.old) result text.new (tag_answer (length text.old) which tag.now) }
{
    let put = put_tag(text, tag, which);
    put_answered(text, put)
}

// Whether a row's data is kept back: where it is hidden, unless it is meant.
#[tactic(auto, unfolding(crate::specs::Tags::withheld, file::specs::Hidden::is_hidden))]
fn is_withheld(item: Item, meant: bool) -> bool
    ensures { result ≡ withheld meant item }
{
    !meant && item.format % 2 == 1
}

// The frames of the tag that is an item's data. Nothing is asked of it where it is kept back.
fn make_item_tag(
    file: &[u8],
    row: usize,
    item: Item,
    meant: bool,
    which: Frames,
    text: &mut [u8],
) -> Made
    requires { ItemIn (length file.now) item }
    ensures { Gives (length text.old) result text.new (printed (length text.old) [] (λ a. a) (shown_tag meant which file.now row item)) }
{
    if is_withheld(item, meant) {
        return hidden(text);
    }
    let place = item.place as usize;
    let end = place + item.size as usize;
    make_tag(&file[place..end], which, text)
}

pub fn make_row_tag(file: &[u8], row: usize, meant: bool, which: Frames, text: &mut [u8]) -> Made
    ensures { Gives (length text.old) result text.new (row_tag_answer (length text.old) row meant which file.now) }
{
    let mut nodes = program::node_table();
    let mut items = program::item_table();
    match file::read_file(file, &mut nodes, &mut items) {
        Err(e) => refuse(text, b"", e),
        Ok(s) => {
            if s.items <= row {
                return refuse(text, b"", Refusal(Reason::NoSuchRow, 0));
            }
            make_item_tag(file, row, rows::item_at(&items, row), meant, which, text)
        }
    }
}
