// Walks an ID3v2.4 tag: counts its frames, and gives the name and the contents' place and length of one of them. It reads whatever it is lent, hidden contents
// included, so its answers are no part of a sheet.
#![tactic(auto)]

ghost use Rattle.std.specs.Prelude.{◌≡◌, ◌≤◌, ◌<◌, ◌+◌, length, get_or};
ghost use Rattle.machine.specs.Machine.{run};
ghost use Rattle.cursor.specs.Told.{number_told, pass_told, read_told};
ghost use Rattle.id3.specs.Tag.{size, head, extended, front, frame, frames};
ghost use Rattle.id3.specs.Frames.{frames_of, frame_count, frame_at};
ghost use Rattle.id3.specs.Told.{count_told, frame_told, head_told, walk_told, walk_of};

use cursor::{Cursor, FilePlace};
use refusals::{Reason, Refusal};

// A frame: its name as a number, the first byte highest; where its contents begin, and how many bytes they have.
#[derive(Clone, Copy)]
pub struct TagFrame {
    pub name: u64,
    pub place: usize,
    pub size: usize,
}

// The size here: four bytes, seven bits each.
fn read_size(c: Cursor, tag: &[u8], end: FilePlace) -> Result<(u64, Cursor), Refusal>
    requires { (end.0 ≤ length tag.now) × (c.at.0 ≤ end.0) }
    ensures { number_told result ≡ run (size end.0) tag.now c.at.0 }
{
    let place = c.at;
    let at = place.0;
    if end.0 - at < 4 {
        return Err(Refusal(Reason::BadTag, place.0));
    }
    let first = cursor::wide(tag[at]);
    if 128 <= first {
        return Err(Refusal(Reason::BadTag, place.0));
    }
    let second = cursor::wide(tag[at + 1]);
    if 128 <= second {
        return Err(Refusal(Reason::BadTag, place.0));
    }
    let third = cursor::wide(tag[at + 2]);
    if 128 <= third {
        return Err(Refusal(Reason::BadTag, place.0));
    }
    let fourth = cursor::wide(tag[at + 3]);
    if 128 <= fourth {
        return Err(Refusal(Reason::BadTag, place.0));
    }
    Ok((
        ((first * 128 + second) * 128 + third) * 128 + fourth,
        c.on(4),
    ))
}

// The header of the tag.
fn read_head(tag: &[u8]) -> Result<(u64, FilePlace, Cursor), Refusal>
    ensures { head_told result ≡ run (head (length tag.now)) tag.now 0 }
{
    if tag.len() < 10 {
        return Err(Refusal(Reason::NotATag, 0));
    }
    if tag[0] != 0x49 {
        return Err(Refusal(Reason::NotATag, 0));
    }
    if tag[1] != 0x44 {
        return Err(Refusal(Reason::NotATag, 0));
    }
    if tag[2] != 0x33 {
        return Err(Refusal(Reason::NotATag, 0));
    }
    if tag[3] != 4 {
        return Err(Refusal(Reason::NotATag, 3));
    }
    let flags = cursor::wide(tag[5]);
    if flags / 0x80 % 2 == 1 {
        return Err(Refusal(Reason::Unsynchronised, 5));
    }
    let lent = tag.len();
    let c = Cursor { at: FilePlace(6) };
    let (size, d) = read_size(c, tag, FilePlace(lent))?;
    if lent - 10 < size as usize {
        return Err(Refusal(Reason::BadTag, 6));
    }
    Ok((flags, FilePlace(10 + size as usize), d))
}

// The extended header here.
fn read_extended(c: Cursor, tag: &[u8], end: FilePlace) -> Result<Cursor, Refusal>
    requires { (end.0 ≤ length tag.now) × (c.at.0 ≤ end.0) }
    ensures { pass_told result ≡ run (extended end.0) tag.now c.at.0 }
{
    let place = c.at;
    let (size, _) = read_size(c, tag, end)?;
    if size < 6 {
        return Err(Refusal(Reason::BadTag, place.0));
    }
    if end.0 - place.0 < size as usize {
        return Err(Refusal(Reason::BadTag, place.0));
    }
    Ok(c.on(size))
}

// The frame here, in a tag that goes on.
fn read_frame(c: Cursor, tag: &[u8], end: FilePlace) -> Result<(TagFrame, Cursor), Refusal>
    requires { (end.0 ≤ length tag.now) × (c.at.0 < end.0) }
    ensures { read_told result ≡ run (frame end.0 c.at.0 (get_or tag.now c.at.0 0)) tag.now (c.at.0 + 1) }
{
    let place = c.at;
    let at = place.0;
    let left = end.0 - at;
    if left < 4 {
        return Err(Refusal(Reason::BadTag, place.0));
    }
    let first = cursor::wide(tag[at]);
    let second = cursor::wide(tag[at + 1]);
    let third = cursor::wide(tag[at + 2]);
    let fourth = cursor::wide(tag[at + 3]);
    let name = ((first * 256 + second) * 256 + third) * 256 + fourth;
    let (size, _) = read_size(c.on(4), tag, end)?;
    if left < 10 {
        if size != 0 {
            return Err(Refusal(Reason::BadTag, at + 4));
        }
        return Err(Refusal(Reason::BadTag, at + 8));
    }
    if left - 10 < size as usize {
        return Err(Refusal(Reason::BadTag, at + 4));
    }
    let format = cursor::wide(tag[at + 9]);
    if format / 2 % 2 == 1 {
        return Err(Refusal(Reason::Unsynchronised, at + 8));
    }
    let contents = at + 10;
    let x = TagFrame {
        name: name,
        place: contents,
        size: size as usize,
    };
    Ok((
        x,
        Cursor {
            at: FilePlace(contents + size as usize),
        },
    ))
}

// The cursor behind the header and the extended header, if there is one.
fn read_front(c: Cursor, tag: &[u8], flags: u64, end: FilePlace) -> Result<Cursor, Refusal>
    requires { (end.0 ≤ length tag.now) × (c.at.0 ≤ end.0) }
    ensures { pass_told result ≡ run (front flags end.0) tag.now c.at.0 }
{
    if flags / 0x40 % 2 == 1 {
        return read_extended(c, tag, end);
    }
    Ok(c)
}

// All frames from here on: how many there are, and the one numbered `want`.
fn read_frames(
    c: Cursor,
    tag: &[u8],
    end: FilePlace,
    want: usize,
) -> Result<(usize, TagFrame), Refusal>
    requires { end.0 ≤ length tag.now }
    ensures { walk_told result ≡ walk_of want (run (frames end.0) tag.now c.at.0) }
{
    let mut next = c;
    let mut count = 0;
    let mut kept = TagFrame {
        name: 0,
        place: 0,
        size: 0,
    };
    loop {
        let place = next.at;
        let at = place.0;
        if end.0 <= at {
            break Ok((count, kept));
        }
        if tag[at] == 0 {
            break Ok((count, kept));
        }
        let (x, d) = read_frame(next, tag, end)?;
        next = d;
        if count == want {
            kept = x;
        }
        count = count + 1;
    }
}

// The whole tag: how many frames it has, and the one numbered `want`.
fn walk(tag: &[u8], want: usize) -> Result<(usize, TagFrame), Refusal>
    ensures { walk_told result ≡ walk_of want (frames_of tag.now) }
{
    let (flags, end, c) = read_head(tag)?;
    let d = read_front(c, tag, flags, end)?;
    read_frames(d, tag, end, want)
}

// How many frames the tag has.
pub fn frame_count(tag: &[u8]) -> Result<usize, Refusal>
    ensures { count_told result ≡ frame_count tag.now }
{
    let (count, _) = walk(tag, 0)?;
    Ok(count)
}

// The tag's frame of a number, from 0 in file order.
pub fn frame(tag: &[u8], number: usize) -> Result<TagFrame, Refusal>
    ensures { frame_told result ≡ frame_at number tag.now }
{
    let (count, x) = walk(tag, number)?;
    if count <= number {
        return Err(Refusal(Reason::NoSuchRow, 0));
    }
    Ok(x)
}
