// The frames of ID3 tags.
use answers::{Asked, Frames};
use console::Host;
use std::io::{Eprint, Print};

// Answers for a hidden row, where it is meant, and says that it is hidden.
fn hidden_tag(
    rt: &(impl Print + Eprint),
    name: &[u8],
    file: &[u8],
    row: usize,
    meant: bool,
    which: Frames,
) -> u64 {
    if !meant {
        console::trouble(rt, name, b"the item row is hidden: --hidden");
        return 1;
    }
    console::trouble(
        rt,
        name,
        b"the item row is hidden: what stands here is not for tickets",
    );
    let mut text = io::large_buffer();
    let made = answers::make(Asked::RowTag(row, true, which), b"", file, b"", &mut text);
    let n = made.size;
    console::write_answer(rt, &text[..n], made.status)
}

// Answers for the tag of an item row. It is asked for as a visible one first: so it is known whether it is hidden.
fn row_tag(
    rt: &(impl Print + Eprint),
    name: &[u8],
    file: &[u8],
    row: usize,
    meant: bool,
    which: Frames,
) -> u64 {
    let mut text = io::large_buffer();
    let made = answers::make(Asked::RowTag(row, false, which), b"", file, b"", &mut text);
    if made.status == 1 {
        return hidden_tag(rt, name, file, row, meant, which);
    }
    let n = made.size;
    console::write_answer(rt, &text[..n], made.status)
}

fn named_tag(rt: &impl Host, name: &[u8], row: usize, meant: bool, which: Frames) -> u64 {
    let mut file = program::file_buffer();
    match storage::read(rt, name, &mut file) {
        Some(n) => row_tag(rt, name, &file[..n], row, meant, which),
        None => 1,
    }
}

fn rows_tag(rt: &impl Host, row: usize, which: Frames) -> u64 {
    let mut name = io::buffer();
    match console::arg_at(rt, 4, b"the file's name", &mut name) {
        Some(n) => {
            let meant = console::is_word(rt, 3, b"hidden");
            named_tag(rt, &name[..n], row, meant, which)
        }
        None => 1,
    }
}

fn one_frame(rt: &impl Host, row: usize) -> u64 {
    let Some(frame) = console::number_at(rt, 6) else {
        return 1;
    };
    rows_tag(rt, row, Frames::One(frame as usize))
}

// `shown` or `hidden`, FILE, ROW, and perhaps a frame's number
pub fn tags(rt: &impl Host, count: usize) -> u64 {
    if count != 6 && count != 7 {
        return console::usage(rt);
    }
    let Some(row) = console::number_at(rt, 5) else {
        return 1;
    };
    if count == 7 {
        return one_frame(rt, row as usize);
    }
    rows_tag(rt, row as usize, Frames::All)
}

// What is asked of a tag: TAGFILE, and perhaps a frame's number
pub fn own_tag(rt: &impl Host, count: usize) -> u64 {
    if count != 5 {
        return asking::one(rt, Asked::Tag(Frames::All), count);
    }
    let Some(frame) = console::number_at(rt, 4) else {
        return 1;
    };
    asking::answer_one(rt, Asked::Tag(Frames::One(frame as usize)), b"", 3)
}
