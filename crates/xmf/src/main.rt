// Answers questions about files: `xmf --status=3 COMMAND WORDS..`, in the order of words that the script of the same name gives.
//
// The answer goes to standard output, messages to standard error, and the status, one digit, to the descriptor that the first word names: 0 answered,
// 1 trouble, 2 refused, 3 answered and not Mobile XMF.
#![tactic(auto)]

mod runs;
mod sums;
mod tags;

use answers::Asked;
use asking::Mode;
use console::Host;
use find::Field;
use std::fmt::InlineText;
use std::fs::OpenOptions;
use std::io::{Result, Write};
use std::process::ExitCode;
use std::rt::{Env, Files};

// The mode that the argument after the command names.
fn named_mode(rt: &impl Env) -> Mode {
    if console::is_word(rt, 3, b"names") {
        Mode::Field
    } else if console::is_word(rt, 3, b"heads") {
        Mode::Head
    } else if console::is_word(rt, 3, b"quiet") {
        Mode::Quiet
    } else {
        Mode::Plain
    }
}

// MODE FILE..; an answer of several lines
fn longer(rt: &impl Host, asked: Asked, count: usize) -> u64 {
    if console::is_word(rt, 3, b"names") {
        return asking::answer_files(rt, asked, Mode::Above, 4, count);
    }
    asking::answer_files(rt, asked, named_mode(rt), 4, count)
}

fn find_asked(own: bool, row: usize, field: Field) -> Asked {
    if own {
        Asked::Own(row, field)
    } else {
        Asked::Near(row, field)
    }
}

fn find_number(rt: &impl Host, own: bool, row: usize) -> u64 {
    let Some(number) = console::number_at(rt, 7) else {
        return 1;
    };
    asking::answer_one(rt, find_asked(own, row, Field::Standard(number)), b"", 4)
}

fn find_name(rt: &impl Host, own: bool, row: usize) -> u64 {
    let mut name = io::buffer();
    match console::arg_at(rt, 7, b"the field's name", &mut name) {
        Some(n) => asking::answer_one(rt, find_asked(own, row, Field::Custom), &name[..n], 4),
        None => 1,
    }
}

// `near` or `own`, FILE, ROW, and `S` and a number or `C` and a name
fn finds(rt: &impl Host, count: usize) -> u64 {
    if count != 8 {
        return console::usage(rt);
    }
    let Some(row) = console::number_at(rt, 5) else {
        return 1;
    };
    let own = console::is_word(rt, 3, b"own");
    if console::is_word(rt, 6, b"S") {
        return find_number(rt, own, row as usize);
    }
    find_name(rt, own, row as usize)
}

// FILE ROW
fn resolves(rt: &impl Host, count: usize) -> u64 {
    if count != 5 {
        return console::usage(rt);
    }
    let Some(row) = console::number_at(rt, 4) else {
        return 1;
    };
    asking::answer_one(rt, Asked::Place(row as usize), b"", 3)
}

fn needs_row(rt: &impl Host) -> u64 {
    let Some(row) = console::number_at(rt, 4) else {
        return 1;
    };
    asking::answer_one(rt, Asked::RowNeeds(row as usize), b"", 3)
}

fn needs_count(rt: &impl Host) -> u64 {
    let Some(row) = console::number_at(rt, 4) else {
        return 1;
    };
    let Some(channel) = console::number_at(rt, 5) else {
        return 1;
    };
    let Some(resource) = console::number_at(rt, 6) else {
        return 1;
    };
    asking::answer_one(rt, Asked::Count(row as usize, channel, resource), b"", 3)
}

// FILE, FILE ROW, or FILE ROW CHANNEL RESOURCE
fn needs(rt: &impl Host, count: usize) -> u64 {
    match count {
        5 => needs_row(rt),
        7 => needs_count(rt),
        _ => asking::one(rt, Asked::Needs, count),
    }
}

// Runs the command with this name.
fn run_named(rt: &impl Host, word: &[u8], count: usize) -> u64 {
    match word {
        b"sheet" => longer(rt, Asked::Sheet, count),
        b"sheet2" => longer(rt, Asked::Sheet2, count),
        b"bytes" => longer(rt, Asked::Bytes, count),
        b"verdict" => asking::answer_files(rt, Asked::Verdict, named_mode(rt), 4, count),
        b"check" => asking::answer_files(rt, Asked::Check, Mode::Field, 3, count),
        b"show" => asking::answer_files(rt, Asked::Sheet, Mode::Shown, 3, count),
        b"bytes-line" => asking::answer_files(rt, Asked::BytesLine, Mode::Field, 3, count),
        b"bytes-sum" => sums::sum_files(rt, 3, count),
        b"reorder" => asking::one(rt, Asked::Moved, count),
        b"rows" => asking::one(rt, Asked::Rows, count),
        b"title" => asking::one(rt, Asked::Titles, count),
        b"mend" => asking::one(rt, Asked::MendLines, count),
        b"runs" => runs::runs(rt, count),
        b"find" => finds(rt, count),
        b"resolve" => resolves(rt, count),
        b"needs" => needs(rt, count),
        b"id3" => tags::tags(rt, count),
        b"id3-tag" => tags::own_tag(rt, count),
        b"extract" => handouts::extract(rt, count),
        b"correct" => corrections::correct(rt, count),
        b"mended" => handouts::mend(rt, count),
        b"to-utf8" => handouts::convert(rt, Asked::Utf8, count),
        b"to-utf16" => handouts::convert(rt, Asked::Utf16, count),
        b"shelf" => shelves::run(rt, count),
        _ => console::usage(rt),
    }
}

// Runs the command that the second argument is; its words follow.
fn run(rt: &impl Host, count: usize) -> u64 {
    let mut word = io::buffer();
    match program::arg(rt, 2, &mut word) {
        Ok(n) => run_named(rt, &word[..n], count),
        Err(_) => console::usage(rt),
    }
}

// Writes the status to the descriptor, which the caller opened, and whose file has a name while it is open.
fn write_status(rt: &impl Files, fd: i32, status: u64) -> Result<()> {
    let path = InlineText::<16>::of(format_args!("/dev/fd/{fd}"));
    let mut file = OpenOptions::new().append(true).open(rt, path.as_str())?;
    write!(file, "{status}")
}

// The first argument names the descriptor for the status. Where nobody reads the answer to its end there is no status but the program's own.
fn main(rt: HostRuntime) -> Result<ExitCode> {
    let fd = console::status_at(&rt, 1);
    if fd < 0 {
        console::usage(&rt);
        return Ok(ExitCode::SUCCESS);
    }
    let status = run(&rt, program::arg_count(&rt));
    if status == u64::from(program::UNREAD) {
        return Ok(ExitCode::from(program::UNREAD));
    }
    match fd {
        1 => print!(rt; "{status}")?,
        2 => eprint!(rt; "{status}")?,
        _ => write_status(&rt, fd, status)?,
    }
    Ok(ExitCode::SUCCESS)
}
