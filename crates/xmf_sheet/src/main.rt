// Writes the support sheet of one file, or one refusal line.
//
// The file is named by the first argument, or read from standard input without one.
#![tactic(auto)]

ghost use Rattle.std.specs.Prelude.{◌≡◌, length, take};
ghost use Rattle.io.specs.Counts.{IsPrefixLen};
ghost use Rattle.refusals.specs.Reasons.{number_of};
ghost use Rattle.room.specs.Counts as room;
ghost use Rattle.xmf_sheet.specs.Answer.{refusal_line, too_long, answer_text};

use refusals::Refusal;
use std::io::{Eprint, Error, Input, Print, Read, Result};
use std::process::ExitCode;
use std::rt::{Env, Files};

// Puts the line of a refusal.
fn put_refusal(out: &mut [u8], refusal: Refusal) -> usize
    ensures { room.Counts out.old out.new 0 (refusal_line (number_of refusal.0) refusal.1) result }
{
    let a = room::put_byte(out, 0, b'R');
    let b = text::put_number(out, a, refusal.0.number());
    let c = text::put_number(out, b, refusal.1 as u64);
    room::put_byte(out, c, 0x0a)
}

// Puts the line of a file that is too long.
fn put_too_long(out: &mut [u8]) -> usize
    ensures { room.Counts out.old out.new 0 too_long result }
{
    room::put_bytes(out, 0, b"too long\n")
}

// Makes the answer for the bytes of an input: its sheet or one line. Answers its length.
fn make_answer(file: &[u8], text: &mut [u8]) -> usize
    requires { 65536 ≡ length text.old }
    ensures prefix_len { IsPrefixLen result text.new }
    ensures text_value { take result text.new ≡ answer_text file.now }
{
    if file.len() > program::LONGEST {
        return put_too_long(text);
    }
    let mut nodes = program::node_table();
    let mut items = program::item_table();
    match sheet::write_sheet(file, &mut nodes, &mut items, text) {
        Ok(n) => n,
        Err(refusal) => put_refusal(text, refusal),
    }
}

// Writes the answer for the bytes of an input, by one write.
fn write_answer(rt: &impl Print, file: &[u8]) -> Result<()> {
    let mut text = io::large_buffer();
    let n = make_answer(file, &mut text);
    rt.write_all(&text[..n])
}

// Says why the answer was not written; nothing where nobody reads it.
fn say_unwritten(rt: &impl Eprint, error: Error) -> ExitCode {
    if program::is_unread(&error) {
        return ExitCode::from(program::UNREAD);
    }
    program::fail(rt, b"xmf_sheet", b"standard output", error);
    ExitCode::SUCCESS
}

// Reads an input and writes the answer.
fn answer(rt: &(impl Print + Eprint), input: &mut impl Read, name: &[u8]) -> ExitCode {
    let mut file = program::file_buffer();
    match program::read_input(input, &mut file) {
        Err(error) => {
            program::fail(rt, b"xmf_sheet", name, error);
            ExitCode::SUCCESS
        }
        Ok(n) => match write_answer(rt, &file[..n]) {
            Err(error) => say_unwritten(rt, error),
            Ok(()) => ExitCode::SUCCESS,
        },
    }
}

// Opens the file with this name and writes the answer.
fn answer_named(rt: &(impl Files + Print + Eprint), name: &[u8]) -> ExitCode {
    match program::open(rt, name) {
        Err(error) => {
            program::fail(rt, b"xmf_sheet", name, error);
            ExitCode::SUCCESS
        }
        Ok(mut file) => answer(rt, &mut file, name),
    }
}

// Writes the answer for the file that the first argument names.
fn answer_first(rt: &(impl Env + Files + Print + Eprint)) -> ExitCode {
    let mut name = io::buffer();
    match program::arg(rt, 1, &mut name) {
        Err(error) => {
            program::fail(rt, b"xmf_sheet", b"the first argument", error);
            ExitCode::SUCCESS
        }
        Ok(n) => answer_named(rt, &name[..n]),
    }
}

fn run(rt: &(impl Env + Files + Input + Print + Eprint)) -> ExitCode {
    let count = program::arg_count(rt);
    if count < 2 {
        return answer(rt, &mut rt.reader(), b"standard input");
    }
    if count > 2 {
        program::say(rt, b"xmf_sheet: one file at a time\n");
        return ExitCode::SUCCESS;
    }
    answer_first(rt)
}

// The status is 0 also where there is no answer: standard error says why.
fn main(rt: HostRuntime) -> ExitCode {
    run(&rt)
}
