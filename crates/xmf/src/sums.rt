// The bytes of many files, summed by kind.
use answers::Sums;
use console::Host;
use std::io::{Eprint, Print};

// The sums so far, and the worst status of the files.
#[derive(Clone, Copy)]
struct Summing {
    sums: Sums,
    status: u64,
}

// Adds the file that argument i names. A file that could not be read is none of the files.
fn add(rt: &impl Host, so: Summing, i: usize) -> Summing {
    let mut file = program::file_buffer();
    match storage::read_at(rt, i, b"a file's name", &mut file) {
        Some(n) => Summing {
            sums: answers::add_file(so.sums, &file[..n]),
            status: so.status,
        },
        None => Summing {
            sums: so.sums,
            status: 1,
        },
    }
}

// Writes the sums; answers the status.
fn write_sums(rt: &(impl Print + Eprint), so: Summing) -> u64 {
    let mut text = io::large_buffer();
    let made = answers::make_sums(so.sums, &mut text);
    let n = made.size;
    match console::write(rt, &text[..n]) {
        Ok(()) => asking::worse(so.status, made.status),
        Err(unwritten) => unwritten.status(),
    }
}

// Sums the files that the arguments from `first` on name.
pub fn sum_files(rt: &impl Host, first: usize, count: usize) -> u64 {
    let mut so = Summing {
        sums: answers::no_sums(),
        status: 0,
    };
    for i in first..count {
        so = add(rt, so, i);
    }
    write_sums(rt, so)
}
