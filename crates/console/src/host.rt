// What the command asks of the system: std's handles, and what they do not tell.
use std::fs::File;
use std::io::{Eprint, Input, IsTerminal, Print};
use std::os::fd::AsRawFd;
use std::random::RandomSource;
use std::rt::{Env, Files};

pub trait Host: Env + Files + Input + Print + Eprint + RandomSource {
    // Whether standard output is a terminal.
    fn writes_to_terminal(&self) -> bool;

    // Whether a file that was opened stands where standard input, output or error should, which was closed.
    fn is_standard(&self, file: &Self::File) -> bool;
}

impl Host for HostRuntime {
    fn writes_to_terminal(&self) -> bool {
        self.stdout().is_terminal()
    }

    fn is_standard(&self, file: &File) -> bool {
        file.as_raw_fd() < 3
    }
}
