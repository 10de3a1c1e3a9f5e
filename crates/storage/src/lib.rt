// Files that are read, and files that are made.
#![tactic(auto)]

mod made;
mod placed;
mod replaced;

ghost use Rattle.program.specs.Inputs as program;
ghost use Rattle.storage.specs.Got.{Inside};

use console::Host;
pub use placed::hand_out;
pub use replaced::replace;
use std::io::{Eprint, Input, Result};
use std::rt::Files;

// Opens the file with this name, and reads it.
fn read_file(rt: &impl Files, name: &[u8], buf: &mut [u8]) -> Result<usize>
    ensures { program.Inside result buf.new }
{
    let mut file = program::open(rt, name)?;
    program::read_input(&mut file, buf)
}

// Reads the file with this name, or standard input for `-`.
fn read_named(rt: &(impl Files + Input), name: &[u8], buf: &mut [u8]) -> Result<usize>
    ensures { program.Inside result buf.new }
{
    if name == b"-".as_slice() {
        program::read_input(&mut rt.reader(), buf)
    } else {
        read_file(rt, name, buf)
    }
}

// The same; says why it could not be read. Answers how many bytes stand at the start of the buffer, if it could.
pub fn read(rt: &(impl Files + Input + Eprint), name: &[u8], buf: &mut [u8]) -> Option<usize>
    ensures { Inside result buf.new }
{
    match read_named(rt, name, buf) {
        Ok(n) => Some(n),
        Err(error) => {
            console::failed(rt, name, error);
            None
        }
    }
}

// Reads the file that argument i names; says why it could not be read. `what` the argument is stands in the message where it is missing or too long.
pub fn read_at(rt: &impl Host, i: usize, what: &[u8], buf: &mut [u8]) -> Option<usize>
    ensures { Inside result buf.new }
{
    let mut name = io::buffer();
    let n = console::arg_at(rt, i, what, &mut name)?;
    read(rt, &name[..n], buf)
}
