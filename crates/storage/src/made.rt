// What is made beside a file, before it takes the file's name.
use std::fs;
use std::fs::{OpenFile, OpenOptions};
use std::io::{Eprint, Result, Write};
use std::rt::Files;

// Makes a new file with this name, which no file has.
pub fn create<R: Files>(rt: &R, name: &[u8]) -> Result<R::File> {
    OpenOptions::new()
        .write(true)
        .create_new(true)
        .open(rt, program::path(name)?)
}

// Writes all bytes to a new file, and lets them reach the device.
fn fill(file: &mut (impl Write + OpenFile), bytes: &[u8]) -> Result<()> {
    file.write_all(bytes)?;
    file.sync_all()
}

// Writes all bytes to the new file `part`, and closes it. It is removed where that fails; `name` is for the message. Answers whether the bytes reached the device.
pub fn fill_part<R: Files + Eprint>(
    rt: &R,
    mut file: R::File,
    part: &[u8],
    name: &[u8],
    bytes: &[u8],
) -> bool {
    match fill(&mut file, bytes) {
        Ok(()) => true,
        Err(error) => {
            console::failed(rt, name, error);
            remove(rt, part);
            false
        }
    }
}

// Gives the new file the name, and the file that had it is no more.
pub fn rename(rt: &impl Files, part: &[u8], name: &[u8]) -> Result<()> {
    fs::rename(rt, program::path(part)?, program::path(name)?)
}

// Removes a file that was made here, where it is there.
pub fn remove(rt: &impl Files, part: &[u8]) {
    if let Ok(path) = program::path(part) {
        let _ = fs::remove_file(rt, path);
    }
}
