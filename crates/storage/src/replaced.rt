// A file in the place of another: it is written beside it, reaches the device and takes its name.
use crate::made;
use console::Host;
use std::fs::{File, OpenFile, Permissions};
use std::io::Result;
use std::os::unix::fs::PermissionsExt;
use std::rt::Files;

// Makes an empty file with this mode, or the usual one where it is none. What has the name but not the mode is removed.
fn create<R: Files>(rt: &R, part: &[u8], mode: u64) -> Result<R::File> {
    let file = made::create(rt, part)?;
    if mode < 4096 {
        if let Err(error) = file.set_permissions(Permissions::from_mode(mode as u32)) {
            made::remove(rt, part);
            return Err(error);
        }
    }
    Ok(file)
}

// Makes the file that is written first.
fn make_part(rt: &impl Host, part: &[u8], name: &[u8], mode: u64, bytes: &[u8]) -> bool {
    match create(rt, part, mode) {
        Ok(file) => made::fill_part(rt, file, part, name, bytes),
        Err(error) => {
            console::failed(rt, name, error);
            false
        }
    }
}

// Lets the new name reach the device as well, where the system does that for a folder.
fn sync_folder(rt: &impl Files, folder: &[u8]) {
    if let Ok(opened) = program::open(rt, folder) {
        let _ = opened.sync_all();
    }
}

fn sync_name(rt: &impl Files, name: &[u8]) {
    let n = spelling::folder_size(name);
    if n == 0 {
        sync_folder(rt, b".");
    } else {
        sync_folder(rt, &name[..n]);
    }
}

// Nobody else writes beside the file, so what is there is what a call that was stopped left.
fn replace_by(rt: &impl Host, part: &[u8], name: &[u8], mode: u64, bytes: &[u8]) -> u64 {
    made::remove(rt, part);
    if !make_part(rt, part, name, mode, bytes) {
        return 1;
    }
    if let Err(error) = made::rename(rt, part, name) {
        console::failed(rt, name, error);
        made::remove(rt, part);
        return 1;
    }
    sync_name(rt, name);
    0
}

// Puts a new file in the place of the one with this name, with this mode, or the usual one from 4,096 on; answers the status. The caller holds a lock.
pub fn replace(rt: &impl Host, name: &[u8], mode: u64, bytes: &[u8]) -> u64 {
    let mut part = console::line_buffer();
    let a = room::put_bytes(&mut part, 0, name);
    let b = room::put_bytes(&mut part, a, b".xmf-new");
    let n = spelling::within(b, &part);
    replace_by(rt, &part[..n], name, mode, bytes)
}
