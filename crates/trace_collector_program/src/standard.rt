//! What stands in for standard input, output and error where the program was started without them.

use std::fs::{File, OpenOptions};
use std::os::fd::AsRawFd;
use std::rt::Files;

/// The first number that no standard stream has.
const FIRST_OTHER: i32 = 3;

/// A file that takes everything and has nothing, at the lowest number that is free, where that is a standard stream's;
/// else None, and nothing stays open. While the file is kept, nothing else that is opened gets that number.
pub fn stand_in<R: Files<File = File>>(rt: &R) -> Option<File> {
    let file = OpenOptions::new()
        .read(true)
        .write(true)
        .open(rt, "/dev/null")
        .ok()?;
    if file.as_raw_fd() < FIRST_OTHER {
        Some(file)
    } else {
        None
    }
}
