// Replays a stored sample of the published Rust's answers: every list of managed calls is made again, and after each call the answer, the dimension, the
// active factors and the right-hand side are compared with the stored ones. README.md has the sample's form.
#![tactic(auto)]

ghost use Rattle.std.specs.Prelude.{◌≡◌, ◌≤◌, length, IfOk};

mod answer;
mod call;
mod compare;
mod counts;
mod lists;
mod records;
mod sample;
mod sample_buffers;

use lists::ReplayError;
use std::fs::File;
use std::io::{ErrorKind, Read};
use std::{fs, io};

// Room for the longest sample. Of a longer one so many bytes are read, and it is reported as one that ends there.
fn zeros() -> [u8; 1048576]
    ensures { 1048576 ≡ length result }
{
    [0; 1048576]
}

// Reads until `data` is full or the file ends, and says how many bytes that were. A read that a signal interrupts is tried again; the bound on how often
// is there since every loop has an end.
fn read_full(file: &mut File, data: &mut [u8]) -> io::Result<usize>
    ensures { IfOk result (λ n. n ≤ length «data».old) }
{
    let mut count = 0;
    for _ in 0..u64::MAX {
        match file.read(&mut data[count..]) {
            Ok(0) => return Ok(count),
            Ok(read) => count += read,
            Err(error) if error.kind() == ErrorKind::Interrupted => {}
            Err(error) => return Err(error),
        }
    }
    Err(ErrorKind::TimedOut.into())
}

// Opens the sample and hands its bytes on.
fn main(rt: HostRuntime) -> io::Result<()> {
    let Ok(mut file) = fs::open(&rt, "sample") else {
        return println!(rt; "the sample cannot be opened");
    };
    let mut data = zeros();
    let count = read_full(&mut file, &mut data)?;
    match lists::replay(&rt, &data[..count]) {
        Ok(()) => Ok(()),
        Err(ReplayError::Malformed(malformed)) => println!(rt; "{malformed}"),
        Err(ReplayError::Io(error)) => Err(error),
    }
}
