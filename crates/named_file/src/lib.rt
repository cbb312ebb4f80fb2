// A file that an argument of the program names. What it holds stands in no contract: of a named file only that what is read fits the lent bytes, and of a reader
// whose bytes are known which of them were read.
#![tactic(auto)]

ghost use Rattle.std.specs.Prelude.{◌≡◌, ◌≤◌, length, take, IfSome, IsNone};

use std::io::{Error, ErrorKind, Read};
use std::rt::{Env, Files};
use std::{fs, str};

// A name that the system opens has fewer bytes.
const NAME_ROOM: usize = 4096;

// Whether a read fails, as of a folder: one that a signal cut off is tried again.
fn fails(error: Error) -> bool {
    error.kind() != ErrorKind::Interrupted
}

// Reads to the end or until the lent bytes are full, and answers how many. Of a reader whose bytes are known, these are its first ones.
fn read_opened<F: Read>(file: &mut F, bytes: &mut [u8]) -> Option<usize>
    ensures within { IfSome result (λ size. size ≤ length bytes.old) }
    ensures first { IfSome result (λ size. IfSome (F.remaining file.old) (λ xs. take size bytes.new ≡ take (length bytes.old) xs)) }
{
    let mut size = 0;
    // A signal may cut off any number of reads; the count is there so that the loop ends.
    for _ in 0..u64::MAX {
        if size == bytes.len() {
            return Some(size);
        }
        match file.read(&mut bytes[size..]) {
            Ok(0) => return Some(size),
            Ok(n) => size += n,
            Err(error) => {
                if fails(error) {
                    return None;
                }
            }
        }
    }
    None
}

// A file that could not be opened is missing: no bytes are read of it.
fn read_if_opened<F: Read + Drop>(file: Option<F>, bytes: &mut [u8]) -> Option<usize>
    ensures missing { IsNone file → IsNone result }
    ensures within { IfSome result (λ size. size ≤ length bytes.old) }
{
    let mut file = file?;
    read_opened(&mut file, bytes)
}

// Reads the file that the program's argument i names into the lent bytes: how many were read, if it was named, opened and read to its end or to the buffer's.
// A name that is not UTF-8 names no file here.
pub fn read_named<R: Env + Files>(rt: &R, i: usize, bytes: &mut [u8]) -> Option<usize>
    ensures { IfSome result (λ size. size ≤ length bytes.old) }
{
    // A row of fixed size: the report is made without a heap.
    let mut name = [0u8; NAME_ROOM];
    let n = rt.arg(i, &mut name).ok()?;
    let name = str::from_utf8(&name[..n]).ok()?;
    read_if_opened(fs::open(rt, name).ok(), bytes)
}
