// A test program: takes the steps of the sessions that its arguments name, and prints what came of each.
// A session is a text of whole numbers (scan.rt); second/src/commands/steps.rs says what stands where.
#![tactic(auto)]

use std::io::Read;
use std::rt::{Files, Runtime};
use std::{env, fs, io};

mod changes;
mod say;
mod scan;
mod session;

// Bytes that are enough for every session.
const SESSION_ROOM: u64 = 4096;

// A session's bytes, no more than there is room for.
fn session_bytes<R: Files + Alloc>(rt: &R, name: &str) -> io::Result<Vec<u8, R::A>> {
    let mut bytes = Vec::new(rt.alloc());
    fs::open(rt, name)?
        .take(SESSION_ROOM)
        .read_to_end(&mut bytes)?;
    Ok(bytes)
}

// A session that can't be read is told on standard error.
fn one(rt: &impl Runtime, name: &str) -> io::Result<()> {
    match session_bytes(rt, name) {
        Ok(bytes) => {
            println!(rt; "{name}")?;
            session::session(rt, bytes.as_slice())
        }
        Err(error) => eprintln!(rt; "{name}: {error}"),
    }
}

fn main(rt: HostRuntime) -> io::Result<()> {
    for name in env::args(&rt)?.skip(1) {
        one(&rt, name.as_str())?;
    }
    Ok(())
}
