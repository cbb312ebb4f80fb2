// A test program: reads, checks and writes the lists that its arguments name, and prints what came of it.
// A name that begins with f is a list file, read with room for 4,096 words; s: with room for 2; w: words of four bytes, high byte first.
#![tactic(auto)]

ghost use Rattle.std.specs.Prelude.{◌≤◌, length};

use list_file::Written;
use list_file::reader::read;
use list_file::writer::write;
use std::io::Read;
use std::rt::{Files, Runtime};
use std::{env, fs, io};
use words::refusal::Refused;
use words::{Areas, LIST_LIMIT, check_list, check_list_against};

// Bytes that are enough for every file, read or written.
const FILE_ROOM: usize = 65536;

// What a name's first letter says of its file.
#[derive(Clone, Copy)]
enum Kind {
    File,
    ShortFile,
    Words,
}

impl Kind {
    fn of(name: &str) -> Kind {
        match name.as_bytes().first() {
            Some(b's') => Kind::ShortFile,
            Some(b'w') => Kind::Words,
            _ => Kind::File,
        }
    }
}

// The first four words of a buffer.
fn first_words(out: &impl Print, list: &[u32]) -> io::Result<()> {
    for word in list.iter().take(4) {
        print!(out; " {word}")?;
    }
    Ok(())
}

// What the writer says of a list: the file's length, 0 when refused.
fn write_answer(out: &impl Print, answered: Result<Written, Refused>) -> io::Result<usize> {
    let (refusal, place, length) = match answered {
        Ok(written) => (0, written.place, written.length),
        Err(refused) => (u32::from(refused.refusal), refused.place, 0),
    };
    print!(out; " write {refusal} at {place} length {length}")?;
    Ok(length)
}

// Whether the writer gives a file back from its words.
fn written_back(out: &impl Print, file: &[u8], list: &[u32], back: &mut [u8]) -> io::Result<()> {
    let length = write_answer(out, write(list, back))?;
    if length <= back.len() && file == &back[..length] {
        print!(out; " same")?;
    }
    Ok(())
}

// A list file: what the reader says of it, what the writer makes of its words, and how the buffer begins.
fn list_file(out: &impl Print, bytes: &[u8], list: &mut [u32], back: &mut [u8]) -> io::Result<()> {
    let (refusal, place, count) = match read(bytes, list) {
        Ok(got) => (0, got.place, got.count),
        Err(refused) => (u32::from(refused.refusal), refused.place, 0),
    };
    print!(out; " read {refusal} at {place} count {count}")?;
    if list.len() < count {
        return Ok(());
    }
    written_back(out, bytes, &list[..count], back)?;
    print!(out; " words")?;
    first_words(out, list)?;
    println!(out)
}

// A refusal number, 0 for accepted, and a place.
fn verdict(out: &impl Print, what: &str, checked: Result<usize, Refused>) -> io::Result<()> {
    let (refusal, place) = match checked {
        Ok(place) => (0, place),
        Err(refused) => (u32::from(refused.refusal), refused.place),
    };
    print!(out; " {what} {refusal} at {place}")
}

// A list of words: alone, against areas of 2 and 3 cells, and written with room for 12 bytes.
fn list_words(out: &impl Print, list: &[u32]) -> io::Result<()> {
    verdict(out, "alone", check_list(list))?;
    verdict(
        out,
        "areas",
        check_list_against(
            list,
            Areas {
                operands: 2,
                results: 3,
            },
        ),
    )?;
    // The test's short room, and bytes of 9 that must stay as found where nothing is written.
    let mut file = [9u8; 12];
    write_answer(out, write(list, &mut file))?;
    print!(out; " bytes")?;
    hex_row(out, &file)?;
    println!(out)
}

fn hex_row(out: &impl Print, bytes: &[u8]) -> io::Result<()> {
    for byte in bytes {
        print!(out; " {byte:02x}")?;
    }
    Ok(())
}

// As many whole words as the bytes hold and the list has room for.
fn words_of(bytes: &[u8], list: &mut [u32]) -> usize
    ensures { result ≤ length list.old }
{
    let (words, _) = bytes.as_chunks::<4>();
    let count = words.len().min(list.len());
    for (place, word) in list.iter_mut().zip(words) {
        *place = u32::from_be_bytes(*word);
    }
    count
}

// Rows of fixed size, by the test: words of 0 for a row of words, room for every file, and words of 7, 2 or the longest list's, that must stay as found.
fn one_list(out: &impl Print, bytes: &[u8], kind: Kind) -> io::Result<()> {
    if let Kind::Words = kind {
        let mut list = [0u32; 5000];
        let count = words_of(bytes, &mut list);
        return list_words(out, &list[..count]);
    }
    let mut back = [0u8; FILE_ROOM];
    if let Kind::ShortFile = kind {
        let mut short = [7u32; 2];
        return list_file(out, bytes, &mut short, &mut back);
    }
    let mut long = [7u32; LIST_LIMIT];
    list_file(out, bytes, &mut long, &mut back)
}

// A file's bytes, no more than there is room for.
fn file_bytes<R: Files + Alloc>(rt: &R, name: &str) -> io::Result<Vec<u8, R::A>> {
    let mut bytes = Vec::new(rt.alloc());
    fs::open(rt, name)?
        .take(FILE_ROOM as u64)
        .read_to_end(&mut bytes)?;
    Ok(bytes)
}

// A file that can't be read is told on standard error.
fn one(rt: &impl Runtime, name: &str) -> io::Result<()> {
    match file_bytes(rt, name) {
        Ok(bytes) => {
            print!(rt; "{name}")?;
            one_list(rt, bytes.as_slice(), Kind::of(name))
        }
        Err(error) => eprintln!(rt; "{name}: {error}"),
    }
}

fn main(rt: HostRuntime) -> io::Result<()> {
    for name in env::args(&rt)?.skip(1) {
        one(&rt, name.as_str())?;
    }
    Ok(())
}
