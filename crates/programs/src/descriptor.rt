// The file that the script has open on descriptor 3: an index, or where it is told an answer. It is opened once more, by the name that the system has
// for it, and as the script's descriptor is: at its place in the file, and to append where that one appends.
use super::{told_in, word_behind};
use std::fs::{File, OpenOptions};
use std::io;
use std::io::{Seek, SeekFrom};
use std::rt::Files;

const NAME: &str = "/proc/self/fd/3";

// What the system says of the descriptor: its place in the file, and by octal digits how it is open.
const SAID: &str = "/proc/self/fdinfo/3";

const SAID_ROOM: usize = 1024;

// The error of the system for a descriptor that is not open, or not for what is asked of it.
const BAD_DESCRIPTOR: i32 = 9;

// How a descriptor is open: the lowest two bits say that it only reads, or only writes, and another that it appends.
const WAYS: u64 = 3;

const ONLY_READS: u64 = 0;

const ONLY_WRITES: u64 = 1;

const APPENDS: u64 = 1024;

#[derive(Clone, Copy)]
struct Descriptor {
    place: u64,
    flags: u64,
}

fn descriptor_told(text: &str) -> Option<Descriptor> {
    let place = word_behind(text, "pos:")?.parse::<u64>().ok()?;
    let flags = u64::from_str_radix(word_behind(text, "flags:")?, 8).ok()?;
    Some(Descriptor { place, flags })
}

// The descriptor, where it is open in another way than this one.
fn open_descriptor<R: Files>(rt: &R, excluded: u64) -> io::Result<Descriptor> {
    let mut room = [0u8; SAID_ROOM];
    told_in(rt, SAID, &mut room)
        .and_then(descriptor_told)
        .filter(|found| found.flags & WAYS != excluded)
        .ok_or(io::Error::from_raw_os_error(BAD_DESCRIPTOR))
}

// A pipe has no places, and stays where it is.
fn go_to<F: Seek>(file: &mut F, place: u64) {
    if place > 0 {
        let _ = file.seek(SeekFrom::Start(place));
    }
}

pub fn open_index<R: Files>(rt: &R) -> io::Result<R::File> {
    let found = open_descriptor(rt, ONLY_WRITES)?;
    let mut file = File::open(rt, NAME)?;
    go_to(&mut file, found.place);
    Ok(file)
}

// Nothing of the file is cut off.
pub fn open_answer<R: Files>(rt: &R) -> io::Result<R::File> {
    let found = open_descriptor(rt, ONLY_READS)?;
    let appends = found.flags & APPENDS != 0;
    let mut file = OpenOptions::new()
        .write(true)
        .append(appends)
        .open(rt, NAME)?;
    go_to(&mut file, found.place);
    Ok(file)
}
