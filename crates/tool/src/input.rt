// The input of a program.
use crate::stop::Stop;
use std::io::Read;
use std::{env, fs, io};

// The input could not be read from there.
fn unread(name: String, e: io::Error) -> Stop {
    if e.kind() == io::ErrorKind::OutOfMemory {
        Stop::Memory
    } else {
        Stop::Unread(name, e)
    }
}

fn read_file(rt: &HostRuntime, name: String) -> Result<Vec<u8>, Stop> {
    fs::read(rt, name.as_str()).map_err(|e| unread(name, e))
}

fn read_standard_input(rt: &HostRuntime) -> Result<Vec<u8>, Stop> {
    let heap = rt.alloc();
    let mut bytes = Vec::new(heap);
    rt.stdin().read_to_end(&mut bytes).try_map_err(|e| -> Result<Stop, Stop> {
        Ok(unread(String::from_str(heap, "standard input")?, e))
    })?;
    Ok(bytes)
}

pub(crate) fn read(rt: &HostRuntime) -> Result<Vec<u8>, Stop> {
    // the first word is the program's own name
    match env::args(rt)?.nth(1) {
        Some(name) => read_file(rt, name),
        None => read_standard_input(rt),
    }
}
