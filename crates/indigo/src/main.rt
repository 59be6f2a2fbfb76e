//! The program `indigo`.
#![tactic(auto)]

use ind_disk::MemBay;
use ind_io::{StdSink, StdSource};
use indigo_program::{NoGate, indigo};
use std::env;
use std::io::{self, ErrorKind};
use std::process::ExitCode;

/// The status for want of memory.
const NO_MEMORY: u8 = 9;

fn main(rt: HostRuntime) -> ExitCode {
    let alloc = rt.alloc();
    let mut words = Vec::new(alloc);
    match env::args(&rt) {
        Ok(args) => {
            for word in args.skip(1) {
                if words.push(word).is_err() {
                    return ExitCode::from(NO_MEMORY);
                }
            }
        }
        // Words that aren't text are none of the program's: it answers them as it answers none.
        Err(error) if error.kind() == ErrorKind::InvalidData => {}
        Err(_) => return ExitCode::from(NO_MEMORY),
    }
    let mut source = StdSource::new(rt.reader());
    let mut sink = StdSink::new(io::writer(&rt));
    let Ok(mut bay) = MemBay::new(alloc) else {
        return ExitCode::from(NO_MEMORY);
    };
    ExitCode::from(indigo(
        &rt,
        alloc,
        words.as_slice(),
        &mut source,
        &mut sink,
        &mut bay,
        &NoGate,
    ))
}
