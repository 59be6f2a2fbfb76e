//! Runs the program on the examples of some files, and tells which are answered otherwise.
//!
//! An example is a line `%% NAME: STATUS WORDS`, the lines of its input, a line `%=`, and the lines
//! of its output. Where that line is `%-` the input's last line lacks its end. A line `%* COUNT TEXT`
//! stands for so many lines of this text, with the number of the line, from 0, for each `@`, and a
//! line `%< FILE` for the lines of a file. By `%r PIECE CALL..` the source gives at most so many bytes
//! a call, and these calls, from 0, fail; by `%w PIECE CALL..` the sink.
#![tactic(auto)]

use ind_base::{List, NoMemory, put_num, read_num};
use ind_disk::MemBay;
use ind_io::{MemSink, MemSource};
use indigo_program::{NoGate, indigo};
use std::alloc::Global;
use std::sync::Wait;
use std::thread::Threads;
use std::{fs, io, mem};

/// The room for an output, in bytes.
const ROOM: u64 = 1_000_000;

/// The files of examples.
const FILES: [&str; 11] = [
    "certificates.txt",
    "clients.txt",
    "crashes.txt",
    "documents.txt",
    "examples.txt",
    "language.txt",
    "limits.txt",
    "plans.txt",
    "rights.txt",
    "runs.txt",
    "stops.txt",
];

/// How an end in memory moves bytes: how many a call takes, and which calls fail.
#[derive(Drop)]
struct Pace {
    piece: u32,
    fails: List<u32>,
}

impl Pace {
    /// The most bytes at once, and no call that fails.
    fn whole(alloc: Global) -> Pace {
        Pace {
            piece: 4096,
            fails: List::new(alloc),
        }
    }

    /// The numbers of a line: the piece, and the calls that fail.
    fn said(alloc: Global, numbers: &[u8]) -> Result<Pace, NoMemory> {
        let mut numbers = numbers
            .split(|b| *b == b' ')
            .map(|digits| read_num(digits).unwrap_or(0).min(4096) as u32);
        let mut pace = Pace::whole(alloc);
        pace.piece = numbers.next().unwrap_or(0);
        for call in numbers {
            pace.fails.push(call)?;
        }
        Ok(pace)
    }
}

/// An example: what is asked, and what has to be answered.
#[derive(Drop)]
struct Example {
    title: List<u8>,
    input: List<u8>,
    output: List<u8>,
    in_output: bool,
    source: Pace,
    sink: Pace,
}

impl Example {
    fn new(alloc: Global) -> Example {
        Example {
            title: List::new(alloc),
            input: List::new(alloc),
            output: List::new(alloc),
            in_output: false,
            source: Pace::whole(alloc),
            sink: Pace::whole(alloc),
        }
    }

    /// Takes a line as it is.
    fn take(&mut self, line: &[u8]) -> Result<(), NoMemory> {
        if line == b"%=".as_slice() {
            self.in_output = true;
        } else if line == b"%-".as_slice() {
            let _end = self.input.pop();
            self.in_output = true;
        } else if self.in_output {
            self.output.extend(line)?;
            self.output.push(b'\n')?;
        } else {
            self.input.extend(line)?;
            self.input.push(b'\n')?;
        }
        Ok(())
    }

    /// Takes the lines that a line of repetition stands for: how many, and their text.
    fn take_repeated(&mut self, alloc: Global, said: &[u8]) -> Result<(), NoMemory> {
        let mut parts = said.splitn(2, |b| *b == b' ');
        let count = parts
            .next()
            .and_then(|digits| read_num(digits))
            .unwrap_or(0);
        let text = parts.next().unwrap_or(b"".as_slice());
        for number in 0..count {
            let one = numbered(alloc, text, number)?;
            self.take(one.as_slice())?;
        }
        Ok(())
    }

    /// Takes a line that isn't a title. A file that isn't there has no lines.
    fn take_line(&mut self, rt: &HostRuntime, line: &[u8]) -> Result<(), NoMemory> {
        let alloc = rt.alloc();
        let mut parts = line.splitn(2, |b| *b == b' ');
        let mark = parts.next().unwrap_or(b"".as_slice());
        let said = parts.next().unwrap_or(b"".as_slice());
        match mark {
            b"%*" => self.take_repeated(alloc, said)?,
            b"%<" => {
                let name = String::from_utf8_lossy(alloc, said)?;
                if let Ok(text) = fs::read(rt, name.as_str()) {
                    self.input.extend(text.as_slice())?
                }
            }
            b"%r" => self.source = Pace::said(alloc, said)?,
            b"%w" => self.sink = Pace::said(alloc, said)?,
            _ => self.take(line)?,
        }
        Ok(())
    }

    /// Whether the program answers as the example says.
    fn is_answered<R: Threads + Wait + Sync>(
        self,
        threads: &R,
        alloc: Global,
    ) -> Result<bool, NoMemory> {
        let Example {
            title,
            input,
            output,
            in_output: _,
            source,
            sink,
        } = self;
        let mut parts = command(title.as_slice()).split(|b| *b == b' ');
        let status = match parts.next() {
            Some([digit]) => digit.wrapping_sub(b'0'),
            _ => return Ok(false),
        };
        let mut words = Vec::new(alloc);
        for part in parts {
            words.push(String::from_utf8_lossy(alloc, part)?)?;
        }
        let mut source = MemSource::new(input, source.piece.max(1), source.fails);
        let mut sink = MemSink::new(alloc, ROOM, sink.piece.max(1), sink.fails)?;
        let mut bay = MemBay::new(alloc)?;
        let got = indigo(
            threads,
            alloc,
            words.as_slice(),
            &mut source,
            &mut sink,
            &mut bay,
            &NoGate,
        );
        Ok(got == status && sink.bytes() == output.as_slice())
    }
}

/// A text with a number for each `@`.
fn numbered(alloc: Global, text: &[u8], number: u64) -> Result<List<u8>, NoMemory> {
    let mut line = List::new(alloc);
    for b in text {
        if *b == b'@' {
            put_num(&mut line, number)?;
        } else {
            line.push(*b)?;
        }
    }
    Ok(line)
}

/// The part of a title behind `: `: a status and the words.
fn command(title: &[u8]) -> &[u8] {
    for (at, b) in title.iter().enumerate() {
        if *b == b':' && at + 2 <= title.len() {
            let (_, behind) = title.split_at(at + 2);
            return behind;
        }
    }
    title
}

/// How many examples are answered as they say, and a line for each other one.
#[derive(Drop)]
struct Tally {
    passed: u64,
    failed: List<u8>,
}

impl Tally {
    /// Counts an example that is answered as it says, and names another one.
    fn judge<R: Threads + Wait + Sync>(
        &mut self,
        threads: &R,
        alloc: Global,
        example: Example,
    ) -> Result<(), NoMemory> {
        let title = example.title.copy(alloc)?;
        if example.is_answered(threads, alloc)? {
            self.passed = self.passed.saturating_add(1);
        } else {
            self.failed.extend(title.as_slice())?;
            self.failed.push(b'\n')?;
        }
        Ok(())
    }
}

/// Runs all examples of a text; behind the last one stands a line that begins with `%%`.
fn run<R: Threads + Wait + Sync>(
    rt: &HostRuntime,
    threads: &R,
    text: &[u8],
) -> Result<Tally, NoMemory> {
    let alloc = rt.alloc();
    let mut tally = Tally {
        passed: 0,
        failed: List::new(alloc),
    };
    let mut example = Example::new(alloc);
    let mut begun = false;
    for line in text.split(|b| *b == b'\n') {
        if line.starts_with(b"%%".as_slice()) {
            let mut next = Example::new(alloc);
            next.title.extend(line)?;
            let done = mem::replace(&mut example, next);
            if begun {
                tally.judge(threads, alloc, done)?;
            }
            begun = true;
        } else {
            example.take_line(rt, line)?;
        }
    }
    Ok(tally)
}

fn main(rt: HostRuntime) -> io::Result<()> {
    let alloc = rt.alloc();
    for name in FILES {
        let text = fs::read(&rt, name)?;
        match run(&rt, &rt, text.as_slice()) {
            Ok(tally) => {
                let failed = String::from_utf8_lossy(alloc, tally.failed.as_slice())?;
                let passed = tally.passed;
                println!(rt; "{failed}{name}: {passed} examples are answered as they should be")?
            }
            Err(_) => println!(rt; "{name}: there was no memory")?,
        }
    }
    Ok(())
}
