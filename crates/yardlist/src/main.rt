// Lists the yard file on standard input: each edit's answer, the stop, and the runs. Output that can't be written is one
// line on standard error, and none where nobody reads on.
#![tactic(auto)]

ghost use Rattle.std.specs.Prelude.{◌≤◌, length};
ghost use Rattle.yardlist.specs.Printed.{Printed};

use listing::ROOM;
use std::io::{self, ErrorKind, Read, Write};

// Puts the listing of a yard file at the start of the buffer: answers how many bytes it has.
fn print(file: &[u8], text: &mut [u8; ROOM]) -> usize
    ensures { Printed file.now text.old text.new result }
{
    let mut blocks = [0u16; 408];
    let mut runs = [0u16; 121];
    let mut pairs = [0u8; 28680];
    let mut routes = [0u32; 4728];
    let mut totals = [0u32; 25];
    let mut answers = [0u32; 4096];
    // the tables and the words for the answers have their sizes, so neither call is refused
    let _ = yard::start(&mut blocks, &mut runs, &mut pairs, &mut routes, &mut totals);
    let outcome = replay::replay(
        file,
        &mut blocks,
        &mut runs,
        &mut pairs,
        &mut routes,
        &mut totals,
        &mut answers,
    );
    match outcome {
        Ok(done) => listing::list(text, &answers, done.count, done.number(), done.at, &routes),
        Err(refusal) => listing::list(text, &answers, 0, refusal.number(), 0, &routes),
    }
}

// Reads until the buffer is full, the input ends or a read fails: answers how many bytes were read.
fn read_full<R: Read>(input: &mut R, buffer: &mut [u8]) -> usize
    ensures { result ≤ length buffer.new }
{
    let mut done = 0;
    for _ in 0..buffer.len() {
        match input.read(&mut buffer[done..]) {
            Ok(0) | Err(_) => return done,
            Ok(n) => done += n,
        }
    }
    done
}

fn main(rt: HostRuntime) -> io::Result<()> {
    // one byte more than a yard file may have, so that a longer input is seen as such
    let mut input = [0u8; 8193];
    let n = read_full(&mut rt.reader(), &mut input);
    let mut text = [0u8; ROOM];
    let end = print(&input[..n], &mut text);
    match io::writer(&rt).write_all(&text[..end]) {
        // nobody reads on
        Err(error) if error.kind() == ErrorKind::BrokenPipe => Ok(()),
        Err(_) => rt.eprintln("yardlist: the listing cannot be written"),
        Ok(()) => Ok(()),
    }
}
