// Prints the listing of a trace: of the file that the first argument names, or of standard input where there is none. What
// cannot be opened or read gets a message on standard error, and nothing is printed.
#![tactic(auto)]

ghost use Rattle.std.specs.Prelude.{◌≡◌, ◌≤◌, length, take, IfOk};
ghost use Rattle.trace.specs.Trace.{listing, longest};
ghost use Rattle.io.specs.Counts.{IsPrefixLen};

use std::env::{Env, FillError};
use std::fmt::Display;
use std::io::Read;
use std::{fs, io};

// Reads until the end or a full buffer, and says how many bytes that were; or the failure that ended the reading.
fn read_all<R: Read>(from: &mut R, buf: &mut [u8]) -> io::Result<usize>
    ensures { IfOk result (λ n. IsPrefixLen n buf.new) }
{
    // stays a loop that counts: std's read_exact fails at an early end and does not say how far it came; read_to_end needs the heap.
    let mut done = 0;
    while done < buf.len() {
        let more = from.read(&mut buf[done..])?;
        if more == 0 {
            break;
        }
        done += more;
    }
    Ok(done)
}

// The listing of a file's bytes, at the front of bytes that have room for any; how many it has.
fn list(file: &[u8], out: &mut [u8]) -> usize
    requires { longest ≤ length out.old }
    ensures { (take result out.new ≡ listing file.now) × (result ≤ length out.new) }
{
    trace::list(file, out)
}

fn complain<D: Display + Drop>(rt: &HostRuntime, name: &str, why: D) -> io::Result<()> {
    eprintln!(rt; "replay: {name}: {why}")
}

// The listing of a file's bytes, on standard output.
fn show(rt: &HostRuntime, file: &[u8]) -> io::Result<()> {
    // stays: bytes of a fixed length, here and below, since the program has no heap
    let mut out = [0u8; trace::LONGEST];
    let n = list(file, &mut out);
    rt.write_all(&out[..n])
        .or_else(|why| complain(rt, "standard output", why))
}

// One byte more than the longest trace: of a longer file nothing else matters, since it is refused.
fn replay<R: Read>(rt: &HostRuntime, from: &mut R, name: &str) -> io::Result<()> {
    let mut file = [0u8; 48007];
    match read_all(from, &mut file) {
        Ok(n) => show(rt, &file[..n]),
        Err(why) => complain(rt, name, why),
    }
}

fn replay_file(rt: &HostRuntime, name: &str) -> io::Result<()> {
    match fs::open(rt, name) {
        Ok(mut file) => replay(rt, &mut file, name),
        Err(why) => complain(rt, name, why),
    }
}

fn main(rt: HostRuntime) -> io::Result<()> {
    let mut path = [0u8; 4096];
    match rt.arg(1, &mut path) {
        Ok(length) => match str::from_utf8(&path[..length]) {
            Ok(name) => replay_file(&rt, name),
            Err(why) => complain(&rt, "the name of the file", why),
        },
        Err(FillError::NotPresent) => replay(&rt, &mut rt.reader(), "standard input"),
        Err(FillError::TooLong) => complain(&rt, "the name of the file", "File name too long"),
    }
}
