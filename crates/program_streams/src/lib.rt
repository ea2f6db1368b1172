// Standard input, output and error as the programs use them. A failed read or write is reported in one line on standard error, in the system's words; a
// refusal is reported there with its sentence. The programs end with 0 whatever they answer: these lines are how they report failure. A line that standard
// error does not take is lost. `rt` and the program's name are two parameters and no struct: programs print lines of their own, by `println!(rt; ..)`, which would be
// `println!(program.rt; ..)`, and what reads takes the whole of `HostRuntime`, so that the struct would have a type parameter with another bound in each method.
#![tactic(auto)]

ghost use Rattle.std.specs.Prelude.{◌≡◌, ◌≤◌, ◌<◌, length, IfOk, MatchOption, MatchResult};
ghost use Rattle.base_refusals.specs.Numbers.{number_of};

use base_refusals::Refusal;
use std::io::{self, Read};

#[cfg(test)]
mod tests;

// A read that failed: how many bytes are at the start of the buffer from those before it, and the error.
#[derive(Clone, Copy)]
pub struct ReadError {
    pub count: usize,
    pub error: io::Error,
}

// Reads until buf is full, the input ends or a read fails: how many bytes are at the start of buf. A read that failed is told with that count, and buf is not full.
pub fn read_counted<R: Read>(from: &mut R, buf: &mut [u8]) -> Result<usize, ReadError>
    ensures { MatchResult result (λ n. n ≤ length buf.new) (λ e. e.count < length buf.new) }
{
    let mut done = 0;
    // how many bytes a read gives is not known before it
    while done < buf.len() {
        let n = from
            .read(&mut buf[done..])
            .map_err(|error| ReadError { count: done, error })?;
        if n == 0 {
            break;
        }
        done += n;
    }
    Ok(done)
}

// The same without the count of a read that failed: its error is the reader's own.
pub fn read<R: Read>(from: &mut R, buf: &mut [u8]) -> io::Result<usize>
    ensures { IfOk result (λ n. n ≤ length buf.new) }
{
    read_counted(from, buf).map_err(|failed| failed.error)
}

// Reads an image from standard input and gives it to `answer`, or reports that it could not be read. Input longer than an image may be is not cut to an
// image: the buffer holds one byte more.
pub fn with_image<F: FnOnce(&mut [u8])>(rt: &HostRuntime, program: &str, answer: F)
    requires { F.IsAlwaysCallable answer }
{
    with_input(rt, program, &mut [0; 65537], answer);
}

// The same with a buffer of the caller's: input that is longer is read as far as there is room.
pub fn with_input<F: FnOnce(&mut [u8])>(
    rt: &HostRuntime,
    program: &str,
    bytes: &mut [u8],
    answer: F,
)
    requires { F.IsAlwaysCallable answer }
{
    match read_counted(&mut rt.stdin(), bytes) {
        Ok(n) => answer(&mut bytes[..n]),
        Err(failed) => unread(rt, program, failed.error),
    }
}

// Reports that standard input could not be read.
pub fn unread(rt: &impl Eprint, program: &str, error: io::Error) {
    let _ = eprintln!(rt; "{program}: standard input: {error}");
}

// Writes to standard output; a write that fails is reported. Whether all was written.
pub fn write(rt: &(impl Print + Eprint), program: &str, bytes: &[u8]) -> bool {
    let written = rt.write_all(bytes);
    unwritten(rt, program, written);
    written.is_ok()
}

// Reports that standard output could not be written, if `written` says so.
pub fn unwritten(rt: &impl Eprint, program: &str, written: io::Result<()>) {
    if let Err(error) = written {
        let _ = eprintln!(rt; "{program}: standard output: {error}");
    }
}

// The refusal that has this number, if one does; a ring without its count.
fn refusal_of_number(k: u32) -> Option<Refusal>
    ensures { MatchOption result ((r : Refusal) → number_of r ≡ k → ⊥) (λ r. number_of r ≡ k) }
{
    [
        Refusal::BadSize,
        Refusal::BadLayout,
        Refusal::BadRange,
        Refusal::BadReference,
        Refusal::BadNames,
        Refusal::BadScope,
        Refusal::ShortOutput,
        Refusal::OriginalNotFound,
        Refusal::ReplacementNotFound,
        Refusal::ArgumentTypes,
        Refusal::ResultTypes,
        Refusal::Ring(0),
        Refusal::NumberGiven,
        Refusal::NoSource,
        Refusal::Full,
        Refusal::UnknownRing,
    ]
    .iter()
    .find(|refusal| refusal.number() == k)
    .copied()
}

// Says the number of a refusal on standard error, with its sentence: `PROGRAM: refused 5: ..`.
pub fn refused(rt: &impl Eprint, program: &str, k: u32) {
    let _ = match refusal_of_number(k) {
        Some(refusal) => eprintln!(rt; "{program}: refused {k}: {refusal}"),
        None => eprintln!(rt; "{program}: refused {k}: this is no refusal"),
    };
}

// The same of a ring, with the count of functions from which a chain of calls reaches it: `PROGRAM: refused 12 left 2: ..`.
pub fn ring(rt: &impl Eprint, program: &str, left: u32) {
    let refusal = Refusal::Ring(left);
    let k = refusal.number();
    let _ = eprintln!(rt; "{program}: refused {k} left {left}: {refusal}");
}

// Says a refusal so: a ring with its count, any other by its number.
pub fn refusal(rt: &impl Eprint, program: &str, refusal: Refusal) {
    match refusal {
        Refusal::Ring(left) => ring(rt, program, left),
        _ => refused(rt, program, refusal.number()),
    }
}
