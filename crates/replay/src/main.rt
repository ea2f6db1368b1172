// Replays reference vectors: standard input holds them one after the other, each as the number that intake answers (0 for accepted), the length
// of the image and its bytes. A vector that is answered otherwise is named by its place; the last line says how many agree, of up to 99,999 vectors.
#![tactic(auto)]

use std::io::{self, Read};
use wuldgisp::wuldgisp_intake;

// What precedes an image: the expected answer, and the image's length; or none at the end of the input.
fn head<R: Read>(from: &mut R) -> io::Result<Option<(u32, usize)>> {
    let mut bytes = [0u8; 8];
    if program_streams::read_counted(from, &mut bytes).map_err(|failed| failed.error)? < 8 {
        return Ok(None);
    }
    let want = base_words::word_at(&bytes, 0);
    let n = base_words::word_at(&bytes, 4) as usize;
    Ok(Some((want, n)))
}

// Reads an image that is as long as the slice, and compares intake's answer. A read that fails is a vector that is answered otherwise; the next read tells it.
fn one<R: Read>(from: &mut R, bytes: &mut [u8], want: u32) -> bool {
    match program_streams::read_counted(from, bytes) {
        Ok(n) => n == bytes.len() && wuldgisp_intake(bytes) == want,
        Err(_) => false,
    }
}

// An image of n bytes. No vector is longer than the buffer.
fn agrees<R: Read>(from: &mut R, want: u32, n: usize) -> bool {
    let mut bytes = [0; 65600];
    n <= bytes.len() && one(from, &mut bytes[..n], want)
}

// Names a vector that is answered otherwise, on standard error too.
fn differs(rt: &(impl Print + Eprint), number: u64) -> io::Result<()> {
    let _ = eprintln!(rt; "replay: vector {number} differs");
    println!(rt; "{number} differs")
}

// Replays all vectors that standard input has. The error is that of a write.
fn replay(rt: &HostRuntime) -> io::Result<()> {
    let mut input = rt.stdin();
    let mut good: u64 = 0;
    // a bound, many times the vectors there are, keeps the counts from overflowing; input that reaches it has no last line
    for all in 0..100000 {
        match head(&mut input) {
            Ok(Some((want, n))) => {
                if agrees(&mut input, want, n) {
                    good += 1;
                } else {
                    differs(rt, all + 1)?;
                }
            }
            Ok(None) => return println!(rt; "{all} vectors, {good} agree"),
            Err(error) => {
                program_streams::unread(rt, "replay", error);
                return Ok(());
            }
        }
    }
    Ok(())
}

fn main(rt: HostRuntime) {
    program_streams::unwritten(&rt, "replay", replay(&rt));
}
