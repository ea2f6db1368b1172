// Reads an image on standard input, redirects calls in it, and writes it to standard output. The arguments are numbers of names: the original's, the
// replacement's, and those of omitted functions. A refusal, a wrong argument or a failed read is one line on standard error, and nothing is written.
#![tactic(auto)]

ghost use Rattle.std.specs.Prelude.{◌≡◌};
ghost use Rattle.redirect_image.specs.Numbers.{read as read_of};

use redirect_words::Request;
use std::env::{Env, FillError};
use std::fmt;

// How many names may be omitted: as many as an image may have.
const MOST_OMITTED: usize = 512;

// The arguments before them: the program's name, the original and the replacement.
const HEAD: usize = 3;

// A decimal number: digits alone, since `parse` takes a sign too.
fn read(text: &[u8]) -> Option<u32>
    ensures { result ≡ read_of text.now }
{
    if !text.iter().all(|b| b.is_ascii_digit()) {
        return None;
    }
    str::from_utf8(text).ok()?.parse().ok()
}

// How the arguments are wrong.
#[derive(Clone, Copy)]
enum BadArguments {
    TooFew,
    TooMany,
    // The argument at this place is no number of a name.
    NoNumber(usize),
}

// Argument i as a number.
fn argument(rt: &impl Env, i: usize) -> Result<u32, BadArguments> {
    let mut text = [0; 4096];
    let n = rt.arg(i, &mut text).map_err(|_| BadArguments::NoNumber(i))?;
    read(&text[..n]).ok_or(BadArguments::NoNumber(i))
}

fn is_present(rt: &impl Env, i: usize) -> bool {
    !matches!(rt.arg(i, &mut []), Err(FillError::NotPresent))
}

// How many arguments there are, the program's name among them; counted up to one more than there may be.
fn argument_count(rt: &impl Env) -> usize {
    (0..HEAD + MOST_OMITTED + 1)
        .take_while(|i| is_present(rt, *i))
        .count()
}

impl fmt::Display for BadArguments {
    fn fmt<W: fmt::Write>(&self, f: &mut fmt::Formatter<W>) -> fmt::Result {
        match self {
            BadArguments::TooFew => f.write_str(
                "usage: redirect_image ORIGINAL REPLACEMENT [OMITTED ..] < IMAGE > REDIRECTED, where functions are given by the numbers of their names",
            ),
            BadArguments::TooMany => write!(
                f,
                "redirect_image: more names are omitted than an image may have, {MOST_OMITTED}"
            ),
            BadArguments::NoNumber(i) => {
                write!(f, "redirect_image: argument {i} is no number of a name")
            }
        }
    }
}

// Writes the image, redirected; or its refusal.
fn redirect(rt: &(impl Print + Eprint), image: &mut [u8], request: Request) {
    match redirect_bytes::redirect_function(image, request) {
        Ok(_) => {
            program_streams::write(rt, "redirect_image", image);
        }
        Err(refusal) => program_streams::refusal(rt, "redirect_image", refusal),
    }
}

// Reads the arguments and then the image, which is redirected. The buffer is longer than an image may be, so that one that is too long is seen to be.
fn run(rt: &HostRuntime) -> Result<(), BadArguments> {
    let count = argument_count(rt);
    if count < HEAD {
        return Err(BadArguments::TooFew);
    }
    if HEAD + MOST_OMITTED < count {
        return Err(BadArguments::TooMany);
    }
    let original = argument(rt, 1)?;
    let replacement = argument(rt, 2)?;
    // room for every name
    let mut omit = [0; MOST_OMITTED];
    let omit = &mut omit[..count - HEAD];
    for (i, name) in omit.iter_mut().enumerate() {
        *name = argument(rt, i + HEAD)?;
    }
    let request = Request {
        original,
        replacement,
        omit,
    };
    program_streams::with_input(rt, "redirect_image", &mut [0; 65540], |image| {
        redirect(rt, image, request)
    });
    Ok(())
}

fn main(rt: HostRuntime) {
    if let Err(bad) = run(&rt) {
        let _ = eprintln!(rt; "{bad}");
    }
}
