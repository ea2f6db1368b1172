// The refusals by name, each with the model's number, and an answer as one number.
#![tactic(auto)]

ghost use Rattle.std.specs.Prelude.{◌≡◌};
ghost use Rattle.model.specs.Refusals.{refusals, packed, answer_by};
ghost use Rattle.base_refusals.specs.Numbers.{number_of, count_of, ended};

use std::error::Error;
use std::fmt;

// Why an operation is refused. `Ring` has the count of functions from which a chain of calls reaches a ring.
#[derive(Clone, Copy, Debug, PartialEq, Eq)]
pub enum Refusal {
    BadSize,
    BadLayout,
    BadRange,
    BadReference,
    BadNames,
    BadScope,
    ShortOutput,
    OriginalNotFound,
    ReplacementNotFound,
    ArgumentTypes,
    ResultTypes,
    Ring(u32),
    NumberGiven,
    NoSource,
    Full,
    UnknownRing,
}

// The numbers of all of them, which are the model's.
pub fn all() -> [u32; 16]
    ensures { result ≡ refusals }
{
    [
        Refusal::BadSize,
        Refusal::BadLayout,
        Refusal::BadRange,
        Refusal::BadReference,
        Refusal::BadNames,
        Refusal::BadScope,
        Refusal::ShortOutput,
        Refusal::OriginalNotFound,
        Refusal::ReplacementNotFound,
        Refusal::ArgumentTypes,
        Refusal::ResultTypes,
        Refusal::Ring(0),
        Refusal::NumberGiven,
        Refusal::NoSource,
        Refusal::Full,
        Refusal::UnknownRing,
    ]
    .map(Refusal::number)
}

impl Refusal {
    // The model's number of the refusal.
    pub fn number(self) -> u32
        ensures { result ≡ number_of self }
    {
        match self {
            Refusal::BadSize => 1,
            Refusal::BadLayout => 2,
            Refusal::BadRange => 3,
            Refusal::BadReference => 4,
            Refusal::BadNames => 5,
            Refusal::BadScope => 6,
            Refusal::ShortOutput => 7,
            Refusal::OriginalNotFound => 8,
            Refusal::ReplacementNotFound => 9,
            Refusal::ArgumentTypes => 10,
            Refusal::ResultTypes => 11,
            Refusal::Ring(_) => 12,
            Refusal::NumberGiven => 13,
            Refusal::NoSource => 20,
            Refusal::Full => 21,
            Refusal::UnknownRing => 22,
        }
    }

    // The count that a ring has. 0 for any other, and no `Option`: both that ask write the number, and C reads 0 there.
    pub fn count(self) -> u32
        ensures { result ≡ count_of self }
    {
        match self {
            Refusal::Ring(left) => left,
            _ => 0,
        }
    }
}

// What a refusal means, in a sentence.
impl fmt::Display for Refusal {
    fn fmt<W: fmt::Write>(&self, f: &mut fmt::Formatter<W>) -> fmt::Result {
        f.write_str(match self {
            Refusal::BadSize => "the size, the edition or the total of words is wrong",
            Refusal::BadLayout => "the layout or the padding is wrong, or a limit is passed",
            Refusal::BadRange => {
                "a number or a code is out of range, or a kind stands where it is barred"
            }
            Refusal::BadReference => "a reference is not to a lower number",
            Refusal::BadNames => {
                "a name is missing, or names, named numbers or special keys are equal"
            }
            Refusal::BadScope => "a rule of scope is broken",
            Refusal::ShortOutput => "the output is too short",
            Refusal::OriginalNotFound => "no function bears the original's name",
            Refusal::ReplacementNotFound => "no function bears the replacement's name",
            Refusal::ArgumentTypes => {
                "the original and the replacement have other argument types"
            }
            Refusal::ResultTypes => "the original and the replacement have other result types",
            Refusal::Ring(_) => "functions call one another in a ring",
            Refusal::NumberGiven => "a number given by the caller lies outside its table",
            Refusal::NoSource => "no source is set",
            Refusal::Full => "the derived image would be too long, or a table of it too large",
            Refusal::UnknownRing => "functions of unknown name call one another in a ring",
        })
    }
}

impl Error for Refusal {}

// An answer as one number: the refusal in the low half, 0 for none, and a value in the high half.
// A number and no `Result`, since C reads one number.
pub fn pack(refusal: u32, value: u32) -> u64
    ensures { result ≡ packed refusal value }
{
    refusal as u64 + value as u64 * 4294967296
}

// The same of a result: its value, or its refusal, of which a ring alone has a count in the high half.
// A number and no `Result`, since C reads one number.
pub fn answer(r: Result<u32, Refusal>) -> u64
    ensures { result ≡ answer_by (λ v. v) (ended r) }
{
    match r {
        Ok(value) => pack(0, value),
        Err(refusal) => pack(refusal.number(), refusal.count()),
    }
}
