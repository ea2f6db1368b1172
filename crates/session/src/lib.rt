// A session as a list of steps: one call is given all sources, all steps and the output, and keeps nothing. A step is four words, an operation and its numbers;
// its answer is three, the refusal and two values. A refused step changes nothing, and the next one follows. `session_in` works in arrays that the caller
// provides, `session` in its own.
#![tactic(auto)]

ghost use Rattle.std.specs.Prelude.{◌≡◌, [], ◌∷◌, length};
ghost use Rattle.std.proofs.lemmas.List.Edits.{sets};
ghost use Rattle.model.specs.Image.{ScratchLengths, SessionEnsures};
ghost use Rattle.session_steps.specs.Stepped.{shown};
ghost use Rattle.session.specs.Sessions.{or_else, numbered, as_number};

use base_refusals::Refusal;
use base_words::{Tags, Words};
use derive_state::{DerivedMut, Sizes, Special, StackRows, clear_maps};
use session_operations::Session;
use session_steps::{Step, perform};

// An answer's words, as far as there is room for them. By a loop: `copy_from_slice` is a call of memmove here, which the archive would need from outside, beside memcpy and memset.
fn tell(answers: &mut [u32], at: usize, said: &[u32])
    ensures { answers.new ≡ sets answers.old at said.now }
{
    let from = at.min(answers.len());
    let n = said.len().min(answers.len() - from);
    for j in 0..n {
        answers[from + j] = said[j];
    }
}

// A step that was refused: why, and which one.
#[derive(Clone, Copy)]
pub struct RefusedStep {
    pub refusal: Refusal,
    pub step: usize,
}

// What a step answers as three words: the refusal's number, 0 for none, and two values.
fn three_words(said: Result<(u32, u32), Refusal>) -> [u32; 3]
    ensures { result ≡ (shown said).refusal ∷ (shown said).first ∷ (shown said).second ∷ [] }
{
    match said {
        Ok((first, second)) => [0, first, second],
        Err(refusal) => [refusal.number(), 0, 0],
    }
}

// The first step that was refused: the one that was, or else step j, if that is.
fn first_of(
    first: Result<(), RefusedStep>,
    said: Result<(u32, u32), Refusal>,
    j: usize,
) -> Result<(), RefusedStep>
    ensures { as_number result ≡ or_else (as_number first) (numbered (shown said).refusal j) }
{
    first?;
    // `map_err` in place of the match was tried; the proof of it did not close
    match said {
        Ok(_) => Ok(()),
        Err(refusal) => Err(RefusedStep { refusal, step: j }),
    }
}

// All steps, in arrays that the caller provides: the first step that was refused, if one was. The arrays may hold anything before, and hold anything after.
// Nothing is required of `maps` and `buckets`: they are overwritten before use.
pub fn session_in(
    sources: &[u8],
    steps: &[u32],
    answers: &mut [u32],
    output: &mut [u8],
    words: &mut Words,
    tags: &mut Tags,
    derived: &mut DerivedMut,
    stacks: &mut StackRows,
) -> Result<(), RefusedStep>
    requires words_len { (length words.old ≡ 16384) × (length tags.old ≡ 16384) }
    requires scratch_lengths { ScratchLengths derived.old.log.now derived.old.logtags.now derived.old.starts.now stacks.old }
    ensures { SessionEnsures sources.now steps.now answers.old output.old (as_number result) answers.new output.new }
{
    clear_maps(derived.maps);
    // buckets left by another session would only cost time; the answer does not depend on them
    *derived.buckets = [0; 16384];
    let mut special = Special::new();
    // lent again field by field: the check refuses to move a parameter that holds borrows into a struct which changes
    let derived = DerivedMut {
        log: &mut *derived.log,
        logtags: &mut *derived.logtags,
        starts: &mut *derived.starts,
        maps: &mut *derived.maps,
        buckets: &mut *derived.buckets,
    };
    let mut session = Session {
        source: None,
        words,
        tags,
        derived,
        special: &mut special,
        stacks,
        sizes: Sizes::empty(),
    };
    let mut first = Ok(());
    let (whole, _) = steps.as_chunks::<4>();
    for (j, step) in whole.iter().enumerate() {
        let [operation, a, b, c] = *step;
        let step = Step { operation, a, b, c };
        let said = perform(&mut session, sources, output, step);
        tell(answers, 3 * j, &three_words(said));
        first = first_of(first, said, j);
    }
    first
}

// The same, in arrays of its own.
pub fn session(
    sources: &[u8],
    steps: &[u32],
    answers: &mut [u32],
    output: &mut [u8],
) -> Result<(), RefusedStep>
    ensures { SessionEnsures sources.now steps.now answers.old output.old (as_number result) answers.new output.new }
{
    let mut derived = DerivedMut {
        log: &mut [0; 16384],
        logtags: &mut [0; 16384],
        starts: &mut [[0; 512]; 8],
        maps: &mut [[0; 512]; 6],
        buckets: &mut [0; 16384],
    };
    session_in(
        sources,
        steps,
        answers,
        output,
        &mut [0; 16384],
        &mut [0; 16384],
        &mut derived,
        &mut [[0; 16384]; 4],
    )
}
