// The functions that the archive exports to C and Rust, by the crate wuldgisp_c; include/wuldgisp.h declares them. What each promises is in model/specs/Image.antt, under its name; what its
// answer means is the theorem of specs/Meaning.antt that is named beside it. They answer a number and no `Result`, since C reads one number, and take arrays one by one, as C lends them.
#![tactic(auto)]

ghost use Rattle.std.specs.Prelude.{◌≡◌, length};
ghost use Rattle.model.specs.Image.{IntakeEnsures, OrderEnsures, redirect_answer, RedirectEnsures, LinkEnsures, SessionEnsures, ScratchLengths};
ghost use Rattle.redirect_words.specs.Passes.{shown};
ghost use Rattle.redirect_bytes.specs.Answers.{Small};
ghost use Rattle.session.specs.Sessions.{as_number};

use base_handles::FunctionHandle;
use base_refusals::{Refusal, answer, pack};
use base_words::{Tags, Words};
use derive_state::{Buckets, DerivedMut, Log, LogTags, Maps, StackRows, Starts};
use redirect_words::Request;
use session::RefusedStep;

// Intake: 0 for an image that is accepted, else the number of the test that refuses it, 1 to 6. Meaning: `intake_accepts`.
pub fn wuldgisp_intake(image: &[u8]) -> u32
    ensures { IntakeEnsures result image.now }
{
    match intake::intake(image) {
        Ok(_) => 0,
        Err(refusal) => refusal.number(),
    }
}

// The output order, as far as there is room for it. The low half of the answer is the number of the refusal, or 0; the high half is the count of functions,
// or, with refusal 12, of those from which a chain of calls reaches a ring. Meaning: `order-listed`, `order_ring`.
pub fn wuldgisp_order(image: &[u8], order: &mut [u32]) -> u64
    ensures { OrderEnsures result order.old order.new image.now }
{
    answer(order_bytes::order(image, order))
}

// What redirecting answers, as one number: both functions' numbers are in the high half, the replacement's times 65,536.
fn functions_answer(r: Result<(FunctionHandle, FunctionHandle), Refusal>) -> u64
    requires { Small (shown r) }
    ensures { result ≡ redirect_answer (shown r) }
{
    answer(r.map(|(a, b)| a.0 + 65536 * b.0))
}

// Redirects calls in the image itself. The low half of the answer is the number of the refusal, or 0; the high half is the original's number plus 65,536
// times the replacement's. Meaning: `redirect_done`, `redirect_refused`.
pub fn wuldgisp_redirect(image: &mut [u8], original: u32, replacement: u32, omit: &[u32]) -> u64
    ensures { RedirectEnsures result image.old image.new original replacement omit.now }
{
    functions_answer(redirect_bytes::redirect_function(
        image,
        Request {
            original,
            replacement,
            omit,
        },
    ))
}

// Links the image into the output. The low half of the answer is the number of the refusal, or 0; the high half is the count of bytes written, or, with
// refusal 12, of functions from which a chain of calls reaches a ring. Meaning: `demand3_code`, which is demand 3 of the bytes that are written; `intake_told`,
// `short-told` and `premises_hold` for the refusals.
pub fn wuldgisp_link(image: &[u8], output: &mut [u8]) -> u64
    ensures { LinkEnsures result output.old output.new image.now }
{
    answer(link::link(image, output))
}

// wuldgisp_link in memory that the caller provides: eight arrays, 476 KiB in all. They may hold anything before and hold anything after, so they need no clearing,
// neither at first nor between calls. The promise is that of wuldgisp_link, word for word; required are the lengths that the arrays' types say.
pub fn wuldgisp_link_in(
    image: &[u8],
    output: &mut [u8],
    words: &mut Words,
    tags: &mut Tags,
    log: &mut Log,
    logtags: &mut LogTags,
    starts: &mut Starts,
    maps: &mut Maps,
    buckets: &mut Buckets,
    stacks: &mut StackRows,
) -> u64
    requires words_len { (length words.old ≡ 16384) × (length tags.old ≡ 16384) }
    requires scratch_lengths { ScratchLengths log.old logtags.old starts.old stacks.old }
    ensures { LinkEnsures result output.old output.new image.now }
{
    let mut derived = DerivedMut {
        log,
        logtags,
        starts,
        maps,
        buckets,
    };
    answer(link::link_in(image, output, words, tags, &mut derived, stacks))
}

// The first refused step of a session as C reads it: its refusal in the low half, its number in the high half; 0 if none was refused.
#[tactic(auto, unfolding(session::specs::Sessions::numbered))]
fn first_refused(said: Result<(), RefusedStep>) -> u64
    ensures { result ≡ as_number said }
{
    match said {
        Ok(()) => 0,
        Err(refused) => pack(refused.refusal.number(), (refused.step % 4294967296) as u32),
    }
}

// Runs a session's steps, four words each, and answers three words to each as far as there is room. 0 if every step was accepted; else the low half of the
// answer is the first refusal and the high half the number of its step. Meaning: `session_means`, of every step and of every image that one
// writes; `same_bytes`, of the steps of linking.
pub fn wuldgisp_session(
    sources: &[u8],
    steps: &[u32],
    answers: &mut [u32],
    output: &mut [u8],
) -> u64
    ensures { SessionEnsures sources.now steps.now answers.old output.old result answers.new output.new }
{
    first_refused(session::session(sources, steps, answers, output))
}

// wuldgisp_session in memory that the caller provides, as for wuldgisp_link_in. The promise is that of wuldgisp_session, word for word; required are the lengths
// that the arrays' types say.
pub fn wuldgisp_session_in(
    sources: &[u8],
    steps: &[u32],
    answers: &mut [u32],
    output: &mut [u8],
    words: &mut Words,
    tags: &mut Tags,
    log: &mut Log,
    logtags: &mut LogTags,
    starts: &mut Starts,
    maps: &mut Maps,
    buckets: &mut Buckets,
    stacks: &mut StackRows,
) -> u64
    requires words_len { (length words.old ≡ 16384) × (length tags.old ≡ 16384) }
    requires scratch_lengths { ScratchLengths log.old logtags.old starts.old stacks.old }
    ensures { SessionEnsures sources.now steps.now answers.old output.old result answers.new output.new }
{
    let mut derived = DerivedMut {
        log,
        logtags,
        starts,
        maps,
        buckets,
    };
    first_refused(session::session_in(
        sources,
        steps,
        answers,
        output,
        words,
        tags,
        &mut derived,
        stacks,
    ))
}
