// The archive for C and Rust: each function of include/wuldgisp.h is that of the crate wuldgisp, with the same promise.
#![tactic(auto)]

ghost use Rattle.std.specs.Prelude.{◌≡◌, length};
ghost use Rattle.model.specs.Image.{IntakeEnsures, OrderEnsures, RedirectEnsures, LinkEnsures, SessionEnsures, ScratchLengths};

use base_words::{Tags, Words};
use derive_state::{Buckets, Log, LogTags, Maps, StackRows, Starts};

#[unsafe(no_mangle)]
pub extern "C" fn wuldgisp_intake(image: &[u8]) -> u32
    ensures { IntakeEnsures result image.now }
{
    wuldgisp::wuldgisp_intake(image)
}

#[unsafe(no_mangle)]
pub extern "C" fn wuldgisp_order(image: &[u8], order: &mut [u32]) -> u64
    ensures { OrderEnsures result order.old order.new image.now }
{
    wuldgisp::wuldgisp_order(image, order)
}

#[unsafe(no_mangle)]
pub extern "C" fn wuldgisp_redirect(
    image: &mut [u8],
    original: u32,
    replacement: u32,
    omit: &[u32],
) -> u64
    ensures { RedirectEnsures result image.old image.new original replacement omit.now }
{
    wuldgisp::wuldgisp_redirect(image, original, replacement, omit)
}

#[unsafe(no_mangle)]
pub extern "C" fn wuldgisp_link(image: &[u8], output: &mut [u8]) -> u64
    ensures { LinkEnsures result output.old output.new image.now }
{
    wuldgisp::wuldgisp_link(image, output)
}

#[unsafe(no_mangle)]
pub extern "C" fn wuldgisp_link_in(
    image: &[u8],
    output: &mut [u8],
    words: &mut Words,
    tags: &mut Tags,
    log: &mut Log,
    logtags: &mut LogTags,
    starts: &mut Starts,
    maps: &mut Maps,
    buckets: &mut Buckets,
    stacks: &mut StackRows,
) -> u64
    requires words_len { (length words.old ≡ 16384) × (length tags.old ≡ 16384) }
    requires scratch_lengths { ScratchLengths log.old logtags.old starts.old stacks.old }
    ensures { LinkEnsures result output.old output.new image.now }
{
    wuldgisp::wuldgisp_link_in(
        image, output, words, tags, log, logtags, starts, maps, buckets, stacks,
    )
}

#[unsafe(no_mangle)]
pub extern "C" fn wuldgisp_session(
    sources: &[u8],
    steps: &[u32],
    answers: &mut [u32],
    output: &mut [u8],
) -> u64
    ensures { SessionEnsures sources.now steps.now answers.old output.old result answers.new output.new }
{
    wuldgisp::wuldgisp_session(sources, steps, answers, output)
}

#[unsafe(no_mangle)]
pub extern "C" fn wuldgisp_session_in(
    sources: &[u8],
    steps: &[u32],
    answers: &mut [u32],
    output: &mut [u8],
    words: &mut Words,
    tags: &mut Tags,
    log: &mut Log,
    logtags: &mut LogTags,
    starts: &mut Starts,
    maps: &mut Maps,
    buckets: &mut Buckets,
    stacks: &mut StackRows,
) -> u64
    requires words_len { (length words.old ≡ 16384) × (length tags.old ≡ 16384) }
    requires scratch_lengths { ScratchLengths log.old logtags.old starts.old stacks.old }
    ensures { SessionEnsures sources.now steps.now answers.old output.old result answers.new output.new }
{
    wuldgisp::wuldgisp_session_in(
        sources, steps, answers, output, words, tags, log, logtags, starts, maps, buckets, stacks,
    )
}
