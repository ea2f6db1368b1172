// Linking: one module in, one out, callees first, on any bytes. `link_in` works in arrays that the caller provides, `link` in its own.
#![tactic(auto)]

ghost use Rattle.std.specs.Prelude.{◌≡◌, length};
ghost use Rattle.model.specs.Refusals.{answer_by};
ghost use Rattle.model.specs.Image.{ScratchLengths, LinkEnsures};
ghost use Rattle.base_refusals.specs.Numbers.{ended};

use base_refusals::Refusal;
use base_views::Image;
use base_words::{Tags, Words};
use derive_state::{DerivedMut, StackRows};
use link_words::link_in_order;
use order_callees::order_of;

// The image linked into the output, in arrays that the caller provides: the bytes written, or the refusal. They may hold anything before, and hold anything after.
// Nothing is required of `maps` and `buckets`: they are overwritten before use. Words and tags are two arrays that intake fills, and the words serve twice.
pub fn link_in(
    image: &[u8],
    output: &mut [u8],
    words: &mut Words,
    tags: &mut Tags,
    derived: &mut DerivedMut,
    stacks: &mut StackRows,
) -> Result<u32, Refusal>
    requires words_len { (length words.old ≡ 16384) × (length tags.old ≡ 16384) }
    requires scratch_lengths { ScratchLengths derived.old.log.now derived.old.logtags.now derived.old.starts.now stacks.old }
    ensures { LinkEnsures (answer_by (λ v. v) (ended result)) output.old output.new image.now }
{
    let n = intake::take_in(image, words, tags)?;
    if output.len() < image.len() {
        return Err(Refusal::ShortOutput);
    }
    let mut order = [0u32; 256];
    order_of(Image { words, tags, n }, &mut order)?;
    link_in_order(words, tags, n, &order, output, derived, stacks)
}

// The same, in arrays of its own.
pub fn link(image: &[u8], output: &mut [u8]) -> Result<u32, Refusal>
    ensures { LinkEnsures (answer_by (λ v. v) (ended result)) output.old output.new image.now }
{
    let mut derived = DerivedMut {
        log: &mut [0; 16384],
        logtags: &mut [0; 16384],
        starts: &mut [[0; 512]; 8],
        maps: &mut [[0; 512]; 6],
        buckets: &mut [0; 16384],
    };
    link_in(
        image,
        output,
        &mut [0; 16384],
        &mut [0; 16384],
        &mut derived,
        &mut [[0; 16384]; 4],
    )
}
