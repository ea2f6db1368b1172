// Linking of an image that is laid out in words and tags and whose output order is known: the output is what a fresh session writes that sets the image, imports
// its functions in that order and finishes with its entry points. No step is undone, since none is refused.
#![tactic(auto)]

ghost use Rattle.std.specs.Prelude.{true, length};
ghost use Rattle.model.specs.Refusals.{answer_by};
ghost use Rattle.base_refusals.specs.Numbers.{ended};
ghost use Rattle.derive_state.specs.Source.{mod_of};
ghost use Rattle.derive_state.specs.Held.{st_of};
ghost use Rattle.function_builder.specs.Stacks.{Stacks};
ghost use Rattle.derive_session.specs.Valid.{ValidSession};
ghost use Rattle.model.specs.Image.{ScratchLengths};
ghost use Rattle.link_words.specs.Appends.{Roomy, Sequence, AppendsAll, Linkable, LinkInOrderEnsures};
ghost use Rattle.derive_state.specs.Sizes.{going};

use base_refusals::Refusal;
use base_views::{FUNCTIONS, Image, count};
use base_words::{Tags, Words};
use derive_source::source_types;
use derive_state::{DerivedMut, Full, NamedSource, Sizes, Special, StackRows};
use function_entry::enter_all;
use function_localize::append;

// Appends the functions of the order. It takes the image and no source, since what it promises is of the offset 0.
// `special` is for the contract alone. No ghost value takes its place: a caller has to pick that from the call's other arguments, and none of them has the special types; and in
// the clauses what is required would stand twice, of some special types and, before what is promised, of any.
fn append_all(
    image: Image,
    derived: &mut DerivedMut,
    special: &Special,
    stacks: &mut StackRows,
    ends: Sizes,
    order: &[u32],
) -> Result<Sizes, Full>
    requires valid_session { ValidSession true image.n 0 image.words.now image.tags.now derived.old.log.now derived.old.logtags.now derived.old.starts.now derived.old.maps.now derived.old.buckets.now special.now (going ends) }
    requires stacks { Stacks stacks.old (going ends) }
    requires sequence { Sequence image.words.now image.n order.now (length order.now) }
    requires roomy { Roomy (mod_of image.words.now image.n) order.now (st_of image.words.now derived.old.log.now derived.old.logtags.now derived.old.starts.now derived.old.maps.now special.now (going ends)) }
    ensures { AppendsAll image.entry.words.now image.entry.tags.now image.entry.n order.now derived.old special.now ends result derived.new stacks.new }
{
    let source = NamedSource { image, offset: 0 };
    let mut e = ends;
    let mut places = [0u16; 1025];
    for f in order {
        e = append(
            source,
            derived,
            stacks,
            &mut places,
            e,
            *f as usize,
            order.len(),
        )?;
    }
    Ok(e)
}

// Links in that order, in the caller's arrays. Finishing no longer needs the image's words, so it uses their array as scratch memory: hence words, tags and n, and no
// Image. All that a linkable image has fits, so that the refusals for a full module are never given.
pub fn link_in_order(
    words: &mut Words,
    tags: &Tags,
    n: usize,
    order: &[u32; 256],
    output: &mut [u8],
    derived: &mut DerivedMut,
    stacks: &mut StackRows,
) -> Result<u32, Refusal>
    requires linkable { Linkable words.old tags.now n order.now output.old }
    requires scratch_lengths { ScratchLengths derived.old.log.now derived.old.logtags.now derived.old.starts.now stacks.old }
    ensures { LinkInOrderEnsures words.old n order.now output.old (answer_by (λ v. v) (ended result)) output.new }
{
    let mut special = Special::new();
    // buckets left by another image would only cost time; the answer does not depend on them
    *derived.buckets = [0; 16384];
    let image = Image { words, tags, n };
    let source = NamedSource { image, offset: 0 };
    let set = source_types(source.source(), derived, &mut special, Sizes::empty())?;
    let all = count(image.words, FUNCTIONS);
    let appended = append_all(image, derived, &special, stacks, set, &order[..all])?;
    let ends = enter_all(source, derived, &special, stacks, appended)?;
    let bytes = derive_finish::finish(&derived.view(ends), &special, words, output)?;
    Ok(bytes as u32)
}
