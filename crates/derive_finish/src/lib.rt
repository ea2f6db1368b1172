// The end of a session: the state that the arrays hold, written out as an image.
#![tactic(auto)]

ghost use Rattle.std.specs.Prelude.{◌≡◌, length};
ghost use Rattle.derive_finish.specs.Told.{Held, Ended, refusal_of, bytes_in};
ghost use Rattle.derive_state.specs.Sizes.{going};

use base_refusals::Refusal;
use base_words::Words;
use derive_state::{Derived, Special};

// Writes the derived module as bytes, with the entry points that the arrays hold, and answers how many they are; refused, the output is as it was. Its words
// are put together in `out`, which may hold anything before and holds anything after. The length of `special` is a clause, as in derive_image.
pub fn finish(
    derived: &Derived,
    special: &Special,
    out: &mut Words,
    output: &mut [u8],
) -> Result<usize, Refusal>
    requires held { Held derived.now.log.now derived.now.logtags.now derived.now.starts.now (going derived.now.sizes) }
    requires special_len { (length special.now ≡ 1027) × (length out.old ≡ 16384) }
    ensures { Ended derived.now.log.now derived.now.logtags.now derived.now.starts.now special.now (going derived.now.sizes) output.old (refusal_of result) (bytes_in result) output.new }
{
    derive_image::finish(derived, special, out, output)
}
