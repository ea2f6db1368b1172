// Reading an image: its bytes into words, and for each word its class, the tags. An image of a wrong size, one that does not fit the format and one with a kind
// or a code that is none of the listed are refused here. Words and tags are apart, as in intake_fields, which says why; lay_out also writes the words.
#![tactic(auto)]

pub mod section;

ghost use Rattle.std.specs.Prelude.{take};
ghost use Rattle.intake_layout.specs.Layout.{LayOutEnsures, Laying};

use base_refusals::Refusal;
use base_views::{EDITION, HEADER};
use base_words::{Tags, Words, word_at};
use intake_fields::Extent;
use section::Headed;

// Lays the words out.
fn lay_out_words(headed: Headed, tags: &mut Tags) -> Result<usize, Refusal>
    ensures { Laying result tags.new tags.old (take headed.entry.extent.end headed.entry.extent.words.now) }
{
    tags[..HEADER].fill(base_classes::PLACE);
    if !headed.sections_fit() {
        return Err(Refusal::BadLayout);
    }
    headed.sections(tags)?;
    Ok(headed.extent.end)
}

// Lays out an image, and says how many words it has. Words and tags hold it where it fits; if it is refused, nothing is promised about them.
pub fn lay_out(image: &[u8], words: &mut Words, tags: &mut Tags) -> Result<usize, Refusal>
    ensures { LayOutEnsures result words.new tags.new image.now words.old tags.old }
{
    let n = image.len();
    if n < 4 * HEADER
        || 4 * words.len() < n
        || word_at(image, 0) != EDITION
        || 4 * word_at(image, 4) as usize != n
    {
        return Err(Refusal::BadSize);
    }
    base_words::load(image, words);
    let extent = Extent { words, end: n / 4 };
    let headed = Headed { extent };
    lay_out_words(headed, tags)
}
