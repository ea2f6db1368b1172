// Intake: the six tests of an image in sequence, on any bytes. Every exported function begins with it, but a session does it where a source is set.
#![tactic(auto)]

ghost use Rattle.std.specs.Prelude.{◌≡◌, ℕ, Ok, length};
ghost use Rattle.base_words.specs.Words.{words_of};
ghost use Rattle.model.specs.Image.{IntakeEnsures};
ghost use Rattle.intake.specs.Taken.{number_of, Tested, TakeInEnsures};

use base_refusals::Refusal;
use base_views::Image;
use base_words::{Tags, Words};

// Tests 3 to 6, of an image that is laid out.
fn test(image: Image) -> Result<(), Refusal>
    ensures { Tested result image.entry.words.now image.entry.tags.now image.entry.n }
{
    if !intake_numbers::numbered(image) {
        return Err(Refusal::BadRange);
    }
    if !intake_lower::lower(image) {
        return Err(Refusal::BadReference);
    }
    if !intake_names::named(image) {
        return Err(Refusal::BadNames);
    }
    if !intake_scope::in_scope(image) {
        return Err(Refusal::BadScope);
    }
    Ok(())
}

// Takes an image in: its count of words, or the refusal of the first test that fails. If it is accepted, words and tags hold it; if it is refused, nothing is
// promised about them. They are two arrays, as a caller holds them, and no Image, which is of arrays that are filled.
pub fn take_in(image: &[u8], words: &mut Words, tags: &mut Tags) -> Result<usize, Refusal>
    requires words_len { length words.old ≡ 16384 }
    requires tags_len { length tags.old ≡ 16384 }
    ensures { TakeInEnsures result words.new tags.new image.now }
{
    let n = intake_layout::lay_out(image, words, tags)?;
    test(Image { words, tags, n })?;
    Ok(n)
}

// The same where nobody needs what words and tags hold: the image's count of words, or the refusal.
pub fn intake(image: &[u8]) -> Result<usize, Refusal>
    ensures answer { IntakeEnsures (number_of result) image.now }
    ensures many { (n : ℕ) → result ≡ Ok n → n ≡ length (words_of image.now) }
{
    let mut words = [0; 16384];
    let mut tags = [0; 16384];
    take_in(image, &mut words, &mut tags)
}
