// What the program `order` prints, put into a buffer that the caller provides: the count of functions and their lines, or the refusal. The whole text is one
// definition on bytes (`telling_of` in specs/Telling.antt), and there is always room for it.
#![tactic(auto)]

ghost use Rattle.std.specs.Prelude.{◌≡◌, length};
ghost use Rattle.order_text.specs.Telling.{refusal_of, left_of, telling_of, Passed, TellEnsures, Tells};

use base_refusals::Refusal;
use base_views::Image;
use order_lines::{head, text};

// How many bytes the text has, and the refusal if it tells one.
#[derive(Clone, Copy)]
pub struct Said {
    pub count: usize,
    pub ended: Result<(), Refusal>,
}

// What is printed and answered for a module that intake has passed: its order, or the refusal of a ring.
pub fn tell(image: Image, out: &mut [u8; 65536]) -> Said
    requires passed { Passed image.words.now image.tags.now image.n }
    requires out_len { length out.old ≡ 65536 }
    ensures { Tells image.entry.words.now image.entry.tags.now image.entry.n out.old out.new result.count (refusal_of result.ended) (left_of result.ended) }
{
    let mut order = [0u32; 256];
    let ended = order_callees::order_of(image, &mut order);
    let count = match ended {
        Ok(()) => {
            let functions = base_views::count(image.words, base_views::FUNCTIONS);
            text(image.words, &order[..functions], out)
        }
        // Only a ring is refused, whose number is 12, and its count comes last. A match on `Ring` leaves an arm for the others; the proof that it is not reached was tried and did not close.
        Err(refusal) => head(b"refused 12 left ", refusal.count() as usize, out),
    };
    Said { count, ended }
}

// What is printed and answered for any bytes. Taken in as by `order_bytes::order`: words and tags have to outlive the image that borrows them, so that one helper would take
// a closure, `taken_in(image, |image| tell(image, out))`, with a contract on every image that it may be called with, for two arrays and a call.
pub fn tell_of(image: &[u8], out: &mut [u8; 65536]) -> Said
    requires { length out.old ≡ 65536 }
    ensures { TellEnsures (telling_of image.now) out.old out.new result.count (refusal_of result.ended) (left_of result.ended) }
{
    let mut words = [0; 16384];
    let mut tags = [0; 16384];
    match intake::take_in(image, &mut words, &mut tags) {
        Ok(n) => tell(
            Image {
                words: &words,
                tags: &tags,
                n,
            },
            out,
        ),
        Err(refusal) => Said {
            count: head(b"refused ", refusal.number() as usize, out),
            ended: Err(refusal),
        },
    }
}
