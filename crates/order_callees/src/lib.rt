// The callees of every table function, from words and tags: one pass over the words of each
// function record, which marks each word of the class CALLEE. Then the order of output.
#![tactic(auto)]

ghost use Rattle.std.specs.Prelude.{◌≡◌, ◌<◌, length};
ghost use Rattle.model.specs.Module.{count_at};
ghost use Rattle.order_ranks.specs.Marks.{NoCalls};
ghost use Rattle.order_callees.specs.Gathering.{called_by, Known, Marks, Gathered, Listed};

use base_classes::CALLEE;
use base_refusals::Refusal;
use base_views::{FUNCTIONS, Image, count};
use order_ranks::FunctionSet;

// Function i calls what its record calls.
fn function(image: Image, i: usize, callees: &mut [FunctionSet; 256])
    requires known { Known image.words.now image.tags.now image.n }
    requires i_bound { i < count_at 6 image.words.now }
    ensures { Marks callees.old i (called_by image.entry.words.now image.entry.tags.now i) callees.new }
{
    let (at, end) = image.record(FUNCTIONS, i);
    for k in at..end {
        // named, so that the edit of this test is refused for what it means, and not for the names of the goals, which are made of the test's words
        let calls = image.tags[k] == CALLEE;
        if calls {
            callees[i].join(image.words[k] as usize);
        }
    }
}

// What every table function calls: of all of them what `gather_requirements` of redirect.rs gives of one. The table is lent, with no call in it, and none is answered: as an answer it
// is copied once more, and the program `order` takes 660 instructions more an image, 0.13 percent.
pub fn gather_requirements(image: Image, callees: &mut [FunctionSet; 256])
    requires known { Known image.words.now image.tags.now image.n }
    requires no_calls { NoCalls callees.old }
    ensures { Gathered image.entry.words.now image.entry.tags.now image.entry.n callees.new }
{
    for f in 0..count(image.words, FUNCTIONS) {
        function(image, f, callees);
    }
}

// The order of the module's functions, as their source numbers, goes to the start of `out`; or a ring is refused. The count of functions is not answered: it is a word of the
// image, which the two callers that want it read by `count`, and an answer would need a clause that it is that word.
pub fn order_of(image: Image, out: &mut [u32; 256]) -> Result<(), Refusal>
    requires known { Known image.words.now image.tags.now image.n }
    requires out_len { length out.old ≡ 256 }
    ensures { Listed image.entry.words.now image.entry.tags.now image.entry.n out.old result out.new }
{
    let mut callees = order_ranks::no_calls();
    gather_requirements(image, &mut callees);
    let functions = count(image.words, FUNCTIONS);
    order_ranks::order(&callees[..functions], out)
}
