// Replaces the original by the replacement in Calls and CallResults: one pass over the words and the tags of the functions and the entry points, which leaves
// the replacement and the omitted functions as they are. `words, tags, n` are parameters with a clause `Tape`, and no struct of `&mut Words` whose type says it: each that writes
// would have to promise in a clause that its words are the ones lent to it, as `SameBuffer` of order_lines does, one clause for the other.
#![tactic(auto)]

ghost use Rattle.std.specs.Prelude.{◌≡◌, suc, ◌≤◌, ◌<◌, eqb, length};
ghost use mathlib.Core.List.{zip_with};
ghost use Rattle.std.proofs.Math.Seq.{slice};
ghost use Rattle.std.proofs.lemmas.List.Edits.{sets};
ghost use Rattle.model.specs.Module.{count_at};
ghost use Rattle.model.specs.Taped.{Tape};
ghost use Rattle.model.specs.Redirect.{omitted as omittedOf};
ghost use Rattle.redirect_calls.specs.Turns.{RedirectAllEnsures, redirecting_by, stays_by, turn_one, turn_all, redirected_by};

use base_classes::{CALLEE, FUNCTION};
use base_handles::FunctionHandle;
use base_views::{ENTRIES, FUNCTIONS, Image, SPECIAL, count, offset};
use base_words::{Tags, Words};

// A redirecting: calls of the original become calls of the replacement, but for those in the replacement and in the functions whose names are omitted. It is of functions, and
// `Request` of redirect_words of their names: nothing is done alike with both, and as `Redirecting<u32>` a request would not say that its numbers are of names.
#[derive(Clone, Copy)]
pub struct Redirection<'a> {
    pub original: FunctionHandle,
    pub replacement: FunctionHandle,
    pub omit: &'a [u32],
}

// Whether an optional name is the name with a number.
pub fn is_named(w: u32, name: u32) -> bool
    ensures { result ≡ eqb w (suc name) }
{
    w.checked_sub(1) == Some(name)
}

// Whether an optional name is one of the omitted ones.
fn omitted(omit: &[u32], w: u32) -> bool
    ensures { result ≡ omittedOf omit.now w }
{
    omit.iter().any(|name| is_named(w, *name))
}

// What a word of the class s becomes: the replacement, where it is the original as the function of a Call or of a CallResult; else what it was.
#[tactic(auto, unfolding(model::specs::Redirect::redirecting))]
fn redirect_word(s: u8, w: u32, redirection: Redirection) -> u32
    ensures { result ≡ redirecting_by redirection.entry s w }
{
    if w == redirection.original.0 && (s == CALLEE || s == FUNCTION) {
        redirection.replacement.0
    } else {
        w
    }
}

// All words from `at` to `end`. By number: over `words[at..end].iter_mut().zip(&tags[at..end])`, as tried, the loop's invariant has no `words`, which the iterator holds, to say what
// has been replaced.
fn redirect_fn(words: &mut Words, tags: &Tags, at: usize, end: usize, redirection: Redirection)
    requires { (at ≤ end) × (end ≤ 16384) × (length words.old ≡ 16384) × (length tags.now ≡ 16384) }
    ensures { words.new ≡ sets words.old at (zip_with (redirecting_by redirection.entry) (slice at end tags.now) (slice at end words.old)) }
{
    for j in at..end {
        words[j] = redirect_word(tags[j], words[j], redirection);
    }
}

// Whether function j stays as it is: the replacement, or one whose name w is omitted.
#[tactic(auto, unfolding(model::specs::Redirect::stays))]
fn stays(redirection: Redirection, j: usize, w: u32) -> bool
    ensures { result ≡ stays_by redirection.entry j w }
{
    j == redirection.replacement.0 as usize || omitted(redirection.omit, w)
}

// Table function j.
fn redirect_one(words: &mut Words, tags: &Tags, n: usize, j: usize, redirection: Redirection)
    requires tape { Tape words.old tags.now n }
    requires j_bound { j < count_at 6 words.old }
    ensures { RedirectAllEnsures words.new words.old tags.now n (turn_one j redirection.entry) }
{
    let image = Image { words, tags, n };
    let (at, end) = image.record(FUNCTIONS, j);
    if !stays(redirection, j, words[at]) {
        redirect_fn(words, tags, at, end, redirection);
    }
}

// Table functions.
fn redirect_functions(words: &mut Words, tags: &Tags, n: usize, redirection: Redirection)
    requires { Tape words.old tags.now n }
    ensures { RedirectAllEnsures words.new words.old tags.now n (turn_all redirection.entry) }
{
    for j in 0..count(words, FUNCTIONS) {
        redirect_one(words, tags, n, j, redirection);
    }
}

// Table functions, and then the section of entry points as a whole: no other of its words has the class of a Call's or a CallResult's function.
pub fn redirect_all(words: &mut Words, tags: &Tags, n: usize, redirection: Redirection)
    requires { Tape words.old tags.now n }
    ensures { RedirectAllEnsures words.new words.old tags.now n (redirected_by redirection.entry) }
{
    redirect_functions(words, tags, n, redirection);
    let at = offset(words, ENTRIES);
    let end = offset(words, SPECIAL);
    redirect_fn(words, tags, at, end, redirection);
}
