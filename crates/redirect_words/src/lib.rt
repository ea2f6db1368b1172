// Redirecting over the words and the tags of an image that passed intake. Functions are found by name number, their argument
// and result types are compared, and the original is replaced by the replacement in Calls and CallResults. The tests read and change nothing; the pass after
// them goes once over the functions and the entry points. What writes words takes words and tags as two parameters, as redirect_calls does, with the reason there. No struct has
// an image and a function of it: two functions are compared, and a clause would have to say that they are of one image, where clauses now say that each is in its table.
#![tactic(auto)]

ghost use Rattle.std.specs.Prelude.{◌≡◌, ◌∷◌, ◌+◌, ◌*◌, ◌<◌, eqb, suc, length, get_or};
ghost use Rattle.model.specs.Module.{count_at};
ghost use Rattle.model.specs.View.{record_at};
ghost use Rattle.model.specs.FunctionView.{argument_at, returns_at};
ghost use Rattle.model.specs.Taped.{Tape};
ghost use Rattle.model.specs.Redirect.{all_below};
ghost use Rattle.redirect_words.specs.Passes.{Finds, Agrees, Returns, Compares, Tests, Redirects, Stores};

use base_handles::FunctionHandle;
use base_refusals::Refusal;
use base_views::{FUNCTIONS, Image, NAMES, argument_at, arguments, count};
use base_words::{Tags, Words, store};
use redirect_calls::{Redirection, is_named, redirect_all};

// What a redirecting is asked for: the numbers of the original's name, of the replacement's and of those whose functions stay as they are.
#[derive(Clone, Copy)]
pub struct Request<'a> {
    pub original: u32,
    pub replacement: u32,
    pub omit: &'a [u32],
}

// Where a table function starts.
fn start(image: Image, f: FunctionHandle) -> usize
    requires { f.0 < count_at 6 image.words.now }
    ensures { result ≡ record_at 6 f.0 image.entry.words.now }
{
    image.record_at(FUNCTIONS, f.0 as usize)
}

// Whether table function j has the name of this number.
fn has_name(image: Image, j: usize, name: u32) -> bool
    requires { j < count_at 6 image.words.now }
    ensures { result ≡ eqb (get_or image.entry.words.now (record_at 6 j image.entry.words.now) 0) (suc name) }
{
    let at = image.record_at(FUNCTIONS, j);
    is_named(image.words[at], name)
}

// The first table function that has the name of this number.
pub fn find(image: Image, name: u32) -> Option<FunctionHandle>
    ensures { Finds result image.entry name }
{
    (0..count(image.words, FUNCTIONS))
        .find(|j| has_name(image, *j, name))
        .map(|j| FunctionHandle(j as u32))
}

// Whether all numbers given are those of names.
fn inside(request: Request, names: u32) -> bool
    ensures { result ≡ all_below (request.entry.original ∷ request.entry.replacement ∷ request.entry.omit.now) names }
{
    request.original < names
        && request.replacement < names
        && request.omit.iter().all(|name| *name < names)
}

// The type of argument i of the function that starts at s.
fn type_at(words: &Words, s: usize, i: usize) -> u32
    requires { argument_at s i + 1 < 16384 }
    ensures { result ≡ get_or words.now (argument_at s i + 1) 0 }
{
    words[argument_at(s, i) + 1]
}

// Whether the argument types of two functions are equal, up to the shorter list.
fn arguments_agree(image: Image, original: FunctionHandle, replacement: FunctionHandle) -> bool
    requires { (original.0 < count_at 6 image.words.now) × (replacement.0 < count_at 6 image.words.now) }
    ensures { Agrees result image.entry original replacement }
{
    let a = start(image, original);
    let b = start(image, replacement);
    let shorter = arguments(image.words, a).min(arguments(image.words, b));
    (0..shorter).all(|j| type_at(image.words, a, j) == type_at(image.words, b, j))
}

// Where the result of a function is.
fn returns_at(image: Image, f: FunctionHandle) -> usize
    requires { f.0 < count_at 6 image.words.now }
    ensures { (result ≡ returns_at (record_at 6 f.0 image.entry.words.now) image.entry.words.now) × (result < 16384) }
{
    base_views::returns_at(image.words, start(image, f))
}

// Whether two functions have no result, or results of one type.
fn results_agree(image: Image, original: FunctionHandle, replacement: FunctionHandle) -> bool
    requires { (original.0 < count_at 6 image.words.now) × (replacement.0 < count_at 6 image.words.now) }
    ensures { Returns result image.entry original replacement }
{
    let x = returns_at(image, original);
    let y = returns_at(image, replacement);
    image.words[x] == image.words[y]
        && (image.words[x] == 0 || image.words[x + 1] == image.words[y + 1])
}

// Whether the argument types of two functions and then their result types agree, or which do not.
pub fn compare(
    image: Image,
    original: FunctionHandle,
    replacement: FunctionHandle,
) -> Result<(), Refusal>
    requires { (original.0 < count_at 6 image.words.now) × (replacement.0 < count_at 6 image.words.now) }
    ensures { Compares result image.entry original replacement }
{
    if !arguments_agree(image, original, replacement) {
        return Err(Refusal::ArgumentTypes);
    }
    if !results_agree(image, original, replacement) {
        return Err(Refusal::ResultTypes);
    }
    Ok(())
}

// The tests in sequence: the numbers given, both names, the argument types, and the result types. Both functions, the original first, are a pair here and above: it is the model's,
// and only `wuldgisp_redirect` takes it apart, by one pattern, to make it one number.
fn test(image: Image, request: Request) -> Result<(FunctionHandle, FunctionHandle), Refusal>
    ensures { Tests result image.entry request.entry }
{
    if !inside(request, count(image.words, NAMES) as u32) {
        return Err(Refusal::NumberGiven);
    }
    let a = find(image, request.original).ok_or(Refusal::OriginalNotFound)?;
    let b = find(image, request.replacement).ok_or(Refusal::ReplacementNotFound)?;
    compare(image, a, b)?;
    Ok((a, b))
}

// Calls of the function with the original's name become calls of the function with the replacement's, but for those in the replacement and in the functions
// whose names are omitted; entry points always change.
pub fn redirect_words(
    words: &mut Words,
    tags: &Tags,
    n: usize,
    request: Request,
) -> Result<(FunctionHandle, FunctionHandle), Refusal>
    requires { Tape words.old tags.now n }
    ensures { Redirects result words.new words.old tags.now n request.entry }
{
    let (original, replacement) = test(Image { words, tags, n }, request)?;
    let redirection = Redirection {
        original,
        replacement,
        omit: request.omit,
    };
    redirect_all(words, tags, n, redirection);
    Ok((original, replacement))
}

// The same of an image whose words are loaded and laid out: where it is accepted, the words go back to its bytes.
pub fn redirect_loaded(
    image: &mut [u8],
    words: &mut Words,
    tags: &Tags,
    n: usize,
    request: Request,
) -> Result<(FunctionHandle, FunctionHandle), Refusal>
    requires tape { Tape words.old tags.now n }
    requires image_len { length image.old ≡ 4 * n }
    ensures { Stores result image.new image.old words.old tags.now n request.entry }
{
    let both = redirect_words(words, tags, n, request)?;
    store(&words[..n], image);
    Ok(both)
}
