// An image that is laid out, and where the parts of a module are in its words: sections and their records, by header and offsets; the lists of a function, by the counts before
// them.
#![tactic(auto)]

ghost use Rattle.std.specs.Prelude.{◌≡◌, ◌+◌, ◌*◌, ◌^◌, ◌≤◌, ◌<◌, get_or};
ghost use Rattle.model.specs.Module.{limits, count_at, offset_at};
ghost use Rattle.model.specs.View.{record_at, record_end};
ghost use Rattle.model.specs.FunctionView.{entry_head_words, arguments_at, argument_at, returns_at, locals_at, local_at, expressions_at};
ghost use Rattle.model.specs.Between.{Long};
ghost use Rattle.base_views.specs.Functions.{Standing, Named, Body};
ghost use Rattle.base_views.specs.LaidOut.{LaidOut};

use base_classes::NAMED;
use base_words::{Tags, Words};

// The edition of the format, which is the first word.
pub const EDITION: u32 = 1;

// The header: section k has its count at the word COUNTS + 2 k, and its offset at the word OFFSETS + 2 k.
pub const COUNTS: usize = 2;

pub const OFFSETS: usize = 3;

pub const HEADER: usize = 20;

// The sections by number: eight tables, and the special types. Numbers and no enum: they are rows of `Starts`, `Maps`, a snapshot and the counts of `Sizes`, and loops go through
// all of these by `0..8`, so that an enum would be cast at each row and made of a number at each turn. Hence the clauses `k < 9` of a section and `k < 8` of a table.
pub const NAMES: usize = 0;

pub const TYPES: usize = 1;

pub const CONSTANTS: usize = 2;

pub const OVERRIDES: usize = 3;

pub const GLOBALS: usize = 4;

pub const EXPRESSIONS: usize = 5;

pub const FUNCTIONS: usize = 6;

pub const ENTRIES: usize = 7;

pub const SPECIAL: usize = 8;

// How many records of other tables, pairs of special types, functions and entry points an image may have. Limits, which stand for no kind.
const MOST_RECORDS: usize = 512;

pub const MOST_FUNCTIONS: usize = 256;

pub const MOST_ENTRIES: usize = 16;

// The words in front of an entry point's function.
pub const ENTRY_HEAD: usize = 7;

// Words, and the class of each.
#[derive(Clone, Copy)]
pub struct Cells<'a> {
    pub words: &'a Words,
    pub tags: &'a Tags,
    pub ghost long: { Long words.now tags.now },
}

// An image that is laid out: words that hold a module, the class of each, and how many they are.
#[derive(Clone, Copy)]
pub struct Image<'a> {
    pub words: &'a Words,
    pub tags: &'a Tags,
    pub n: usize,
    pub ghost long: { Long words.now tags.now },
    pub ghost laid_out: { LaidOut words.now tags.now n },
}

// How many records section k may have.
pub fn limit(k: usize) -> usize
    requires { k < 9 }
    ensures { (result ≡ get_or limits k 0) × (result ≤ 512) }
{
    match k {
        FUNCTIONS => MOST_FUNCTIONS,
        ENTRIES => MOST_ENTRIES,
        _ => MOST_RECORDS,
    }
}

// How many records section k has.
pub fn count(words: &Words, k: usize) -> usize
    requires { k < 9 }
    ensures { (result ≡ count_at k words.now) × (result < 2 ^ 32) }
{
    words[COUNTS + 2 * k] as usize
}

// Where section k starts.
pub fn offset(words: &Words, k: usize) -> usize
    requires { k < 9 }
    ensures { (result ≡ offset_at k words.now) × (result < 2 ^ 32) }
{
    words[OFFSETS + 2 * k] as usize
}

// Where record j of section k starts: at its offset from the start of the section, which is one of the words.
pub fn start_of(words: &Words, k: usize, j: usize) -> usize
    requires { (k < 9) × (offset_at k words.now + j < 16384) }
    ensures { (result ≡ record_at k j words.now) × (result < 2 ^ 33) }
{
    let at = offset(words, k);
    at + words[at + j] as usize
}

// Where it ends: where the next one starts, or where the section ends.
pub fn end_of(words: &Words, k: usize, j: usize) -> usize
    requires { (k < 8) × (j < count_at k words.now) × (offset_at k words.now + count_at k words.now ≤ 16384) }
    ensures { (result ≡ record_end k j words.now) × (result < 2 ^ 33) }
{
    if j + 1 == count(words, k) {
        return offset(words, k + 1);
    }
    start_of(words, k, j + 1)
}

// Where pair j of the special types is, after the three optional types.
pub fn pair_at(words: &Words, j: usize) -> usize
    requires { j < 2 ^ 32 }
    ensures { result ≡ offset_at 8 words.now + 3 + 2 * j }
{
    offset(words, SPECIAL) + 3 + 2 * j
}

// What follows is where the parts of a function are that starts at s and whose expressions begin inside the words: its arguments, its result, locals, expressions, named
// expressions and the statements of its body. Lists have their counts in front. The result is optional: the word 0 where there is none, and else the word 1 and its fields.
// `words` and `s` are two parameters and no struct: of the seven functions that ask for such places, five ask for one, and `FunctionAt { words, s }.expressions_at()` says no
// more than `expressions_at(words, s)`.

// Where the list of arguments is.
pub fn arguments_at(s: usize) -> usize
    requires { s < 16384 }
    ensures { result ≡ arguments_at s }
{
    s + 3
}

// How many arguments it has.
pub fn arguments(words: &Words, s: usize) -> usize
    requires { expressions_at s words.now < 16384 }
    ensures { (result ≡ get_or words.now (arguments_at s) 0) × (result < 2 ^ 32) }
{
    words[arguments_at(s)] as usize
}

// Where argument i is.
pub fn argument_at(s: usize, i: usize) -> usize
    requires { argument_at s i < 16384 }
    ensures { result ≡ argument_at s i }
{
    s + 4 + 8 * i
}

// Where the result is.
pub fn returns_at(words: &Words, s: usize) -> usize
    requires { expressions_at s words.now < 16384 }
    ensures { (result ≡ returns_at s words.now) × (result < 16384) }
{
    argument_at(s, arguments(words, s))
}

// Where the list of locals is.
pub fn locals_at(words: &Words, s: usize) -> usize
    requires { expressions_at s words.now < 16384 }
    ensures { (result ≡ locals_at s words.now) × (result < 16384) }
{
    let at = returns_at(words, s);
    at + 1 + 7 * words[at] as usize
}

// Where local i is.
pub fn local_at(words: &Words, s: usize, i: usize) -> usize
    requires words_bound { expressions_at s words.now < 16384 }
    requires words_bound_2 { local_at s i words.now < 16384 }
    ensures { result ≡ local_at s i words.now }
{
    locals_at(words, s) + 1 + 5 * i
}

// Where the list of expressions is.
pub fn expressions_at(words: &Words, s: usize) -> usize
    requires { expressions_at s words.now < 16384 }
    ensures { (result ≡ expressions_at s words.now) × (result < 16384) }
{
    let at = locals_at(words, s);
    at + 1 + 5 * words[at] as usize
}

impl<'a> Image<'a> {
    // Its words and their classes.
    pub fn cells(self) -> Cells<'a>
        ensures { (result.words ≡ self.entry.words) × (result.tags ≡ self.entry.tags) }
    {
        Cells {
            words: self.words,
            tags: self.tags,
        }
    }

    // Where record j of section k starts.
    pub fn record_at(self, k: usize, j: usize) -> usize
        requires k_bound { k < 8 }
        requires j_bound { j < count_at k self.words.now }
        ensures { result ≡ record_at k j self.entry.words.now }
    {
        start_of(self.words, k, j)
    }

    // Where it ends.
    pub fn record_end(self, k: usize, j: usize) -> usize
        requires k_bound { k < 8 }
        requires j_bound { j < count_at k self.words.now }
        ensures { result ≡ record_end k j self.entry.words.now }
    {
        end_of(self.words, k, j)
    }

    // Where it starts and where it ends.
    pub fn record(self, k: usize, j: usize) -> (usize, usize)
        requires k_bound { k < 8 }
        requires j_bound { j < count_at k self.words.now }
        ensures { (result.0 ≡ record_at k j self.entry.words.now) × (result.1 ≡ record_end k j self.entry.words.now) }
    {
        (self.record_at(k, j), self.record_end(k, j))
    }

    // Where the function of entry point j starts.
    pub fn entry_function(self, j: usize) -> usize
        requires j_bound { j < count_at 7 self.words.now }
        ensures { result ≡ record_at 7 j self.entry.words.now + entry_head_words }
    {
        start_of(self.words, ENTRIES, j) + ENTRY_HEAD
    }
}

impl Cells<'_> {
    // Where the named expressions of the function at s start. Expressions have no fixed size: after the last one, the tags have the class of the count of
    // named expressions. A `while`, since that class is there: a `for` to the end of the tags would have a case that never is.
    pub fn named_at(self, s: usize) -> usize
        requires { Standing self.words.now self.tags.now s }
        ensures { Named result self.entry.words.now self.entry.tags.now s }
    {
        let mut i = expressions_at(self.words, s) + 1;
        while self.tags[i] != NAMED {
            i += 1;
        }
        i
    }

    // Where the body of that function starts.
    pub fn body_at(self, s: usize) -> usize
        requires { Standing self.words.now self.tags.now s }
        ensures { Body result self.entry.words.now self.entry.tags.now s }
    {
        let at = self.named_at(s);
        at + 1 + 2 * self.words[at] as usize
    }
}
