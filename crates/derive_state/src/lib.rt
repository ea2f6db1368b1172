// The derived module, in arrays that the caller provides: `log` (words of all records) with `logtags` (the class of each word), `starts` (where each record
// begins in the log), `maps` (source number to derived number), `buckets` (a hash table of records). Sizes are passed by value. A record in the log is a count
// and that many words. What a record of the source becomes is hashed, compared with a derived record, and written to the log.
#![tactic(auto)]

ghost use Rattle.std.specs.Prelude.{◌≡◌, suc, pred, ◌+◌, ◌-◌, ◌*◌, ◌<◌, ◌≤◌, true, false, ◌||◌, [], eqb, length, replicate, slice_index, slice_set};
ghost use Rattle.model.specs.Table.{SPAN as SPAN', UPTO as UPTO'};
ghost use Rattle.model.specs.Between.{between, Stretch};
ghost use Rattle.model.specs.References.{target, refs, ref_of, through, undefined_at, first_word, moved as movedOf, shift, alike_c, alike as alikeOf};
ghost use Rattle.model.specs.Numbers.{numbered};
ghost use Rattle.model.specs.Lower.{lower};
ghost use Rattle.model.specs.Names.{named};
ghost use Rattle.theory_records.specs.RecordLaws.{All, bare_w};
ghost use Rattle.derive_state.specs.Source.{mod_of};
ghost use Rattle.derive_state.specs.Refers.{means, unspanned, InTable, went_r, Small, small_prop};
ghost use Rattle.derive_state.specs.Marks.{MARKS, hash_r, place_r};
ghost use Rattle.derive_state.specs.Held.{rec_at, Written, carried_by};
ghost use Rattle.base_refusals.specs.declared.Refusal.TheVariants.{Full as full};

use base_classes::{SPAN, UPTO};
use base_refusals::Refusal;
use base_views::{CONSTANTS, Cells, EXPRESSIONS, GLOBALS, HEADER, Image, NAMES, OVERRIDES, TYPES};
use intake_distinct::mix;
use std::num::wrapping_add_u32;

mod reference;
mod special_types;

pub use reference::Reference;
pub use special_types::Special;

// How many words the log has, and so the image that is written of it.
pub const MOST_WORDS: usize = 16384;

// How many buckets there are.
const BUCKETS: usize = 16384;

// How many words an image has without its records and pairs: the header, and the three optional types.
const BARE: usize = HEADER + 3;

// The words of all derived records.
pub type Log = [u32; 16384];

// The class of each word of the log.
pub type LogTags = [u8; 16384];

// Where each record starts in the log, a row for each table.
pub type Starts = [[u32; 512]; 8];

// Derived numbers plus 1 by source numbers, a row for each table; 0 where a number is not mapped. The C interface lends the maps as words, and clearing makes them 0;
// what refers to an optional record takes such a word as it is. `Option<u32>` in the array would be twice as large, and be cleared number by number.
pub type Maps = [[u32; 512]; 6];

// A hash table of the derived records.
pub type Buckets = [u16; 16384];

// Functions under construction.
pub type StackRows = [[u32; 16384]; 4];

// The expressions of a function by their source numbers: derived numbers plus 1, and 0 where one is not mapped, as in `Maps`: what refers to an optional expression
// takes such a number as it is, and clearing makes them 0. `Option<u16>` in the array would be twice as large, and be cleared number by number.
pub type ExprMap = [u16; 1024];

// Where the expressions of a source's function start.
pub type Places = [u16; 1025];

// Sizes of the derived module: words of the log, records of each table, pairs of special types; for functions in progress the tops of their stacks, and how many
// expressions the last one has.
#[derive(Clone, Copy)]
pub struct Sizes {
    pub loglen: u16,
    pub counts: [u16; 8],
    pub pairs: u16,
    pub exprtop: u16,
    pub bodytop: u16,
    pub made: u16,
}

impl Sizes {
    // The sizes of an empty module.
    pub fn empty() -> Sizes
        ensures { result ≡ record { loglen = 0; counts = replicate 8 0; pairs = 0; exprtop = 0; bodytop = 0; made = 0 } }
    {
        Sizes {
            loglen: 0,
            counts: [0; 8],
            pairs: 0,
            exprtop: 0,
            bodytop: 0,
            made: 0,
        }
    }

    // The sizes with one record more in table t, of n words with its count.
    pub fn with_record(self, t: usize, n: usize) -> Sizes
        requires { (t < 8) × (self.loglen + n ≤ 16384) × (slice_index self.counts t < 512) }
        ensures { result ≡ record { loglen = self.loglen + n; counts = slice_set self.counts t (slice_index self.counts t + 1); pairs = self.pairs; exprtop = self.exprtop; bodytop = self.bodytop; made = self.made } }
    {
        let mut c = self.counts;
        c[t] += 1;
        Sizes {
            loglen: (self.loglen as usize + n) as u16,
            counts: c,
            ..self
        }
    }

    // The sizes with one pair of a key and a special type more.
    pub fn with_pair(self) -> Sizes
        requires { self.pairs < 512 }
        ensures { result ≡ record { loglen = self.loglen; counts = self.counts; pairs = self.pairs + 1; exprtop = self.exprtop; bodytop = self.bodytop; made = self.made } }
    {
        Sizes {
            pairs: self.pairs + 1,
            ..self
        }
    }

    // How many words the image has left.
    pub fn words_left(self) -> usize
        requires { 23 + 2 * self.pairs + self.loglen ≤ 16384 }
        ensures { result + (23 + 2 * self.pairs + self.loglen) ≡ 16384 }
    {
        MOST_WORDS - BARE - 2 * self.pairs as usize - self.loglen as usize
    }
}

// Why an operation is refused that makes the derived module larger than an image can be: too many records of a table, or too many words.
#[derive(Clone, Copy)]
pub struct Full;

impl From<Full> for Refusal {
    ghost from_gives = { λ _ r. r ≡ full };

    fn from(_full: Full) -> Refusal {
        Refusal::Full
    }
}

// The derived module for those that only read it: the arrays, and how much of them is in use. What the arrays hold is no ghost field here: two types refer to a `Derived` and say it, each what is asked
// of its own. In a `NamedDerived` of derive_lookup names differ, and functions begin with theirs; in `WritableTables` of derive_sections records lie in the log. Finishing makes a `Derived` that is
// written, with the names in their new order, and in which no name is looked for.
#[derive(Clone, Copy)]
pub struct Derived<'a> {
    pub log: &'a Log,
    pub logtags: &'a LogTags,
    pub starts: &'a Starts,
    pub maps: &'a Maps,
    pub buckets: &'a Buckets,
    pub sizes: Sizes,
}

// The derived module for those that write it. Its sizes go beside it by value, so that what does not fit leaves them as they were.
#[derive(Drop)]
pub struct DerivedMut<'a> {
    pub log: &'a mut Log,
    pub logtags: &'a mut LogTags,
    pub starts: &'a mut Starts,
    pub maps: &'a mut Maps,
    pub buckets: &'a mut Buckets,
}

impl DerivedMut<'_> {
    // The module to be read, of these sizes.
    pub fn view(&self, sizes: Sizes) -> Derived<'_>
        ensures { (result.log.now ≡ self.now.log.now) × (result.logtags.now ≡ self.now.logtags.now) × (result.starts.now ≡ self.now.starts.now) × (result.maps.now ≡ self.now.maps.now) × (result.buckets.now ≡ self.now.buckets.now) × (result.sizes ≡ sizes) }
    {
        Derived {
            log: self.log,
            logtags: self.logtags,
            starts: self.starts,
            maps: self.maps,
            buckets: self.buckets,
            sizes,
        }
    }
}

// A source: its image, which passed tests 3 and 4 of intake, and the offset of its spans.
#[derive(Clone, Copy)]
pub struct ShaderSource<'a> {
    pub image: Image<'a>,
    pub offset: u32,
    pub ghost test_3: { numbered (mod_of image.words.now image.n) ≡ true },
    pub ghost test_4: { lower (mod_of image.words.now image.n) ≡ true },
}

// A source that passed test 5 of intake too, so that its functions are told apart by their names. It has the fields of a `ShaderSource` and no `ShaderSource` in it: nearly every contract above
// names the words, classes and length of the image, which are `source.image.words.now` of both kinds so, and would be `source.source.image.words.now` of this one.
#[derive(Clone, Copy)]
pub struct NamedSource<'a> {
    pub image: Image<'a>,
    pub offset: u32,
    pub ghost test_3: { numbered (mod_of image.words.now image.n) ≡ true },
    pub ghost test_4: { lower (mod_of image.words.now image.n) ≡ true },
    pub ghost test_5: { named (mod_of image.words.now image.n) ≡ true },
}

impl<'a> NamedSource<'a> {
    // What asks nothing of the names.
    pub fn source(self) -> ShaderSource<'a>
        ensures { (result.image ≡ self.entry.image) × (result.offset ≡ self.entry.offset) }
    {
        ShaderSource {
            image: self.image,
            offset: self.offset,
        }
    }
}

// A record of a source: its words lie from `at` to `end`, and the numbers in them are in the rows of the maps.
#[derive(Clone, Copy)]
pub struct ShaderRecord<'a> {
    pub cells: Cells<'a>,
    pub at: usize,
    pub end: usize,
    pub ghost stretch: { Stretch cells.words.now cells.tags.now at end },
    pub ghost small: { All Small (refs (between cells.tags.now cells.words.now at end)) } by { small_prop (refs (between cells.tags.now cells.words.now at end)) },
}

impl ShaderRecord<'_> {
    // How many words it has.
    pub fn len(self) -> usize
        ensures { result ≡ self.entry.end - self.entry.at }
    {
        self.end - self.at
    }
}

// Clears all maps: nothing is mapped.
pub fn clear_maps(maps: &mut Maps)
    ensures { maps.new ≡ replicate 6 (replicate 512 0) }
{
    *maps = [[0; 512]; 6];
}

// What a word refers to: nothing, a function, a record of a table, or an expression of the word's own function; among global expressions that is one of these.
// One that may be missing is 0 then, and else its number plus 1.
#[derive(Clone, Copy)]
pub enum Target {
    Nothing,
    Function,
    Record(usize),
    Optional(usize),
    Own,
    OptionalOwn,
}

// What the words of a class refer to.
pub fn target_of(class: u8) -> Target
    ensures { (means result ≡ unspanned (target class)) × InTable result }
{
    match class {
        base_classes::NAME => Target::Optional(NAMES),
        base_classes::TYPE => Target::Record(TYPES),
        base_classes::OPT_TYPE => Target::Optional(TYPES),
        base_classes::CONSTANT => Target::Record(CONSTANTS),
        base_classes::OVERRIDE => Target::Record(OVERRIDES),
        base_classes::GLOBAL => Target::Record(GLOBALS),
        base_classes::INIT => Target::Record(EXPRESSIONS),
        base_classes::OPT_INIT => Target::Optional(EXPRESSIONS),
        base_classes::FUNCTION => Target::Function,
        base_classes::CALLEE => Target::Function,
        base_classes::EXPR => Target::Own,
        base_classes::OPT_EXPR => Target::OptionalOwn,
        base_classes::RESULT => Target::Own,
        base_classes::OPT_RESULT => Target::OptionalOwn,
        base_classes::NAMED_EXPR => Target::Own,
        base_classes::LOCAL_INIT => Target::OptionalOwn,
        _ => Target::Nothing,
    }
}

// The number that is kept plus 1, and 0 where none is: one less than v, and 0 of 0. `v.saturating_sub(1)` in its place would say how, and not why.
pub fn number_of(v: u32) -> u32
    ensures { result ≡ pred v }
{
    v.saturating_sub(1)
}

// A word carried through the maps. A class and its word are two parameters, here, below and in `referent_of` of derive_imports, and no struct: most words that go with a class are carried, and are no
// longer those that the image has there. `moved(Cell { class: s, word: w }, offset, u)` would put together what stands in two variables, and `moved` take it apart: it is `moved(s, w, offset, u)`.
pub fn carried(maps: &Maps, s: u8, w: u32) -> u32
    requires all { All Small (ref_of (target s) w []) }
    ensures { result ≡ through (went_r maps.now) s w }
{
    match target_of(s) {
        Target::Nothing => w,
        Target::Function => 0,
        Target::Record(t) => number_of(maps[t][w as usize]),
        Target::Own => number_of(maps[EXPRESSIONS][w as usize]),
        Target::Optional(_) if w == 0 => 0,
        Target::Optional(t) => maps[t][w as usize - 1],
        Target::OptionalOwn if w == 0 => 0,
        Target::OptionalOwn => maps[EXPRESSIONS][w as usize - 1],
    }
}

// Whether words of the class s are a span's.
pub fn is_span(s: u8) -> bool
    ensures { result ≡ (eqb s SPAN' || eqb s UPTO') }
{
    s == SPAN || s == UPTO
}

// Whether the derived word x of the class a equals the word y of the class b; for words of spans only the classes are compared. A derived class is as wide here as
// the stacks of functions have it.
pub fn alike_cell(a: u32, x: u32, b: u8, y: u32) -> bool
    ensures { result ≡ alike_c (a, x) (b, y) }
{
    a == b as u32 && (x == y || is_span(b))
}

// Whether the record at s is what the source's record becomes, ignoring spans. A loop: with `all` in its place, which was proved, a word takes three
// instructions more, where it takes 23 with what calls it.
pub fn alike(original: ShaderRecord, derived: &Derived, s: usize) -> bool
    requires { (s + suc (slice_index derived.now.log.now s) ≤ 16384) × (length derived.now.log.now ≡ 16384) × (length derived.now.logtags.now ≡ 16384) }
    ensures { result ≡ alikeOf (rec_at derived.now.log.now derived.now.logtags.now s) (carried_by (went_r derived.now.maps.now) original.entry.cells.tags.now original.entry.cells.words.now original.entry.at original.entry.end) }
{
    if derived.log[s] as usize != original.len() {
        return false;
    }
    for j in original.at..original.end {
        let q = s + 1 + (j - original.at);
        let b = original.cells.tags[j];
        let y = carried(derived.maps, b, original.cells.words[j]);
        if !alike_cell(derived.logtags[q] as u32, derived.log[q], b, y) {
            return false;
        }
    }
    true
}

// A word as it is hashed: a span's is 0.
fn bare_word(s: u8, w: u32) -> u32
    ensures { result ≡ bare_w (target s) w }
{
    if is_span(s) { 0 } else { w }
}

// The hash of what the source's record becomes in table t.
fn hash(original: ShaderRecord, maps: &Maps, t: usize) -> usize
    requires { t < 8 }
    ensures { result ≡ hash_r t (carried_by (went_r maps.now) original.entry.cells.tags.now original.entry.cells.words.now original.entry.at original.entry.end) }
{
    (original.at..original.end).fold(t, |h, j| {
        let s = original.cells.tags[j];
        mix(h, bare_word(s, carried(maps, s, original.cells.words[j])))
    })
}

// Its place among the buckets.
pub fn bucket_of(original: ShaderRecord, maps: &Maps, t: usize) -> usize
    requires { t < 8 }
    ensures { (result ≡ place_r t (carried_by (went_r maps.now) original.entry.cells.tags.now original.entry.cells.words.now original.entry.at original.entry.end)) × (result < MARKS) }
{
    hash(original, maps, t) % BUCKETS
}

// Whether the span last met is undefined, once the word w of the class s is read, which `next` follows.
pub fn undefined_at(s: u8, w: u32, next: u32, u: bool) -> bool
    ensures { result ≡ undefined_at (target s) w next u }
{
    if s == SPAN { w == 0 && next == 0 } else { u }
}

// A span's word moved by the offset, unless the span is undefined; any other word as it is.
pub fn moved(s: u8, w: u32, offset: u32, u: bool) -> u32
    ensures { result ≡ movedOf (target s) w offset u }
{
    if is_span(s) && !u {
        wrapping_add_u32(w, offset)
    } else {
        w
    }
}

// What word i of the source's record becomes; 0 at the end.
fn carried_or_end(original: ShaderRecord, maps: &Maps, i: usize) -> u32
    requires { original.at ≤ i }
    ensures { result ≡ first_word (carried_by (went_r maps.now) original.entry.cells.tags.now original.entry.cells.words.now i original.entry.end) }
{
    if i < original.end {
        carried(maps, original.cells.tags[i], original.cells.words[i])
    } else {
        0
    }
}

// Writes what the source's record becomes to the log, from `to` on. It takes the two arrays that it writes, not the module: what stays needs no clause so.
// `function_builder` has this loop and its `carried_or_end` for a stack: one function of both would take what a word becomes and where it is put as two closures,
// which are all of the loop but three lines.
pub fn write(
    original: ShaderRecord,
    offset: u32,
    log: &mut Log,
    logtags: &mut LogTags,
    maps: &Maps,
    to: usize,
)
    requires { (to + (original.end - original.at) ≤ 16384) × (length log.old ≡ 16384) × (length logtags.old ≡ 16384) }
    ensures { Written (shift (carried_by (went_r maps.now) original.entry.cells.tags.now original.entry.cells.words.now original.entry.at original.entry.end) offset false) to log.old logtags.old log.new logtags.new }
{
    let mut u = false;
    let mut w = carried_or_end(original, maps, original.at);
    for j in original.at..original.end {
        let q = to + (j - original.at);
        let s = original.cells.tags[j];
        let next = carried_or_end(original, maps, j + 1);
        u = undefined_at(s, w, next, u);
        log[q] = moved(s, w, offset, u);
        logtags[q] = s;
        w = next;
    }
}
