// The end of a function's import: the record that goes to the log, its parts in their order: declarations, expressions, named expressions, body. What writes words
// and classes takes these two arrays and not the module, as append_record takes the three that it writes. A struct of the two would be made in append_record alone, for
// five calls, and each of the three functions that would take it would have to promise that both borrows are the same after it. It takes rows and places and no slices:
// words and classes lie in two rows, or in a row and in the source, so that the five calls of append_record would cut nine slices, for the counts that it has once. That
// the classes of expressions are bytes is a clause, since they stand in a row of words, in the array that C lends.
#![tactic(auto)]

ghost use Rattle.std.specs.Prelude.{◌≡◌, ◌++◌, ℕ, ◌+◌, ◌-◌, ◌*◌, ◌/◌, ◌≤◌, ◌<◌, length, get_or};
ghost use Rattle.std.proofs.Math.Seq.{slice};
ghost use Rattle.std.proofs.lemmas.List.Edits.{sets};
ghost use Rattle.model.specs.FunctionView.{expressions_at};
ghost use Rattle.model.specs.Between.{between};
ghost use Rattle.base_views.specs.Functions.{Standing, Body};
ghost use Rattle.derive_state.specs.Held.{row};
ghost use Rattle.derive_state.specs.Sizes.{going, told};
ghost use Rattle.function_builder.specs.Stacks.{Stacks};
ghost use Rattle.function_names.specs.Named.{pairs_in};
ghost use Rattle.function_record.specs.Closed.{named_classes, closed, carried_words, AppendRecordEnsures};

use base_classes::{EXPRESSIONS, NAME, NAMED, NAMED_EXPR};
use base_views::{Cells, expressions_at};
use base_words::Tags;
use derive_state::{Full, Log, LogTags, Sizes, StackRows, Starts};
use function_builder::{BODY, CLASSES, WORDS};

// Copies `count` words of the row t of the stacks, from a on, to the log from p on. By a loop, as all that follow: `copy_from_slice` is a call of memmove here, which the archive
// would need from outside, beside memcpy and memset.
fn copy_words(stacks: &StackRows, t: usize, a: usize, count: usize, log: &mut Log, p: usize)
    requires { (t < 4) × (a + count ≤ 16384) × (p + count ≤ 16384) × (length log.old ≡ 16384) × (length (row stacks.now t) ≡ 16384) }
    ensures { log.new ≡ sets log.old p (slice a (a + count) (row stacks.now t)) }
{
    for j in 0..count {
        log[p + j] = stacks[t][a + j];
    }
}

// Copies the classes of the source's words from a on.
fn copy_tags(tags: &Tags, a: usize, count: usize, logtags: &mut LogTags, p: usize)
    requires { (a + count ≤ 16384) × (p + count ≤ 16384) × (length tags.now ≡ 16384) × (length logtags.old ≡ 16384) }
    ensures { logtags.new ≡ sets logtags.old p (slice a (a + count) tags.now) }
{
    for j in 0..count {
        logtags[p + j] = tags[a + j];
    }
}

// Copies the classes of expressions, from a on: each is a word there.
fn copy_classes(stacks: &StackRows, a: usize, count: usize, logtags: &mut LogTags, p: usize)
    requires count_bound { (a + count ≤ 16384) × (p + count ≤ 16384) × (length logtags.old ≡ 16384) × (length (row stacks.now 1) ≡ 16384) }
    requires by_index { (i : ℕ) → a ≤ i → i < a + count → get_or (row stacks.now 1) i 0 < 256 }
    ensures { logtags.new ≡ sets logtags.old p (slice a (a + count) (row stacks.now 1)) }
{
    for j in 0..count {
        logtags[p + j] = stacks[CLASSES][a + j] as u8;
    }
}

// Writes the classes of `count` named expressions. By a loop over numbers, since fill writes one value, and of as_chunks_mut and of a loop over chunks_exact_mut, which
// was tried, nothing says what the slice ends as: where that loop ends, its last value is known by no fact but its length.
fn name_classes(logtags: &mut LogTags, p: usize, count: usize)
    requires { (p + 2 * count ≤ 16384) × (length logtags.old ≡ 16384) }
    ensures { logtags.new ≡ sets logtags.old p (named_classes count) }
{
    for j in 0..count {
        logtags[p + 2 * j] = NAMED_EXPR;
        logtags[p + 2 * j + 1] = NAME;
    }
}

// Copies `count` words of expressions with their classes, from a on.
fn copy_expressions(
    stacks: &StackRows,
    a: usize,
    count: usize,
    log: &mut Log,
    logtags: &mut LogTags,
    p: usize,
)
    requires count_bound { (a + count ≤ 16384) × (p + count ≤ 16384) × (length log.old ≡ 16384) × (length logtags.old ≡ 16384) × (length (row stacks.now 0) ≡ 16384) × (length (row stacks.now 1) ≡ 16384) }
    requires by_index { (i : ℕ) → a ≤ i → i < a + count → get_or (row stacks.now 1) i 0 < 256 }
    ensures log_after { log.new ≡ sets log.old p (slice a (a + count) (row stacks.now 0)) }
    ensures logtags_after { logtags.new ≡ sets logtags.old p (slice a (a + count) (row stacks.now 1)) }
{
    copy_words(stacks, WORDS, a, count, log, p);
    copy_classes(stacks, a, count, logtags, p);
}

// Copies `count` words of declarations or of a body, from a on, with the classes that the source has from s on.
fn copy_carried(
    stacks: &StackRows,
    tags: &Tags,
    a: usize,
    s: usize,
    count: usize,
    log: &mut Log,
    logtags: &mut LogTags,
    p: usize,
)
    requires { (a + count ≤ 16384) × (s + count ≤ 16384) × (p + count ≤ 16384) × (length log.old ≡ 16384) × (length logtags.old ≡ 16384) × (length (row stacks.now 3) ≡ 16384) × (length tags.now ≡ 16384) }
    ensures log_after { log.new ≡ sets log.old p (slice a (a + count) (row stacks.now 3)) }
    ensures logtags_after { logtags.new ≡ sets logtags.old p (slice s (s + count) tags.now) }
{
    copy_words(stacks, BODY, a, count, log, p);
    copy_tags(tags, s, count, logtags, p);
}

// Copies named expressions, `count` words from a on.
fn copy_names(
    stacks: &StackRows,
    a: usize,
    count: usize,
    log: &mut Log,
    logtags: &mut LogTags,
    p: usize,
)
    requires { (a + count ≤ 16384) × (p + count ≤ 16384) × (length log.old ≡ 16384) × (length logtags.old ≡ 16384) × (length (row stacks.now 3) ≡ 16384) }
    ensures log_after { log.new ≡ sets log.old p (slice a (a + count) (row stacks.now 3)) }
    ensures logtags_after { logtags.new ≡ sets logtags.old p (named_classes (count / 2)) }
{
    copy_words(stacks, BODY, a, count, log, p);
    name_classes(logtags, p, count / 2);
}

// Where a function is in the source: its declarations from `start` to `exprs`, its body from `body` to `end`.
#[derive(Clone, Copy)]
pub struct FunctionPlace {
    pub start: usize,
    pub exprs: usize,
    pub body: usize,
    pub end: usize,
}

impl FunctionPlace {
    // Where the function from `start` to `end` is.
    pub fn of(cells: Cells, start: usize, end: usize) -> FunctionPlace
        requires { Standing cells.words.now cells.tags.now start }
        ensures { (result.start ≡ start) × (result.exprs ≡ expressions_at start cells.entry.words.now) × Body result.body cells.entry.words.now cells.entry.tags.now start × (result.end ≡ end) }
    {
        FunctionPlace {
            start,
            exprs: expressions_at(cells.words, start),
            body: cells.body_at(start),
            end,
        }
    }
}

// Appends the function on the stacks, above `before`, as a record of table t, which has at most `limit`, after the `head` words above its expressions. Its
// declarations and its body have the classes that the source has in their place. It takes the three arrays that it writes, not the module: that maps and buckets
// stay needs no clause so. `limit` is a parameter, and not read from the table: the promise is of any limit, and with the table's in its place it would be less, which no
// public function's may become.
pub fn append_record(
    tags: &Tags,
    log: &mut Log,
    logtags: &mut LogTags,
    starts: &mut Starts,
    stacks: &StackRows,
    ends: Sizes,
    before: Sizes,
    place: FunctionPlace,
    t: usize,
    head: usize,
    limit: usize,
) -> Result<Sizes, Full>
    requires s_le_exprs { (place.start ≤ place.exprs) × (place.exprs ≤ place.body) × (place.body ≤ place.end) × (place.end ≤ 16384) × (length tags.now ≡ 16384) }
    requires t_bound { (t < 8) × (limit ≤ 512) × (get_or ends.counts t 0 ≤ limit) × (ends.exprtop + head ≤ 16384) × (ends.made ≤ 16384) }
    requires stacks { (Stacks stacks.now (going ends)) × (before.exprtop ≤ ends.exprtop) × (before.bodytop + carried_words place ≤ ends.bodytop) }
    requires body_len { length (pairs_in (slice (before.bodytop + carried_words place) ends.bodytop (row stacks.now 3))) * 2 + (before.bodytop + carried_words place) ≡ ends.bodytop }
    requires by_index { (i : ℕ) → before.exprtop ≤ i → i < ends.exprtop + head → get_or (row stacks.now 1) i 0 < 256 }
    requires loglen_bound { (23 + 2 * ends.pairs + ends.loglen ≤ 16384) × (length log.old ≡ 16384) × (length logtags.old ≡ 16384) × (length starts.old ≡ 8) × (length (row starts.old t) ≡ 512) × (length ends.counts ≡ 8) }
    ensures { AppendRecordEnsures (between (row stacks.now 1) (row stacks.now 0) ends.exprtop (ends.exprtop + head) ++ closed tags.now stacks.now (going before) (going ends) place) limit t (going before) (going ends) log.old logtags.old starts.old (told result) log.new logtags.new starts.new }
{
    let front = place.exprs - place.start;
    let tail = place.end - place.body;
    let exprtop = ends.exprtop as usize;
    let e = before.exprtop as usize;
    let b = before.bodytop as usize;
    let made = exprtop - e;
    let names = ends.bodytop as usize - b - front - tail;
    let size = head + front + 1 + made + 1 + names + tail;
    let count = ends.counts[t] as usize;
    if count == limit || ends.words_left() < 1 + size {
        return Err(Full);
    }
    let loglen = ends.loglen as usize;
    let p = loglen + 1 + head;
    log[loglen] = size as u32;
    copy_expressions(stacks, exprtop, head, log, logtags, loglen + 1);
    copy_carried(stacks, tags, b, place.start, front, log, logtags, p);
    log[p + front] = ends.made as u32;
    logtags[p + front] = EXPRESSIONS;
    copy_expressions(stacks, e, made, log, logtags, p + front + 1);
    let q = p + front + 1 + made;
    log[q] = (names / 2) as u32;
    logtags[q] = NAMED;
    copy_names(stacks, b + front + tail, names, log, logtags, q + 1);
    copy_carried(
        stacks,
        tags,
        b + front,
        place.body,
        tail,
        log,
        logtags,
        q + 1 + names,
    );
    starts[t][count] = loglen as u32;
    Ok(Sizes {
        exprtop: before.exprtop,
        bodytop: before.bodytop,
        made: before.made,
        ..ends.with_record(t, 1 + size)
    })
}
