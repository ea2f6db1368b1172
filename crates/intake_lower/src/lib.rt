// Refusal 4, BadReference: a base, a member, an operand or an init that is not lower than what names it. Flat passes over the words and the tags, linear in the
// words. `count` is how many records have begun, so the record that is being read has the number count - 1.
#![tactic(auto)]

ghost use Rattle.std.specs.Prelude.{◌≡◌, ℕ, ◌+◌, ◌^◌, ◌≤◌, ◌<◌};
ghost use Rattle.model.specs.Module.{Module, count_at};
ghost use Rattle.model.specs.Taped.{Taped};
ghost use Rattle.model.specs.Between.{Stretch};
ghost use Rattle.model.specs.Lower.{lower as lowerOf};
ghost use Rattle.intake_lower.specs.Passes.{type_next, type_ok, expr_next, expr_ok, word_at, init_ok, Reaches, Passed};

use base_classes::{CONSTANT, EXPR, EXPR_KIND, NAMED, OPT_EXPR, OVERRIDE, TYPE, TYPE_KIND};
use base_views::{
    CONSTANTS, Cells, ENTRIES, EXPRESSIONS, FUNCTIONS, Image, OVERRIDES, SPECIAL, TYPES, offset,
    start_of,
};
use base_words::Words;

// A type begins with its kind.
#[tactic(auto, unfolding(crate::specs::Passes::type_next))]
fn type_next(s: u8, count: usize) -> usize
    requires { count < 16384 }
    ensures { result ≡ type_next s count }
{
    if s == TYPE_KIND { count + 1 } else { count }
}

// A base or a member is lower.
#[tactic(auto, unfolding(crate::specs::Passes::type_ok))]
fn type_ok(s: u8, w: u32, count: usize) -> bool
    ensures { result ≡ type_ok s w count }
{
    s != TYPE || w as usize + 1 < count
}

// An expression begins with its kind; the expressions of a function are followed by the named ones.
#[tactic(auto, unfolding(crate::specs::Passes::expr_next))]
fn expr_next(s: u8, count: usize) -> usize
    requires { count < 16384 }
    ensures { result ≡ expr_next s count }
{
    match s {
        EXPR_KIND => count + 1,
        NAMED => 0,
        _ => count,
    }
}

// An operand is lower; what statements read is not tested here.
#[tactic(auto, unfolding(crate::specs::Passes::expr_ok))]
fn expr_ok(s: u8, w: u32, count: usize) -> bool
    ensures { result ≡ expr_ok s w count }
{
    count == 0
        || match s {
            EXPR => w as usize + 1 < count,
            OPT_EXPR => (w as usize) < count,
            _ => true,
        }
}

// Word d of record j of section k.
#[tactic(auto, unfolding(crate::specs::Passes::word_at))]
fn word_at(words: &Words, k: usize, j: usize, d: usize) -> usize
    requires k_bound { (k < 9) × (j < count_at k words.now) × (d < 8) }
    requires reaches { Reaches words.now k d }
    ensures { (result ≡ word_at words.now k j d) × (result < 2 ^ 32) }
{
    words[start_of(words, k, j) + d] as usize
}

// The init of a constant or an override that is named is lower; a number outside the table names none.
#[tactic(auto, unfolding(crate::specs::Passes::init_ok))]
fn init_ok(words: &Words, s: u8, w: u32, count: usize) -> bool
    requires { Reaches words.now 2 4 × Reaches words.now 3 5 }
    ensures { result ≡ init_ok words.now s w count }
{
    let j = w as usize;
    match s {
        CONSTANT => base_views::count(words, CONSTANTS) <= j
            || word_at(words, CONSTANTS, j, 4) + 1 < count,
        OVERRIDE => base_views::count(words, OVERRIDES) <= j
            || word_at(words, OVERRIDES, j, 5) < count,
        _ => true,
    }
}

// One pass over the words from `at` to `end`: `next` counts by the class of a word, and `ok` tests the word by the count. The stretch is two numbers with a clause: a
// struct for this one contract would be made at four calls.
fn pass<N: Fn(u8, usize) -> usize, K: Fn(u8, u32, usize) -> bool>(
    cells: Cells,
    at: usize,
    end: usize,
    next: N,
    ok: K,
) -> bool
    requires stretch { Stretch cells.words.now cells.tags.now at end }
    requires counts { (s n : ℕ) → s < 256 → n < 16384 → N.pre next s n }
    requires grows { (s n r : ℕ) → s < 256 → n < 16384 → N.post next s n r → r ≤ n + 1 }
    requires tests { (s w n : ℕ) → s < 256 → w < 2 ^ 32 → n ≤ 16384 → K.pre ok s w n }
    ensures { Passed (N.post next) (K.post ok) result cells.entry.words.now cells.entry.tags.now at end }
{
    let mut count = 0;
    // A loop: each turn writes `count`, and the closure of an `all` would have to say again what `next` and `ok` require.
    for j in at..end {
        count = next(cells.tags[j], count);
        if !ok(cells.tags[j], cells.words[j], count) {
            return false;
        }
    }
    true
}

// Whether every reference of the image is lower.
pub fn lower(image: Image) -> bool
    ensures { (m : Module) → Taped image.entry.words.now image.entry.tags.now image.entry.n m → result ≡ lowerOf m }
{
    let exprs = offset(image.words, EXPRESSIONS);
    let functions = offset(image.words, FUNCTIONS);
    let entries = offset(image.words, ENTRIES);
    let types = offset(image.words, TYPES);
    let constants = offset(image.words, CONSTANTS);
    let special = offset(image.words, SPECIAL);
    let cells = image.cells();
    pass(cells, types, constants, type_next, type_ok)
        && pass(cells, exprs, functions, expr_next, |s, w, count| {
            expr_ok(s, w, count) && init_ok(image.words, s, w, count)
        })
        && pass(cells, functions, entries, expr_next, expr_ok)
        && pass(cells, entries, special, expr_next, expr_ok)
}
