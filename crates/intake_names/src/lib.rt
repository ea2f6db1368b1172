// Refusal 5, BadNames: what has to have a name and has none, and what is equal and has to differ.
// Cost: the named expressions are one pass, with marks; what has to differ is looked at by the crate intake_distinct.
#![tactic(auto)]

ghost use Rattle.std.specs.Prelude.{◌≡◌};
ghost use Rattle.model.specs.Module.{Module, count_at};
ghost use Rattle.model.specs.Taped.{Taped};
ghost use Rattle.model.specs.Between.{between, Stretch};
ghost use Rattle.model.specs.Carry.{Each};
ghost use Rattle.model.specs.Names.{present as presentOf, named as named_of, Numbered};
ghost use Rattle.intake_distinct.specs.Listed.{listing, number_at, Placed};
ghost use Rattle.intake_names.specs.Passes.{unnamed as unnamedOf, NONE, marking, Small};

use base_classes::{NAME, NAMED, NAMED_EXPR};
use base_views::{Cells, ENTRIES, FUNCTIONS, Image, SPECIAL, count, offset};
use base_words::Words;
use intake_distinct::{differ, distinct, number};

// Whether all of section k have a name.
fn present(words: &Words, k: usize) -> bool
    requires { Placed words.now k }
    ensures { result ≡ presentOf (listing (number_at words.now k) (count_at k words.now) 0) }
{
    (0..count(words, k)).all(|j| number(words, k, j) != 0)
}

// Whether a word w of the class s, after a word of the class `before`, is the name of an expression, and is none.
#[tactic(auto, unfolding(crate::specs::Passes::unnamed))]
fn unnamed(before: u8, s: u8, w: u32) -> bool
    ensures { result ≡ unnamedOf before s w }
{
    before == NAMED_EXPR && s == NAME && w == 0
}

// Whether each named expression has a name, and none is named twice in a function. The stretch is two numbers with a clause: a struct for this one contract would be
// made at both calls.
fn expressions(cells: Cells, at: usize, end: usize) -> bool
    requires stretch { Stretch cells.words.now cells.tags.now at end }
    requires each { Each Small (between cells.tags.now cells.words.now at end) }
    ensures { result ≡ marking (between cells.entry.tags.now cells.entry.words.now at end) 0 NONE }
{
    let mut marks = [false; 1024];
    let mut before = 0;
    // A loop: each turn writes `marks` and `before`, and the closure of an `all` would have to say again that a named number has a mark.
    for j in at..end {
        let s = cells.tags[j];
        let w = cells.words[j];
        if unnamed(before, s, w) {
            return false;
        }
        if s == NAMED {
            marks = [false; 1024];
        } else if s == NAMED_EXPR {
            let e = w as usize;
            if marks[e] {
                return false;
            }
            marks[e] = true;
        }
        before = s;
    }
    true
}

// Whether all that has to be named is, and what has to differ does, in the image.
pub fn named(image: Image) -> bool
    requires { Numbered image.words.now image.tags.now image.n }
    ensures { (m : Module) → Taped image.entry.words.now image.entry.tags.now image.entry.n m → result ≡ named_of m }
{
    let functions = offset(image.words, FUNCTIONS);
    let entries = offset(image.words, ENTRIES);
    let special = offset(image.words, SPECIAL);
    let cells = image.cells();
    present(image.words, FUNCTIONS)
        && present(image.words, ENTRIES)
        && expressions(cells, functions, entries)
        && expressions(cells, entries, special)
        && differ(image.words)
        && distinct(image.words, FUNCTIONS)
        && distinct(image.words, SPECIAL)
}
