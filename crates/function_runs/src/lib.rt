// Words that need no import, copied in runs: each goes through the maps as they are, with its span moved, to the stack of words. Most words of a function are
// such, so the sizes of the tables need not be passed along with each of them.
#![tactic(auto)]

ghost use Rattle.std.specs.Prelude.{MatchOption, ◌≡◌, true, List, [], ℕ, suc, ◌≤◌, ◌<◌, ◌+◌, ◌-◌, length, get_or};
ghost use Rattle.model.specs.Table.{EXPR as EXPR'};
ghost use Rattle.model.specs.Between.{between, Stretch};
ghost use Rattle.model.specs.References.{target, ref_of, first_word, undefined_at};
ghost use Rattle.theory_records.specs.RecordLaws.{All};
ghost use Rattle.theory_passes.specs.Pass.{atomic_kind};
ghost use Rattle.derive_state.specs.Refers.{target_of};
ghost use Rattle.derive_state.specs.Source.{refers_to, number_of};
ghost use Rattle.function_references.specs.Fits.{FitN, Legible};
ghost use Rattle.function_builder.specs.Stacks.{went_by};
ghost use Rattle.function_runs.specs.Copied.{Quiet, becomes, Copied, Stopped};

use base_classes::{FROM, SPAN, STMT_KIND, TO};
use base_views::Cells;
use derive_imports::{Referent, referent_of};
use derive_state::{ExprMap, Maps, Sizes, StackRows, Target, moved, target_of, undefined_at};
use function_builder::{BODY, ROW_LEN, by_maps};

// Whether the span last met is undefined, once word i is read. The word after it is read only where a span starts, since this is called for every word.
pub fn span_undefined(cells: Cells, i: usize, end: usize, u: bool) -> bool
    requires { (Stretch cells.words.now cells.tags.now i end) × (i < end) }
    ensures { result ≡ undefined_at (target (get_or cells.entry.tags.now i 0)) (get_or cells.entry.words.now i 0) (first_word (between cells.entry.tags.now cells.entry.words.now (suc i) end)) u }
{
    let s = cells.tags[i];
    let next = if s == SPAN && i + 1 < end {
        cells.words[i + 1]
    } else {
        0
    };
    undefined_at(s, cells.words[i], next, u)
}

// Whether a statement of the kind k is atomic.
#[tactic(auto, unfolding(theory_passes::specs::Pass::atomic_kind))]
pub fn atomic(k: u32) -> bool
    ensures { result ≡ atomic_kind k }
{
    matches!(k, base_kinds::ATOMIC | base_kinds::IMAGE_ATOMIC)
}

// Whether the word w of the class s needs no import: it names no function, starts no Emit and no atomic statement, and what it refers to is mapped.
fn is_mapped_word(maps: &Maps, exprmap: &ExprMap, s: u8, w: u32) -> bool
    requires w_bound { (s < EXPR' → refers_to (target s) w < 6 → number_of (target s) w < 512) × (EXPR' ≤ s → refers_to (target s) w ≡ 5 → number_of (target s) w < 1024) }
    ensures { result ≡ true → Quiet maps.now exprmap.now s w }
{
    match target_of(s) {
        Target::Nothing => s != FROM && (s != STMT_KIND || !atomic(w)),
        Target::Function => false,
        _ => match referent_of(s, w) {
            None => true,
            Some(Referent::Record(r)) => maps[r.table][r.number as usize] != 0,
            Some(Referent::Own(e)) => exprmap[e as usize] != 0,
        },
    }
}

// What such a word becomes, where so many expressions are made: that is the end of an Emit's range; any other goes through the maps, with its span moved.
fn carry(maps: &Maps, exprmap: &ExprMap, made: usize, offset: u32, s: u8, w: u32, u: bool) -> u32
    requires fact { (target_of (target s) ≡ 7 → ⊥) × (made ≤ 16384) }
    requires by_index { (ws : List ℕ) × All (FitN ws 1024) (ref_of (target s) w []) }
    ensures { result ≡ becomes (went_by maps.now exprmap.now) made offset s w u }
{
    if s == TO {
        return made as u32;
    }
    moved(s, by_maps(maps, exprmap, s, w), offset, u)
}

// How far the words of a function are passed, the sizes then, and whether the span last met is undefined.
#[derive(Clone, Copy)]
pub struct Reach {
    pub at: usize,
    pub sizes: Sizes,
    pub undefined: bool,
}

impl Reach {
    // As far as word `at`, where each word passed is one more on the stack of words.
    fn pass(&mut self, at: usize, undefined: bool)
        requires { (self.old.at ≤ at) × (self.old.sizes.bodytop + (at - self.old.at) ≤ 16384) }
        ensures { self.new ≡ record { at = at; sizes = record { loglen = self.old.sizes.loglen; counts = self.old.sizes.counts; pairs = self.old.sizes.pairs; exprtop = self.old.sizes.exprtop; bodytop = self.old.sizes.bodytop + (at - self.old.at); made = self.old.sizes.made }; undefined = undefined } }
    {
        let bodytop = self.sizes.bodytop as usize + (at - self.at);
        self.sizes.bodytop = bodytop as u16;
        self.at = at;
        self.undefined = undefined;
    }
}

// Copies the words from where `reach` is on, up to `end`, to the stack of words, as long as they need no import and there is room. Not put into `next_word`, where
// registers are fewer and each word took two instructions more. A `for` with a return, since each turn writes its word. Cells and offset are two parameters here and in
// `next_word`: a source would ask more, that it passed the tests.
#[inline(never)]
pub fn copy_mapped_run(
    cells: Cells,
    offset: u32,
    maps: &Maps,
    exprmap: &ExprMap,
    stacks: &mut StackRows,
    reach: &mut Reach,
    end: usize,
)
    requires legible { (Legible cells.words.now cells.tags.now 1024 reach.old.at end) × (reach.old.sizes.bodytop ≤ 16384) × (reach.old.sizes.made ≤ 16384) }
    ensures { Copied cells.entry.words.now cells.entry.tags.now maps.now exprmap.now offset end reach.old stacks.old reach.new.at reach.new.undefined reach.new.sizes stacks.new }
{
    let at = reach.at;
    let bodytop = reach.sizes.bodytop as usize;
    let made = reach.sizes.made as usize;
    let mut u = reach.undefined;
    // a `for` with a return: `find` in its place would have a closure that writes the stacks and `u` at each turn
    for i in at..end {
        let p = bodytop + (i - at);
        let s = cells.tags[i];
        let w = cells.words[i];
        if p == ROW_LEN || !is_mapped_word(maps, exprmap, s, w) {
            reach.pass(i, u);
            return;
        }
        u = span_undefined(cells, i, end, u);
        stacks[BODY][p] = carry(maps, exprmap, made, offset, s, w, u);
    }
    reach.pass(end, u);
}

// Copies words as `copy_mapped_run` does, and passes the one at which that stops: its place, or None where all up to `end` are copied.
pub fn next_word(
    cells: Cells,
    offset: u32,
    maps: &Maps,
    exprmap: &ExprMap,
    stacks: &mut StackRows,
    reach: &mut Reach,
    end: usize,
) -> Option<usize>
    requires legible { (Legible cells.words.now cells.tags.now 1024 reach.old.at end) × (reach.old.sizes.bodytop ≤ 16384) × (reach.old.sizes.made ≤ 16384) }
    ensures { MatchOption result (Copied cells.entry.words.now cells.entry.tags.now maps.now exprmap.now offset end reach.old stacks.old end reach.new.undefined reach.new.sizes stacks.new) (λ j. Stopped cells.entry.words.now cells.entry.tags.now maps.now exprmap.now offset end reach.old stacks.old j reach.new stacks.new) }
{
    copy_mapped_run(cells, offset, maps, exprmap, stacks, reach, end);
    if reach.at == end {
        return None;
    }
    let j = reach.at;
    reach.at += 1;
    reach.undefined = span_undefined(cells, j, end, reach.undefined);
    Some(j)
}
