// What the initialisers of a function's locals reach, along operands as they are, lower or not: marks and a list of what is still to be visited, so
// that each expression is visited once. Where the expressions of a function start is asked of `places` by intake_scope and function_localize as well.
#![tactic(auto)]

ghost use Rattle.std.specs.Prelude.{◌≡◌, [], ◌∷◌, ◌+◌, ◌*◌, ◌≤◌, length, drop, replicate};
ghost use Rattle.std.proofs.Math.Seq.{slice};
ghost use Rattle.model.specs.Operands.{ops_of};
ghost use Rattle.model.specs.Between.{between};
ghost use Rattle.intake_initialisers.specs.Lists.{Listed, Initialised};
ghost use Rattle.intake_initialisers.specs.Marks.{finds, Found, reads, inits, Unvisited, Visits, Reaching, Reaches};

use base_classes::{EXPR, EXPR_KIND, NAMED, OPT_EXPR};
use base_kinds::constant;
use base_views::Cells;
use base_words::{Tags, Words};

mod visited;

pub use visited::Visited;

// Where each expression record starts, from `at` on, and where the last one ends, as numbers of 16 bits or more: a record starts with its kind, and the last is
// followed by the number of named expressions. A loop, since it writes; that number ends it, and has an arm of its own: one arm for both classes, which writes once,
// would ask the class a second time, to return. The stretch is two numbers with their bounds, as those of `spread`: each would be a struct for one contract.
pub fn places<N: From<u16> + Copy>(tags: &Tags, at: usize, end: usize, starts: &mut [N; 1025])
    requires tags_len { length tags.now ≡ 16384 }
    requires at_le_end { at ≤ end }
    requires end_bound { end ≤ 16384 }
    requires tags_len_bound { length (finds at (slice at end tags.now)) ≤ 1025 }
    ensures { Found N.From.from_gives (finds at (slice at end tags.now)) starts.old starts.new }
{
    let mut k = 0;
    for j in at..end {
        match tags[j] {
            NAMED => {
                starts[k] = N::from(j as u16);
                return;
            }
            EXPR_KIND => {
                starts[k] = N::from(j as u16);
                k += 1;
            }
            _ => {}
        }
    }
}

// The expression that a word of the class s reads, if it reads one: an optional operand is 0, or the number plus 1.
#[tactic(auto, unfolding(crate::specs::Marks::reads, crate::specs::Marks::before))]
fn operand(s: u8, w: u32) -> Option<u32>
    ensures { result ≡ reads s w }
{
    match s {
        EXPR => Some(w),
        OPT_EXPR => w.checked_sub(1),
        _ => None,
    }
}

impl Visited {
    // Of `count` expressions none is visited.
    pub fn new(count: usize) -> Self
        requires { count ≤ 1024 }
        ensures { Unvisited count (replicate 1024 0) result }
    {
        Visited {
            marks: [false; 1024],
            list: [0; 1024],
            top: 0,
            count,
        }
    }

    // The same, of what was in use: the list may hold anything, since it is written before it is read. `*self = Visited::new(count)` would clear its 4,096 bytes as well,
    // for each function.
    pub fn begin(&mut self, count: usize)
        requires { count ≤ 1024 }
        ensures { Unvisited count self.old.list self.new }
    {
        self.marks = [false; 1024];
        self.top = 0;
        self.count = count;
    }

    // Marks the expression x, and puts it on the list; a number outside the table is none.
    fn visit(&mut self, x: u32)
        ensures { Visits (x ∷ []) self.old self.new }
    {
        let place = x as usize;
        if self.count <= place || self.marks[place] {
            return;
        }
        self.marks[place] = true;
        self.list[self.top] = x;
        self.top += 1;
    }

    // Visits what the words from `at` to `end` read.
    fn spread(&mut self, cells: Cells, at: usize, end: usize)
        requires at_le_end { at ≤ end }
        requires end_bound { end ≤ 16384 }
        ensures { Visits (ops_of (between cells.entry.tags.now cells.entry.words.now at end)) self.old self.new }
    {
        for j in at..end {
            if let Some(x) = operand(cells.tags[j], cells.words[j]) {
                self.visit(x);
            }
        }
    }

    // Visits the initialisers of `locals` locals from `at` on, each of five words with its initialiser last.
    pub fn roots(&mut self, words: &Words, at: usize, locals: usize)
        requires words_len { length words.now ≡ 16384 }
        requires locals_bound { at + 5 * locals ≤ 16384 }
        ensures { Visits (inits locals (drop at words.now)) self.old self.new }
    {
        for j in 0..locals {
            if let Some(x) = words[at + 5 * j + 4].checked_sub(1) {
                self.visit(x);
            }
        }
    }

    // Visits what is on the list, until nothing is: whether all of it is of kinds that are allowed outside functions too.
    pub fn reach(&mut self, cells: Cells, starts: &[u32; 1025]) -> bool
        requires { Reaching cells.words.now cells.tags.now starts.now self.old }
        ensures { Reaches result cells.entry.words.now cells.entry.tags.now starts.now self.old self.new }
    {
        while 0 < self.top {
            self.top -= 1;
            let x = self.list[self.top] as usize;
            let at = starts[x] as usize;
            if !constant(cells.words[at]) {
                return false;
            }
            self.spread(cells, at, starts[x + 1] as usize);
        }
        true
    }
}

// Whether what the initialisers reach is of those kinds; `locals` and `exprs` are where the two lists have their numbers.
pub fn initialised(cells: Cells, locals: usize, exprs: usize, end: usize) -> bool
    requires { Listed cells.words.now cells.tags.now locals exprs end }
    ensures { Initialised result cells.entry.words.now cells.entry.tags.now locals exprs end }
{
    let count = cells.words[locals] as usize;
    // Two early returns: after `||` would stand the rest as a block, which is no plainer.
    if count == 0 {
        return true;
    }
    let mut visited = Visited::new(cells.words[exprs] as usize);
    visited.roots(cells.words, locals + 1, count);
    if visited.top == 0 {
        return true;
    }
    let mut starts = [0; 1025];
    places(cells.tags, exprs + 1, end, &mut starts);
    visited.reach(cells, &starts)
}
