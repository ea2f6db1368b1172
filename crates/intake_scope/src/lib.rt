// The sixth test: every body of an image is in scope, in one pass over each.
#![tactic(auto)]

ghost use Rattle.model.specs.Scope.{in_scope};
ghost use Rattle.intake_numbers.specs.Passes.{TestEnsures};
ghost use Rattle.intake_scope.specs.Functions.{Known, Tested, Stated, Scoped, InRange};

use base_views::{Cells, Image, expressions_at, locals_at};
use intake_blocks::body;
use intake_initialisers::{Visited, places};
use intake_numbers::{FunctionTable, all_functions};
use intake_statements::{Expressions, Places, Starts, Until};

// The large arrays that a pass works in, made once for an image and used by one function after the other: where expressions start, what is visited of
// them, and up to which word each is in scope. The first is written before it is read, each function clears the marks of the second, and each body as
// much of the last as its function has expressions.
#[derive(Drop)]
struct Scratch {
    starts: Starts,
    visited: Visited,
    until: Until,
}

// Is the body of a function in scope? Its lists of locals and expressions have their numbers at the words `locals` and `exprs`.
fn scoped(cells: Cells, scratch: &mut Scratch, locals: usize, exprs: usize, end: usize) -> bool
    requires { Known cells.words.now cells.tags.now locals exprs end }
    ensures { Tested result cells.entry.words.now cells.entry.tags.now locals exprs end }
{
    let count = cells.words[locals] as usize;
    let e = cells.words[exprs] as usize;
    places(cells.tags, exprs + 1, end, &mut scratch.starts);
    scratch.visited.begin(e);
    scratch.visited.roots(cells.words, locals + 1, count);
    // what is reached is marked; that it is of kinds that are allowed, which `reach` answers, is known by the third test
    scratch.visited.reach(cells, &scratch.starts);
    // where the body starts, without a second walk over the expressions, which `Cells::body_at` makes
    let named = scratch.starts[e] as usize;
    let at = named + 1 + 2 * (cells.words[named] as usize);
    // lent first: the borrow checker does not cover it lent after the arrays that go into the struct
    let until = &mut scratch.until;
    let places = Places {
        cells,
        starts: &scratch.starts,
        count: e,
    };
    let expressions = Expressions {
        places,
        initial: &scratch.visited.marks,
    };
    body(expressions, until, at, end)
}

// The same of the record from `at` to `end` whose function starts at `from`. The contract alone speaks of `at`, which is no ghost: the call is in a closure, and
// there the borrow checker covers no choice of a ghost value.
fn function(cells: Cells, scratch: &mut Scratch, at: usize, from: usize, end: usize) -> bool
    requires { Stated cells.words.now cells.tags.now at from end }
    ensures { Scoped result cells.entry.words.now cells.entry.tags.now at from end }
{
    let locals = locals_at(cells.words, from);
    let exprs = expressions_at(cells.words, from);
    scoped(cells, scratch, locals, exprs, end)
}

// Is an image whose numbers are in range in scope?
pub fn in_scope(image: Image) -> bool
    requires { InRange image.words.now image.tags.now image.n }
    ensures { TestEnsures result image.entry.words.now image.entry.tags.now image.entry.n in_scope }
{
    let mut scratch = Scratch {
        starts: [0; 1025],
        visited: Visited::new(0),
        until: [0; 1024],
    };
    let cells = image.cells();
    let fine = |scratch: &mut Scratch, at: usize, from: usize, end: usize| {
        function(cells, scratch, at, from, end)
    };
    all_functions(image, FunctionTable::Functions, &mut scratch, &fine)
        && all_functions(image, FunctionTable::Entries, &mut scratch, &fine)
}
