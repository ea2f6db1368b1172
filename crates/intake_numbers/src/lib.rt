// Refusal 3, BadRange: a number or code out of range, or a kind barred from its place. Flat passes over words and tags: one comparison for each word with the
// bound of its class; a second look at Emit's start; and the kinds that the initialisers of locals reach, each expression visited once.
// The cost is linear in the words, about 1 ns each. The worst are functions of 1,024 expressions whose operands run forward from one initialiser: two of
// them, 12,353 words, take about 40 microseconds.
#![tactic(auto)]

ghost use Rattle.std.specs.Prelude.{◌≡◌, ℕ, ◌+◌, ◌<◌, get_or};
ghost use Rattle.model.specs.Module.{count_at};
ghost use Rattle.model.specs.View.{record_at, record_end};
ghost use Rattle.model.specs.Operands.{constant_kind};
ghost use Rattle.model.specs.Numbers.{numbered as numberedOf};
ghost use Rattle.intake_numbers.specs.Passes.{TestEnsures, Tabled, Framed, Sound, Passed, section_of, head_of, tables_fine, kinds_fine};

use base_kinds::constant;
use base_views::{
    Cells, ENTRIES, ENTRY_HEAD, EXPRESSIONS, FUNCTIONS, Image, SPECIAL, TYPES, arguments_at, count,
    expressions_at, locals_at, offset,
};
use intake_initialisers::initialised;
use intake_ranges::Bounds;

// Sections 1 to 5, which lie one after the other, and 8.
fn tables(image: Image, bounds: &Bounds) -> bool
    ensures { Tabled result image.entry.words.now image.entry.tags.now image.entry.n bounds.now.below tables_fine }
{
    let cells = image.cells();
    let types = offset(image.words, TYPES);
    let functions = offset(image.words, FUNCTIONS);
    let special = offset(image.words, SPECIAL);
    bounds.in_range(cells, types, functions) && bounds.in_range(cells, special, image.n)
}

// Whether global expression i is of a kind that is allowed outside functions.
fn constant_at(image: Image, i: usize) -> bool
    requires { i < count_at 5 image.words.now }
    ensures { result ≡ constant_kind (get_or image.entry.words.now (record_at 5 i image.entry.words.now) 0) }
{
    constant(image.words[image.record_at(EXPRESSIONS, i)])
}

// The kinds of global expressions.
fn kinds(image: Image) -> bool
    ensures { TestEnsures result image.entry.words.now image.entry.tags.now image.entry.n kinds_fine }
{
    (0..count(image.words, EXPRESSIONS)).all(|i| constant_at(image, i))
}

// A record from `at` to `end` whose function starts at `from`: every word in range, Emit's ranges, and what initialisers reach.
fn function(cells: Cells, bounds: &mut Bounds, at: usize, from: usize, end: usize) -> bool
    requires { Framed cells.words.now cells.tags.now at from end }
    ensures { Sound result bounds.new.below bounds.old.below cells.entry.words.now cells.entry.tags.now at from end }
{
    let locals = locals_at(cells.words, from);
    let exprs = expressions_at(cells.words, from);
    bounds.set_function(
        cells.words[exprs],
        cells.words[arguments_at(from)],
        cells.words[locals],
    );
    bounds.function_in_range(cells, at, end) && initialised(cells, locals, exprs, end)
}

// The tables whose records have a function.
#[derive(Clone, Copy)]
pub enum FunctionTable {
    Functions,
    Entries,
}

impl FunctionTable {
    // Its section.
    fn section(self) -> usize
        ensures { result ≡ section_of self }
    {
        match self {
            FunctionTable::Functions => FUNCTIONS,
            FunctionTable::Entries => ENTRIES,
        }
    }

    // How many words a record has in front of its function.
    fn head(self) -> usize
        ensures { result ≡ head_of self }
    {
        match self {
            FunctionTable::Functions => 0,
            FunctionTable::Entries => ENTRY_HEAD,
        }
    }
}

// Whether `fine` holds of the function of every record of a table. It is given where the record starts, where its function starts, and where the record ends; after
// the first of which it does not hold no more are asked.
pub fn all_functions<S, F: Fn(&mut S, usize, usize, usize) -> bool>(
    image: Image,
    table: FunctionTable,
    scratch: &mut S,
    fine: F,
) -> bool
    requires { (s : _) (i : ℕ) → i < count_at (section_of table) image.words.now → F.pre fine s (record_at (section_of table) i image.words.now) (record_at (section_of table) i image.words.now + head_of table) (record_end (section_of table) i image.words.now) }
    ensures { Passed (F.post fine) image.entry.words.now table 0 scratch.old result scratch.new }
{
    let section = table.section();
    // A loop: each turn may write `scratch`, and the closure of an `all` would have to say again what `fine` requires.
    for i in 0..count(image.words, section) {
        let (at, end) = image.record(section, i);
        if !fine(scratch, at, at + table.head(), end) {
            return false;
        }
    }
    true
}

// Whether every number and code is in range and every kind in its place.
pub fn numbered(image: Image) -> bool
    ensures { TestEnsures result image.entry.words.now image.entry.tags.now image.entry.n numberedOf }
{
    let mut bounds = Bounds::of_codes();
    bounds.set_module(image.words);
    let cells = image.cells();
    let fine = |bounds: &mut Bounds, at: usize, from: usize, end: usize| {
        function(cells, bounds, at, from, end)
    };
    tables(image, &bounds)
        && kinds(image)
        && all_functions(image, FunctionTable::Functions, &mut bounds, &fine)
        && all_functions(image, FunctionTable::Entries, &mut bounds, &fine)
}
