// Numbers and codes in range: each word is compared with the bound of its class.
#![tactic(auto)]

ghost use Rattle.std.specs.Prelude.{◌≡◌, ◌+◌, ◌^◌, ◌≤◌, ◌<◌, ltb, get_or};
ghost use Rattle.model.specs.Numbers.{rising as risingOf};
ghost use Rattle.model.specs.Between.{between};
ghost use Rattle.intake_ranges.specs.Ranges.{table, codes, headed, InRangeEnsures, FunctionInRangeEnsures, with_own, Owned};

use base_classes::{
    ARGUMENT, CALLEE, CONSTANT, EXPR, FROM, FUNCTION, GLOBAL, INIT, LOCAL, LOCAL_INIT, NAME,
    NAMED_EXPR, OPT_EXPR, OPT_INIT, OPT_RESULT, OPT_TYPE, OVERRIDE, RESULT, TO, TYPE, WORD,
};
use base_views::{
    CONSTANTS, Cells, EXPRESSIONS, FUNCTIONS, GLOBALS, NAMES, OVERRIDES, TYPES, count,
};
use base_words::Words;

// For each class, by its number, what a word of it stays below.
#[derive(Drop)]
pub struct Bounds {
    pub below: [u64; 256],
}

// Whether the word at i, if it is Emit's start, is at most the word after it.
#[tactic(auto, using(theory_image::specs::Betweens::between_none, theory_image::specs::Betweens::between_cons), unfolding(model::specs::Numbers::rising))]
fn emit_in_order(cells: Cells, i: usize, end: usize) -> bool
    requires i_lt_end { i < end }
    requires end_bound { end ≤ 16384 }
    ensures { result ≡ risingOf (get_or cells.entry.tags.now i 0, get_or cells.entry.words.now i 0) (between cells.entry.tags.now cells.entry.words.now (i + 1) end) }
{
    cells.tags[i] != FROM || end <= i + 1 || cells.words[i] <= cells.words[i + 1]
}

impl Bounds {
    // The bounds before the counts are known: a code, whose class is below WORD, below its class, and any other word below 4,294,967,296.
    pub fn of_codes() -> Self
        ensures { result.below ≡ codes }
    {
        let mut below = [4294967296u64; 256];
        for i in 0..WORD as usize {
            below[i] = i as u64;
        }
        Bounds { below }
    }

    // The bounds outside functions, from the header: an optional number may be its count, which is one more than the last number.
    pub fn set_module(&mut self, words: &Words)
        requires { self.old.below ≡ codes }
        ensures { self.new.below ≡ table (headed words.now) }
    {
        let names = count(words, NAMES) as u64;
        let types = count(words, TYPES) as u64;
        let inits = count(words, EXPRESSIONS);
        let functions = count(words, FUNCTIONS) as u64;
        self.below[NAME as usize] = names + 1;
        self.below[TYPE as usize] = types;
        self.below[OPT_TYPE as usize] = types + 1;
        self.below[CONSTANT as usize] = count(words, CONSTANTS) as u64;
        self.below[OVERRIDE as usize] = count(words, OVERRIDES) as u64;
        self.below[GLOBAL as usize] = count(words, GLOBALS) as u64;
        self.below[INIT as usize] = inits as u64;
        self.below[OPT_INIT as usize] = inits as u64 + 1;
        self.below[FUNCTION as usize] = functions;
        self.below[CALLEE as usize] = functions;
        self.set_function(inits as u32, 0, 0);
    }

    // The bounds in a function with these numbers of expressions, arguments and locals.
    pub fn set_function(&mut self, exprs: u32, arguments: u32, locals: u32)
        ensures is { self.new.below ≡ with_own self.old.below exprs arguments locals }
        ensures owned { Owned self.new.below self.old.below exprs arguments locals }
    {
        let e = exprs as u64;
        self.below[EXPR as usize] = e;
        self.below[OPT_EXPR as usize] = e + 1;
        self.below[ARGUMENT as usize] = arguments as u64;
        self.below[LOCAL as usize] = locals as u64;
        self.below[TO as usize] = e + 1;
        self.below[RESULT as usize] = e;
        self.below[OPT_RESULT as usize] = e + 1;
        self.below[NAMED_EXPR as usize] = e;
        self.below[LOCAL_INIT as usize] = e + 1;
    }

    // Whether word i is below the bound of its class. The contract says as well that the word is below 2 ^ 32 and the class below 256: of an array in a field a proof does
    // not know what the type says of its elements.
    fn admit(&self, cells: Cells, i: usize) -> bool
        requires { i < 16384 }
        ensures is { result ≡ ltb (get_or cells.entry.words.now i 0) (get_or self.now.below (get_or cells.entry.tags.now i 0) 0) }
        ensures word { get_or cells.entry.words.now i 0 < 2 ^ 32 }
        ensures class { get_or cells.entry.tags.now i 0 < 256 }
    {
        (cells.words[i] as u64) < self.below[cells.tags[i] as usize]
    }

    // Whether each word from `at` to `end` is below the bound of its class. The stretch is two numbers: a struct of the cells and both would have the two bounds of two
    // contracts, and be made at each of the three calls, and taken apart here.
    pub fn in_range(&self, cells: Cells, at: usize, end: usize) -> bool
        requires at_le_end { at ≤ end }
        requires end_bound { end ≤ 16384 }
        ensures { InRangeEnsures result cells.entry.words.now cells.entry.tags.now self.now.below at end }
    {
        (at..end).all(|i| self.admit(cells, i))
    }

    // The same of a function's record, with each Emit's start at its end or before.
    pub fn function_in_range(&self, cells: Cells, at: usize, end: usize) -> bool
        requires at_le_end { at ≤ end }
        requires end_bound { end ≤ 16384 }
        ensures { FunctionInRangeEnsures result cells.entry.words.now cells.entry.tags.now self.now.below at end }
    {
        (at..end).all(|i| self.admit(cells, i) && emit_in_order(cells, i, end))
    }
}
