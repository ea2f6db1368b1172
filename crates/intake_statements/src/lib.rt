// What a statement without blocks reads and evaluates.
//
// The table `until` holds numbers and no enum: `at < until[e]` needs no case of its own for 0 and 1, and an enum would take twice the memory. It stands apart
// from `expressions`, with which it goes from function to function, since it is written, and they are shared references that go by copy. A struct of both would be
// behind a `&mut`: one parameter less in the four functions here that write and in five of intake_blocks, and in each of the nine contracts one clause more, that the
// expressions are still those that it had.
#![tactic(auto)]

mod expressions;

ghost use Rattle.std.specs.Prelude.{◌≡◌, [], ◌+◌, ◌≤◌, ◌<◌, get_or};
ghost use Rattle.model.specs.Operands.{operand, ops_of, result_of};
ghost use Rattle.intake_statements.specs.Tape.{cells_in};
ghost use Rattle.intake_statements.specs.Lasts.{option_of, all_seen, seen_at, may_be_result, EvaluatedEnsures, EmitEnsures, ResultEnsures, SimpleEnsures};

use base_classes::{EXPR, OPT_EXPR, OPT_RESULT, RESULT};
use base_kinds::{
    ATOMIC_RESULT, CALL, CALL_RESULT, WORK_GROUP_UNIFORM_LOAD, WORK_GROUP_UNIFORM_LOAD_RESULT,
    emits, stands,
};
use base_views::Cells;
pub use expressions::{Expressions, Places, Starts};

// For each expression the word up to which it is in scope: 0 while it is not evaluated, and 1, which no statement lies before, for an initialiser expression.
pub type Until = [usize; 1024];

impl Places<'_> {
    // The kind of expression e.
    fn kind(self, e: usize) -> u32
        requires { e < self.count }
        ensures { result ≡ get_or self.entry.cells.words.now (get_or self.entry.starts.now e 0) 0 }
    {
        self.cells.words[self.starts[e] as usize]
    }

    // Is expression e in scope at the word `at`?
    fn visible(self, until: &Until, at: usize, e: usize) -> bool
        ensures { result ≡ seen_at self.entry until.now at e }
    {
        e < self.count && (at < until[e] || stands(self.kind(e)))
    }

    // Does the word j read only what is in scope at the word `at`? An optional operand is 0 or the number plus 1: `w.checked_sub(1)`, as in `result_of`, would be a match
    // with an arm for none, or a closure, where `w == 0 ||` says it.
    pub fn read(self, until: &Until, at: usize, j: usize) -> bool
        requires { j < 16384 }
        ensures { result ≡ all_seen (operand (get_or self.entry.cells.tags.now j 0) (get_or self.entry.cells.words.now j 0) []) (seen_at self.entry until.now at) }
    {
        let w = self.cells.words[j] as usize;
        match self.cells.tags[j] {
            EXPR => self.visible(until, at, w),
            OPT_EXPR => w == 0 || self.visible(until, at, w - 1),
            _ => true,
        }
    }

    // The same of the words from `from` to `to`.
    fn reads(self, until: &Until, at: usize, from: usize, to: usize) -> bool
        requires { to ≤ 16384 }
        ensures { result ≡ all_seen (ops_of (cells_in self.entry.cells.words.now self.entry.cells.tags.now from to)) (seen_at self.entry until.now at) }
    {
        (from..to).all(|j| self.read(until, at, j))
    }
}

// What the words from `from` to `to` evaluate, if anything.
fn result_of(cells: Cells, from: usize, to: usize) -> Option<u32>
    requires { to ≤ 16384 }
    ensures { result ≡ option_of (result_of (cells_in cells.entry.words.now cells.entry.tags.now from to)) }
{
    let j = (from..to).find(|j| cells.tags[*j] == RESULT || cells.tags[*j] == OPT_RESULT)?;
    match cells.tags[j] {
        RESULT => Some(cells.words[j]),
        _ => cells.words[j].checked_sub(1),
    }
}

impl Expressions<'_> {
    // Expression e of an Emit at the word `at`, in scope up to the word `keep`.
    fn evaluated(self, until: &mut Until, at: usize, keep: usize, e: usize) -> bool
        requires at_lt_keep { at < keep }
        requires e_lt_count { e < self.places.count }
        ensures { EvaluatedEnsures self.entry at keep e until.old until.new result }
    {
        let from = self.places.starts[e] as usize;
        let to = self.places.starts[e + 1] as usize;
        let initialiser = self.initial[e];
        let fine = emits(self.places.kind(e))
            && until[e] == 0
            && (initialiser || self.places.reads(until, at, from, to));
        if fine {
            until[e] = if initialiser { 1 } else { keep };
        }
        fine
    }

    // The Emit at the word `at`.
    pub fn emit(self, until: &mut Until, at: usize, keep: usize) -> bool
        requires at_lt_keep { at < keep }
        requires at_bound { at + 5 < 16384 }
        requires at_bound_2 { get_or self.places.cells.words.now (at + 5) 0 ≤ self.places.count }
        ensures { EmitEnsures self.entry at keep until.old until.new result }
    {
        let words = self.places.cells.words;
        let from = words[at + 4] as usize;
        let to = words[at + 5] as usize;
        // A loop: each turn writes `until`, and the closure of an `all` would have to say again what `evaluated` requires.
        for e in from..to {
            if !self.evaluated(until, at, keep, e) {
                return false;
            }
        }
        true
    }

    // Is expression e a result that the statement at the word `at` may have?
    fn result_fits(self, at: usize, e: usize) -> bool
        requires at_bound { at + 4 < 16384 }
        requires e_lt_count { e < self.places.count }
        ensures { result ≡ may_be_result self.entry.places at e }
    {
        let words = self.places.cells.words;
        let k = self.places.kind(e);
        match words[at + 1] {
            CALL => k == CALL_RESULT && words[self.places.starts[e] as usize + 3] == words[at + 4],
            WORK_GROUP_UNIFORM_LOAD => k == WORK_GROUP_UNIFORM_LOAD_RESULT,
            _ => k == ATOMIC_RESULT,
        }
    }

    // The result of the statement from the word `at` to the word `stop`.
    fn result(self, until: &mut Until, at: usize, stop: usize, keep: usize) -> bool
        requires stop_le_keep { stop ≤ keep }
        requires stop_bound { stop ≤ 16384 }
        requires at_bound { at + 4 ≤ stop }
        ensures { ResultEnsures self.entry.places at stop keep until.old until.new result }
    {
        let Some(e) = result_of(self.places.cells, at + 4, stop) else {
            return true;
        };
        let e = e as usize;
        let fine = e < self.places.count && self.result_fits(at, e) && until[e] == 0;
        if fine {
            until[e] = keep;
        }
        fine
    }

    // A statement without blocks that is no Emit: its reads, and its result.
    pub fn simple(self, until: &mut Until, at: usize, stop: usize, keep: usize) -> bool
        requires stop_le_keep { stop ≤ keep }
        requires stop_bound { stop ≤ 16384 }
        requires at_bound { at + 4 ≤ stop }
        ensures { SimpleEnsures self.entry.places at stop keep until.old until.new result }
    {
        self.places.reads(until, at, at + 4, stop) && self.result(until, at, stop, keep)
    }
}
