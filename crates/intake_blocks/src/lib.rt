// Scope in one pass over a body. What a block evaluates stays until the block's end, and what a Loop's body evaluates before its first Continue, like
// what its continuing block evaluates, until the end of the Loop.
//
// Blocks and statements are walked by `while`: each says where the next one starts, which no range does.
//
// Where a statement or block begins and ends, its `place` and `keep` are parameters: of the eight calls of the four functions that have them six give other bounds or
// another place, so that a struct of them would be made there, and taken apart by what is called.
#![tactic(auto)]

ghost use Rattle.std.specs.Prelude.{◌≡◌, ℕ, Bool, true, ◌||◌, ◌+◌, ◌≤◌, ◌<◌, get_or};
ghost use Rattle.intake_statements.specs.Tape.{Steps, stepped};
ghost use Rattle.intake_blocks.specs.Found.{kept_of, flow_of, StmtRequires, BlockRequires, StmtEnsures, BlockEnsures, body_fine};

use base_classes::BLOCK;
use base_kinds::{BREAK, CONTINUE, EMIT, LOOP, RETURN, SWITCH};
use base_words::Words;
use intake_statements::{Expressions, Until};

// Which statements may stand at a place: a Break, a Continue, a Return.
#[derive(Clone, Copy)]
struct Place {
    breaks: bool,
    continues: bool,
    returns: bool,
}

// What is found of statements in scope: whether a Continue of the Loop around them is among them.
#[derive(Clone, Copy)]
enum Flow {
    Through,
    Continues,
}

impl Flow {
    // The same of these statements and the next ones.
    fn then(self, next: Flow) -> Flow
        ensures { (h g : Bool) → self ≡ flow_of h → next ≡ flow_of g → result ≡ flow_of (h || g) }
    {
        match self {
            Flow::Through => next,
            Flow::Continues => self,
        }
    }

    // How long a block keeps what it evaluates next.
    fn kept(self, keep: usize, fin: usize) -> usize
        ensures { ((h : Bool) → self ≡ flow_of h → result ≡ kept_of h keep fin) × (fin ≤ keep → fin ≤ result) }
    {
        match self {
            Flow::Through => keep,
            Flow::Continues => fin,
        }
    }
}

// Where the block at the word `at` ends.
fn skip(words: &Words, at: usize) -> usize
    requires at_bound { at < 16384 }
    requires steps { Steps words.now (get_or words.now at 0) (at + 1) }
    ensures { result ≡ stepped (get_or words.now at 0) words.now (at + 1) }
{
    let mut i = at + 1;
    for _ in 0..words[at] {
        i += words[i] as usize;
    }
    i
}

// A statement with blocks that is no Loop: its reads, and its blocks. All that it evaluates is in blocks, so that its contract, like that of `looped`, holds for any
// word `keep` from `stop` on.
#[cycle(block_looped_parts_stmt)]
fn parts(
    expressions: Expressions,
    until: &mut Until,
    at: usize,
    stop: usize,
    place: Place,
) -> Option<Flow>
    requires stmt { StmtRequires expressions at stop stop }
    requires nonzero { (0 < get_or expressions.places.cells.words.now (at + 1) 0) × (get_or expressions.places.cells.words.now (at + 1) 0 < 4) }
    requires breaks_value { get_or expressions.places.cells.words.now (at + 1) 0 ≡ 3 → place.breaks ≡ true }
    ensures { (keep : ℕ) → stop ≤ keep → StmtEnsures expressions.entry at stop keep place until.old until.new result }
{
    let cells = expressions.places.cells;
    let mut i = at + 4;
    let mut flow = Flow::Through;
    while i < stop {
        if cells.tags[i] == BLOCK {
            let fin = skip(cells.words, i);
            flow = flow.then(block(expressions, until, i, fin, fin, place)?);
            i = fin;
        } else if expressions.places.read(until, i, i) {
            i += 1;
        } else {
            return None;
        }
    }
    Some(flow)
}

// A Loop: its body, its continuing block, in which none of the three may stand, and what its break_if reads.
#[cycle(block_looped_parts_stmt)]
fn looped(
    expressions: Expressions,
    until: &mut Until,
    at: usize,
    stop: usize,
    place: Place,
) -> Option<Flow>
    requires stmt { StmtRequires expressions at stop stop }
    requires at_value { get_or expressions.places.cells.words.now (at + 1) 0 ≡ 4 }
    ensures { (keep : ℕ) → stop ≤ keep → StmtEnsures expressions.entry at stop keep place until.old until.new result }
{
    let inside = Place {
        breaks: true,
        continues: true,
        ..place
    };
    let bare = Place {
        breaks: false,
        continues: false,
        returns: false,
    };
    let words = expressions.places.cells.words;
    let body = at + 4;
    let continuing = skip(words, body);
    block(expressions, until, body, continuing, stop, inside)?;
    let break_if = skip(words, continuing);
    block(expressions, until, continuing, break_if, stop, bare)?;
    expressions
        .places
        .read(until, break_if, break_if)
        .then_some(Flow::Through)
}

// The statement from the word `at` to the word `stop`.
#[cycle(block_looped_parts_stmt)]
fn stmt(
    expressions: Expressions,
    until: &mut Until,
    at: usize,
    stop: usize,
    keep: usize,
    place: Place,
) -> Option<Flow>
    requires { StmtRequires expressions at stop keep }
    ensures { StmtEnsures expressions.entry at stop keep place until.old until.new result }
{
    match expressions.places.cells.words[at + 1] {
        EMIT => expressions.emit(until, at, keep).then_some(Flow::Through),
        // A Block or an If.
        ..SWITCH => parts(expressions, until, at, stop, place),
        SWITCH => {
            let inside = Place {
                breaks: true,
                ..place
            };
            parts(expressions, until, at, stop, inside)
        }
        LOOP => looped(expressions, until, at, stop, place),
        BREAK => place.breaks.then_some(Flow::Through),
        CONTINUE => place.continues.then_some(Flow::Continues),
        RETURN if !place.returns => None,
        _ => expressions
            .simple(until, at, stop, keep)
            .then_some(Flow::Through),
    }
}

// The block from the word `at` to the word `fin`, whose evaluations stay up to the word `keep`, or up to its end from its first Continue on.
#[cycle(block_looped_parts_stmt)]
fn block(
    expressions: Expressions,
    until: &mut Until,
    at: usize,
    fin: usize,
    keep: usize,
    place: Place,
) -> Option<Flow>
    requires { BlockRequires expressions at fin keep }
    ensures { BlockEnsures expressions.entry at fin keep place until.old until.new result }
{
    let mut i = at + 1;
    let mut flow = Flow::Through;
    while i < fin {
        let stop = i + expressions.places.cells.words[i] as usize;
        let kept = flow.kept(keep, fin);
        flow = flow.then(stmt(expressions, until, i, stop, kept, place)?);
        i = stop;
    }
    Some(flow)
}

// Is the body from the word `at` to the word `end` in scope? Nothing is evaluated where it begins. What `until` has past its first `expressions.places.count` numbers
// is left from another function, and is not read.
pub fn body(expressions: Expressions, until: &mut Until, at: usize, end: usize) -> bool
    requires { BlockRequires expressions at end end }
    ensures { result ≡ body_fine expressions.entry at end }
{
    let place = Place {
        breaks: false,
        continues: false,
        returns: true,
    };
    until[..expressions.places.count].fill(0);
    block(expressions, until, at, end, end, place).is_some()
}
