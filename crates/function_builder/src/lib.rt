// A function under construction: its derived expressions on a stack, one after the other, with the place of each; the words of its declarations and its body on
// another; and `exprmap`, which says what its expressions are mapped to. A word is carried through the maps of the tables, through `exprmap`, or to the derived
// function of the same name. An expression is appended, or, where it belongs to an initialiser, merged.
#![tactic(auto)]

ghost use Rattle.std.specs.Prelude.{MatchOption, ◌≡◌, true, false, List, [], ℕ, ◌+◌, ◌-◌, ◌≤◌, ◌<◌, length, get_or, drop};
ghost use Rattle.model.specs.References.{target, ref_of, through, first_word, undefined_at, shift, alike, index_of as seat_of};
ghost use Rattle.model.specs.Between.{between};
ghost use Rattle.model.specs.Bodies.{append_expr as pushE, intern_expr};
ghost use Rattle.theory_records.specs.RecordLaws.{All};
ghost use Rattle.theory_passes.specs.Light.{still};
ghost use Rattle.derive_state.specs.Refers.{target_of};
ghost use Rattle.derive_state.specs.Held.{row, carried_by};
ghost use Rattle.function_references.specs.Fits.{FitN};
ghost use Rattle.function_references.specs.Cuts.{next_of, Rising};
ghost use Rattle.function_builder.specs.Stacks.{went_by, seats_of, made_of, Stacks, Under};
ghost use Rattle.function_builder.specs.Makes.{Wrote, Hops, Pushed};
ghost use Rattle.function_builder.specs.Read.{module_of, expressions_of, went_in, carried_piece, LaysOf};
ghost use Rattle.derive_state.specs.Sizes.{going, told};

use derive_lookup::{NamedDerived, known};
use derive_state::{
    ExprMap, Full, Maps, NamedSource, Sizes, StackRows, Target, alike_cell, is_span, moved,
    number_of, target_of, undefined_at,
};
use function_references::Piece;

mod shader_function;

pub use shader_function::ShaderFunction;

// The rows of the stacks: words and classes of expressions, where each of them starts, and words of declarations, bodies and names. Numbers, since C lends the
// stacks as one array of four rows; four borrows of it were tried: no pattern takes apart an array behind `&mut`, and `split_first_mut` gives an Option for each row.
pub const WORDS: usize = 0;

pub const CLASSES: usize = 1;

pub const SEATS: usize = 2;

pub const BODY: usize = 3;

// How many words a row has: a name for the number in the type `StackRows`, where `len()` would name the stacks and a row at each of its five uses.
pub const ROW_LEN: usize = 16384;

// A word carried through the maps, of a class that names no function. Class and word are two parameters, for the reason beside `derive_state::carried`.
pub fn by_maps(maps: &Maps, exprmap: &ExprMap, s: u8, w: u32) -> u32
    requires fact { target_of (target s) ≡ 7 → ⊥ }
    requires by_index { (ws : List ℕ) × All (FitN ws 1024) (ref_of (target s) w []) }
    ensures { result ≡ through (went_by maps.now exprmap.now) s w }
{
    match target_of(s) {
        Target::Own => number_of(exprmap[w as usize] as u32),
        Target::OptionalOwn if w == 0 => 0,
        Target::OptionalOwn => exprmap[(w - 1) as usize] as u32,
        _ => derive_state::carried(maps, s, w),
    }
}

// A word carried through the maps, or to the function of its name: to 0 where no derived function has it, as the model carries what is not mapped.
pub fn carried(source: NamedSource, derived: NamedDerived, exprmap: &ExprMap, s: u8, w: u32) -> u32
    requires all { All (FitN source.image.words.now 1024) (ref_of (target s) w []) }
    ensures { result ≡ through (went_in source.entry derived.entry.view.now exprmap.now) s w }
{
    if let Target::Function = target_of(s) {
        return known(source, derived, w as usize).unwrap_or(0);
    }
    by_maps(derived.view.maps, exprmap, s, w)
}

// What word i of a piece becomes. The piece is lent, here and in what is called at each word: by value, a struct of its size costs 12 percent more instructions there.
// `find_equal` lends it on. `write`, which callers call once for a piece that they made, takes it by value.
fn carried_at(piece: &Piece, derived: NamedDerived, exprmap: &ExprMap, i: usize) -> u32
    requires i_bound { (piece.now.at ≤ i) × (i < piece.now.end) }
    ensures { result ≡ through (went_in piece.now.source derived.entry.view.now exprmap.now) (get_or piece.now.source.image.tags.now i 0) (get_or piece.now.source.image.words.now i 0) }
{
    let image = piece.source.image;
    let (s, w) = (image.tags[i], image.words[i]);
    carried(piece.source, derived, exprmap, s, w)
}

// The same, and 0 at the end.
fn carried_or_end(piece: &Piece, derived: NamedDerived, exprmap: &ExprMap, i: usize) -> u32
    requires i_bound { piece.now.at ≤ i }
    ensures { result ≡ first_word (carried_by (went_in piece.now.source derived.entry.view.now exprmap.now) piece.now.source.image.tags.now piece.now.source.image.words.now i piece.now.end) }
{
    if i < piece.end {
        carried_at(piece, derived, exprmap, i)
    } else {
        0
    }
}

// Writes what the words of a piece become on the top of the stack of expressions.
pub fn write(piece: Piece, derived: NamedDerived, exprmap: &ExprMap, stacks: &mut StackRows)
    requires stacks { (Stacks stacks.old (going derived.view.now.sizes)) × (derived.view.now.sizes.exprtop + (piece.end - piece.at) ≤ 16384) }
    ensures { Wrote (shift (carried_piece piece.entry derived.entry.view.now exprmap.now) piece.entry.source.offset false) derived.entry.view.now.sizes.exprtop stacks.old stacks.new }
{
    let mut u = false;
    let mut w = carried_or_end(&piece, derived, exprmap, piece.at);
    for j in piece.at..piece.end {
        let q = derived.view.sizes.exprtop as usize + (j - piece.at);
        let s = piece.source.image.tags[j];
        let next = carried_or_end(&piece, derived, exprmap, j + 1);
        u = undefined_at(s, w, next, u);
        stacks[WORDS][q] = moved(s, w, piece.source.offset, u);
        stacks[CLASSES][q] = s as u32;
        w = next;
    }
}

// Appends expression e. How long a piece is, is `end - at`, here and in two functions below: a method of `Piece` would be a public function, of which the contract says
// the same difference again.
pub fn append(
    function: ShaderFunction,
    derived: NamedDerived,
    exprmap: &mut ExprMap,
    stacks: &mut StackRows,
    e: usize,
) -> Result<Sizes, Full>
    requires e_lt_k { e < function.count }
    requires under { Under function.count exprmap.old stacks.old function.base (going derived.view.now.sizes) }
    ensures { LaysOf function.entry (pushE function.entry.source.offset (module_of function.entry.source) still (expressions_of function.entry) e) derived.entry.view.now exprmap.old stacks.old result exprmap.new stacks.new }
{
    let piece = function.expression(e);
    let words = piece.end - piece.at;
    let exprtop = derived.view.sizes.exprtop as usize;
    let made = derived.view.sizes.made as usize;
    if ROW_LEN - exprtop < words {
        return Err(Full);
    }
    write(piece, derived, exprmap, stacks);
    stacks[SEATS][function.base + made] = exprtop as u32;
    exprmap[e] = (made + 1) as u16;
    Ok(Sizes {
        exprtop: (exprtop + words) as u16,
        made: (made + 1) as u16,
        ..derived.view.sizes
    })
}

// The first word of a piece that does not become, ignoring spans, the word in its place of the expression on the stack that starts at a and is as long.
fn first_difference(
    piece: &Piece,
    derived: NamedDerived,
    exprmap: &ExprMap,
    stacks: &StackRows,
    a: usize,
) -> Option<usize>
    requires stacks { (Stacks stacks.now (going derived.view.now.sizes)) × (a + (piece.now.end - piece.now.at) ≤ 16384) }
    ensures { MatchOption result (true ≡ alike (between (row stacks.now 1) (row stacks.now 0) a (a + (piece.now.end - piece.now.at))) (carried_piece piece.now derived.entry.view.now exprmap.now)) (λ p. (piece.now.at ≤ p) × (p < piece.now.end) × (false ≡ alike (between (row stacks.now 1) (row stacks.now 0) a (a + (piece.now.end - piece.now.at))) (carried_piece piece.now derived.entry.view.now exprmap.now))) }
{
    (piece.at..piece.end).find(|j| {
        let q = a + (*j - piece.at);
        let y = carried_at(piece, derived, exprmap, *j);
        !alike_cell(
            stacks[CLASSES][q],
            stacks[WORDS][q],
            piece.source.image.tags[*j],
            y,
        )
    })
}

// Where expression k of those on the stack ends.
fn expr_end(stacks: &StackRows, ends: Sizes, e1: usize, k: usize) -> usize
    requires { (Stacks stacks.now (going ends)) × (k < ends.made) × (e1 + ends.made ≤ 16384) }
    ensures { result ≡ next_of (drop (k + 1) (seats_of stacks.now e1 (going ends))) ends.exprtop }
{
    if k + 1 < ends.made as usize {
        return stacks[SEATS][e1 + k + 1] as usize;
    }
    ends.exprtop as usize
}

// The first expression, from k on, that has the word y in place i; k where y is a word of a span, by its class s.
fn next_candidate(
    stacks: &StackRows,
    e1: usize,
    made: usize,
    i: usize,
    s: u8,
    y: u32,
    k: usize,
) -> Option<usize>
    requires { (e1 + made ≤ 16384) × (i ≤ 16384) × (k < made) }
    ensures { MatchOption result (Hops stacks.now e1 made i s y k made) (λ j. (j < made) × Hops stacks.now e1 made i s y k j) }
{
    if is_span(s) {
        return Some(k);
    }
    (k..made).find(|h| {
        let q = stacks[SEATS][e1 + *h] as usize + i;
        q < ROW_LEN && stacks[WORDS][q] == y
    })
}

// The first expression that equals, ignoring spans, what the source's words become. Most of the others differ in one word: the last, or the one in which another
// expression differed.
fn find_equal(
    piece: &Piece,
    derived: NamedDerived,
    exprmap: &ExprMap,
    stacks: &StackRows,
    e1: usize,
) -> Option<usize>
    requires stacks { (Stacks stacks.now (going derived.view.now.sizes)) × (Rising (seats_of stacks.now e1 (going derived.view.now.sizes)) e1 derived.view.now.sizes.exprtop) × (length (seats_of stacks.now e1 (going derived.view.now.sizes)) ≡ derived.view.now.sizes.made) }
    requires some { piece.now.at < piece.now.end }
    ensures { MatchOption result (derived.entry.view.now.sizes.made ≡ seat_of (made_of stacks.now e1 (going derived.entry.view.now.sizes)) (carried_piece piece.now derived.entry.view.now exprmap.now)) (λ j. (j < derived.entry.view.now.sizes.made) × (j ≡ seat_of (made_of stacks.now e1 (going derived.entry.view.now.sizes)) (carried_piece piece.now derived.entry.view.now exprmap.now))) }
{
    let made = derived.view.sizes.made as usize;
    let mut p = piece.end - 1;
    let mut y = carried_at(piece, derived, exprmap, p);
    let mut k = 0;
    // No `for`: each turn goes on after the next candidate, which depends on what the last one differed in.
    while k < made {
        let s = piece.source.image.tags[p];
        let j = next_candidate(stacks, e1, made, p - piece.at, s, y, k)?;
        k = j + 1;
        let a = stacks[SEATS][e1 + j] as usize;
        let b = expr_end(stacks, derived.view.sizes, e1, j);
        if b - a == piece.end - piece.at {
            let Some(d) = first_difference(piece, derived, exprmap, stacks, a) else {
                return Some(j);
            };
            p = d;
            y = carried_at(piece, derived, exprmap, p);
        }
    }
    None
}

// Maps expression e to an equal one on the stack, or appends it.
pub fn merge(
    function: ShaderFunction,
    derived: NamedDerived,
    exprmap: &mut ExprMap,
    stacks: &mut StackRows,
    e: usize,
) -> Result<Sizes, Full>
    requires e_lt_k { e < function.count }
    requires under { Under function.count exprmap.old stacks.old function.base (going derived.view.now.sizes) }
    ensures { LaysOf function.entry (intern_expr function.entry.source.offset (module_of function.entry.source) still (expressions_of function.entry) e) derived.entry.view.now exprmap.old stacks.old result exprmap.new stacks.new }
{
    if let Some(j) = find_equal(
        &function.expression(e),
        derived,
        exprmap,
        stacks,
        function.base,
    ) {
        exprmap[e] = (j + 1) as u16;
        return Ok(derived.view.sizes);
    }
    append(function, derived, exprmap, stacks, e)
}

// Pushes one word more of declarations, body or names.
pub fn push(stacks: &mut StackRows, ends: Sizes, w: u32) -> Result<Sizes, Full>
    requires { Stacks stacks.old (going ends) }
    ensures { Pushed w stacks.old (going ends) (told result) stacks.new }
{
    let bodytop = ends.bodytop as usize;
    if bodytop == ROW_LEN {
        return Err(Full);
    }
    stacks[BODY][bodytop] = w;
    Ok(Sizes {
        bodytop: (bodytop + 1) as u16,
        ..ends
    })
}
