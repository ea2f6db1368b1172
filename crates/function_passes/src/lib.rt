// Passes over the words of a function's body: each word is written at once on the stack of words, by the maps as they are at its turn. What a word needs of
// those after it is read ahead: of a span's start whether the span is undefined, of an Emit's start its end, of an atomic statement what it compares. Words that
// import nothing do not come here: function_runs writes them.
#![tactic(auto)]

ghost use Rattle.std.specs.Prelude.{◌≡◌, List, [], ◌∷◌, ℕ, suc, ◌≤◌, ◌<◌, ◌+◌, length, get_or};
ghost use Rattle.model.specs.Between.{between, Stretch};
ghost use Rattle.model.specs.References.{target, ref_of};
ghost use Rattle.model.specs.Scope.{in_range};
ghost use Rattle.model.specs.Bodies.{Builder, compares_of, each_e};
ghost use Rattle.theory_records.specs.RecordLaws.{All};
ghost use Rattle.theory_passes.specs.Pass.{arrive as arriveE, first, both, early, passed, word_of};
ghost use Rattle.theory_passes.specs.Light.{still};
ghost use Rattle.derive_state.specs.Held.{ValidArrays, Valid};
ghost use Rattle.function_references.specs.Fits.{FitN, Legible};
ghost use Rattle.function_builder.specs.Stacks.{Under};
ghost use Rattle.function_words.specs.Runs.{Bodied, Drawn, needs_in, glances_in, PassesOf};
ghost use Rattle.function_passes.specs.Compared.{compared};
ghost use Rattle.function_builder.specs.Read.{module_of, LaysOf, BuildsOf};
ghost use Rattle.derive_state.specs.Sizes.{going, told};

use base_classes::{ATOMIC, FROM, OPT_EXPR, STMT_KIND, TO};
use base_views::Image;
use derive_imports::{Referent, referent_of};
use derive_lookup::NamedDerived;
use derive_state::{Derived, DerivedMut, ExprMap, Full, NamedSource, Sizes, StackRows};
use function_builder::{ShaderFunction, append, push};
use function_expressions::{import_operand, import_standing};
use function_outside::import_record;
use function_runs::atomic;
use function_words::put_word;

// Imports what word i of a body refers to: an expression of the function, or a record of a table. Why what is known of word i is a clause, is beside
// `import_declaration_word` of function_declarations.
fn import_body_word(
    function: ShaderFunction,
    derived: &mut DerivedMut,
    exprmap: &mut ExprMap,
    stacks: &mut StackRows,
    ends: Sizes,
    i: usize,
) -> Result<Sizes, Full>
    requires i_bound { (i < 16384) × (All (FitN function.source.image.words.now function.count) (ref_of (target (get_or function.source.image.tags.now i 0)) (get_or function.source.image.words.now i 0) [])) }
    requires valid_arrays { Valid derived.old ends }
    requires under { Under function.count exprmap.old stacks.old function.base (going ends) }
    ensures { BuildsOf function.entry (arriveE function.entry.source.offset (module_of function.entry.source) still (needs_in function.entry) (glances_in function.entry) (target (get_or function.entry.source.image.tags.now i 0)) (get_or function.entry.source.image.words.now i 0)) derived.old exprmap.old stacks.old ends result derived.new exprmap.new stacks.new }
{
    let image = function.source.image;
    match referent_of(image.tags[i], image.words[i]) {
        None => Ok(ends),
        Some(Referent::Record(r)) => import_record(function.source, derived, ends, r),
        Some(Referent::Own(e)) => {
            import_operand(function, derived, exprmap, stacks, ends, e as usize)
        }
    }
}

// An Emit's first pass over the expressions from a to b. Two numbers and no Range, which is not Copy: `emit` would clone it for one of its passes, and the clause
// would bound its end as it bounds b.
fn first_pass(
    function: ShaderFunction,
    derived: &mut DerivedMut,
    exprmap: &mut ExprMap,
    stacks: &mut StackRows,
    ends: Sizes,
    a: usize,
    b: usize,
) -> Result<Sizes, Full>
    requires b_le_k { b ≤ function.count }
    requires valid_arrays { Valid derived.old ends }
    requires under { Under function.count exprmap.old stacks.old function.base (going ends) }
    ensures { BuildsOf function.entry (each_e (in_range (record { from = a; to = b })) (glances_in function.entry)) derived.old exprmap.old stacks.old ends result derived.new exprmap.new stacks.new }
{
    let mut e = ends;
    for y in a..b {
        e = import_standing(function, derived, exprmap, stacks, e, y)?;
    }
    Ok(e)
}

// Its second pass: what the expressions refer to outside was imported by the first, so what is not mapped is appended.
fn second_pass(
    function: ShaderFunction,
    derived: &Derived,
    exprmap: &mut ExprMap,
    stacks: &mut StackRows,
    a: usize,
    b: usize,
) -> Result<Sizes, Full>
    requires b_le_k { b ≤ function.count }
    requires by_index { (buckets : List ℕ) × ValidArrays derived.now.log.now derived.now.logtags.now derived.now.starts.now derived.now.maps.now buckets (going derived.now.sizes) }
    requires under { Under function.count exprmap.old stacks.old function.base (going derived.now.sizes) }
    requires drawn { Drawn function.source.image.words.now function.source.image.tags.now function.places.now function.count derived.now.maps.now exprmap.old a b }
    ensures { LaysOf function.entry (each_e (in_range (record { from = a; to = b })) (needs_in function.entry)) derived.now exprmap.old stacks.old result exprmap.new stacks.new }
{
    let mut e = derived.sizes;
    for y in a..b {
        if exprmap[y] == 0 {
            e = append(
                function,
                NamedDerived {
                    view: &Derived {
                        sizes: e,
                        ..*derived
                    },
                },
                exprmap,
                stacks,
                y,
            )?;
        }
    }
    Ok(e)
}

// Both passes of an Emit over the expressions from a to b; its new start is how many expressions are made before the second.
fn emit(
    function: ShaderFunction,
    derived: &mut DerivedMut,
    exprmap: &mut ExprMap,
    stacks: &mut StackRows,
    ends: Sizes,
    a: usize,
    b: usize,
) -> Result<Sizes, Full>
    requires b_le_k { b ≤ function.count }
    requires valid_arrays { Valid derived.old ends }
    requires under { Under function.count exprmap.old stacks.old function.base (going ends) }
    ensures { PassesOf function.entry (both function.entry.source.offset (module_of function.entry.source) still (needs_in function.entry) (glances_in function.entry) a b) (λ (m : Builder). length (first function.entry.source.offset (module_of function.entry.source) still (needs_in function.entry) (glances_in function.entry) a b m).made ∷ []) derived.old exprmap.old stacks.old ends result derived.new exprmap.new stacks.new }
{
    let got = first_pass(function, derived, exprmap, stacks, ends, a, b)?;
    let from = got.made as u32;
    let put = push(stacks, got, from)?;
    second_pass(function, &derived.view(put), exprmap, stacks, a, b)
}

// The expression that the first code of an atomic function, from i on, compares, if it compares one.
fn compare_operand(image: Image, i: usize, end: usize) -> Option<u32>
    requires { Stretch image.words.now image.tags.now i end }
    ensures { compared result ≡ compares_of (between image.entry.tags.now image.entry.words.now (i) end) }
{
    let k = (i..end).find(|j| image.tags[*j] == ATOMIC)? + 1;
    if k < end && image.tags[k] == OPT_EXPR {
        return image.words[k].checked_sub(1);
    }
    None
}

// What an atomic statement compares, where its kind is word i.
fn import_compare(
    function: ShaderFunction,
    derived: &mut DerivedMut,
    exprmap: &mut ExprMap,
    stacks: &mut StackRows,
    ends: Sizes,
    i: usize,
    end: usize,
) -> Result<Sizes, Full>
    requires legible { (Legible function.source.image.words.now function.source.image.tags.now function.count i end) × (i < end) }
    requires valid_arrays { Valid derived.old ends }
    requires under { Under function.count exprmap.old stacks.old function.base (going ends) }
    ensures { BuildsOf function.entry (early function.entry.source.offset (module_of function.entry.source) still (needs_in function.entry) (glances_in function.entry) (get_or function.entry.source.image.words.now i 0) (between function.entry.source.image.tags.now function.entry.source.image.words.now (suc i) end)) derived.old exprmap.old stacks.old ends result derived.new exprmap.new stacks.new }
{
    if !atomic(function.source.image.words[i]) {
        return Ok(ends);
    }
    let Some(x) = compare_operand(function.source.image, i + 1, end) else {
        return Ok(ends);
    };
    import_operand(function, derived, exprmap, stacks, ends, x as usize)
}

// Imports and writes word i of a body, with the words up to `end` after it; it names no function. u: whether the span last met is undefined.
pub fn import_word(
    function: ShaderFunction,
    derived: &mut DerivedMut,
    exprmap: &mut ExprMap,
    stacks: &mut StackRows,
    ends: Sizes,
    i: usize,
    end: usize,
    u: bool,
) -> Result<Sizes, Full>
    requires bodied { (Bodied function.source.image.words.now function.source.image.tags.now function.count i end) × (i < end) }
    requires valid_arrays { Valid derived.old ends }
    requires under { Under function.count exprmap.old stacks.old function.base (going ends) }
    ensures { PassesOf function.entry (passed function.entry.source.offset (module_of function.entry.source) still (needs_in function.entry) (glances_in function.entry) (get_or function.entry.source.image.tags.now i 0, get_or function.entry.source.image.words.now i 0) (between function.entry.source.image.tags.now function.entry.source.image.words.now (suc i) end)) (λ (m : Builder). word_of function.entry.source.offset (module_of function.entry.source) still (needs_in function.entry) (glances_in function.entry) (get_or function.entry.source.image.tags.now i 0, get_or function.entry.source.image.words.now i 0) (between function.entry.source.image.tags.now function.entry.source.image.words.now (suc i) end) u m ∷ []) derived.old exprmap.old stacks.old ends result derived.new exprmap.new stacks.new }
{
    match function.source.image.tags[i] {
        FROM => {
            let a = function.source.image.words[i] as usize;
            let b = function.source.image.words[i + 1] as usize;
            emit(function, derived, exprmap, stacks, ends, a, b)
        }
        TO => push(stacks, ends, ends.made as u32),
        STMT_KIND => {
            let got = import_compare(function, derived, exprmap, stacks, ends, i, end)?;
            push(stacks, got, function.source.image.words[i])
        }
        _ => {
            let got = import_body_word(function, derived, exprmap, stacks, ends, i)?;
            put_word(
                function.source,
                NamedDerived {
                    view: &derived.view(got),
                },
                exprmap,
                stacks,
                i,
                u,
            )
        }
    }
}
