// The declarations of a function that is imported: name, arguments, result and locals, from left to right. The expressions of the locals' initialisers are
// imported with their operands, and merge.
#![tactic(auto)]

ghost use Rattle.std.specs.Prelude.{◌≡◌, false, [], map, ◌<◌, ◌+◌, get_or};
ghost use Rattle.model.specs.Outcome.{word};
ghost use Rattle.model.specs.Between.{between};
ghost use Rattle.model.specs.References.{target, ref_of};
ghost use Rattle.model.specs.Bodies.{Builder, import_initialiser as initialiserE};
ghost use Rattle.theory_records.specs.RecordLaws.{All};
ghost use Rattle.theory_passes.specs.Pass.{arrive as arriveE, after, written};
ghost use Rattle.theory_passes.specs.Light.{still};
ghost use Rattle.derive_state.specs.Held.{Valid};
ghost use Rattle.function_references.specs.Fits.{FitN};
ghost use Rattle.function_builder.specs.Stacks.{Under};
ghost use Rattle.function_words.specs.Runs.{Declares, unites_in, PassesOf};
ghost use Rattle.function_builder.specs.Read.{module_of, expressions_of, BuildsOf};
ghost use Rattle.derive_state.specs.Sizes.{going};

use derive_imports::{Referent, referent_of};
use derive_lookup::NamedDerived;
use derive_state::{DerivedMut, ExprMap, Full, NamedSource, Sizes, StackRows};
use function_builder::{ShaderFunction, merge};
use function_outside::import_record;
use function_runs::{Reach, next_word};
use function_words::put_word;

// Imports expression e of an initialiser, with its operands, where it is not mapped. Of its loop see
// `function_outside::import_outside`.
fn import_initialiser(
    function: ShaderFunction,
    derived: &mut DerivedMut,
    exprmap: &mut ExprMap,
    stacks: &mut StackRows,
    ends: Sizes,
    e: usize,
) -> Result<Sizes, Full>
    requires e_lt_k { e < function.count }
    requires valid_arrays { Valid derived.old ends }
    requires under { Under function.count exprmap.old stacks.old function.base (going ends) }
    ensures { BuildsOf function.entry (initialiserE function.entry.source.offset (module_of function.entry.source) still (expressions_of function.entry) e) derived.old exprmap.old stacks.old ends result derived.new exprmap.new stacks.new }
{
    if exprmap[e] != 0 {
        return Ok(ends);
    }
    let piece = function.expression(e);
    let image = function.source.image;
    let mut got = ends;
    for j in piece.at..piece.end {
        match referent_of(image.tags[j], image.words[j]) {
            None => {}
            Some(Referent::Record(r)) => got = import_record(function.source, derived, got, r)?,
            Some(Referent::Own(x)) => {
                got = import_initialiser(function, derived, exprmap, stacks, got, x as usize)?;
            }
        }
    }
    merge(
        function,
        NamedDerived {
            view: &derived.view(got),
        },
        exprmap,
        stacks,
        e,
    )
}

// Imports what word i of declarations refers to: an expression of an initialiser, or a record of a table. As `import_body_word` of function_passes, but for what
// imports the expression: one for both would take that as a closure that writes all that they write, and be longer than the two. That word i is one of an image and refers
// to what there is, is a clause, here, in `import_body_word` and in `put_word`, for three counts: a type of the number would have the image, the count and i in it.
fn import_declaration_word(
    function: ShaderFunction,
    derived: &mut DerivedMut,
    exprmap: &mut ExprMap,
    stacks: &mut StackRows,
    ends: Sizes,
    i: usize,
) -> Result<Sizes, Full>
    requires i_bound { (i < 16384) × (All (FitN function.source.image.words.now function.count) (ref_of (target (get_or function.source.image.tags.now i 0)) (get_or function.source.image.words.now i 0) [])) }
    requires valid_arrays { Valid derived.old ends }
    requires under { Under function.count exprmap.old stacks.old function.base (going ends) }
    ensures { BuildsOf function.entry (arriveE function.entry.source.offset (module_of function.entry.source) still (unites_in function.entry) (unites_in function.entry) (target (get_or function.entry.source.image.tags.now i 0)) (get_or function.entry.source.image.words.now i 0)) derived.old exprmap.old stacks.old ends result derived.new exprmap.new stacks.new }
{
    let image = function.source.image;
    match referent_of(image.tags[i], image.words[i]) {
        None => Ok(ends),
        Some(Referent::Record(r)) => import_record(function.source, derived, ends, r),
        Some(Referent::Own(e)) => {
            import_initialiser(function, derived, exprmap, stacks, ends, e as usize)
        }
    }
}

// Imports and writes the declarations, from `at` to `end`.
pub fn declare(
    function: ShaderFunction,
    derived: &mut DerivedMut,
    exprmap: &mut ExprMap,
    stacks: &mut StackRows,
    ends: Sizes,
    at: usize,
    end: usize,
) -> Result<Sizes, Full>
    requires declares { Declares function.source.image.words.now function.source.image.tags.now function.count at end }
    requires valid_arrays { Valid derived.old ends }
    requires under { Under function.count exprmap.old stacks.old function.base (going ends) }
    ensures { PassesOf function.entry (after function.entry.source.offset (module_of function.entry.source) still (unites_in function.entry) (unites_in function.entry) (between function.entry.source.image.tags.now function.entry.source.image.words.now (at) end)) (λ (m : Builder). map word (written function.entry.source.offset (module_of function.entry.source) still (unites_in function.entry) (unites_in function.entry) (between function.entry.source.image.tags.now function.entry.source.image.words.now (at) end) false m)) derived.old exprmap.old stacks.old ends result derived.new exprmap.new stacks.new }
{
    let cells = function.source.image.cells();
    let mut r = Reach {
        at,
        sizes: ends,
        undefined: false,
    };
    while let Some(j) = next_word(
        cells,
        function.source.offset,
        derived.maps,
        exprmap,
        stacks,
        &mut r,
        end,
    ) {
        let e = import_declaration_word(function, derived, exprmap, stacks, r.sizes, j)?;
        r.sizes = put_word(
            function.source,
            NamedDerived {
                view: &derived.view(e),
            },
            exprmap,
            stacks,
            j,
            r.undefined,
        )?;
    }
    Ok(r.sizes)
}
