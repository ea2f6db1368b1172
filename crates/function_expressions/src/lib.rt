// The expressions of a function that is imported. A word of the body imports its expression unless it is mapped: first what the expression refers to outside the
// function, then itself, once. An Emit's first pass imports, of each expression of its range, what it refers to outside and the standing operands.
#![tactic(auto)]

ghost use Rattle.std.specs.Prelude.{◌≡◌, true, false, ◌<◌, get_or};
ghost use Rattle.model.specs.Operands.{standing_kind};
ghost use Rattle.theory_bodies.specs.Shallow.{need as needE, glance as glanceE};
ghost use Rattle.theory_passes.specs.Light.{still};
ghost use Rattle.derive_state.specs.Held.{Valid};
ghost use Rattle.function_builder.specs.Stacks.{Under};
ghost use Rattle.function_builder.specs.Read.{module_of, expressions_of, BuildsOf};
ghost use Rattle.derive_state.specs.Sizes.{going};

use base_kinds::stands;
use base_words::Words;
use derive_imports::{Referent, import, referent_of};
use derive_lookup::NamedDerived;
use derive_state::{DerivedMut, ExprMap, Full, NamedSource, Places, Sizes, StackRows};
use function_builder::{ShaderFunction, append};
use function_outside::{import_outside, missing};

// Imports expression e, unless it is mapped, with what it refers to outside the function.
pub fn import_operand(
    function: ShaderFunction,
    derived: &mut DerivedMut,
    exprmap: &mut ExprMap,
    stacks: &mut StackRows,
    ends: Sizes,
    e: usize,
) -> Result<Sizes, Full>
    requires e_lt_k { e < function.count }
    requires valid_arrays { Valid derived.old ends }
    requires under { Under function.count exprmap.old stacks.old function.base (going ends) }
    ensures { BuildsOf function.entry (needE function.entry.source.offset (module_of function.entry.source) still (expressions_of function.entry) e) derived.old exprmap.old stacks.old ends result derived.new exprmap.new stacks.new }
{
    if exprmap[e] != 0 {
        return Ok(ends);
    }
    let got = import_outside(function.expression(e), derived, ends)?;
    append(
        function,
        NamedDerived {
            view: &derived.view(got),
        },
        exprmap,
        stacks,
        e,
    )
}

// Whether expression e is not mapped and is standing. Most are mapped.
fn is_unmapped_standing(words: &Words, places: &Places, exprmap: &ExprMap, e: usize) -> bool
    requires { (e < 1024) × (get_or places.now e 0 < 16384) }
    ensures e_value { result ≡ true → (get_or exprmap.now e 0 ≡ 0) × (standing_kind (get_or words.now (get_or places.now e 0) 0) ≡ true) }
    ensures e_value_2 { result ≡ false → get_or exprmap.now e 0 ≡ 0 → standing_kind (get_or words.now (get_or places.now e 0) 0) ≡ false }
{
    exprmap[e] == 0 && stands(words[places[e] as usize])
}

// What an Emit's first pass imports of expression e, where it is not mapped. Of its loop see `function_outside::import_outside`.
pub fn import_standing(
    function: ShaderFunction,
    derived: &mut DerivedMut,
    exprmap: &mut ExprMap,
    stacks: &mut StackRows,
    ends: Sizes,
    e: usize,
) -> Result<Sizes, Full>
    requires e_lt_k { e < function.count }
    requires valid_arrays { Valid derived.old ends }
    requires under { Under function.count exprmap.old stacks.old function.base (going ends) }
    ensures { BuildsOf function.entry (glanceE function.entry.source.offset (module_of function.entry.source) still (expressions_of function.entry) e) derived.old exprmap.old stacks.old ends result derived.new exprmap.new stacks.new }
{
    if exprmap[e] != 0 {
        return Ok(ends);
    }
    let piece = function.expression(e);
    let image = function.source.image;
    let mut got = ends;
    for j in piece.at..piece.end {
        match referent_of(image.tags[j], image.words[j]) {
            None => {}
            Some(Referent::Record(r)) => {
                if missing(derived.maps, r) {
                    got = import(function.source.source(), derived, got, r)?;
                }
            }
            Some(Referent::Own(n)) => {
                let x = n as usize;
                if is_unmapped_standing(image.words, function.places, exprmap, x) {
                    got = import_operand(function, derived, exprmap, stacks, got, x)?;
                }
            }
        }
    }
    Ok(got)
}
