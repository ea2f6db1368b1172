// A word of a function written on the stack of words, by the maps as they are at its turn; and what passing over words does, as definitions and lemmas that the
// crates of declarations and of bodies share.
#![tactic(auto)]

ghost use Rattle.std.specs.Prelude.{◌≡◌, [], ◌≤◌, ◌<◌, ◌+◌, length, get_or};
ghost use Rattle.model.specs.References.{target, ref_of, through, moved as movedOf};
ghost use Rattle.theory_records.specs.RecordLaws.{All};
ghost use Rattle.function_references.specs.Fits.{FitN};
ghost use Rattle.function_builder.specs.Stacks.{Stacks};
ghost use Rattle.function_builder.specs.Makes.{Pushed};
ghost use Rattle.function_builder.specs.Read.{went_in};
ghost use Rattle.derive_state.specs.Sizes.{going, told};

use derive_lookup::NamedDerived;
use derive_state::{ExprMap, Full, NamedSource, Sizes, StackRows, moved};
use function_builder::{carried, push};

// Pushes word i on the stack, carried through the maps and with its span moved. Why what is known of word i is a clause, is beside `import_declaration_word` of
// function_declarations.
pub fn put_word(
    source: NamedSource,
    derived: NamedDerived,
    exprmap: &ExprMap,
    stacks: &mut StackRows,
    i: usize,
    u: bool,
) -> Result<Sizes, Full>
    requires i_bound { (i < 16384) × (All (FitN source.image.words.now 1024) (ref_of (target (get_or source.image.tags.now i 0)) (get_or source.image.words.now i 0) [])) }
    requires stacks { Stacks stacks.old (going derived.view.now.sizes) }
    ensures { Pushed (movedOf (target (get_or source.entry.image.tags.now i 0)) (through (went_in source.entry derived.entry.view.now exprmap.now) (get_or source.entry.image.tags.now i 0) (get_or source.entry.image.words.now i 0)) source.entry.offset u) stacks.old (going derived.entry.view.now.sizes) (told result) stacks.new }
{
    let s = source.image.tags[i];
    let w = carried(source, derived, exprmap, s, source.image.words[i]);
    push(stacks, derived.view.sizes, moved(s, w, source.offset, u))
}
