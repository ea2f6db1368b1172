// What a function refers to outside itself: records of tables, by the words of one of its expressions or of another part.
#![tactic(auto)]

ghost use Rattle.std.specs.Prelude.{◌≡◌, true, false, ◌<◌};
ghost use Rattle.model.specs.Module.{count_at};
ghost use Rattle.model.specs.Between.{between};
ghost use Rattle.theory_passes.specs.Operands.{outward};
ghost use Rattle.theory_passes.specs.Light.{still};
ghost use Rattle.derive_state.specs.Source.{mod_of, src_of};
ghost use Rattle.derive_state.specs.Held.{cell, Valid, Imports};
ghost use Rattle.function_references.specs.Fits.{record_of};

use base_views::EXPRESSIONS;
use derive_imports::{Referent, import, referent_of};
use derive_state::{DerivedMut, Full, Maps, NamedSource, Reference, Sizes};
use function_references::Piece;

// Whether a record is not mapped; no where there is no such table. This is tested for every word, before the import, and most records are mapped: where `import` alone
// tested it, linking chains of 1,024 initialisers took 7.7 % more instructions, and 68 images at the limits and about them 1.3 %.
pub fn missing(maps: &Maps, r: Reference) -> bool
    requires { r.table < 6 → r.number < 512 }
    ensures t_bound { result ≡ true → (r.table < 6) × (cell maps.now r.table r.number ≡ 0) }
    ensures h_nonzero { result ≡ false → r.table < 6 → 0 < cell maps.now r.table r.number }
{
    r.table <= EXPRESSIONS && maps[r.table][r.number as usize] == 0
}

// Imports a record that is not mapped; nothing where there is no such table.
pub fn import_record(
    source: NamedSource,
    derived: &mut DerivedMut,
    ends: Sizes,
    r: Reference,
) -> Result<Sizes, Full>
    requires r_bound { r.table < 6 → r.number < count_at r.table source.image.words.now }
    requires valid_arrays { Valid derived.old ends }
    ensures { Imports source.entry.image.words.now (record_of source.entry.offset (src_of source.entry.image.words.now source.entry.image.n) r.table r.number) derived.old ends result derived.new }
{
    if !missing(derived.maps, r) {
        return Ok(ends);
    }
    import(source.source(), derived, ends, r)
}

// Imports what the words of a piece refer to outside the function.
// The loop is that of `import_standing` of function_expressions and, by `import_record`, of `import_initialiser` of function_declarations, but for what is done at an
// operand, which writes `exprmap`, the stacks and the module there: one for the three would take that as a closure which writes all of them, and each of the three would
// be no shorter.
// Class and word are taken from the image at each call of `referent_of`: a method of `Image` would lie in base_views, which knows no `Referent`.
pub fn import_outside(piece: Piece, derived: &mut DerivedMut, ends: Sizes) -> Result<Sizes, Full>
    requires valid_arrays { Valid derived.old ends }
    ensures { Imports piece.entry.source.image.words.now (outward piece.entry.source.offset (mod_of piece.entry.source.image.words.now piece.entry.source.image.n) still (between piece.entry.source.image.tags.now piece.entry.source.image.words.now piece.entry.at piece.entry.end)) derived.old ends result derived.new }
{
    let mut e = ends;
    let image = piece.source.image;
    for j in piece.at..piece.end {
        // A match: `if let` did not prove, since it has no name for the other two arms.
        match referent_of(image.tags[j], image.words[j]) {
            None => {}
            Some(Referent::Record(r)) => {
                if missing(derived.maps, r) {
                    e = import(piece.source.source(), derived, e, r)?;
                }
            }
            Some(Referent::Own(_)) => {}
        }
    }
    Ok(e)
}
