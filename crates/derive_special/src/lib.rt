// One special type of a source: derived for its place or key, or, where that is derived already, mapped to the derived type.
//
// `source`, `derived`, `special` and `ends` are four parameters here and in derive_source, and no struct: a session and a link have them apart, and would make the struct
// for one call each; and each contract would have to say that the struct's source and references stay.
#![tactic(auto)]

ghost use Rattle.std.specs.Prelude.{◌≡◌, ◌+◌, ◌≤◌, ◌<◌};
ghost use Rattle.model.specs.Module.{count_at};
ghost use Rattle.model.specs.Special.{ray as rayOf};
ghost use Rattle.derive_state.specs.Source.{src_of};
ghost use Rattle.derive_state.specs.Held.{Specials, Valid};
ghost use Rattle.derive_special.specs.Derives.{pair_of, Derives};
ghost use Rattle.derive_state.specs.Sizes.{going};

use base_handles::TypeHandle;
use base_views::{SPECIAL, TYPES, limit};
use derive_imports::import;
use derive_state::{DerivedMut, Full, Reference, ShaderSource, Sizes, Special};

// Derives the source's optional type w, for place k of the three: the word that the source's section has, 0 or a number plus 1, as the definition takes it. With `Option<TypeHandle>` the one caller would
// make of the word what is taken apart here, `word.checked_sub(1).map(TypeHandle)`.
pub fn ray(
    source: ShaderSource,
    derived: &mut DerivedMut,
    special: &mut Special,
    ends: Sizes,
    k: usize,
    w: u32,
) -> Result<Sizes, Full>
    requires k_bound { (k < 3) × (w ≤ count_at 1 source.image.words.now) }
    requires valid_arrays { Valid derived.old ends }
    requires specials { Specials special.old (going ends) }
    ensures { Derives source.entry.image.words.now (rayOf w k source.entry.offset (src_of source.entry.image.words.now source.entry.image.n)) derived.old special.old ends result derived.new special.new }
{
    if w == 0 {
        return Ok(ends);
    }
    let h = w - 1;
    let i = h as usize;
    let v = special.ray(k);
    if v != 0 {
        derived.maps[TYPES][i] = v;
        return Ok(ends);
    }
    let got = import(source, derived, ends, Reference::from(TypeHandle(h)))?;
    special.set_ray(k, derived.maps[TYPES][i]);
    Ok(got)
}

// Derives the source's type h, for a key.
pub fn pair(
    source: ShaderSource,
    derived: &mut DerivedMut,
    special: &mut Special,
    ends: Sizes,
    key: u32,
    h: TypeHandle,
) -> Result<Sizes, Full>
    requires h_bound { h.0 < count_at 1 source.image.words.now }
    requires valid_arrays { Valid derived.old ends }
    requires specials { Specials special.old (going ends) }
    ensures { Derives source.entry.image.words.now (pair_of key h.0 source.entry.offset (src_of source.entry.image.words.now source.entry.image.n)) derived.old special.old ends result derived.new special.new }
{
    let i = h.0 as usize;
    if let Some(d) = special.type_for(ends.pairs as usize, key) {
        derived.maps[TYPES][i] = d + 1;
        return Ok(ends);
    }
    let got = import(source, derived, ends, Reference::from(h))?;
    let p = got.pairs as usize;
    if p == limit(SPECIAL) || got.words_left() < 2 {
        return Err(Full);
    }
    special.set_pair(p, key, derived.maps[TYPES][i] - 1);
    Ok(got.with_pair())
}
