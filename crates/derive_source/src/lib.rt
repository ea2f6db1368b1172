// What setting a source does to the state of a session, beyond intake: nothing is mapped, and the special types of the source are imported in order, the
// three optional types by their places, then the pairs by their keys. A type whose place or key is derived already is mapped to the derived type. Why `source`, `derived`,
// `special` and `ends` are four parameters is said in derive_special.
#![tactic(auto)]

ghost use Rattle.std.specs.Prelude.{◌≡◌, ◌+◌, ◌<◌, replicate};
ghost use Rattle.model.specs.Special.{rays as raysOf, pairs as pairs_of};
ghost use Rattle.derive_state.specs.Source.{mod_of, src_of};
ghost use Rattle.derive_state.specs.Held.{ValidArrays, Specials, Valid};
ghost use Rattle.derive_special.specs.Derives.{Derives};
ghost use Rattle.derive_source.specs.SourceSet.{SetsTypes, SetsSource};
ghost use Rattle.derive_state.specs.Sizes.{going};

use base_handles::TypeHandle;
use base_views::{SPECIAL, count, pair_at};
use derive_snapshot::{Snapshot, restore};
use derive_special::{pair, ray};
use derive_state::{DerivedMut, Full, ShaderSource, Sizes, Special, clear_maps};

// Derives the three optional types.
fn rays(
    source: ShaderSource,
    derived: &mut DerivedMut,
    special: &mut Special,
    ends: Sizes,
) -> Result<Sizes, Full>
    requires valid_arrays { Valid derived.old ends }
    requires specials { Specials special.old (going ends) }
    ensures { Derives source.entry.image.words.now (raysOf (mod_of source.entry.image.words.now source.entry.image.n).special.rays 0 source.entry.offset (src_of source.entry.image.words.now source.entry.image.n)) derived.old special.old ends result derived.new special.new }
{
    let at = base_views::offset(source.image.words, SPECIAL);
    let mut e = ends;
    for j in 0..3 {
        e = ray(source, derived, special, e, j, source.image.words[at + j])?;
    }
    Ok(e)
}

// Derives the pairs.
fn pairs(
    source: ShaderSource,
    derived: &mut DerivedMut,
    special: &mut Special,
    ends: Sizes,
) -> Result<Sizes, Full>
    requires valid_arrays { Valid derived.old ends }
    requires specials { Specials special.old (going ends) }
    ensures { Derives source.entry.image.words.now (pairs_of (mod_of source.entry.image.words.now source.entry.image.n).special.pairs source.entry.offset (src_of source.entry.image.words.now source.entry.image.n)) derived.old special.old ends result derived.new special.new }
{
    let c = count(source.image.words, SPECIAL);
    let mut e = ends;
    for i in 0..c {
        let at = pair_at(source.image.words, i);
        e = pair(
            source,
            derived,
            special,
            e,
            source.image.words[at],
            TypeHandle(source.image.words[at + 1]),
        )?;
    }
    Ok(e)
}

// Sets a source. What `maps` holds before is cleared, so it may be anything: the requirement on the state leaves the maps out.
pub fn source_types(
    source: ShaderSource,
    derived: &mut DerivedMut,
    special: &mut Special,
    ends: Sizes,
) -> Result<Sizes, Full>
    requires valid_arrays { ValidArrays derived.old.log.now derived.old.logtags.now derived.old.starts.now (replicate 6 (replicate 512 0)) derived.old.buckets.now (going ends) }
    requires specials { Specials special.old (going ends) }
    ensures { SetsTypes source.entry.image.words.now source.entry.image.n source.entry.offset derived.old special.old ends result derived.new special.new }
{
    clear_maps(derived.maps);
    let e = rays(source, derived, special, ends)?;
    pairs(source, derived, special, e)
}

// Sets a source, or, where it does not fit, changes nothing. Why it saves and restores by steps of its own is said in derive_rollback.
pub fn set_source(
    source: ShaderSource,
    derived: &mut DerivedMut,
    special: &mut Special,
    ends: Sizes,
) -> Result<Sizes, Full>
    requires valid_arrays { Valid derived.old ends }
    requires specials { Specials special.old (going ends) }
    ensures { SetsSource source.entry.image.words.now source.entry.image.n source.entry.offset derived.old special.old ends result derived.new special.new }
{
    // Whole, and no `Snapshot::of`: the maps are those of the source before, and the words of this one do not say how much of them is in use. It copies 28 KiB, where
    // `Snapshot::of` writes as many zeros and then copies what is in use.
    let saved = Snapshot {
        starts: *derived.starts,
        maps: *derived.maps,
    };
    let types = *special;
    let got = source_types(source, derived, special, ends);
    if got.is_err() {
        restore(derived.starts, derived.maps, &saved);
        *special = types;
    }
    got
}
