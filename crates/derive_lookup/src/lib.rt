// The derived function that has the name of a function of the source. Numbers of names differ between source and derived image, so the text is looked for among
// the derived names, first at the number that the name is mapped to; then the functions are searched from the last on, since a later function of a name takes
// the place of an earlier one.
#![tactic(auto)]

ghost use Rattle.std.specs.Prelude.{◌≡◌, true, map, suc, ◌+◌, ◌≤◌, ◌<◌, length, get_or, take, unwrap_or};
ghost use Rattle.model.specs.Module.{count_at};
ghost use Rattle.model.specs.Between.{between};
ghost use Rattle.model.specs.References.{alike as alikeOf, index_of};
ghost use Rattle.model.specs.Bodies.{last_of};
ghost use Rattle.derive_state.specs.Flats.{function_of};
ghost use Rattle.derive_state.specs.Held.{row, rec_at, recs_at};
ghost use Rattle.derive_lookup.specs.Bearing.{Went, Bearing, Bearing-prop, KnownEnsures, plus_one};
ghost use Rattle.derive_state.specs.Sizes.{going};

use base_views::{FUNCTIONS, NAMES};
use derive_state::{Derived, NamedSource, ShaderRecord, alike_cell};

// A derived module whose functions are found by name: its names differ, and each of its functions begins with its name. It refers to the `Derived`, so that it is passed as one word.
#[derive(Clone, Copy)]
pub struct NamedDerived<'a, 'd> {
    pub view: &'a Derived<'d>,
    pub ghost bearing: { Bearing view.now.log.now view.now.logtags.now view.now.starts.now (going view.now.sizes) } by { Bearing-prop view.now.log.now view.now.logtags.now view.now.starts.now (going view.now.sizes) },
}

// Whether the record at s equals the source's: what `alike` says of a name, which refers to nothing. `alike` carries each word through the maps all the same: with it
// in this place, which was proved, linking 940 calls of a function of a long name takes 4.0 % more instructions, and 67 functions that call all lower ones 1.1 %. One function of both would take what a
// word becomes as a closure, with clauses on what that asks and gives, and both would still stand beside it, for their contracts: they differ by the one call of `carried`.
// A loop: with `all` in its place, which was proved, a word takes 16 instructions for 12.
fn equals_name(name: ShaderRecord, derived: &Derived, s: usize) -> bool
    requires { (s + suc (get_or derived.now.log.now s 0) ≤ 16384) × (length derived.now.log.now ≡ 16384) × (length derived.now.logtags.now ≡ 16384) }
    ensures { result ≡ alikeOf (rec_at derived.now.log.now derived.now.logtags.now s) (between name.entry.cells.tags.now name.entry.cells.words.now name.entry.at name.entry.end) }
{
    if derived.log[s] as usize != name.len() {
        return false;
    }
    for j in name.at..name.end {
        let q = s + 1 + (j - name.at);
        if !alike_cell(
            derived.logtags[q] as u32,
            derived.log[q],
            name.cells.tags[j],
            name.cells.words[j],
        ) {
            return false;
        }
    }
    true
}

// The first name that equals the source's.
fn find_name(name: ShaderRecord, derived: NamedDerived) -> Option<usize>
    ensures { (unwrap_or result (get_or derived.entry.view.now.sizes.counts 0 0) ≡ index_of (recs_at derived.entry.view.now.log.now derived.entry.view.now.logtags.now (take (get_or derived.entry.view.now.sizes.counts 0 0) (row derived.entry.view.now.starts.now 0))) (between name.entry.cells.tags.now name.entry.cells.words.now name.entry.at name.entry.end)) × (unwrap_or result (get_or derived.entry.view.now.sizes.counts 0 0) ≤ 512) }
{
    let n = derived.view.sizes.counts[NAMES] as usize;
    (0..n).find(|j| equals_name(name, derived.view, derived.view.starts[NAMES][*j] as usize))
}

// Whether name m - 1 equals the source's.
fn is_mapped_name(name: ShaderRecord, derived: NamedDerived, m: usize) -> bool
    ensures { result ≡ true → Went derived.entry.view.now.log.now derived.entry.view.now.logtags.now (row derived.entry.view.now.starts.now 0) (get_or derived.entry.view.now.sizes.counts 0 0) (between name.entry.cells.tags.now name.entry.cells.words.now name.entry.at name.entry.end) m }
{
    let n = derived.view.sizes.counts[NAMES] as usize;
    let names = &derived.view.starts[NAMES];
    m != 0 && m <= n && equals_name(name, derived.view, names[m - 1] as usize)
}

// The same as `find_name`, but name m - 1 is tried first.
fn find_name_from(name: ShaderRecord, derived: NamedDerived, m: usize) -> Option<usize>
    ensures { (unwrap_or result (get_or derived.entry.view.now.sizes.counts 0 0) ≡ index_of (recs_at derived.entry.view.now.log.now derived.entry.view.now.logtags.now (take (get_or derived.entry.view.now.sizes.counts 0 0) (row derived.entry.view.now.starts.now 0))) (between name.entry.cells.tags.now name.entry.cells.words.now name.entry.at name.entry.end)) × (unwrap_or result (get_or derived.entry.view.now.sizes.counts 0 0) ≤ 512) }
{
    if is_mapped_name(name, derived, m) {
        return Some(m - 1);
    }
    find_name(name, derived)
}

// The last function whose first word is w.
fn last(derived: NamedDerived, w: u32) -> Option<u32>
    ensures { (plus_one result ≡ last_of (map function_of (recs_at derived.entry.view.now.log.now derived.entry.view.now.logtags.now (take (get_or derived.entry.view.now.sizes.counts 6 0) (row derived.entry.view.now.starts.now 6)))) 0 0 w) × (plus_one result ≤ get_or derived.entry.view.now.sizes.counts 6 0) }
{
    let n = derived.view.sizes.counts[FUNCTIONS] as usize;
    (0..n)
        .rev()
        .find(|k| derived.view.log[derived.view.starts[FUNCTIONS][*k] as usize + 1] == w)
        .map(|k| k as u32)
}

// The last derived function that has the name of the source's function f. Where none of the derived names equals it, the number after the last stands for its name, as in the definition: with `?` it
// would be said that no function has that number for its name, which `Bearing` does not say, and which would have to be asked of the caller.
pub fn known(source: NamedSource, derived: NamedDerived, f: usize) -> Option<u32>
    requires f_bound { f < count_at 6 source.image.words.now }
    ensures { KnownEnsures source.entry.image.words.now source.entry.image.n derived.entry.view.now.log.now derived.entry.view.now.logtags.now derived.entry.view.now.starts.now (going derived.entry.view.now.sizes) f (plus_one result) }
{
    let image = source.image;
    let s = image.record_at(FUNCTIONS, f);
    let k = image.words[s] as usize - 1;
    let (at, end) = image.record(NAMES, k);
    let m = derived.view.maps[NAMES][k] as usize;
    let n = derived.view.sizes.counts[NAMES] as usize;
    let name = ShaderRecord {
        cells: image.cells(),
        at,
        end,
    };
    let d = find_name_from(name, derived, m).unwrap_or(n);
    last(derived, (d + 1) as u32)
}
