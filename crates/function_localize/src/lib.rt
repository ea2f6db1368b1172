// The import of a function: its declarations, its body and its names are passed from left to right and written on the stacks, then the record goes to the log. A
// call to an unknown name imports that function first, on top of the stacks, and leaves the stacks as it found them.
#![tactic(auto)]

ghost use Rattle.std.specs.Prelude.{◌≡◌, false, ◌≤◌, ◌<◌, length, replicate};
ghost use Rattle.std.proofs.Math.Seq.{slice};
ghost use Rattle.std.proofs.lemmas.List.Edits.{sets};
ghost use Rattle.model.specs.Module.{count_at};
ghost use Rattle.model.specs.Between.{between};
ghost use Rattle.intake_initialisers.specs.Marks.{finds};
ghost use Rattle.derive_state.specs.Flats.{function_of};
ghost use Rattle.derive_state.specs.Held.{Valid};
ghost use Rattle.function_parts.specs.Part.{Part, Indexed};
ghost use Rattle.function_builder.specs.Stacks.{Stacks};
ghost use Rattle.function_localize.specs.Localized.{function_in, NestedIn, NestedFIn, NestedAtIn, LocalizesIn, AppendsIn, FollowsIn};
ghost use Rattle.derive_state.specs.Sizes.{going, told};

use base_classes::CALLEE;
use base_views::{FUNCTIONS, Image, MOST_FUNCTIONS, expressions_at};
use base_words::Tags;
use derive_lookup::{NamedDerived, known};
use derive_state::{DerivedMut, Full, NamedSource, Places, Sizes, StackRows};
use function_builder::ShaderFunction;
use function_declarations::declare;
use function_names::{import_names, keep_names};
use function_passes::import_word;
use function_record::{FunctionPlace, append_record};
use function_runs::{Reach, next_word};
use function_words::put_word;

// The sizes with no expressions made yet.
fn no_expressions(e: Sizes) -> Sizes
    ensures { result ≡ record { loglen = e.loglen; counts = e.counts; pairs = e.pairs; exprtop = e.exprtop; bodytop = e.bodytop; made = 0 } }
{
    Sizes { made: 0, ..e }
}

// Fills `places` with where each expression record starts, from `at` on, and where the last one ends; the rest is 0.
fn index_expressions(tags: &Tags, at: usize, end: usize, places: &mut Places)
    requires { (length tags.now ≡ 16384) × (at ≤ end) × (end ≤ 16384) × (length (finds at (slice at end tags.now)) ≤ 1025) }
    ensures { places.new ≡ sets (replicate 1025 0) 0 (finds at (slice at end tags.now)) }
{
    *places = [0; 1025];
    intake_initialisers::places(tags, at, end, places);
}

// Where a function's expressions start, how many there are, and where its named expressions and its body start.
#[derive(Clone, Copy)]
struct Parts {
    exprs: usize,
    count: usize,
    named: usize,
    body: usize,
}

// Where the parts of the function from s to `end` are; `places` has where each expression starts.
fn index_parts(image: Image, s: usize, end: usize, places: &mut Places) -> Parts
    requires { Part image.words.now image.tags.now image.n s end (function_of (between image.tags.now image.words.now s end)) }
    ensures { Indexed image.entry.words.now image.entry.tags.now s end result.exprs places.new result.count result.named result.body }
{
    let exprs = expressions_at(image.words, s);
    let count = image.words[exprs] as usize;
    index_expressions(image.tags, exprs + 1, end, places);
    let named = places[count] as usize;
    Parts {
        exprs,
        count,
        named,
        body: named + 1 + 2 * image.words[named] as usize,
    }
}

// Puts the function from s to `end` whole on the stacks, with room for `room` functions in progress.
#[cycle(append_follow_localize)]
pub fn localize(
    source: NamedSource,
    derived: &mut DerivedMut,
    stacks: &mut StackRows,
    places: &mut Places,
    ends: Sizes,
    s: usize,
    end: usize,
    room: usize,
) -> Result<Sizes, Full>
    requires part { Part source.image.words.now source.image.tags.now source.image.n s end (function_in source s end) }
    requires nested { NestedIn source derived.old ends room (function_in source s end) }
    requires stacks { Stacks stacks.old (going ends) }
    requires valid_arrays { Valid derived.old ends }
    ensures { LocalizesIn source.entry room (function_in source.entry s end) derived.old stacks.old ends result derived.new stacks.new }
{
    let e1 = ends.exprtop as usize;
    let mut exprmap = [0u16; 1024];
    let parts = index_parts(source.image, s, end, places);
    let cells = source.image.cells();
    let declared = declare(
        ShaderFunction {
            source,
            places,
            count: parts.count,
            base: e1,
        },
        derived,
        &mut exprmap,
        stacks,
        no_expressions(ends),
        s,
        parts.exprs,
    )?;
    let mut r = Reach {
        at: parts.body,
        sizes: declared,
        undefined: false,
    };
    while let Some(j) = next_word(
        cells,
        source.offset,
        derived.maps,
        &exprmap,
        stacks,
        &mut r,
        end,
    ) {
        if source.image.tags[j] == CALLEE {
            let e = follow(
                source,
                derived,
                stacks,
                places,
                r.sizes,
                source.image.words[j] as usize,
                room,
                parts.exprs + 1,
                end,
            )?;
            r.sizes = put_word(
                source,
                NamedDerived {
                    view: &derived.view(e),
                },
                &exprmap,
                stacks,
                j,
                r.undefined,
            )?;
        } else {
            r.sizes = import_word(
                ShaderFunction {
                    source,
                    places,
                    count: parts.count,
                    base: e1,
                },
                derived,
                &mut exprmap,
                stacks,
                r.sizes,
                j,
                end,
                r.undefined,
            )?;
        }
    }
    let e = r.sizes;
    let b = e.bodytop as usize;
    let kept = keep_names(
        source.image.words,
        &exprmap[..parts.count],
        places,
        stacks,
        e,
        parts.named,
    )?;
    import_names(source, derived, stacks, kept, b)
}

// Appends function f. It is a number and no handle, here and in `follow`: it is a word of the image where a call names it, and `record` and `known` take it as it is.
// `FunctionPlace::of` finds again what `localize` found: that answers sizes, and promises of them what `LocalizesIn` says in each case; a pair of sizes and place would be
// taken apart at its two calls, and have a clause more. `MOST_FUNCTIONS` is what `limit(FUNCTIONS)` answers, a call that has one answer.
#[cycle(append_follow_localize)]
pub fn append(
    source: NamedSource,
    derived: &mut DerivedMut,
    stacks: &mut StackRows,
    places: &mut Places,
    ends: Sizes,
    f: usize,
    room: usize,
) -> Result<Sizes, Full>
    requires f_bound { f < count_at 6 source.image.words.now }
    requires nested_f { NestedFIn source derived.old ends room f }
    requires stacks { Stacks stacks.old (going ends) }
    requires valid_arrays { Valid derived.old ends }
    ensures { AppendsIn source.entry room f derived.old stacks.old ends result derived.new stacks.new }
{
    let (s, end) = source.image.record(FUNCTIONS, f);
    let got = localize(source, derived, stacks, places, ends, s, end, room)?;
    let place = FunctionPlace::of(source.image.cells(), s, end);
    append_record(
        source.image.tags,
        derived.log,
        derived.logtags,
        derived.starts,
        stacks,
        got,
        ends,
        place,
        FUNCTIONS,
        0,
        MOST_FUNCTIONS,
    )
}

// Imports function f if its name is not known, with room for `room` functions in progress; `places` is then restored for its caller, whose expressions start at
// `at`, and which ends at `end`.
#[cycle(append_follow_localize)]
pub fn follow(
    source: NamedSource,
    derived: &mut DerivedMut,
    stacks: &mut StackRows,
    places: &mut Places,
    ends: Sizes,
    f: usize,
    room: usize,
    at: usize,
    end: usize,
) -> Result<Sizes, Full>
    requires f_bound { f < count_at 6 source.image.words.now }
    requires nested_at { NestedAtIn source derived.old ends room f }
    requires stacks { Stacks stacks.old (going ends) }
    requires valid_arrays { Valid derived.old ends }
    requires tags_len { (length source.image.tags.now ≡ 16384) × (at ≤ end) × (end ≤ 16384) × (length (finds at (slice at end source.image.tags.now)) ≤ 1025) }
    requires places_value { places.old ≡ sets (replicate 1025 0) 0 (finds at (slice at end source.image.tags.now)) }
    ensures import_function_ensures { FollowsIn source.entry room f derived.old stacks.old ends result derived.new stacks.new }
    ensures places_after { (told result).full ≡ false → places.new ≡ sets (replicate 1025 0) 0 (finds at (slice at end source.entry.image.tags.now)) }
{
    if room == 0 {
        return Ok(ends);
    }
    let now = NamedDerived {
        view: &derived.view(ends),
    };
    if known(source, now, f).is_some() {
        return Ok(ends);
    }
    let got = append(source, derived, stacks, places, ends, f, room - 1)?;
    index_expressions(source.image.tags, at, end, places);
    Ok(got)
}
