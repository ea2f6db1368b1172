// The import of entry points at the end of a session: of each its function, then what its head refers to, then its record among the entry points.
#![tactic(auto)]

ghost use Rattle.std.specs.Prelude.{◌≡◌, true, false, ◌<◌};
ghost use Rattle.model.specs.Module.{count_at};
ghost use Rattle.model.specs.Scope.{in_scope};
ghost use Rattle.function_builder.specs.Read.{module_of};
ghost use Rattle.derive_state.specs.Held.{st_of, Valid};
ghost use Rattle.function_builder.specs.Stacks.{Stacks};
ghost use Rattle.model.specs.Session.{meets_ring, callees_of};
ghost use Rattle.derive_session.specs.Valid.{ValidSession};
ghost use Rattle.function_entry.specs.Entered.{NestedEIn, EntersIn, EntersAllIn};
ghost use Rattle.derive_state.specs.Sizes.{going, told};

use base_views::{ENTRIES, FUNCTIONS, MOST_ENTRIES, count};
use derive_lookup::NamedDerived;
use derive_state::{DerivedMut, Full, NamedSource, Sizes, Special, StackRows};
use function_builder::{ROW_LEN, write};
use function_localize::localize;
use function_outside::import_outside;
use function_record::{FunctionPlace, append_record};
use function_references::Piece;

// Imports entry point j, with room for `room` functions in progress. `MOST_ENTRIES` is what `limit(ENTRIES)` answers, a call that has one answer; the place is found again
// for the reason beside `function_localize::append`.
pub fn enter(
    source: NamedSource,
    derived: &mut DerivedMut,
    stacks: &mut StackRows,
    ends: Sizes,
    j: usize,
    room: usize,
) -> Result<Sizes, Full>
    requires j_bound { (j < count_at 7 source.image.words.now) × (in_scope (module_of source) ≡ true) }
    requires nested_e { NestedEIn source derived.old ends room j }
    requires stacks { Stacks stacks.old (going ends) }
    requires valid_arrays { Valid derived.old ends }
    ensures { EntersIn source.entry room j derived.old stacks.old ends result derived.new stacks.new }
{
    let (at, end) = source.image.record(ENTRIES, j);
    let s = source.image.entry_function(j);
    let mut places = [0u16; 1025];
    let got = localize(source, derived, stacks, &mut places, ends, s, end, room)?;
    let head = Piece { source, at, end: s };
    let led = import_outside(head, derived, got)?;
    let exprtop = led.exprtop as usize;
    if ROW_LEN - exprtop < s - at {
        return Err(Full);
    }
    let exprmap = [0u16; 1024];
    write(
        head,
        NamedDerived {
            view: &derived.view(led),
        },
        &exprmap,
        stacks,
    );
    let place = FunctionPlace::of(source.image.cells(), s, end);
    append_record(
        source.image.tags,
        derived.log,
        derived.logtags,
        derived.starts,
        stacks,
        led,
        ends,
        place,
        ENTRIES,
        s - at,
        MOST_ENTRIES,
    )
}

// Imports the source's entry points, from the first on.
// `special` is for the contract alone. No ghost value takes its place: a caller has to pick that from the call's other arguments, and none of them has the special types;
// and in the clauses what is required would stand twice, of some special types and, before what is promised, of any.
pub fn enter_all(
    source: NamedSource,
    derived: &mut DerivedMut,
    special: &Special,
    stacks: &mut StackRows,
    ends: Sizes,
) -> Result<Sizes, Full>
    requires valid_session { ValidSession true source.image.n source.offset source.image.words.now source.image.tags.now derived.old.log.now derived.old.logtags.now derived.old.starts.now derived.old.maps.now derived.old.buckets.now special.now (going ends) }
    requires stacks { Stacks stacks.old (going ends) }
    requires ends_value { meets_ring (callees_of (module_of source).entries) (module_of source) (st_of source.image.words.now derived.old.log.now derived.old.logtags.now derived.old.starts.now derived.old.maps.now special.now (going ends)) ≡ false }
    ensures { EntersAllIn source.entry special.now derived.old ends result derived.new stacks.new }
{
    let all = count(source.image.words, ENTRIES);
    let room = count(source.image.words, FUNCTIONS);
    let mut e = ends;
    for j in 0..all {
        e = enter(source, derived, stacks, e, j, room)?;
    }
    Ok(e)
}
