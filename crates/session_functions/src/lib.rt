// The operations of a session on functions, and finishing with entry points: each makes its tests in document 01's sequence, and where it is refused the session
// is as it was. The stacks of functions under construction are empty between operations. The last lines of two of them are alike: a function of these would take the session, and a
// source that borrows the session's words.
#![tactic(auto)]

ghost use Rattle.std.specs.Prelude.{◌≡◌, true, ℕ, ◌<◌, length, replicate};
ghost use Rattle.model.specs.Module.{count_at};
ghost use Rattle.model.specs.Redirect.{function};
ghost use Rattle.model.specs.Session.{import_function, map_function_handle, finish_with_entry_points};
ghost use Rattle.function_nesting.specs.Nested.{append_s, follow_s, Ready, ReadyF};
ghost use Rattle.derive_state.specs.Source.{mod_of};
ghost use Rattle.derive_state.specs.Sizes.{going};
ghost use Rattle.derive_state.specs.Held.{st_of};
ghost use Rattle.function_builder.specs.Stacks.{Stacks};
ghost use Rattle.derive_session.specs.Valid.{ValidSession};
ghost use Rattle.derive_finish.specs.Told.{refusal_of, bytes_in};
ghost use Rattle.session_operations.specs.Answers.{value_in};
ghost use Rattle.session_operations.specs.Sessions.{Valid, Operates, Finishes, ImportStays, FinishStays};
ghost use Rattle.session_functions.specs.Brought.{BringsTo};

use base_handles::FunctionHandle;
use base_refusals::Refusal;
use base_views::{FUNCTIONS, count};
use derive_lookup::{NamedDerived, known};
use derive_rings::{entries_ring, follow_rings, import_rings};
use derive_snapshot::{Snapshot, restore};
use derive_state::{
    DerivedMut, Full, NamedSource, Reference, Sizes, Special, StackRows, number_of,
};
use function_entry::enter_all;
use function_localize::append;
use session_operations::{Session, renew, source_with};

// Empties the stacks of functions under construction.
fn empty_stacks(stacks: &mut StackRows)
    ensures { stacks.new ≡ replicate 4 (replicate 16384 0) }
{
    *stacks = [[0; 16384]; 4];
}

// Appends function f, with room for so many functions in progress beside it; where it does not fit nothing has changed.
// `special` is for the contract alone. No ghost value takes its place: a caller has to pick that from the call's other arguments, and none of them has the special types; and in
// the clauses what is required would stand twice, of some special types and, before what is promised, of any.
fn append_or_undo(
    source: NamedSource,
    derived: &mut DerivedMut,
    special: &Special,
    stacks: &mut StackRows,
    ends: Sizes,
    f: usize,
    room: usize,
) -> Result<Sizes, Full>
    requires valid_session { ValidSession true source.image.n source.offset source.image.words.now source.image.tags.now derived.old.log.now derived.old.logtags.now derived.old.starts.now derived.old.maps.now derived.old.buckets.now special.now (going ends) }
    requires f_bound { (f < count_at 6 source.image.words.now) × Stacks stacks.old (going ends) }
    requires ready { ReadyF source.offset (mod_of source.image.words.now source.image.n) (Ready source.offset (mod_of source.image.words.now source.image.n) room) (follow_s source.offset (mod_of source.image.words.now source.image.n) room) (function (mod_of source.image.words.now source.image.n) f) (st_of source.image.words.now derived.old.log.now derived.old.logtags.now derived.old.starts.now derived.old.maps.now special.now (going ends)) }
    ensures { BringsTo source.entry.image.words.now special.now (append_s source.entry.offset (mod_of source.entry.image.words.now source.entry.image.n) (follow_s source.entry.offset (mod_of source.entry.image.words.now source.entry.image.n) room) f) derived.old ends result derived.new stacks.new }
{
    let saved = Snapshot::of(source.image.words, &derived.view(ends));
    let mut places = [0u16; 1025];
    let got = append(source, derived, stacks, &mut places, ends, f, room);
    if got.is_err() {
        restore(derived.starts, derived.maps, &saved);
        empty_stacks(stacks);
    }
    got
}

// import_function: appends function f. Its number in the derived module.
pub fn import_function(session: &mut Session, f: FunctionHandle) -> Result<u32, Refusal>
    requires { Valid session.old }
    ensures operates { Operates {A = ℕ} (import_function f.0) session.old (refusal_of result) (value_in result) session.new }
    ensures stays { ImportStays session.old session.new }
{
    let source = source_with(
        session.source,
        session.words,
        session.tags,
        Reference::from(f),
    )?;
    let view = session.derived.view(session.sizes);
    if import_rings(source, NamedDerived { view: &view }, f.0 as usize) {
        return Err(Refusal::UnknownRing);
    }
    let room = count(source.image.words, FUNCTIONS);
    let sizes = append_or_undo(
        source,
        &mut session.derived,
        session.special,
        session.stacks,
        session.sizes,
        f.0 as usize,
        room,
    )?;
    session.sizes = sizes;
    Ok(number_of(sizes.counts[FUNCTIONS] as u32))
}

// map_function_handle, import_function_if_new: the derived function that has the name of function f, imported first if there is none.
pub fn map_function_handle(session: &mut Session, f: FunctionHandle) -> Result<u32, Refusal>
    requires { Valid session.old }
    ensures operates { Operates {A = ℕ} (map_function_handle f.0) session.old (refusal_of result) (value_in result) session.new }
    ensures stays { ImportStays session.old session.new }
{
    let source = source_with(
        session.source,
        session.words,
        session.tags,
        Reference::from(f),
    )?;
    let view = session.derived.view(session.sizes);
    let derived = NamedDerived { view: &view };
    if follow_rings(source, derived, f.0 as usize) {
        return Err(Refusal::UnknownRing);
    }
    if let Some(handle) = known(source, derived, f.0 as usize) {
        return Ok(handle);
    }
    let room = count(source.image.words, FUNCTIONS);
    let sizes = append_or_undo(
        source,
        &mut session.derived,
        session.special,
        session.stacks,
        session.sizes,
        f.0 as usize,
        room - 1,
    )?;
    session.sizes = sizes;
    Ok(number_of(sizes.counts[FUNCTIONS] as u32))
}

// finish, with the source's entry points. They stay in no session: starts and maps are restored, whether it is refused or not.
pub fn finish_with_entries(session: &mut Session, output: &mut [u8]) -> Result<usize, Refusal>
    requires { Valid session.old }
    ensures finishes { Finishes (finish_with_entry_points (length output.old)) session.old (refusal_of result) (bytes_in result) output.old output.new session.new }
    ensures stays { FinishStays session.old (refusal_of result) session.new }
{
    let set = session.source.ok_or(Refusal::NoSource)?;
    let source = set.over(session.words, session.tags);
    let view = session.derived.view(session.sizes);
    if entries_ring(source, NamedDerived { view: &view }) {
        return Err(Refusal::UnknownRing);
    }
    // whole, and no `Snapshot::of`, which keeps what is in use: it is promised of all words of the starts that they stay (`FinishStays`)
    let saved = Snapshot {
        starts: *session.derived.starts,
        maps: *session.derived.maps,
    };
    let Ok(sizes) = enter_all(
        source,
        &mut session.derived,
        session.special,
        session.stacks,
        session.sizes,
    ) else {
        let derived = &mut session.derived;
        restore(derived.starts, derived.maps, &saved);
        empty_stacks(session.stacks);
        return Err(Refusal::Full);
    };
    let mut out = [0u32; 16384];
    let ended = derive_finish::finish(
        &session.derived.view(sizes),
        session.special,
        &mut out,
        output,
    );
    let derived = &mut session.derived;
    restore(derived.starts, derived.maps, &saved);
    let bytes = ended?;
    renew(session);
    Ok(bytes)
}
