// The imports as operations of a session: where what is imported does not fit, nothing has changed, and else the maps tell its number. To save, to run and to restore what did not fit is three steps here, in
// derive_source and in session_functions: as one function it would take what is run as a closure that has `derived` and what else that writes, each lent once more, and what is restored beside starts and
// maps, the special types of derive_source, would be a second closure or stay where it is.
#![tactic(auto)]

ghost use Rattle.std.specs.Prelude.{◌≡◌, ◌<◌};
ghost use Rattle.model.specs.Module.{count_at};
ghost use Rattle.model.specs.Tables.{types};
ghost use Rattle.model.specs.Imports.{import_t, renamed};
ghost use Rattle.derive_state.specs.Refers.{tab_of};
ghost use Rattle.derive_state.specs.Source.{src_of};
ghost use Rattle.derive_state.specs.Held.{ImportsOrUndoes, Valid};
ghost use Rattle.derive_rollback.specs.Answered.{MappedToEnsures};

use base_handles::TypeHandle;
use derive_snapshot::{Snapshot, restore};
use derive_state::{DerivedMut, Full, Maps, Reference, ShaderSource, Sizes, number_of};

// The derived number that a record of a table is mapped to, and 0 where it is to none. No Option: both callers have just imported the record, and `mapped_to(..).unwrap_or(0)` would
// name a case that never is.
pub fn mapped_to(maps: &Maps, r: Reference) -> u32
    requires { (r.table < 6) × (r.number < 512) }
    ensures { MappedToEnsures maps.now r.table r.number result }
{
    number_of(maps[r.table][r.number as usize])
}

// Imports a record of a table.
pub fn import(
    source: ShaderSource,
    derived: &mut DerivedMut,
    ends: Sizes,
    r: Reference,
) -> Result<Sizes, Full>
    requires number_bound { (r.table < 6) × (r.number < count_at r.table source.image.words.now) }
    requires valid_arrays { Valid derived.old ends }
    ensures { ImportsOrUndoes source.entry.image.words.now (import_t source.entry.offset (src_of source.entry.image.words.now source.entry.image.n) (tab_of r.table) r.number) derived.old ends result derived.new }
{
    let saved = Snapshot::of(source.image.words, &derived.view(ends));
    let got = derive_imports::import(source, derived, ends, r);
    if got.is_err() {
        restore(derived.starts, derived.maps, &saved);
    }
    got
}

// Imports type h under the name with the given number.
pub fn rename_type(
    source: ShaderSource,
    derived: &mut DerivedMut,
    ends: Sizes,
    h: TypeHandle,
    name: u32,
) -> Result<Sizes, Full>
    requires h_bound { (h.0 < count_at 1 source.image.words.now) × (name < count_at 0 source.image.words.now) }
    requires valid_arrays { Valid derived.old ends }
    ensures { ImportsOrUndoes source.entry.image.words.now (import_t source.entry.offset (renamed (src_of source.entry.image.words.now source.entry.image.n) h.0 name) types h.0) derived.old ends result derived.new }
{
    let saved = Snapshot::of(source.image.words, &derived.view(ends));
    let got = derive_imports::rename_type(source, derived, ends, h, name);
    if got.is_err() {
        restore(derived.starts, derived.maps, &saved);
    }
    got
}
