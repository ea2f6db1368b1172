// The import of a record of a table, as naga_oil's derive.rs has it for names, types, constants, overrides, globals and global expressions: what a word refers to, a record by its
// table and its number there; the import, which calls itself on what a record refers to; and that of a type under another name.
#![tactic(auto)]

ghost use Rattle.std.specs.Prelude.{MatchOption, ◌≡◌, ◌<◌, ◌≤◌};
ghost use Rattle.model.specs.Module.{count_at};
ghost use Rattle.model.specs.Tables.{types};
ghost use Rattle.model.specs.References.{target};
ghost use Rattle.model.specs.Imports.{import_t, renamed};
ghost use Rattle.derive_state.specs.Refers.{tab_of};
ghost use Rattle.derive_state.specs.Source.{src_of, refers_to, number_of};
ghost use Rattle.derive_state.specs.Held.{Valid, Imports};
ghost use Rattle.derive_imports.specs.Referents.{referent_of};

use base_handles::TypeHandle;
use base_views::{EXPRESSIONS, Image, TYPES};
use derive_intern::intern;
use derive_state::{
    DerivedMut, Full, Reference, ShaderRecord, ShaderSource, Sizes, Target, target_of,
};

// What a word refers to: a record of a table, or an expression of the word's own function; among global expressions that is one of these.
#[derive(Clone, Copy)]
pub enum Referent {
    Record(Reference),
    Own(u32),
}

// What the word w of the class s refers to; a function that it names is no part of that. No method of `Image` by a place: `Image` is of base_views, which has no `Referent`, so that it would be a trait's,
// and function_runs asks it of a word that it has already.
pub fn referent_of(s: u8, w: u32) -> Option<Referent>
    ensures { result ≡ referent_of (target s) w }
{
    match target_of(s) {
        Target::Nothing | Target::Function => None,
        Target::Record(table) => Some(Referent::Record(Reference { table, number: w })),
        Target::Own => Some(Referent::Own(w)),
        Target::Optional(_) if w == 0 => None,
        Target::Optional(table) => Some(Referent::Record(Reference {
            table,
            number: w - 1,
        })),
        Target::OptionalOwn if w == 0 => None,
        Target::OptionalOwn => Some(Referent::Own(w - 1)),
    }
}

// The record that the word w of the class s refers to, in a record of a table.
pub fn refers_to(s: u8, w: u32) -> Option<Reference>
    ensures { MatchOption result (6 ≤ refers_to (target s) w) (λ r. (r.table ≡ refers_to (target s) w) × (r.number ≡ number_of (target s) w) × (r.table < 6)) }
{
    match referent_of(s, w)? {
        Referent::Record(r) => Some(r),
        Referent::Own(number) => Some(Reference {
            table: EXPRESSIONS,
            number,
        }),
    }
}

// Imports a record of a table: what it refers to first, in field order; then the record is carried through the maps, and interned among those of its table. A
// number that is mapped already is not imported again.
pub fn import(
    source: ShaderSource,
    derived: &mut DerivedMut,
    ends: Sizes,
    r: Reference,
) -> Result<Sizes, Full>
    requires number_bound { (r.table < 6) × (r.number < count_at r.table source.image.words.now) }
    requires valid_arrays { Valid derived.old ends }
    ensures { Imports source.entry.image.words.now (import_t source.entry.offset (src_of source.entry.image.words.now source.entry.image.n) (tab_of r.table) r.number) derived.old ends result derived.new }
{
    let k = r.number as usize;
    if derived.maps[r.table][k] != 0 {
        return Ok(ends);
    }
    let (at, end) = source.image.record(r.table, k);
    let mut e = ends;
    for j in at..end {
        if let Some(lower) = refers_to(source.image.tags[j], source.image.words[j]) {
            e = import(source, derived, e, lower)?;
        }
    }
    // a literal, as in derive_lookup: a method of both kinds of source would be a public function for these two places, with clauses on the table and the number
    let record = ShaderRecord {
        cells: source.image.cells(),
        at,
        end,
    };
    intern(record, source.offset, derived, e, r)
}

// Imports type h under the name with the given number: as `import` from a view of the source in which it has that name. A type that is mapped already keeps the name that it has, and no
// view is made for it.
pub fn rename_type(
    source: ShaderSource,
    derived: &mut DerivedMut,
    ends: Sizes,
    h: TypeHandle,
    name: u32,
) -> Result<Sizes, Full>
    requires h_bound { (h.0 < count_at 1 source.image.words.now) × (name < count_at 0 source.image.words.now) }
    requires valid_arrays { Valid derived.old ends }
    ensures { Imports source.entry.image.words.now (import_t source.entry.offset (renamed (src_of source.entry.image.words.now source.entry.image.n) h.0 name) types h.0) derived.old ends result derived.new }
{
    let k = h.0 as usize;
    if derived.maps[TYPES][k] != 0 {
        return Ok(ends);
    }
    let at = source.image.record_at(TYPES, k);
    let mut view = *source.image.words;
    view[at] = name + 1;
    let image = Image {
        words: &view,
        tags: source.image.tags,
        n: source.image.n,
    };
    let renamed = ShaderSource {
        image,
        offset: source.offset,
    };
    import(renamed, derived, ends, Reference::from(h))
}
