// A record of the source interned in the derived module: an equal record of its table (ignoring spans) is found, or the record is appended. It is compared
// before anything is written: with the record that its bucket shows; only where the bucket shows several is the table searched.
#![tactic(auto)]

ghost use Rattle.std.specs.Prelude.{MatchOption, ◌≡◌, false, ℕ, suc, ◌+◌, ◌-◌, ◌≤◌, ◌<◌, length, get_or, take};
ghost use Rattle.model.specs.Module.{count_at};
ghost use Rattle.model.specs.Between.{between};
ghost use Rattle.model.specs.References.{shift, index_of, alike as alikeOf};
ghost use Rattle.model.specs.Imports.{intern as settled};
ghost use Rattle.derive_state.specs.Refers.{tab_of, went_r};
ghost use Rattle.derive_state.specs.Sizes.{going};
ghost use Rattle.derive_state.specs.Marks.{MARKS, place_r, Left};
ghost use Rattle.derive_intern.specs.Buckets.{Tells};
ghost use Rattle.derive_state.specs.Held.{row, cell, rec_at, recs_at, ValidArrays, Valid, Imports, Nameless, carried_by};

use derive_state::{
    Buckets, Derived, DerivedMut, Full, Reference, ShaderRecord, Sizes, alike, alike_cell,
    bucket_of, carried, write,
};

// Whether the record at s is what the source's record becomes, ignoring spans: the same as `alike`, but the last word is compared first, since records that are not
// equal mostly differ there.
fn equals_record(original: ShaderRecord, derived: &Derived, s: usize) -> bool
    requires { (s + suc (get_or derived.now.log.now s 0) ≤ 16384) × (length derived.now.log.now ≡ 16384) × (length derived.now.logtags.now ≡ 16384) }
    ensures { result ≡ alikeOf (rec_at derived.now.log.now derived.now.logtags.now s) (carried_by (went_r derived.now.maps.now) original.entry.cells.tags.now original.entry.cells.words.now original.entry.at original.entry.end) }
{
    let n = original.len();
    let may_equal = n == 0
        || derived.log[s] as usize == n
            && alike_cell(
                derived.logtags[s + n] as u32,
                derived.log[s + n],
                original.cells.tags[original.end - 1],
                carried(
                    derived.maps,
                    original.cells.tags[original.end - 1],
                    original.cells.words[original.end - 1],
                ),
            );
    may_equal && alike(original, derived, s)
}

// The first of table t's records that is, ignoring spans, what the source's record becomes.
fn find(original: ShaderRecord, derived: &Derived, t: usize) -> Option<usize>
    requires t_bound { (t < 8) × (get_or derived.now.sizes.counts t 0 ≤ 512) × (length derived.now.log.now ≡ 16384) × (length derived.now.logtags.now ≡ 16384) × (length (row derived.now.starts.now t) ≡ 512) }
    requires by_index { (k : ℕ) → k < get_or derived.now.sizes.counts t 0 → cell derived.now.starts.now t k + suc (get_or derived.now.log.now (cell derived.now.starts.now t k) 0) ≤ 16384 }
    ensures { MatchOption result (get_or derived.now.sizes.counts t 0 ≡ index_of (recs_at derived.now.log.now derived.now.logtags.now (take (get_or derived.now.sizes.counts t 0) (row derived.now.starts.now t))) (carried_by (went_r derived.now.maps.now) original.entry.cells.tags.now original.entry.cells.words.now original.entry.at original.entry.end)) (λ j. (j < get_or derived.now.sizes.counts t 0) × (j ≡ index_of (recs_at derived.now.log.now derived.now.logtags.now (take (get_or derived.now.sizes.counts t 0) (row derived.now.starts.now t))) (carried_by (went_r derived.now.maps.now) original.entry.cells.tags.now original.entry.cells.words.now original.entry.at original.entry.end))) }
{
    let n = derived.sizes.counts[t] as usize;
    (0..n).find(|j| equals_record(original, derived, derived.starts[t][*j] as usize))
}

// What a bucket shows: no record, a record's number, or that records of several numbers have this bucket.
#[derive(Clone, Copy)]
enum Bucket {
    Empty,
    One(usize),
    Several,
}

// A bucket of several, as the array has it. The C interface lends the buckets as numbers of two bytes that are cleared to 0, so an empty bucket is 0 there, and a
// record's number has 1 added.
const SEVERAL: u16 = 65535;

// What bucket p shows.
fn bucket_at(buckets: &Buckets, p: usize) -> Bucket
    requires { (p < MARKS) × (length buckets.now ≡ MARKS) }
    ensures { Tells (get_or buckets.now p 0) result }
{
    match buckets[p] {
        0 => Bucket::Empty,
        SEVERAL => Bucket::Several,
        v => Bucket::One(v as usize - 1),
    }
}

// Puts number k into bucket p.
fn set_bucket(buckets: &mut Buckets, p: usize, k: usize)
    requires { (p < MARKS) × (k < 512) × (length buckets.old ≡ MARKS) }
    ensures { Left buckets.old p k buckets.new }
{
    buckets[p] = match bucket_at(buckets, p) {
        Bucket::Empty => (k + 1) as u16,
        Bucket::One(_) | Bucket::Several => SEVERAL,
    };
}

// The same as `find`, by bucket p.
fn find_by_bucket(original: ShaderRecord, derived: &Derived, t: usize, p: usize) -> Option<usize>
    requires t_bound { (t < 6) × (p ≡ place_r t (carried_by (went_r derived.now.maps.now) original.cells.tags.now original.cells.words.now original.at original.end)) × (p < MARKS) }
    requires valid_arrays { ValidArrays derived.now.log.now derived.now.logtags.now derived.now.starts.now derived.now.maps.now derived.now.buckets.now (going derived.now.sizes) }
    ensures { MatchOption result (get_or derived.now.sizes.counts t 0 ≡ index_of (recs_at derived.now.log.now derived.now.logtags.now (take (get_or derived.now.sizes.counts t 0) (row derived.now.starts.now t))) (carried_by (went_r derived.now.maps.now) original.entry.cells.tags.now original.entry.cells.words.now original.entry.at original.entry.end)) (λ j. (j < get_or derived.now.sizes.counts t 0) × (j ≡ index_of (recs_at derived.now.log.now derived.now.logtags.now (take (get_or derived.now.sizes.counts t 0) (row derived.now.starts.now t))) (carried_by (went_r derived.now.maps.now) original.entry.cells.tags.now original.entry.cells.words.now original.entry.at original.entry.end))) }
{
    let n = derived.sizes.counts[t] as usize;
    let starts = &derived.starts[t];
    match bucket_at(derived.buckets, p) {
        Bucket::Empty => None,
        Bucket::One(j) if j < n && alike(original, derived, starts[j] as usize) => Some(j),
        Bucket::One(_) => None,
        Bucket::Several => find(original, derived, t),
    }
}

// Maps the record r of the source, which is `original`, to what it becomes: an equal one that is found, or a new one.
pub fn intern(
    original: ShaderRecord,
    offset: u32,
    derived: &mut DerivedMut,
    ends: Sizes,
    r: Reference,
) -> Result<Sizes, Full>
    requires number_bound { (r.table < 6) × (r.number < count_at r.table original.cells.words.now) × (r.number < 512) }
    requires nameless { r.table ≡ 0 → Nameless (between original.cells.tags.now original.cells.words.now original.at original.end) }
    requires valid_arrays { Valid derived.old ends }
    ensures { Imports original.entry.cells.words.now (settled (tab_of r.table) r.number (shift (carried_by (went_r derived.old.maps.now) original.entry.cells.tags.now original.entry.cells.words.now original.entry.at original.entry.end) offset false)) derived.old ends result derived.new }
{
    let t = r.table;
    let k = r.number as usize;
    let n = ends.counts[t] as usize;
    let loglen = ends.loglen as usize;
    let p = bucket_of(original, derived.maps, t);
    let found = find_by_bucket(original, &derived.view(ends), t, p);
    if let Some(j) = found {
        derived.maps[t][k] = (j + 1) as u32;
        return Ok(ends);
    }
    let len = original.len();
    // how many starts there is room for, which is `limit` of each of the six tables
    if n == derived.starts[t].len() || ends.words_left() < 1 + len {
        return Err(Full);
    }
    derived.log[loglen] = len as u32;
    write(
        original,
        offset,
        derived.log,
        derived.logtags,
        derived.maps,
        loglen + 1,
    );
    derived.starts[t][n] = loglen as u32;
    derived.maps[t][k] = (n + 1) as u32;
    set_bucket(derived.buckets, p, n);
    Ok(ends.with_record(t, 1 + len))
}
