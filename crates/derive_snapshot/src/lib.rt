// A snapshot of a session before an operation that may not fit: the starts and the maps that are in use are saved, and restored where it did not fit. Nothing
// else has to be: what was written lies after the log's end, and a bucket that was set costs a search at most.
#![tactic(auto)]

ghost use Rattle.std.specs.Prelude.{◌≡◌, true, ◌≤◌, ◌<◌, length, get_or};
ghost use Rattle.model.specs.Module.{count_at};
ghost use Rattle.derive_state.specs.Sizes.{going};
ghost use Rattle.derive_snapshot.specs.Snapshot.{Prefix, Prefixes, InUse, SaveEnsures, RestoreEnsures};

use base_views::count;
use base_words::Words;
use derive_state::{Derived, Maps, Sizes, Starts};

// Saves the first n words of a row.
fn save_row(row: &[u32; 512], n: usize, to: &mut [u32; 512])
    requires { (length row.now ≡ 512) × (length to.old ≡ 512) × (n ≤ 512) }
    ensures { Prefix n row.now to.old to.new }
{
    to[..n].copy_from_slice(&row[..n]);
}

// Saves the starts of the derived records. Apart from `save_maps`: of the starts the sizes tell how many are in use, of the maps the words. One function of both would be
// `save_rows::<8>(starts, |t| ends.counts[t] as usize, s)` and `save_rows::<6>(maps, |t| count(words, t), m)`, with the loop of one line and a type parameter, a closure and its clauses around it.
fn save_starts(starts: &Starts, ends: Sizes, s: &mut [[u32; 512]; 8])
    requires { Prefixes 8 0 (λ t. get_or ends.counts t 0) starts.now s.old }
    ensures { Prefixes 8 8 (λ t. get_or ends.counts t 0) starts.now s.new }
{
    for t in 0..8 {
        save_row(&starts[t], ends.counts[t] as usize, &mut s[t]);
    }
}

// Saves the maps of the numbers that the source has.
fn save_maps(words: &Words, maps: &Maps, m: &mut [[u32; 512]; 6])
    requires { Prefixes 6 0 (λ t. count_at t words.now) maps.now m.old }
    ensures { Prefixes 6 6 (λ t. count_at t words.now) maps.now m.new }
{
    for t in 0..6 {
        save_row(&maps[t], count(words, t), &mut m[t]);
    }
}

// What is saved of a derived module: the part of starts and maps that is in use. Where they are saved whole it is a literal, as in derive_source: `Snapshot::whole(&derived.view(ends))` would say in a call
// what `starts: *derived.starts, maps: *derived.maps` says.
#[derive(Clone, Copy)]
pub struct Snapshot {
    pub starts: Starts,
    pub maps: Maps,
}

impl Snapshot {
    // Saves the part of starts and maps that is in use; the rest of the snapshot is 0.
    pub fn of(words: &Words, derived: &Derived) -> Snapshot
        requires starts_in_use { InUse 8 (λ t. get_or derived.now.sizes.counts t 0) derived.now.starts.now }
        requires maps_in_use { InUse 6 (λ t. count_at t words.now) derived.now.maps.now }
        ensures { SaveEnsures words.now derived.now.starts.now derived.now.maps.now (going derived.now.sizes) result.starts result.maps }
    {
        let mut saved = Snapshot {
            starts: [[0; 512]; 8],
            maps: [[0; 512]; 6],
        };
        save_starts(derived.starts, derived.sizes, &mut saved.starts);
        save_maps(words, derived.maps, &mut saved.maps);
        saved
    }
}

// Restores starts and maps as they were saved, where something did not fit. It takes the two arrays that it writes, not the module: what stays needs no clause so. The definition has a flag, which is
// true here: it says too what is so where all fits, and the theorem of what an operation leaves (`whole_of` of proofs/Over.antt) takes both as one.
pub fn restore(starts: &mut Starts, maps: &mut Maps, saved: &Snapshot)
    ensures { RestoreEnsures true saved.now.starts saved.now.maps starts.old maps.old starts.new maps.new }
{
    *starts = saved.starts;
    *maps = saved.maps;
}
