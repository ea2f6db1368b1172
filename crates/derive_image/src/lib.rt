// A derived module written as an image. What is derived is in `log` and `logtags`: a record is a count and that many words, and for each of the eight tables
// `starts` says where its records start. The names are met in the order of first appearance; row 0 of a copy of the starts then holds the names in that order,
// so that all eight tables are written alike. The size is known before anything is written: an image is refused where it passes the limit or where the output is
// shorter, and the bytes after it stay. On the stack: 20 KiB; the caller provides the 64 KiB for the image's words.
#![tactic(auto)]

ghost use Rattle.std.specs.Prelude.{◌≡◌, map, ℕ, ◌+◌, ◌*◌, ◌≤◌, ◌<◌, length, get_or, take};
ghost use Rattle.derive_sections.specs.Rows.{tabs_of};
ghost use Rattle.derive_image.specs.Held.{ValidTables, Finishes, Stored};

use base_refusals::Refusal;
use base_views::{EDITION, ENTRIES, FUNCTIONS, HEADER, MOST_ENTRIES, MOST_FUNCTIONS, NAMES};
use base_words::{Words, store};
use derive_sections::{WritableTables, appearing};
use derive_state::{Derived, Full, MOST_WORDS, Sizes, Special};

// The starts of the names in their new order. By places: with `r.iter_mut().zip(order)` it would be `*to = row[*k as usize]`, the same loop.
fn choose(row: &[u32; 512], order: &[u32]) -> [u32; 512]
    requires order_bound { length order.now ≤ 512 }
    requires by_index { (j : ℕ) → j < length order.now → get_or order.now j 0 < 512 }
    ensures { (take (length order.now) result ≡ map (λ (k : ℕ). get_or row.now k 0) order.now) × (length result ≡ 512) }
{
    let mut r = [0u32; 512];
    for (j, k) in order.iter().enumerate() {
        r[j] = row[*k as usize];
    }
    r
}

// Writes the image as words, and answers how many they are; nothing is written where they are too many.
// That `special` has 1,027 words is a clause here and in `finish`: of a type with a model a caller's proof sees the value, and not the invariant that says it.
pub fn finish_words(derived: &Derived, special: &Special, out: &mut Words) -> Result<usize, Full>
    requires valid_tables { ValidTables derived.now.log.now derived.now.logtags.now derived.now.starts.now derived.now.sizes.counts }
    requires pairs_bound { (derived.now.sizes.pairs ≤ 512) × (length special.now ≡ 1027) × (length out.old ≡ 16384) }
    ensures { Finishes (tabs_of derived.now.log.now derived.now.logtags.now derived.now.starts.now derived.now.sizes.counts) derived.now.sizes.pairs (take (3 + 2 * derived.now.sizes.pairs) special.now) out.old result out.new }
{
    let met = appearing(derived);
    let mut starts = *derived.starts;
    starts[NAMES] = choose(&derived.starts[NAMES], &met.order[..met.count]);
    let mut counts = derived.sizes.counts;
    counts[NAMES] = met.count as u16;
    let chosen = Derived {
        starts: &starts,
        sizes: Sizes {
            counts,
            ..derived.sizes
        },
        ..*derived
    };
    let writable = WritableTables { view: &chosen };
    let pairs = derived.sizes.pairs as usize;
    let k = HEADER + writable.all_sizes() + 3 + 2 * pairs;
    if MOST_WORDS < k {
        return Err(Full);
    }
    out[0] = EDITION;
    out[1] = k as u32;
    writable.write_heads(derived.sizes.pairs as u32, out);
    let at = writable.write_tables(&met.places, out, HEADER);
    special.write(pairs, out, at);
    Ok(k)
}

// Writes the image as bytes, and answers how many they are; refused, the output is as it was. Its words are put together in `out`,
// which may hold anything before and holds anything after.
pub fn finish(
    derived: &Derived,
    special: &Special,
    out: &mut Words,
    output: &mut [u8],
) -> Result<usize, Refusal>
    requires valid_tables { ValidTables derived.now.log.now derived.now.logtags.now derived.now.starts.now derived.now.sizes.counts }
    requires pairs_bound { (derived.now.sizes.pairs ≤ 512) × (length special.now ≡ 1027) × (length out.old ≡ 16384) }
    ensures { Stored (tabs_of derived.now.log.now derived.now.logtags.now derived.now.starts.now derived.now.sizes.counts) derived.now.sizes.pairs (take (3 + 2 * derived.now.sizes.pairs) special.now) output.old result output.new }
{
    let counts = derived.sizes.counts;
    // the limits by their names: `limit(FUNCTIONS)` finds them by the number of a section that is known here
    if MOST_FUNCTIONS < counts[FUNCTIONS] as usize || MOST_ENTRIES < counts[ENTRIES] as usize {
        return Err(Refusal::Full);
    }
    let k = finish_words(derived, special, out)?;
    if output.len() < 4 * k {
        return Err(Refusal::ShortOutput);
    }
    store(&out[..k], output);
    Ok(4 * k)
}
