// Whether names differ, and whether names of functions and special keys do.
// Cost: linear, except where marks collide. Names, names of functions and keys are one pass each, from the last to the first: each leaves a mark by its
// hash, and only one whose mark may be there already is compared with all later ones, which is one or two of 512 names whose hashes fall as if by
// chance. Names or keys that are made to leave their marks at one place are still compared by pairs. The worst case is 512 names of equal length and
// one place that differ in their last words: 130,816 pairs of 30 words, about 2 ms.
#![tactic(auto)]

ghost use Rattle.std.specs.Prelude.{◌≡◌, ℕ, ◌-◌, ◌^◌, ◌≤◌, ◌<◌, length};
ghost use Rattle.model.specs.Module.{count_at};
ghost use Rattle.model.specs.Names.{absent as absentOf, distinct as distinctOf, unlike as unlikeOf, differ as differOf};
ghost use Rattle.intake_distinct.specs.Listed.{listing, place_of, number_at, Placed, name_at, Spelled};
ghost use Rattle.intake_distinct.specs.Places.{mix as mixOf, hash as hashOf, print as fingerprintOf, Leaves, AllAlone};

use base_views::{NAMES, SPECIAL, count, end_of, pair_at, start_of};
use base_words::Words;

// Where record j of section k starts, or pair j of the special types.
fn place(words: &Words, k: usize, j: usize) -> usize
    requires placed { Placed words.now k }
    requires j_bound { j < count_at k words.now }
    requires j_bound_2 { j < 2 ^ 32 }
    ensures { (result ≡ place_of words.now k j) × (result < 16384) }
{
    if k == SPECIAL {
        return pair_at(words, j);
    }
    start_of(words, k, j)
}

// The name of a function or an entry point, or the key of a pair.
pub fn number(words: &Words, k: usize, j: usize) -> u32
    requires placed { Placed words.now k }
    requires j_bound { j < count_at k words.now }
    requires j_bound_2 { j < 2 ^ 32 }
    ensures { result ≡ number_at words.now k j }
{
    let at = place(words, k, j);
    words[at]
}

// Whether none of section k from a number on is x.
fn absent(words: &Words, k: usize, from: usize, x: u32) -> bool
    requires placed { Placed words.now k }
    requires from_bound { from ≤ count_at k words.now }
    ensures { result ≡ absentOf (listing (number_at words.now k) (count_at k words.now - from) from) x }
{
    (from..count(words, k)).all(|j| x != number(words, k, j))
}

// The mark of a place at which hashes of other fingerprints meet: a number, since the marks are bytes, and the others are fingerprints, 1 to 254.
const SEVERAL: u8 = 255;

// The mark that a hash leaves: its fingerprint.
fn fingerprint(h: usize) -> u8
    ensures { result ≡ fingerprintOf h }
{
    (h % 254 + 1) as u8
}

// Whether the hash h has surely not left its mark at a place; it leaves it. No mark is 0, and where fingerprints differ the mark is 255.
fn mark(seen: &mut [u8], at: usize, h: usize) -> bool
    requires { at < length seen.old }
    ensures { Leaves seen.old at h seen.new result }
{
    let own = fingerprint(h);
    let old = seen[at];
    let new = old != own && old != SEVERAL;
    if new {
        seen[at] = if old == 0 { own } else { SEVERAL };
    }
    new
}

// Whether each of `count` is none of the later ones, as `alone` says of it: that is asked only of those whose hash may be that of a later one.
fn all_alone<const MARKS: usize, H: Fn(usize) -> usize, A: Fn(usize) -> bool>(
    count: usize,
    hash: H,
    alone: A,
) -> bool
    requires marks { (0 < MARKS) × (MARKS < 2 ^ 32) }
    requires hashes { (j : ℕ) → j < count → H.pre hash j }
    requires asks { (j : ℕ) → j < count → A.pre alone j }
    ensures { AllAlone (H.post hash) (A.post alone) count result }
{
    let mut seen = [0u8; MARKS];
    // A loop: each turn writes `seen`, and the closure of an `all` would have to say again what `hash` and `alone` require, and that `seen` keeps its length.
    for j in (0..count).rev() {
        let h = hash(j);
        if !mark(&mut seen, h % MARKS, h) && !alone(j) {
            return false;
        }
    }
    true
}

// Whether those of section k differ. A number is its own hash.
pub fn distinct(words: &Words, k: usize) -> bool
    requires { Placed words.now k }
    ensures { result ≡ distinctOf (listing (number_at words.now k) (count_at k words.now) 0) }
{
    all_alone::<1024, _, _>(
        count(words, k),
        |j| number(words, k, j) as usize,
        |j| absent(words, k, j + 1, number(words, k, j)),
    )
}

// Name j, as words.
fn name(words: &Words, j: usize) -> &[u32]
    requires spelled { Spelled words.now }
    requires j_bound { j < count_at 0 words.now }
    requires j_bound_2 { j < 2 ^ 32 }
    ensures { result.now ≡ name_at words.now j }
{
    let start = place(words, NAMES, j);
    let end = end_of(words, NAMES, j);
    &words[start..end]
}

// Whether none of the names from a number on is x. One function for this and `absent` would take the section's elements as a closure, and is longer than both.
fn unlike(words: &Words, from: usize, x: &[u32]) -> bool
    requires spelled { Spelled words.now }
    requires from_bound { from ≤ count_at 0 words.now }
    ensures { result ≡ unlikeOf (listing (name_at words.now) (count_at 0 words.now - from) from) x.now }
{
    (from..count(words, NAMES)).all(|j| x != name(words, j))
}

// The hash of a name whose words so far have the hash h, and whose next word is w.
pub fn mix(h: usize, w: u32) -> usize
    requires { h < 2 ^ 24 }
    ensures { (result ≡ mixOf h w) × (result < 2 ^ 24) }
{
    (h + w as usize) * 2654435769 / 1048576 % 16777216
}

// The hash of a name.
fn hash(name: &[u32]) -> usize
    ensures { result ≡ hashOf name.now }
{
    let mut h = 0;
    // A loop: the closure of a `fold` would have to say again what `mix` requires and ensures of the hash so far.
    for w in name {
        h = mix(h, *w);
    }
    h
}

// Whether the names differ.
pub fn differ(words: &Words) -> bool
    requires { Spelled words.now }
    ensures { result ≡ differOf (listing (name_at words.now) (count_at 0 words.now) 0) }
{
    all_alone::<4096, _, _>(
        count(words, NAMES),
        |j| hash(name(words, j)),
        |j| unlike(words, j + 1, name(words, j)),
    )
}
