// The derived special types. A contract sees them as the words of an image's section: one for each optional type, of which there are three, and two for each pair.
#![tactic(auto)]

ghost use Rattle.std.specs.Prelude.{MatchOption, ◌≡◌, ℕ, ◌+◌, ◌*◌, ◌<◌, ◌≤◌, List, ◌++◌, length, replicate, slice_index, slice_set, take, drop};
ghost use Rattle.std.proofs.lemmas.List.Edits.{sets};
ghost use Rattle.model.specs.Special.{keyed};
ghost use Rattle.model.specs.Session.{any_ray};
ghost use Rattle.derive_state.specs.Flats.{pairs_at, special_of};
ghost use Rattle.derive_state.specs.Pairs.{flat, pairs_in, rays_back, pairs_back};
ghost use Rattle.std.proofs.Common.{ap₂};

use base_words::Words;
use std::marker::Model;

// A key, and the number of the type that is derived for it.
#[derive(Clone, Copy)]
struct KeyedType {
    key: u32,
    number: u32,
}

// The optional types, each 0 or its number plus 1, and the pairs. An optional type is the word that a map has for it and that the section is written with, both
// as it is. How many pairs there are is among the sizes, which go by value, so that what is refused leaves it as it was.
#[derive(Clone, Copy)]
pub struct Special {
    rays: [u32; 3],
    pairs: [KeyedType; 512],
}

impl Model for Special {
    ghost Value = { List ℕ };

    ghost view = { λ s. s.rays ++ flat s.pairs };

    ghost invariant = { λ s. (length s.rays ≡ 3) × (length s.pairs ≡ 512) };

    ghost inverse = { λ ws. record { rays = take 3 ws; pairs = pairs_in (drop 3 ws) } };

    ghost inverse_ok = { λ s h. ap₂ (λ r p. record { rays = r; pairs = p }) (rays_back s.rays (flat s.pairs) h.0) (pairs_back s.rays s.pairs h.0) };
}

impl Special {
    // No special types.
    pub fn new() -> Self
        ensures { result ≡ replicate 1027 0 }
    {
        Special {
            rays: [0; 3],
            pairs: [KeyedType { key: 0, number: 0 }; 512],
        }
    }

    // The optional type of place k.
    pub fn ray(&self, k: usize) -> u32
        requires { k < 3 }
        ensures { result ≡ slice_index self.now k }
    {
        self.rays[k]
    }

    // Whether there is an optional type.
    pub fn has_ray(&self) -> bool
        ensures { result ≡ any_ray (special_of self.now 0).rays }
    {
        self.rays.iter().any(|v| *v != 0)
    }

    // Sets the optional type of place k.
    pub fn set_ray(&mut self, k: usize, v: u32)
        requires { k < 3 }
        ensures { self.new ≡ slice_set self.old k v }
    {
        self.rays[k] = v;
    }

    // Takes the optional types away.
    pub fn clear_rays(&mut self)
        ensures { self.new ≡ slice_set (slice_set (slice_set self.old 0 0) 1 0) 2 0 }
    {
        self.rays = [0; 3];
    }

    // The type derived for a key, among the first n pairs.
    pub fn type_for(&self, n: usize, key: u32) -> Option<u32>
        requires { n ≤ 512 }
        ensures { MatchOption result (0 ≡ keyed (pairs_at self.now 3 n) key) (λ h. h + 1 ≡ keyed (pairs_at self.now 3 n) key) }
    {
        let pair = self.pairs[..n].iter().find(|pair| pair.key == key)?;
        Some(pair.number)
    }

    // Sets pair p.
    pub fn set_pair(&mut self, p: usize, key: u32, number: u32)
        requires { p < 512 }
        ensures { self.new ≡ slice_set (slice_set self.old (3 + 2 * p) key) (4 + 2 * p) number }
    {
        self.pairs[p] = KeyedType { key, number };
    }

    // Writes them with the first n pairs, from `at` on.
    pub fn write(&self, n: usize, out: &mut Words, at: usize)
        requires { (n ≤ 512) × (at + 3 + 2 * n ≤ 16384) × (length out.old ≡ 16384) }
        ensures { out.new ≡ sets out.old at (take (3 + 2 * n) self.now) }
    {
        out[at..at + 3].copy_from_slice(&self.rays);
        // by places: with `out[at + 3..at + 3 + 2 * n].chunks_exact_mut(2).zip(&self.pairs[..n])` it would have the length of what is written, and write to places 0 and 1
        for (j, pair) in self.pairs[..n].iter().enumerate() {
            out[at + 3 + 2 * j] = pair.key;
            out[at + 4 + 2 * j] = pair.number;
        }
    }
}
