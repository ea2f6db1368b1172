// Bytes to words and back, little-endian, on slices that the caller provides. Both loops put what they make at its place by number: over
// `words.iter_mut().zip(bytes.chunks_exact(4))`, as tried on `load`, the loop's invariant has no `words`, which the iterator holds, to say what has been put.
#![tactic(auto)]

ghost use Rattle.std.specs.Prelude.{◌≡◌, ◌+◌, ◌*◌, ◌/◌, ◌^◌, ◌≤◌, ◌<◌, length, [], ◌∷◌};
ghost use Rattle.std.proofs.lemmas.List.Edits.{sets};
ghost use Rattle.base_words.specs.Words.{word_at, words_of, bytes_of};

// The words of an image.
pub type Words = [u32; 16384];

// The class of each word, at its place.
pub type Tags = [u8; 16384];

// The word of the four bytes from `at` on.
pub fn word_at(bytes: &[u8], at: usize) -> u32
    requires { at + 4 ≤ length bytes.now }
    ensures { result ≡ word_at bytes.now at }
{
    u32::from_le_bytes([bytes[at], bytes[at + 1], bytes[at + 2], bytes[at + 3]])
}

// The bytes' words, at the start of `words`.
pub fn load(bytes: &[u8], words: &mut [u32])
    requires { length bytes.now / 4 ≤ length words.old }
    ensures { words.new ≡ sets words.old 0 (words_of bytes.now) }
{
    for j in 0..bytes.len() / 4 {
        words[j] = word_at(bytes, 4 * j);
    }
}

// Puts the four bytes of a word from `at` on.
fn put_word(bytes: &mut [u8], at: usize, w: u32)
    requires { at + 4 ≤ length bytes.old }
    ensures { bytes.new ≡ sets bytes.old at (bytes_of (w ∷ [])) }
{
    bytes[at..at + 4].copy_from_slice(&w.to_le_bytes());
}

// The bytes of the words, at the start of `bytes`; the bytes past them stay.
pub fn store(words: &[u32], bytes: &mut [u8])
    requires { 4 * length words.now ≤ length bytes.old }
    ensures { bytes.new ≡ sets bytes.old 0 (bytes_of words.now) }
{
    for (j, w) in words.iter().enumerate() {
        put_word(bytes, 4 * j, *w);
    }
}
