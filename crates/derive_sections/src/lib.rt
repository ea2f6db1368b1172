// The sections of an image from the records of a log: one pass over the tables after the names meets the names in the order of first appearance, and each
// table is written as its offsets and its records, with the names' new numbers. A table's records are given by the starts of them, one slice. What notes or
// writes is a loop: each turn writes to arrays, and as a fold it would be a closure with the same body. The words of a record are read by their places: with `zip` it would be
// `derived.log[s + 1..end].iter().zip(&derived.logtags[s + 1..end])`, the same bounds twice, and, where they are written, `out[at..at + count].iter_mut()` before both.
#![tactic(auto)]

ghost use Rattle.std.specs.Prelude.{◌≡◌, [], ◌∷◌, map, ℕ, ◌+◌, ◌*◌, ◌≤◌, ◌<◌, length, get_or, take, drop};
ghost use Rattle.std.proofs.lemmas.List.Edits.{sets};
ghost use Rattle.model.specs.Table.{NAME};
ghost use Rattle.model.specs.Finish.{names_in, firsts, keep_n};
ghost use Rattle.derive_state.specs.Held.{row, rec_at, recs_at, table_of};
ghost use Rattle.derive_sections.specs.Flat.{firsts_r, firsts_t, lengths, table_size, offsets, joined, table_words, sizes, heads, tables};
ghost use Rattle.derive_sections.specs.Rows.{tabs_of, Rec, Starts, Starts-prop, Rows, Rows-prop, AppearingEnsures, named};

use base_classes::NAME;
use base_views::{COUNTS, HEADER, OFFSETS, SPECIAL};
use base_words::Words;
use derive_state::Derived;

// The names that are met. What the arrays hold (`AppearingEnsures`) is in clauses and no ghost field: how many names there are is a ghost parameter of the methods, and a ghost field
// speaks of the fields alone; with the 512 of the arrays in its place, `appearing` would not promise that what it orders is below the count of the names.
#[derive(Drop)]
pub struct Met {
    // Their numbers, in the order of first appearance; what stands after `count` of them is not read. An array and a count, since memory is fixed: how many there are is known at the end alone.
    pub order: [u32; 512],
    // For each name the word by which it will be written, its new number plus 1, and 0 while it is not met: words are written from here as they are.
    pub places: [u32; 512],
    // How many they are.
    pub count: usize,
}

impl Met {
    // Notes name m, unless it is among them.
    fn note(&mut self, m: usize)
        ghost names: { ℕ }
        requires { (m < names) × AppearingEnsures names (take self.old.count self.old.order) self.old.order self.old.places self.old.count }
        ensures { AppearingEnsures names (keep_n (take self.old.count self.old.order) m) self.new.order self.new.places self.new.count }
    {
        if self.places[m] != 0 {
            return;
        }
        self.order[self.count] = m as u32;
        self.count += 1;
        self.places[m] = self.count as u32;
    }

    // Notes one word of the class s.
    fn note_word(&mut self, s: u8, w: u32)
        ghost names: { ℕ }
        requires w_le_names { s ≡ NAME → w ≤ names }
        requires appearing_ensures { AppearingEnsures names (take self.old.count self.old.order) self.old.order self.old.places self.old.count }
        ensures { AppearingEnsures names (firsts (names_in ((s, w) ∷ [])) (take self.old.count self.old.order)) self.new.order self.new.places self.new.count }
    {
        if s == NAME && w != 0 {
            self.note(w as usize - 1);
        }
    }

    // Notes the names of the record at s.
    fn note_record(&mut self, derived: &Derived, s: usize)
        ghost names: { ℕ }
        requires rec { Rec names derived.now.log.now derived.now.logtags.now s }
        requires appearing_ensures { AppearingEnsures names (take self.old.count self.old.order) self.old.order self.old.places self.old.count }
        ensures { AppearingEnsures names (firsts (names_in (rec_at derived.now.log.now derived.now.logtags.now s)) (take self.old.count self.old.order)) self.new.order self.new.places self.new.count }
    {
        let end = s + 1 + derived.log[s] as usize;
        for j in s + 1..end {
            self.note_word(derived.logtags[j], derived.log[j]);
        }
    }

    // Notes the names of a table.
    fn note_table(&mut self, derived: &Derived, starts: &[u32])
        ghost names: { ℕ }
        requires starts { Starts names derived.now.log.now derived.now.logtags.now starts.now }
        requires appearing_ensures { AppearingEnsures names (take self.old.count self.old.order) self.old.order self.old.places self.old.count }
        ensures { AppearingEnsures names (firsts_r (recs_at derived.now.log.now derived.now.logtags.now starts.now) (take self.old.count self.old.order)) self.new.order self.new.places self.new.count }
    {
        for s in starts {
            self.note_record(derived, *s as usize);
        }
    }
}

// Where the records of table t start.
fn starts_of<'a>(derived: &Derived<'a>, t: usize) -> &'a [u32]
    requires { (t < 8) × (get_or derived.now.sizes.counts t 0 ≤ 512) }
    ensures { result.now ≡ take (get_or derived.now.sizes.counts t 0) (row derived.now.starts.now t) }
{
    &derived.starts[t][..derived.sizes.counts[t] as usize]
}

// The names of the tables from 1 on, in the order of first appearance.
pub fn appearing(derived: &Derived) -> Met
    ghost names: { ℕ }
    requires names_bound { names ≤ 512 }
    requires rows { Rows names derived.now.log.now derived.now.logtags.now derived.now.starts.now derived.now.sizes.counts }
    ensures { AppearingEnsures names (firsts_t (tabs_of derived.now.log.now derived.now.logtags.now (drop 1 derived.now.starts.now) (drop 1 derived.now.sizes.counts)) []) result.order result.places result.count }
{
    let mut met = Met {
        order: [0; 512],
        places: [0; 512],
        count: 0,
    };
    for t in 1..8 {
        met.note_table(derived, starts_of(derived, t));
    }
    met
}

// A word of the class s as it is written: a name gets its new number.
fn renamed(places: &[u32; 512], s: u8, w: u32) -> u32
    requires { s ≡ NAME → w ≤ 512 }
    ensures { result ≡ named places.now (s, w) }
{
    if s == NAME && w != 0 {
        places[w as usize - 1]
    } else {
        w
    }
}

// Writes the record at s, from `at` on; answers where it ends.
fn write_record(
    derived: &Derived,
    places: &[u32; 512],
    out: &mut Words,
    s: usize,
    at: usize,
) -> usize
    requires rec { Rec 512 derived.now.log.now derived.now.logtags.now s }
    requires s_bound { (at + get_or derived.now.log.now s 0 ≤ 16384) × (length out.old ≡ 16384) }
    ensures { (out.new ≡ sets out.old at (map (named places.now) (rec_at derived.now.log.now derived.now.logtags.now s))) × (result ≡ at + get_or derived.now.log.now s 0) }
{
    let count = derived.log[s] as usize;
    for i in 0..count {
        out[at + i] = renamed(places, derived.logtags[s + 1 + i], derived.log[s + 1 + i]);
    }
    at + count
}

// A table that can be written: where its records start.
#[derive(Clone, Copy)]
struct Table<'a, 'd> {
    view: &'a Derived<'d>,
    starts: &'a [u32],
    ghost records: { Starts 512 view.now.log.now view.now.logtags.now starts.now } by { Starts-prop 512 view.now.log.now view.now.logtags.now starts.now },
}

impl Table<'_, '_> {
    // Writes the offsets of its records, from `at` on.
    fn write_offsets(self, out: &mut Words, at: usize)
        requires starts_bound { (at + length self.starts.now ≤ 16384) × (length out.old ≡ 16384) }
        ensures { out.new ≡ sets out.old at (offsets (recs_at self.entry.view.now.log.now self.entry.view.now.logtags.now self.entry.starts.now) (length self.entry.starts.now)) }
    {
        let mut o = self.starts.len();
        for (j, s) in self.starts.iter().enumerate() {
            out[at + j] = o as u32;
            o += self.view.log[*s as usize] as usize;
        }
    }

    // Writes its records, from `at` on; answers where they end.
    fn write_records(self, places: &[u32; 512], out: &mut Words, at: usize) -> usize
        requires starts_bound { (at + lengths (recs_at self.view.now.log.now self.view.now.logtags.now self.starts.now) ≤ 16384) × (length out.old ≡ 16384) }
        ensures { (out.new ≡ sets out.old at (joined (named places.now) (recs_at self.entry.view.now.log.now self.entry.view.now.logtags.now self.entry.starts.now))) × (result ≡ at + lengths (recs_at self.entry.view.now.log.now self.entry.view.now.logtags.now self.entry.starts.now)) }
    {
        let mut p = at;
        for s in self.starts {
            p = write_record(self.view, places, out, *s as usize, p);
        }
        p
    }

    // Writes it, from `at` on; answers where it ends.
    fn write(self, places: &[u32; 512], out: &mut Words, at: usize) -> usize
        requires starts_bound { (at + table_size (recs_at self.view.now.log.now self.view.now.logtags.now self.starts.now) ≤ 16384) × (length out.old ≡ 16384) }
        ensures { (out.new ≡ sets out.old at (table_words (named places.now) (recs_at self.entry.view.now.log.now self.entry.view.now.logtags.now self.entry.starts.now))) × (result ≡ at + table_size (recs_at self.entry.view.now.log.now self.entry.view.now.logtags.now self.entry.starts.now)) }
    {
        self.write_offsets(out, at);
        self.write_records(places, out, at + self.starts.len())
    }
}

// A derived module whose tables can be written: their records lie in the log, and refer to no name past the 512. It refers to the `Derived`, so that it is passed as one word.
// `appearing` takes a `Derived`, with a clause: it promises that the names which it orders are below their count, and for that the records may refer to none past that count.
#[derive(Clone, Copy)]
pub struct WritableTables<'a, 'd> {
    pub view: &'a Derived<'d>,
    pub ghost rows: { Rows 512 view.now.log.now view.now.logtags.now view.now.starts.now view.now.sizes.counts } by { Rows-prop 512 view.now.log.now view.now.logtags.now view.now.starts.now view.now.sizes.counts },
}

impl<'a, 'd> WritableTables<'a, 'd> {
    // Table t.
    fn table(self, t: usize) -> Table<'a, 'd>
        requires { t < 8 }
        ensures { (result.view ≡ self.entry.view) × (result.starts.now ≡ take (get_or self.entry.view.now.sizes.counts t 0) (row self.entry.view.now.starts.now t)) }
    {
        Table {
            view: self.view,
            starts: starts_of(self.view, t),
        }
    }

    // How many words table t takes.
    fn table_size(self, t: usize) -> usize
        requires t_bound { t < 8 }
        ensures { (result ≡ table_size (table_of self.entry.view.now.log.now self.entry.view.now.logtags.now self.entry.view.now.starts.now self.entry.view.now.sizes.counts t)) × (result ≤ 512 * 16384) }
    {
        let starts = starts_of(self.view, t);
        let words: usize = starts
            .iter()
            .map(|s| self.view.log[*s as usize] as usize)
            .sum();
        starts.len() + words
    }

    // Writes all tables, from `at` on; answers where they end.
    pub fn write_tables(self, places: &[u32; 512], out: &mut Words, at: usize) -> usize
        requires sizes_bound { (at + sizes (tabs_of self.view.now.log.now self.view.now.logtags.now self.view.now.starts.now self.view.now.sizes.counts) ≤ 16384) × (length out.old ≡ 16384) }
        ensures { (out.new ≡ sets out.old at (tables (named places.now) (tabs_of self.entry.view.now.log.now self.entry.view.now.logtags.now self.entry.view.now.starts.now self.entry.view.now.sizes.counts))) × (result ≡ at + sizes (tabs_of self.entry.view.now.log.now self.entry.view.now.logtags.now self.entry.view.now.starts.now self.entry.view.now.sizes.counts)) }
    {
        let mut p = at;
        for t in 0..8 {
            p = self.table(t).write(places, out, p);
        }
        p
    }

    // How many words all tables take.
    pub fn all_sizes(self) -> usize
        ensures { (result ≡ sizes (tabs_of self.entry.view.now.log.now self.entry.view.now.logtags.now self.entry.view.now.starts.now self.entry.view.now.sizes.counts)) × (result ≤ 4096 * 16384) }
    {
        (0..8).map(|t| self.table_size(t)).sum()
    }

    // Writes counts and offsets, with that of so many pairs of special types.
    pub fn write_heads(self, pairs: u32, out: &mut Words)
        requires out_len { length out.old ≡ 16384 }
        ensures { out.new ≡ sets out.old 2 (heads (tabs_of self.entry.view.now.log.now self.entry.view.now.logtags.now self.entry.view.now.starts.now self.entry.view.now.sizes.counts) 20 pairs) }
    {
        let mut p = HEADER;
        for t in 0..8 {
            out[COUNTS + 2 * t] = self.view.sizes.counts[t] as u32;
            out[OFFSETS + 2 * t] = p as u32;
            p += self.table_size(t);
        }
        out[COUNTS + 2 * SPECIAL] = pairs;
        out[OFFSETS + 2 * SPECIAL] = p as u32;
    }
}
