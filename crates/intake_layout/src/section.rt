// Laying out the header and the sections: each record has its extent, and each section its place. A misfit ends it at once; a code that is none of the listed
// is remembered, since a misfit after it is what is told. Words and tags are apart, and rows are told by `pc`, as in intake_fields, which says why.
ghost use Rattle.std.specs.Prelude.{◌≡◌, true, ◌+◌, ◌-◌, ◌*◌, ◌^◌, ◌≤◌, ◌<◌, length, take, get_or};
ghost use Rattle.std.proofs.Math.Seq.{slice};
ghost use Rattle.model.specs.Module.{limits, placed as placed_of, end_at, next};
ghost use Rattle.intake_fields.specs.Parts.{pieces, table_rows};
ghost use Rattle.intake_fields.specs.Rows.{ROWS, row_at};
ghost use Rattle.intake_layout.specs.Extents.{Covers, noted, extent, tabled, special as special_of, sections_from, records_left};

use base_views::{COUNTS, HEADER, SPECIAL, count, limit, offset};
use base_words::{Tags, Words};
use intake_fields::table::{PAIR_ROW, RAYS_ROW, RECORDS, entry};
use intake_fields::{Extent, Misread, fill};

// How many levels of blocks may lie in one another.
const DEPTH: u32 = 32;

// Whether a code was none of the listed, in a part or, by `odd`, before it: that ends nothing, but a misfit does.
#[tactic(auto, unfolding(crate::specs::Extents::noted))]
fn noted(odd: bool, part: Result<(), Misread>) -> Result<bool, Misread>
    ensures { result ≡ noted odd part }
{
    match part {
        Ok(()) => Ok(odd),
        Err(Misread::Strange) => Ok(true),
        Err(Misread::Misfit) => Err(Misread::Misfit),
    }
}

// A section: the words of `extent` from `base` on.
#[derive(Clone, Copy)]
struct Section<'a> {
    base: usize,
    extent: Extent<'a>,
    ghost rising: { base ≤ extent.end },
}

// The words of an image, with room for a header.
#[derive(Clone, Copy)]
pub struct Headed<'a> {
    pub extent: Extent<'a>,
    pub ghost header: { 20 ≤ extent.end },
}

impl Section<'_> {
    // Where record j of n ends: where the next one starts, or where the section ends.
    fn end_of(self, n: usize, j: usize) -> usize
        requires j_lt_n { j < n }
        requires n_bound { self.base + n ≤ self.extent.end }
        ensures { (result ≡ self.entry.base + next (slice (self.entry.base + j + 1) (self.entry.base + n) self.entry.extent.words.now) (self.entry.extent.end - self.entry.base)) × (result < 2 ^ 33) }
    {
        if j + 1 < n {
            self.base + self.extent.words[self.base + j + 1] as usize
        } else {
            self.extent.end
        }
    }

    // The record that is to start at `at`, starts at `start` and ends at `end`.
    fn record(
        self,
        tags: &mut Tags,
        start: usize,
        at: usize,
        end: usize,
        pc: usize,
    ) -> Result<(), Misread>
        requires at_le_stop { at ≤ self.extent.end }
        requires pc_bound { pc < ROWS }
        ensures { Covers result tags.new tags.old at (extent (pieces 32 (row_at pc)) start at end self.entry.extent.end (slice at self.entry.extent.end self.entry.extent.words.now)) }
    {
        if start != at || end < at || self.extent.end < end {
            return Err(Misread::Misfit);
        }
        let extent = Extent {
            words: self.extent.words,
            end,
        };
        let i = extent.row(tags, at, pc, DEPTH)?;
        if i == end {
            Ok(())
        } else {
            Err(Misread::Misfit)
        }
    }

    // The records of a section, after their n offsets.
    fn records(self, tags: &mut Tags, n: usize, pc: usize) -> Result<(), Misread>
        requires n_bound { self.base + n ≤ self.extent.end }
        requires pc_bound { pc < ROWS }
        ensures { Covers result tags.new tags.old (self.entry.base + n) (records_left (pieces 32 (row_at pc)) self.entry.extent.words.now self.entry.base self.entry.extent.end n 0 (self.entry.base + n)) }
    {
        let mut at = self.base + n;
        let mut odd = false;
        for j in 0..n {
            let start = self.base + self.extent.words[self.base + j] as usize;
            let end = self.end_of(n, j);
            odd = noted(odd, self.record(tags, start, at, end, pc))?;
            at = end;
        }
        if at != self.extent.end {
            return Err(Misread::Misfit);
        }
        if odd { Err(Misread::Strange) } else { Ok(()) }
    }

    // A section of records: an offset for each, and then the records.
    fn table(self, tags: &mut Tags, count: u32, pc: usize) -> Result<(), Misread>
        requires { pc < ROWS }
        ensures { Covers result tags.new tags.old self.entry.base (tabled (row_at pc) count (slice self.entry.base self.entry.extent.end self.entry.extent.words.now)) }
    {
        fill(tags, self.base, self.extent.end, base_classes::PLACE, count)?;
        self.records(tags, count as usize, pc)
    }

    // The special types: three optional types, and then pairs.
    fn special(self, tags: &mut Tags, count: u32) -> Result<(), Misread>
        ensures { Covers result tags.new tags.old self.entry.base (special_of count (slice self.entry.base self.entry.extent.end self.entry.extent.words.now)) }
    {
        let pairs = self.extent.row(tags, self.base, RAYS_ROW, DEPTH)?;
        let end = self.extent.times(tags, pairs, PAIR_ROW, count, DEPTH)?;
        if end == self.extent.end {
            Ok(())
        } else {
            Err(Misread::Misfit)
        }
    }
}

impl Headed<'_> {
    // Where section k ends.
    fn end_at(self, k: usize) -> usize
        requires { k < 9 }
        ensures { (result ≡ end_at k (take self.entry.extent.end self.entry.extent.words.now)) × (result < 2 ^ 32) }
    {
        if k == SPECIAL {
            self.extent.end
        } else {
            offset(self.extent.words, k + 1)
        }
    }

    // Do the sections follow one another from word 20 to the end, each with no more records than it may have?
    pub fn sections_fit(self) -> bool
        ensures { result ≡ placed_of limits 0 20 (take self.entry.extent.end self.entry.extent.words.now) }
    {
        // A loop, which carries where the next section has to start: a `try_fold` would answer it in an `Option`, for each section, and nobody would read it.
        let mut at = HEADER;
        for j in 0..SPECIAL + 1 {
            let start = offset(self.extent.words, j);
            let end = self.end_at(j);
            let many = count(self.extent.words, j);
            let most = limit(j);
            if start != at || most < many || end < at || self.extent.end < end {
                return false;
            }
            at = end;
        }
        true
    }

    // The eight tables, where the sections are in place, and then the special types. Counts are read as words, which `fill` and `times` take: `base_views::count` gives a
    // `usize`, which would be cast back.
    pub fn sections(self, tags: &mut Tags) -> Result<(), Misread>
        requires { placed_of limits 0 20 (take self.extent.end self.extent.words.now) ≡ true }
        ensures { Covers result tags.new tags.old 20 (sections_from table_rows 0 (take self.entry.extent.end self.entry.extent.words.now)) }
    {
        let mut odd = false;
        let words = self.extent.words;
        for j in 0..SPECIAL {
            let base = offset(words, j);
            let stop = offset(words, j + 1);
            let pc = usize::from(entry(RECORDS + j));
            let count = words[COUNTS + 2 * j];
            let section = Section {
                base,
                extent: Extent { words, end: stop },
            };
            odd = noted(odd, section.table(tags, count, pc))?;
        }
        let last = Section {
            base: offset(words, SPECIAL),
            extent: self.extent,
        };
        last.special(tags, words[COUNTS + 2 * SPECIAL])?;
        if odd { Err(Misread::Strange) } else { Ok(()) }
    }
}
