// Laying out a record: one class for each word, by one table and recursion. A walk starts at a word and ends after the record, or finds a misfit or a code that
// is none of the listed. The tags have the class of each word that was passed.
//
// The words that a walk may read are an `Extent`. Tags and place stay parameters beside it, and `at ≤ self.end` a clause. A walk of all three would be behind a `&mut`,
// since it writes: its type would say that clause, and each of the eight contracts, in its place, that words, end and array are still those that it had; `DerivedMut` pays
// that for five arrays. They are arrays with `at` and `end`, not slices from `at` to `end`: tried, and slower by a seventh of intake (docs/DECISIONS.md).
//
// A row is told by `pc`, the place in the table where it begins. That is a plain number, with `pc < ROWS` in two contracts here and three of intake_layout: a type of its
// own would be made at seven places, of constants and of what `entry` and `pair` give, and taken apart in `row`, which counts from it.
#![tactic(auto)]

pub mod table;

ghost use Rattle.std.specs.Prelude.{◌≡◌, [], ◌∷◌, ◌+◌, ◌-◌, ◌*◌, ◌%◌, ◌≤◌, ◌<◌, length, get_or};
ghost use Rattle.std.proofs.Math.Seq.{slice};
ghost use Rattle.model.specs.Table.{run};
ghost use Rattle.intake_fields.specs.Parts.{read_b, statement_of, piece, pieces, times as timesOf, opening};
ghost use Rattle.intake_fields.specs.Rows.{ROWS, numbers, row_at, MoreIs};
ghost use Rattle.intake_fields.specs.Walks.{refusal_of, Takes, RowEnsures, Fills};

use base_classes::{BLOCK, CASES, EXPR, LENGTH, MEMBERS, OPERANDS, PAD, TEXT, TYPE_KIND, WORD};
use base_refusals::Refusal;
use base_words::{Tags, Words};
use table::{KIND_ROW, SYMBOLS, entry};

// Why words cannot be read: they do not fit, or a code is none of the listed.
#[derive(Clone, Copy, Debug, PartialEq, Eq)]
pub enum Misread {
    Misfit,
    Strange,
}

// The refusal of an image that cannot be read.
impl From<Misread> for Refusal {
    ghost from_gives = { λ misread refusal. refusal ≡ refusal_of misread };

    fn from(misread: Misread) -> Refusal {
        match misread {
            Misread::Misfit => Refusal::BadLayout,
            Misread::Strange => Refusal::BadRange,
        }
    }
}

// n words of the class c. It takes the end, and no `Extent`, which would ask for words that it does not read.
pub fn fill(tags: &mut Tags, at: usize, end: usize, c: u8, n: u32) -> Result<usize, Misread>
    requires at_le_end { at ≤ end }
    requires end_bound { end ≤ 16384 }
    ensures { Fills result tags.new tags.old at end c n }
{
    let n = n as usize;
    if end - at < n {
        return Err(Misread::Misfit);
    }
    tags[at..at + n].fill(c);
    Ok(at + n)
}

// The words that a walk may read: those in front of `end`. There are two bounds, since a proof knows no length of an array in a field: without the first `padded` and
// `text` do not prove, and without the second `word`, which writes the class.
#[derive(Clone, Copy)]
pub struct Extent<'a> {
    pub words: &'a Words,
    pub end: usize,
    pub ghost inside: { end ≤ length words.now },
    pub ghost few: { end ≤ 16384 },
}

// What the table has for a symbol from MEMBERS on: its row and limit, or where its group starts and how many it has. A symbol is a number, with its bounds in a clause
// of `pair`, `brings` and `opened`: a type for it would be made in `part` alone, at two places, and taken apart in all three, which count, compare and write it.
fn pair(s: u8) -> (usize, u32)
    requires { (110 ≤ s) × (s < 126) }
    ensures row_or_group { result.0 ≡ get_or numbers (SYMBOLS + 2 * (s - 110)) 0 }
    ensures limit_or_count { result.1 ≡ get_or numbers (SYMBOLS + 2 * (s - 110) + 1) 0 }
{
    let at = SYMBOLS + 2 * usize::from(s - MEMBERS);
    (usize::from(entry(at)), u32::from(entry(at + 1)))
}

// What follows the word w of a list, a variant, a block, cases or a statement's kind: the row at a place of the table, a number of times.
fn brings(s: u8, w: u32) -> Result<(usize, u32), Misread>
    requires le_s { (110 ≤ s) × (s < 126) }
    requires not_length { s ≡ 124 → ⊥ }
    ensures { MoreIs s w result }
{
    let (from, most) = pair(s);
    match s {
        BLOCK | CASES => Ok((from, w)),
        // A list, up to its limit.
        ..TYPE_KIND if w <= most => Ok((from, w)),
        ..TYPE_KIND => Err(Misread::Misfit),
        // A code of a group.
        _ if w < most => Ok((usize::from(entry(from + w as usize)), 1)),
        _ => Err(Misread::Strange),
    }
}

impl Extent<'_> {
    // The word at `at`, which is of the class c.
    fn word(self, tags: &mut Tags, at: usize, c: u8) -> Result<u32, Misread>
        ensures { Takes result tags.new tags.old self.entry.words.now at self.entry.end c }
    {
        if self.end <= at {
            return Err(Misread::Misfit);
        }
        tags[at] = c;
        Ok(self.words[at])
    }

    // The last word of a name, of which k bytes are used: the others are zero.
    fn padded(self, tags: &mut Tags, at: usize, k: u32) -> Result<usize, Misread>
        requires at_le_end { at ≤ self.end }
        requires k_nonzero { (0 < k) × (k < 4) }
        ensures { RowEnsures result tags.new tags.old at self.entry.end (run (slice at self.entry.end self.entry.words.now) ((104 + k) ∷ [])) }
    {
        let last = self.word(tags, at, PAD - 1 + k as u8)?;
        let most = 1 << (8 * k);
        if most <= last {
            return Err(Misread::Misfit);
        }
        Ok(at + 1)
    }

    // The bytes of a name, after their number.
    fn text(self, tags: &mut Tags, at: usize) -> Result<usize, Misread>
        requires { at ≤ self.end }
        ensures { RowEnsures result tags.new tags.old at self.entry.end (run (slice at self.entry.end self.entry.words.now) (108 ∷ [])) }
    {
        let bytes = self.word(tags, at, TEXT)?;
        let i = fill(tags, at + 1, self.end, WORD, bytes / 4)?;
        match bytes % 4 {
            0 => Ok(i),
            k => self.padded(tags, i, k),
        }
    }

    // Operands, after their number.
    fn operands(self, tags: &mut Tags, at: usize) -> Result<usize, Misread>
        requires { at ≤ self.end }
        ensures { RowEnsures result tags.new tags.old at self.entry.end (run (slice at self.entry.end self.entry.words.now) (109 ∷ [])) }
    {
        let n = self.word(tags, at, OPERANDS)?;
        fill(tags, at + 1, self.end, EXPR, n)
    }

    // A word of the class s, and what follows because of it, with `left` levels of blocks left.
    #[cycle(opened_part_row_stmt_times)]
    fn opened(self, tags: &mut Tags, at: usize, s: u8, left: u32) -> Result<usize, Misread>
        requires at_le_end { at ≤ self.end }
        requires le_s { (110 ≤ s) × (s < 126) }
        requires not_length { s ≡ 124 → ⊥ }
        ensures { RowEnsures result tags.new tags.old at self.entry.end (opening left s (slice at self.entry.end self.entry.words.now)) }
    {
        let w = self.word(tags, at, s)?;
        let (pc, count) = brings(s, w)?;
        self.times(tags, at + 1, pc, count, left)
    }

    // A statement: its length, and then its kind and row, which have that length.
    #[cycle(opened_part_row_stmt_times)]
    fn stmt(self, tags: &mut Tags, at: usize, left: u32) -> Result<usize, Misread>
        requires { at ≤ self.end }
        ensures { RowEnsures result tags.new tags.old at self.entry.end (statement_of (read_b left) (slice at self.entry.end self.entry.words.now)) }
    {
        let n = self.word(tags, at, LENGTH)?;
        let i = self.row(tags, at + 1, KIND_ROW, left)?;
        if at + n as usize == i {
            Ok(i)
        } else {
            Err(Misread::Misfit)
        }
    }

    // The piece of a symbol that is more than one word.
    #[cycle(opened_part_row_stmt_times)]
    fn part(self, tags: &mut Tags, at: usize, s: u8, left: u32) -> Result<usize, Misread>
        requires at_le_end { at ≤ self.end }
        requires le_s { (108 ≤ s) × (s < 126) }
        ensures { RowEnsures result tags.new tags.old at self.entry.end (piece left s (slice at self.entry.end self.entry.words.now)) }
    {
        match s {
            TEXT => self.text(tags, at),
            OPERANDS => self.operands(tags, at),
            LENGTH => self.stmt(tags, at, left),
            BLOCK if left == 0 => Err(Misread::Misfit),
            BLOCK => self.opened(tags, at, s, left - 1),
            _ => self.opened(tags, at, s, left),
        }
    }

    // The row at pc. It is no `for`: a row ends at a 0, so that one over the rest of the table, by a range or with `take_while`, would ask at each word of an image also
    // whether the table ends, and would have to answer after a last turn that never comes.
    #[cycle(opened_part_row_stmt_times)]
    pub fn row(self, tags: &mut Tags, at: usize, pc: usize, left: u32) -> Result<usize, Misread>
        requires at_le_end { at ≤ self.end }
        requires pc_bound { pc < ROWS }
        ensures { RowEnsures result tags.new tags.old at self.entry.end (pieces left (row_at pc) (slice at self.entry.end self.entry.words.now)) }
    {
        let mut i = at;
        let mut p = pc;
        loop {
            let s = entry(p) as u8;
            if s == 0 {
                return Ok(i);
            }
            p += 1;
            // A class below PAD is one word: one comparison tells it from all others (docs/DECISIONS.md).
            if s < PAD {
                self.word(tags, i, s)?;
                i += 1;
            } else {
                i = self.part(tags, i, s, left)?;
            }
        }
    }

    // The row at pc, `count` times.
    #[cycle(opened_part_row_stmt_times)]
    pub fn times(
        self,
        tags: &mut Tags,
        at: usize,
        pc: usize,
        count: u32,
        left: u32,
    ) -> Result<usize, Misread>
        requires at_le_end { at ≤ self.end }
        requires pc_bound { pc < ROWS }
        ensures { RowEnsures result tags.new tags.old at self.entry.end (timesOf count (pieces left (row_at pc)) (slice at self.entry.end self.entry.words.now)) }
    {
        let mut i = at;
        for _ in 0..count {
            i = self.row(tags, i, pc, left)?;
        }
        Ok(i)
    }
}
