// The named expressions of a function that is imported: those that stay, each with its last name, and their names imported.
#![tactic(auto)]

ghost use Rattle.std.specs.Prelude.{◌≡◌, [], ℕ, suc, ◌+◌, ◌-◌, ◌*◌, ◌≤◌, ◌<◌, length, get_or};
ghost use Rattle.model.specs.Module.{count_at};
ghost use Rattle.model.specs.Bodies.{keep_names};
ghost use Rattle.derive_state.specs.Held.{row, Valid};
ghost use Rattle.function_builder.specs.Stacks.{Stacks};
ghost use Rattle.function_names.specs.Named.{named_records, KeepNamesEnsures, ImportsNames};
ghost use Rattle.derive_state.specs.Sizes.{going, told};

use base_views::NAMES;
use base_words::Words;
use derive_imports::import;
use derive_state::{DerivedMut, Full, NamedSource, Places, Reference, Sizes, StackRows};
use function_builder::{BODY, push};

// The named expressions that stay, of those whose count is word `at`, each with its name's word in the source: the last name counts, in the first's place. `exprmap` has
// the function's expressions and no more.
// `seats` is scratch memory that the caller provides: nothing is required of it before or promised after. A seat is the number of a name that stays plus 1, and 0 for
// none: the memory is that of the caller's places, which are numbers, and clearing makes them 0.
// Pairs by their numbers, as `by_index` has them: in chunks, `words[at + 1..at + 1 + 2 * count].chunks_exact(2)` has the sum of `q` in its end, and each read is as long.
pub fn keep_names(
    words: &Words,
    exprmap: &[u16],
    seats: &mut Places,
    stacks: &mut StackRows,
    ends: Sizes,
    at: usize,
) -> Result<Sizes, Full>
    requires at_bound { (at < 16384) × (at + 2 * get_or words.now at 0 < 16384) × (length words.now ≡ 16384) }
    requires by_index { (i : ℕ) → i < get_or words.now at 0 → get_or words.now (at + 1 + 2 * i) 0 < length exprmap.now }
    requires by_index_2 { (x : ℕ) → get_or exprmap.now x 0 ≤ 1024 }
    requires stacks { Stacks stacks.old (going ends) }
    ensures { KeepNamesEnsures (keep_names (named_records words.now (at + 1) (get_or words.now at 0)) exprmap.now []) stacks.old (going ends) (told result) stacks.new }
{
    *seats = [0; 1025];
    let b = ends.bodytop as usize;
    let count = words[at] as usize;
    let mut e = ends;
    for i in 0..count {
        let q = at + 1 + 2 * i;
        let v = exprmap[words[q] as usize] as usize;
        if v != 0 {
            let j = seats[v - 1] as usize;
            if j == 0 {
                seats[v - 1] = ((e.bodytop as usize - b) / 2 + 1) as u16;
                e = push(stacks, e, (v - 1) as u32)?;
                e = push(stacks, e, words[q + 1])?;
            } else {
                stacks[BODY][b + 2 * j - 1] = words[q + 1];
            }
        }
    }
    Ok(e)
}

// Imports the names of the pairs that are on the stack from b on.
pub fn import_names(
    source: NamedSource,
    derived: &mut DerivedMut,
    stacks: &mut StackRows,
    ends: Sizes,
    b: usize,
) -> Result<Sizes, Full>
    requires b_le_bodytop { b ≤ ends.bodytop }
    requires by_index { (i : ℕ) → b + 2 * i < ends.bodytop → (suc (b + 2 * i) < ends.bodytop) × (get_or (row stacks.old 3) (suc (b + 2 * i)) 0 ≤ count_at 0 source.image.words.now) }
    requires stacks { Stacks stacks.old (going ends) }
    requires valid_arrays { Valid derived.old ends }
    ensures { ImportsNames source.entry.image.words.now source.entry.image.n source.entry.offset b derived.old stacks.old ends result derived.new stacks.new }
{
    let mut e = ends;
    for i in (b..ends.bodytop as usize).step_by(2) {
        let j = i + 1;
        let w = stacks[BODY][j];
        if w != 0 {
            let r = Reference {
                table: NAMES,
                number: w - 1,
            };
            e = import(source.source(), derived, e, r)?;
            stacks[BODY][j] = derived.maps[NAMES][r.number as usize];
        }
    }
    Ok(e)
}
