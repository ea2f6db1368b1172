// What the words of a function may refer to, and a source that passed intake: definitions for the code that imports functions, and laws on them; and a piece of
// such a source, which is imported at once.
#![tactic(auto)]

ghost use Rattle.function_references.specs.Fits.{Legible, Legible-prop};

use derive_state::NamedSource;

// What is imported at once, and then written on the stack of expressions: an expression of a function, or the head of an entry point. Its words lie from `at` to `end`.
// `derive_state::ShaderRecord` and `derive_rings::Caller` are stretches of words, too. One generic type for the three would have `at` and `end` and nothing else: what
// is known of the words differs (numbers in the rows of maps; what fits a function of 1,024 expressions; functions that there are), what they lie in differs with it
// (`Cells`, `NamedSource`), and no function takes two of the three.
#[derive(Clone, Copy)]
pub struct Piece<'a> {
    pub source: NamedSource<'a>,
    pub at: usize,
    pub end: usize,
    pub ghost legible: { Legible source.image.words.now source.image.tags.now 1024 at end } by { Legible-prop source.image.words.now source.image.tags.now 1024 at end },
}
