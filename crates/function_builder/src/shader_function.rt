// A function of a source that is imported, as it is read. A file of its own, since a struct with a ghost field imports what its whole file does: the functions of lib.rt
// cite definitions of specs/Read.antt, which names the struct, so that in lib.rt it would import itself.
#![tactic(auto)]

ghost use Rattle.std.specs.Prelude.{◌≡◌, ◌+◌, ◌<◌, get_or};
ghost use Rattle.function_references.specs.Cuts.{Expressions, Expressions-prop};

use derive_state::{NamedSource, Places};
use function_references::Piece;

// A function of a source that is imported: where each of its expressions starts in the image and where the last one ends, and how many there are; and where the
// derived ones start on the stack, by their places.
// What is written of it, `exprmap` and the stacks, stays two parameters. Thirteen functions write both, and nine of these would take a struct of the two apart in
// their bodies, for `exprmap[e]`, `push`, `write`, `next_word` and `put_word`; twenty-nine others take one of the two, or write the stacks by a map that they read.
// Each of the thirteen would have to promise that both borrows are still the caller's, as `SameArrays` says of a derived module, and each of their loops to carry
// it. One struct of both and of `derived` would have a struct of mutable borrows in it, and two fields of a struct in a struct cannot be lent at once
// (docs/DESIGN-PASS.md, "Tried and learnt").
#[derive(Clone, Copy)]
pub struct ShaderFunction<'a, 'p> {
    pub source: NamedSource<'a>,
    pub places: &'p Places,
    pub count: usize,
    pub base: usize,
    pub ghost expressions: { Expressions source.image.words.now source.image.tags.now places.now count } by { Expressions-prop source.image.words.now source.image.tags.now places.now count },
}

impl<'a> ShaderFunction<'a, '_> {
    // Expression e. It is a number and no handle, as everywhere in the import of a function: code counts through expressions and takes their numbers for places in
    // arrays, so that a handle would be made in the call and opened in the first line, `self.places[e.0 as usize]` for `self.places[e]`.
    pub fn expression(self, e: usize) -> Piece<'a>
        requires { e < self.count }
        ensures { (result.source ≡ self.entry.source) × (result.at ≡ get_or self.entry.places.now e 0) × (result.end ≡ get_or self.entry.places.now (e + 1) 0) }
    {
        Piece {
            source: self.source,
            at: self.places[e] as usize,
            end: self.places[e + 1] as usize,
        }
    }
}
