// Refusal 22, tested before anything changes: an import would follow calls, through functions whose names are unknown, back to one of those. The functions from
// which it would are those that no round places where only functions of unknown name wait. They are among those that no round places where all wait, so names
// are looked up for these alone: for none where no calls form a ring. Before that the function's own calls are looked at: where it calls none of unknown name
// there is no such ring. That f is a function of the source is a clause, and no struct of the two: `unknown` goes through numbers, a call's word is one, and `known(of(source, f), derived)`
// would make a struct for one call, which `known` takes apart, where `known(source, derived, f)` names both.
#![tactic(auto)]

ghost use Rattle.std.specs.Prelude.{◌≡◌, true, [], ◌∷◌, ◌+◌, ◌≤◌, ◌<◌, eqb};
ghost use Rattle.model.specs.Module.{count_at};
ghost use Rattle.model.specs.View.{record_at, record_end};
ghost use Rattle.model.specs.FunctionView.{entry_head_words};
ghost use Rattle.model.specs.Calls.{any};
ghost use Rattle.model.specs.Callees.{callees as callees_of};
ghost use Rattle.model.specs.Redirect.{function};
ghost use Rattle.model.specs.Session.{callees_of as calleesOfAll};
ghost use Rattle.order_ranks.specs.Marks.{members, Below};
ghost use Rattle.order_callees.specs.Gathering.{picked, Gathered};
ghost use Rattle.derive_state.specs.Source.{mod_of};
ghost use Rattle.derive_rings.specs.Rings.{unknown_by, Unknowns, Stuck, RingsEnsures, Scannable, Scannable-prop};
ghost use Rattle.derive_state.specs.Sizes.{going};

use base_classes::CALLEE;
use base_views::{ENTRIES, FUNCTIONS, count};
use derive_lookup::{NamedDerived, known};
use derive_state::NamedSource;
use order_callees::gather_requirements;
use order_ranks::{FunctionSet, left, no_calls};

// Whether the name of function f is unknown: no derived function has it.
fn is_unknown(source: NamedSource, derived: NamedDerived, f: usize) -> bool
    requires f_bound { f < count_at 6 source.image.words.now }
    ensures { result ≡ unknown_by source.entry.image.words.now source.entry.image.n derived.entry.view.now.log.now derived.entry.view.now.logtags.now derived.entry.view.now.starts.now (going derived.entry.view.now.sizes) f }
{
    known(source, derived, f).is_none()
}

// Those of a set whose names are unknown.
fn unknown(source: NamedSource, derived: NamedDerived, began: FunctionSet) -> FunctionSet
    requires began_len { Below (count_at 6 source.image.words.now) began.0 }
    ensures { Unknowns source.entry.image.words.now source.entry.image.n derived.entry.view.now.log.now derived.entry.view.now.logtags.now derived.entry.view.now.starts.now (going derived.entry.view.now.sizes) began.0 result.0 }
{
    let functions = count(source.image.words, FUNCTIONS);
    let mut set = began;
    for f in 0..functions {
        if began.has(f) && !is_unknown(source, derived, f) {
            set.leave(f);
        }
    }
    set
}

// The functions of unknown name from which calls lead, through such functions, to a ring.
pub fn unknown_in_ring(
    source: NamedSource,
    derived: NamedDerived,
    callees: &[FunctionSet; 256],
) -> FunctionSet
    requires gathered { Gathered source.image.words.now source.image.tags.now source.image.n callees.now }
    ensures { Stuck source.entry.image.words.now source.entry.image.n derived.entry.view.now.log.now derived.entry.view.now.logtags.now derived.entry.view.now.starts.now (going derived.entry.view.now.sizes) result.0 }
{
    let functions = count(source.image.words, FUNCTIONS);
    let all = FunctionSet::first(functions);
    let callees = &callees[..functions];
    let led = left(callees, all);
    let waiting = unknown(source, derived, led);
    left(callees, waiting)
}

// The same, with the calls of the image gathered first.
fn stuck(source: NamedSource, derived: NamedDerived) -> FunctionSet
    ensures { Stuck source.entry.image.words.now source.entry.image.n derived.entry.view.now.log.now derived.entry.view.now.logtags.now derived.entry.view.now.starts.now (going derived.entry.view.now.sizes) result.0 }
{
    let mut callees = no_calls();
    gather_requirements(source.image, &mut callees);
    unknown_in_ring(source, derived, &callees)
}

// A function of a source, or that of an entry point: its words lie from `at` to `end`.
#[derive(Clone, Copy)]
struct Caller<'a> {
    source: NamedSource<'a>,
    at: usize,
    end: usize,
    ghost scannable: { Scannable source.image.words.now source.image.tags.now at end (count_at 6 source.image.words.now) } by { Scannable-prop source.image.words.now source.image.tags.now at end (count_at 6 source.image.words.now) },
}

impl<'a> Caller<'a> {
    // Function f.
    fn of_function(source: NamedSource<'a>, f: usize) -> Caller<'a>
        requires f_bound { f < count_at 6 source.image.words.now }
        ensures { (result.source ≡ source.entry) × (result.at ≡ record_at 6 f source.entry.image.words.now) × (result.end ≡ record_end 6 f source.entry.image.words.now) }
    {
        let (at, end) = source.image.record(FUNCTIONS, f);
        Caller { source, at, end }
    }

    // The function of entry point e.
    fn of_entry(source: NamedSource<'a>, e: usize) -> Caller<'a>
        requires e_bound { e < count_at 7 source.image.words.now }
        ensures { (result.source ≡ source.entry) × (result.at ≡ record_at 7 e source.entry.image.words.now + entry_head_words) × (result.end ≡ record_end 7 e source.entry.image.words.now) }
    {
        Caller {
            source,
            at: source.image.entry_function(e),
            end: source.image.record_end(ENTRIES, e),
        }
    }

    // Whether it calls one of a set.
    fn calls_one(self, set: &FunctionSet) -> bool
        ensures { result ≡ any (picked self.entry.source.image.words.now self.entry.source.image.tags.now self.entry.at self.entry.end) (λ i. any (members set.now.0) (eqb i)) }
    {
        let image = self.source.image;
        (self.at..self.end).any(|k| image.tags[k] == CALLEE && set.has(image.words[k] as usize))
    }

    // Whether it calls a function of unknown name.
    fn calls_unknown(self, derived: NamedDerived) -> bool
        ensures { result ≡ any (picked self.entry.source.image.words.now self.entry.source.image.tags.now self.entry.at self.entry.end) (unknown_by self.entry.source.image.words.now self.entry.source.image.n derived.entry.view.now.log.now derived.entry.view.now.logtags.now derived.entry.view.now.starts.now (going derived.entry.view.now.sizes)) }
    {
        let image = self.source.image;
        (self.at..self.end).any(|k| image.tags[k] == CALLEE
            && is_unknown(self.source, derived, image.words[k] as usize))
    }
}

// Whether the function of an entry point calls one of a set. As `entries_lead`, but for the question: one function of both, with the question as a parameter, would be longer than the two.
fn entries_call(source: NamedSource, set: &FunctionSet) -> bool
    ensures { result ≡ any (calleesOfAll (mod_of source.entry.image.words.now source.entry.image.n).entries) (λ i. any (members set.now.0) (eqb i)) }
{
    (0..count(source.image.words, ENTRIES)).any(|e| Caller::of_entry(source, e).calls_one(set))
}

// Whether function f calls one of unknown name: where not, neither it nor one that it calls is stuck.
fn calls_unknown_name(source: NamedSource, derived: NamedDerived, f: usize) -> bool
    requires f_bound { f < count_at 6 source.image.words.now }
    ensures { result ≡ any (callees_of (function (mod_of source.entry.image.words.now source.entry.image.n) f)) (unknown_by source.entry.image.words.now source.entry.image.n derived.entry.view.now.log.now derived.entry.view.now.logtags.now derived.entry.view.now.starts.now (going derived.entry.view.now.sizes)) }
{
    Caller::of_function(source, f).calls_unknown(derived)
}

// Refusal 22 of import_function: function f, or one that it calls, is stuck.
pub fn import_rings(source: NamedSource, derived: NamedDerived, f: usize) -> bool
    requires f_bound { f < count_at 6 source.image.words.now }
    ensures { RingsEnsures (f ∷ callees_of (function (mod_of source.entry.image.words.now source.entry.image.n) f)) source.entry.image.words.now source.entry.image.n derived.entry.view.now.log.now derived.entry.view.now.logtags.now derived.entry.view.now.starts.now (going derived.entry.view.now.sizes) result }
{
    // returns early: what is left uses the calls twice, and as an operand of `&&` it would be a block
    if !calls_unknown_name(source, derived, f) {
        return false;
    }
    let mut callees = no_calls();
    gather_requirements(source.image, &mut callees);
    let set = unknown_in_ring(source, derived, &callees);
    set.has(f) || callees[f].meets(&set)
}

// Refusal 22 of map_function_handle: function f is stuck. The name is looked up here, and again by the caller
// where f is not stuck: in the definition of the operation the refusal comes first, and the handle of a function that is known after it.
pub fn follow_rings(source: NamedSource, derived: NamedDerived, f: usize) -> bool
    requires f_bound { f < count_at 6 source.image.words.now }
    ensures { RingsEnsures (f ∷ []) source.entry.image.words.now source.entry.image.n derived.entry.view.now.log.now derived.entry.view.now.logtags.now derived.entry.view.now.starts.now (going derived.entry.view.now.sizes) result }
{
    is_unknown(source, derived, f)
        && calls_unknown_name(source, derived, f)
        && stuck(source, derived).has(f)
}

// Whether the function of an entry point calls one of unknown name.
fn entries_lead(source: NamedSource, derived: NamedDerived) -> bool
    ensures { result ≡ any (calleesOfAll (mod_of source.entry.image.words.now source.entry.image.n).entries) (unknown_by source.entry.image.words.now source.entry.image.n derived.entry.view.now.log.now derived.entry.view.now.logtags.now derived.entry.view.now.starts.now (going derived.entry.view.now.sizes)) }
{
    (0..count(source.image.words, ENTRIES)).any(|e| Caller::of_entry(source, e).calls_unknown(
        derived,
    ))
}

// Refusal 22 of finishing with entry points: a function that one of them calls is stuck.
pub fn entries_ring(source: NamedSource, derived: NamedDerived) -> bool
    ensures { RingsEnsures (calleesOfAll (mod_of source.entry.image.words.now source.entry.image.n).entries) source.entry.image.words.now source.entry.image.n derived.entry.view.now.log.now derived.entry.view.now.logtags.now derived.entry.view.now.starts.now (going derived.entry.view.now.sizes) result }
{
    entries_lead(source, derived) && entries_call(source, &stuck(source, derived))
}
