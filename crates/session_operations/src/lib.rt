// A session in arrays of the caller, and its operations, except those on functions: each makes its tests in document 01's sequence, and where it is refused the
// session is as it was. They are functions of a session and no methods, as those of session_functions, another crate, have to be. Handles are of the source's records; what an import
// answers is a number of the derived module, as C reads it. None asks anything of the stacks: where these have their lengths, as operations on functions ask, the clause `valid` says that
// they keep them.
#![tactic(auto)]

ghost use Rattle.std.specs.Prelude.{MatchResult, Some, ◌≡◌, ℕ, ◌<◌, ◌≤◌, false, length};
ghost use Rattle.base_words.specs.Words.{words_of};
ghost use Rattle.model.specs.Module.{count_at};
ghost use Rattle.model.specs.Session.{importing, rename_type, set as setOf, finish as finishOf};
ghost use Rattle.base_handles.specs.Handles.{table_of, number_in};
ghost use Rattle.derive_state.specs.Held.{Specials};
ghost use Rattle.derive_state.specs.Sizes.{going};
ghost use Rattle.function_references.specs.Fits.{Ground};
ghost use Rattle.derive_finish.specs.Told.{refusal_of, bytes_in};
ghost use Rattle.session_operations.specs.Operations.{MapSpanEnsures, RequiredEnsures};
ghost use Rattle.session_operations.specs.Answers.{value_in, start_of, end_of};
ghost use Rattle.session_operations.specs.Sessions.{is_set, offset_in, Absent, Valid, ValidRecords, OperatesOnRecords, FinishesRecords, Operates, Finishes, ImportStays, FinishStays, renewed};

use base_handles::{RecordHandle, TypeHandle};
use base_refusals::Refusal;
use base_views::{Image, NAMES, count};
use base_words::{Tags, Words};
use derive_finish::finish;
use derive_rollback::mapped_to;
use derive_source::set_source;
use derive_state::{DerivedMut, NamedSource, Reference, Sizes, Special, StackRows, clear_maps};
use std::num::wrapping_add_u32;

#[cfg(test)]
mod tests;

// A source that is set: the number of its words, and the offset of its spans.
#[derive(Clone, Copy)]
pub struct SetSource {
    pub n: usize,
    pub offset: u32,
}

impl SetSource {
    // The source with these words and their classes.
    pub fn over<'a>(self, words: &'a Words, tags: &'a Tags) -> NamedSource<'a>
        requires { Ground words.now tags.now self.n }
        ensures { (result.image.words.now ≡ words.now) × (result.image.tags.now ≡ tags.now) × (result.image.n ≡ self.n) × (result.offset ≡ self.offset) }
    {
        NamedSource {
            image: Image {
                words,
                tags,
                n: self.n,
            },
            offset: self.offset,
        }
    }
}

// The source that is set, with its words and their classes, if it has a record. It takes these and no session, of which a caller writes the derived module meanwhile.
pub fn source_with<'a>(
    source: Option<SetSource>,
    words: &'a Words,
    tags: &'a Tags,
    r: Reference,
) -> Result<NamedSource<'a>, Refusal>
    requires table_bound { r.table < 9 }
    requires passed { (s : SetSource) → source ≡ Some s → Ground words.now tags.now s.n }
    ensures { MatchResult result (λ s. (source ≡ Some (record { n = s.image.n; offset = s.offset })) × (s.image.words.now ≡ words.now) × (s.image.tags.now ≡ tags.now) × (r.number < count_at r.table words.now)) (λ e. Absent source (count_at r.table words.now) r.number e) }
{
    let set = source.ok_or(Refusal::NoSource)?;
    if count(words, r.table) <= r.number as usize {
        return Err(Refusal::NumberGiven);
    }
    Ok(set.over(words, tags))
}

// A session: the source that is set, if one is, with the words of it and their classes; and the derived module with its special types, the stacks of functions
// under construction, which are empty between operations, and its sizes.
#[derive(Drop)]
pub struct Session<'a, 'd> {
    pub source: Option<SetSource>,
    pub words: &'a mut Words,
    pub tags: &'a mut Tags,
    pub derived: DerivedMut<'d>,
    pub special: &'a mut Special,
    pub stacks: &'a mut StackRows,
    pub sizes: Sizes,
}

// import_type, import_const, import_pipeline_override, import_global, import_global_expression: a record of the source. Its number in the derived module.
pub fn import(session: &mut Session, handle: RecordHandle) -> Result<u32, Refusal>
    requires { ValidRecords session.old }
    ensures operates { OperatesOnRecords {A = ℕ} (importing (table_of handle) (number_in handle)) session.old (refusal_of result) (value_in result) session.new }
    ensures valid { Valid session.old → Operates {A = ℕ} (importing (table_of handle) (number_in handle)) session.old (refusal_of result) (value_in result) session.new }
    ensures stays { ImportStays session.old session.new }
    ensures stacks { session.new.stacks.now ≡ session.old.stacks.now }
{
    let r = Reference::from(handle);
    let source = source_with(session.source, session.words, session.tags, r)?;
    let sizes = derive_rollback::import(source.source(), &mut session.derived, session.sizes, r)?;
    session.sizes = sizes;
    Ok(mapped_to(session.derived.view(sizes).maps, r))
}

// rename_type: imports type h under the name with the given number.
pub fn rename_type(session: &mut Session, h: TypeHandle, name: u32) -> Result<u32, Refusal>
    requires { ValidRecords session.old }
    ensures operates { OperatesOnRecords {A = ℕ} (rename_type h.0 name) session.old (refusal_of result) (value_in result) session.new }
    ensures valid { Valid session.old → Operates {A = ℕ} (rename_type h.0 name) session.old (refusal_of result) (value_in result) session.new }
    ensures stays { ImportStays session.old session.new }
    ensures stacks { session.new.stacks.now ≡ session.old.stacks.now }
{
    let r = Reference::from(h);
    let source = source_with(session.source, session.words, session.tags, r)?;
    if count(source.image.words, NAMES) <= name as usize {
        return Err(Refusal::NumberGiven);
    }
    let sizes = derive_rollback::rename_type(
        source.source(),
        &mut session.derived,
        session.sizes,
        h,
        name,
    )?;
    session.sizes = sizes;
    Ok(mapped_to(session.derived.view(sizes).maps, r))
}

// A span by the source's offset.
#[derive(Clone, Copy)]
pub struct Span {
    pub start: u32,
    pub end: u32,
}

// map_span: a span of the source by the source's offset; (0, 0), which stands for no span, as it is.
pub fn map_span(source: Option<SetSource>, a: u32, b: u32) -> Result<Span, Refusal>
    ensures { MapSpanEnsures (is_set source) (offset_in source) a b (refusal_of result) (start_of result) (end_of result) }
{
    let set = source.ok_or(Refusal::NoSource)?;
    if a == 0 && b == 0 {
        return Ok(Span { start: 0, end: 0 });
    }
    Ok(Span {
        start: wrapping_add_u32(a, set.offset),
        end: wrapping_add_u32(b, set.offset),
    })
}

// has_required_special_types: whether the derived module has a special type, an optional one or one of a pair.
pub fn has_required_special_types(special: &Special, ends: Sizes) -> bool
    requires { Specials special.now (going ends) }
    ensures { RequiredEnsures special.now (going ends) result }
{
    ends.pairs != 0 || special.has_ray()
}

// set_shader_source where no source is set: no source has to survive a refusal, so the image is read directly into the array of the source's words. What an
// image left there that intake refuses is cleared, since intake promises nothing of it; one that is accepted and does not fit stays there, where no source is set.
fn set_first_source(session: &mut Session, image: &[u8], offset: u32) -> Result<(), Refusal>
    requires unset { is_set session.old.source ≡ false }
    requires valid { ValidRecords session.old }
    ensures operates { OperatesOnRecords {A = Unit {0}} (setOf (length image.now) (words_of image.now) offset) session.old (refusal_of result) tt session.new }
    ensures stacks { session.new.stacks.now ≡ session.old.stacks.now }
{
    let n = match intake::take_in(image, session.words, session.tags) {
        Ok(n) => n,
        Err(refusal) => {
            *session.words = [0; 16384];
            *session.tags = [0; 16384];
            return Err(refusal);
        }
    };
    let set = SetSource { n, offset };
    let source = set.over(session.words, session.tags);
    let sizes = set_source(
        source.source(),
        &mut session.derived,
        session.special,
        session.sizes,
    )?;
    session.source = Some(set);
    session.sizes = sizes;
    Ok(())
}

// Puts the words of a source and their classes in place of others. By loops: an array behind a reference is copied by memmove, which the archive would need from outside, beside memcpy and
// memset.
fn replace(words: &mut Words, tags: &mut Tags, by: &Words, classes: &Tags)
    ensures { (words.new ≡ by.now) × (tags.new ≡ classes.now) }
{
    for j in 0..by.len() {
        words[j] = by[j];
    }
    for k in 0..classes.len() {
        tags[k] = classes[k];
    }
}

// set_shader_source: the image with the offset. A source that is set stays until the image is accepted and fits.
pub fn set_shader_source(session: &mut Session, image: &[u8], offset: u32) -> Result<(), Refusal>
    requires { ValidRecords session.old }
    ensures operates { OperatesOnRecords {A = Unit {0}} (setOf (length image.now) (words_of image.now) offset) session.old (refusal_of result) tt session.new }
    ensures valid { Valid session.old → Operates {A = Unit {0}} (setOf (length image.now) (words_of image.now) offset) session.old (refusal_of result) tt session.new }
    ensures stacks { session.new.stacks.now ≡ session.old.stacks.now }
{
    if session.source.is_none() {
        return set_first_source(session, image, offset);
    }
    let mut words = [0; 16384];
    let mut tags = [0; 16384];
    let n = intake::take_in(image, &mut words, &mut tags)?;
    let set = SetSource { n, offset };
    let source = set.over(&words, &tags);
    let sizes = set_source(
        source.source(),
        &mut session.derived,
        session.special,
        session.sizes,
    )?;
    replace(session.words, session.tags, &words, &tags);
    session.source = Some(set);
    session.sizes = sizes;
    Ok(())
}

// The session that follows one that is finished: a new one, in its arrays.
pub fn renew(session: &mut Session)
    ensures { session.new ≡ renewed session.old }
{
    clear_maps(session.derived.maps);
    session.special.clear_rays();
    session.source = None;
    session.sizes = Sizes::empty();
}

// finish, without entry points: how many bytes were written. The session is then a new one; refused, it is as it was.
pub fn finish_plain(session: &mut Session, output: &mut [u8]) -> Result<usize, Refusal>
    requires { ValidRecords session.old }
    ensures finishes { FinishesRecords (finishOf (length output.old)) session.old (refusal_of result) (bytes_in result) output.old output.new session.new }
    ensures valid { Valid session.old → Finishes (finishOf (length output.old)) session.old (refusal_of result) (bytes_in result) output.old output.new session.new }
    ensures stays { FinishStays session.old (refusal_of result) session.new }
    ensures log { (session.new.derived.log.now ≡ session.old.derived.log.now) × (session.new.derived.logtags.now ≡ session.old.derived.logtags.now) × (session.new.derived.buckets.now ≡ session.old.derived.buckets.now) }
    ensures stacks { session.new.stacks.now ≡ session.old.stacks.now }
{
    let mut out = [0u32; 16384];
    let bytes = finish(
        &session.derived.view(session.sizes),
        session.special,
        &mut out,
        output,
    )?;
    renew(session);
    Ok(bytes)
}
