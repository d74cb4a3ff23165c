// A worker's reader, its text, and what it answers.
ghost use Rattle.std.specs.Prelude.{◌≡◌, ◌<◌, None, OnOk, length, map};
ghost use Rattle.std.specs.Result.{is_err};
ghost use Rattle.ld_cache.specs.Kept.{kept_of};
ghost use Rattle.ld_work.specs.Inside.Answering.{AreFew, AreGiven, IsFew, answers_kept, kept_by, wants_memory};
ghost use Rattle.ld_work.specs.Inside.Rounds.{readers_of};
ghost use Rattle.ld_work.specs.Inside.Staleness.{AreApart, AreVacant};

use ld_cache::Cache;
use ld_entry::Expansion;
use ld_graph::Reader;
use ld_names::TextId;
use std::alloc::AllocError;
use std::mem;

#[derive(Drop)]
pub(crate) struct Desk<'a> {
    pub(crate) reader: Reader<'a>,
    pub(crate) text: TextId,
    // what the worker gives: an expansion, or None where it doesn't fit
    pub(crate) answer: Option<Result<Option<Expansion>, AllocError>>,
}

// Takes the answer of a desk, and keeps the expansion where its blocks are free.
fn keep_answer(cache: &mut Cache, desk: &mut Desk<'_>) -> Result<(), AllocError>
    requires vacant { kept_of cache.old desk.old.text ≡ None }
    requires within { desk.old.text.0 < length cache.old.kept }
    requires few { IsFew desk.old.answer }
    ensures exactly { cache.new ≡ kept_by cache.old desk.old.text desk.old.answer }
    ensures memory { is_err result ≡ wants_memory desk.old.answer }
    ensures reader { desk.new.reader ≡ desk.old.reader }
    ensures text { desk.new.text ≡ desk.old.text }
{
    match mem::replace(&mut desk.answer, None) {
        Some(Ok(Some(expansion))) => {
            let _ = cache.keep(desk.text, expansion);
            Ok(())
        }
        Some(Err(error)) => Err(error),
        Some(Ok(None)) | None => Ok(()),
    }
}

// Keeps the answers in order, up to the first that wants memory.
pub(crate) fn keep_all(cache: &mut Cache, desks: &mut [Desk<'_>]) -> Result<(), AllocError>
    requires vacant { AreVacant cache.old (map (λ desk. desk.text) desks.old) }
    requires apart { AreApart (map (λ desk. desk.text) desks.old) }
    requires few { AreFew (map (λ desk. desk.answer) desks.old) }
    ensures exactly { cache.new ≡ answers_kept cache.old (map (λ desk. desk.text) desks.old) (map (λ desk. desk.answer) desks.old) }
    ensures given { OnOk result (AreGiven (map (λ desk. desk.answer) desks.old)) }
    ensures readers { readers_of desks.new ≡ readers_of desks.old }
{
    for place in 0..desks.len() {
        keep_answer(cache, &mut desks[place])?;
    }
    Ok(())
}
