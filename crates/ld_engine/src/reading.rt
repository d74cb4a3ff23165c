// Texts that an expansion has read: each is read where it is first entered.
ghost use Rattle.std.specs.Prelude.{◌≡◌, ◌+◌, ◌<◌, ◌++◌, ◌^◌, IfOk, IfSome, OnOk, Some, List, slice_get};
ghost use Rattle.std.specs.Option.{option_copied};
ghost use Rattle.ld_entry.specs.NumberedTexts.{known_texts, NumberedTexts};
ghost use Rattle.ld_engine.specs.Inside.Meeting.{AreMets, listed, mets_of};
ghost use Rattle.ld_engine.specs.declared.met.Met.{Met as MetValue};

use crate::met::{Met, NO_ENTRIES, NO_POINTS, meet};
use crate::seen::{is_part, line_behind};
use ld_bfc::{next, start};
use ld_entry::{Entry, Source};
use ld_line::read_line;
use ld_names::{List as Items, TextId};
use ld_num::Point;
use ld_texts::Texts;
use std::alloc::{AllocError, Global};

// What the lines of each text come to that was read, by the numbers of the texts.
#[derive(Drop)]
pub(crate) struct Reading {
    pub(crate) lists: Vec<Option<Items<Met>>>,
}

fn push(met: Option<Met>, mets: &mut Vec<Met>) -> Result<(), AllocError>
    ensures { OnOk result (mets.new.items ≡ mets.old.items ++ listed met) }
{
    let _: [Point; 0] = NO_POINTS;
    let _: [Entry; 0] = NO_ENTRIES;
    if let Some(met) = met {
        mets.push(met)?;
    }
    Ok(())
}

fn read_mets(alloc: Global, texts: &Texts, text: TextId) -> Result<Items<Met>, AllocError>
    ensures { IfOk result (λ mets. mets ≡ mets_of (known_texts texts.now.known) text) }
{
    let mut mets = Vec::new(alloc);
    let mut state = start(is_part(texts, text));
    let mut before: u32 = 0;
    while let Some(line) = line_behind(texts, text, before) {
        let line = read_line(alloc, line)?;
        before += 1;
        let source = Source { text, line: before };
        let after = next(state, &line);
        push(meet(texts, state, source, line), &mut mets)?;
        state = after;
    }
    Ok(Items::from_vec(mets))
}

fn met_at(mets: &Items<Met>, before: usize) -> Option<Met>
    ensures met { result ≡ slice_get mets.now before }
    ensures small { IfSome result (λ met. before + 1 < 2 ^ 64) }
{
    let _: [Point; 0] = NO_POINTS;
    let met = mets.as_slice().get(before)?;
    Some(*met)
}

impl Reading {
    // No text is read.
    pub(crate) fn new(alloc: Global) -> Reading
        ensures { (texts : NumberedTexts) → AreMets texts result.lists.items }
    {
        Reading {
            lists: Vec::new(alloc),
        }
    }

    fn list(&self, text: TextId) -> Option<&Items<Met>>
        ensures { (mets : List MetValue) → option_copied result ≡ Some mets → slice_get self.now.lists.items text.0 ≡ Some (Some mets) }
    {
        self.lists.get(text.0 as usize)?.as_ref()
    }

    fn keep(&mut self, text: TextId, mets: Items<Met>) -> Result<(), AllocError>
        ensures { OnOk result ((texts : NumberedTexts) → mets ≡ mets_of texts text → AreMets texts self.old.lists.items → AreMets texts self.new.lists.items) }
    {
        let place = text.0 as usize;
        while self.lists.len() <= place {
            self.lists.push(None)?;
        }
        self.lists[place] = Some(mets);
        Ok(())
    }

    // What the next line of a text comes to that comes to something, by how many such lines stand
    // before it.
    pub(crate) fn met_behind(
        &mut self,
        alloc: Global,
        texts: &Texts,
        text: TextId,
        before: usize,
    ) -> Result<Option<Met>, AllocError>
        requires read { AreMets (known_texts texts.now.known) self.old.lists.items }
        ensures read { OnOk result (AreMets (known_texts texts.now.known) self.new.lists.items) }
        ensures met { IfOk result (λ met. met ≡ slice_get (mets_of (known_texts texts.now.known) text) before) }
        ensures small { IfOk result (λ met. IfSome met (λ met. before + 1 < 2 ^ 64)) }
    {
        if let Some(mets) = self.list(text) {
            return Ok(met_at(mets, before));
        }
        let mets = read_mets(alloc, texts, text)?;
        let met = met_at(&mets, before);
        self.keep(text, mets)?;
        Ok(met)
    }
}
