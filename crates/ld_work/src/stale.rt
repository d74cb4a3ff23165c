// The texts that are to be expanded for a root, in the order of filling.
ghost use Rattle.std.specs.Prelude.{◌≡◌, ◌≤◌, IfOk, IsSome, OnOk, [], length, map};
ghost use Rattle.ld_entry.specs.NumberedTexts.{known_texts};
ghost use Rattle.ld_texts.specs.Known.{lines_at};
ghost use Rattle.ld_work.specs.Filling.{ranked, ranked_text, reached, stale, with_stale};
ghost use Rattle.ld_work.specs.Inside.Lent.{MayWork};
ghost use Rattle.ld_work.specs.Inside.Reaching.{ArePresent, names_listed, names_reach};
ghost use Rattle.ld_work.specs.Inside.Staleness.{AreRanked, AreStale};
ghost use Rattle.ld_work.specs.Readers.{IsLearntRoot};

use crate::lent::Lent;
use crate::seen::found;
use indexmap::IndexSet;
use ld_cache::graph_law;
use ld_graph::{Reader, items_law};
use ld_names::{FileId, TextId, file_laws, lookup_law};
use ld_texts::number_law;
use std::alloc::{AllocError, Global};
use std::collections::BTreeSet;

impl Lent<'_> {
    // The stale texts that a root reaches, in the order of filling.
    pub(crate) fn stale(&self, reader: &Reader<'_>, root: TextId) -> Result<Vec<TextId>, AllocError>
        requires may { MayWork self.now reader.now.texts.known }
        requires learnt { IsLearntRoot reader.now.texts.known root }
        requires room { length reader.now.texts.known ≤ length self.now.cache.now.kept }
        ensures exactly { IfOk result (λ texts. texts.items ≡ stale reader.now.texts.known self.now.bounds.depth self.now.cache.now root) }
        ensures stale { IfOk result (λ texts. AreStale reader.now.texts.known self.now.bounds.depth self.now.cache.now texts.items) }
    {
        number_law();
        file_laws();
        let reached = self.reached(reader, root)?;
        let ranks = self.ranked(reader, &reached)?;
        // The ranks ascend.
        let _ = ranks.len();
        texts_in_order(self.alloc, ranks)
    }

    // The texts that a root reaches, itself first.
    fn reached(&self, reader: &Reader<'_>, root: TextId) -> Result<IndexSet<u32>, AllocError>
        requires may { MayWork self.now reader.now.texts.known }
        requires learnt { IsLearntRoot reader.now.texts.known root }
        ensures exactly { IfOk result (λ texts. texts.keys ≡ reached reader.now.texts.known root) }
        ensures present { IfOk result (λ texts. ArePresent reader.now.texts.known texts.keys) }
    {
        number_law();
        let mut texts = IndexSet::new(self.alloc);
        texts.insert(root.0)?;
        for place in 0..reader.known() as usize {
            let Some(text) = texts.get_index(place).copied() else {
                return Ok(texts);
            };
            self.reach_names(reader, TextId(text), &mut texts)?;
        }
        Ok(texts)
    }

    // Appends what the names in a text find, where it is not there yet.
    fn reach_names(
        &self,
        reader: &Reader<'_>,
        text: TextId,
        texts: &mut IndexSet<u32>,
    ) -> Result<(), AllocError>
        requires may { MayWork self.now reader.now.texts.known }
        requires present { ArePresent reader.now.texts.known texts.old.keys }
        ensures exactly { OnOk result (texts.new.keys ≡ names_reach (known_texts reader.now.texts.known) text texts.old.keys (names_listed reader.now.texts.known text)) }
        ensures present { OnOk result (ArePresent reader.now.texts.known texts.new.keys) }
    {
        items_law();
        number_law();
        lookup_law();
        for index in 0..reader.len(text).unwrap_or(0) {
            let Some(name) = self.graph.name(text, index) else {
                return Ok(());
            };
            if let Some(found) = found(reader, text, name) {
                texts.insert(found.0)?;
            }
        }
        Ok(())
    }

    // The ranks of the stale ones among texts.
    fn ranked(
        &self,
        reader: &Reader<'_>,
        texts: &IndexSet<u32>,
    ) -> Result<BTreeSet<(u32, FileId, u32)>, AllocError>
        requires may { MayWork self.now reader.now.texts.known }
        requires present { ArePresent reader.now.texts.known texts.now.keys }
        ensures exactly { IfOk result (λ ranks. ranks.keys ≡ ranked reader.now.texts.known self.now.bounds.depth self.now.cache.now [] texts.now.keys) }
        ensures ranked { IfOk result (λ ranks. AreRanked reader.now.texts.known self.now.bounds.depth self.now.cache.now ranks.keys) }
    {
        let mut ranks = BTreeSet::new(self.alloc);
        for place in 0..texts.len() {
            let Some(text) = texts.get_index(place).copied() else {
                return Ok(ranks);
            };
            self.rank(reader, TextId(text), &mut ranks)?;
        }
        Ok(ranks)
    }

    // Puts the rank of a text in its order, where the text is stale.
    fn rank(
        &self,
        reader: &Reader<'_>,
        text: TextId,
        ranks: &mut BTreeSet<(u32, FileId, u32)>,
    ) -> Result<(), AllocError>
        requires may { MayWork self.now reader.now.texts.known }
        requires present { IsSome (lines_at reader.now.texts.known text.0) }
        requires ranked { AreRanked reader.now.texts.known self.now.bounds.depth self.now.cache.now ranks.old.keys }
        ensures exactly { OnOk result (ranks.new.keys ≡ with_stale reader.now.texts.known self.now.bounds.depth self.now.cache.now ranks.old.keys text) }
        ensures ranked { OnOk result (AreRanked reader.now.texts.known self.now.bounds.depth self.now.cache.now ranks.new.keys) }
    {
        graph_law();
        file_laws();
        let _ = reader.known();
        let height = self.graph.height(text);
        if self.cache.get(text).is_some() || height > self.bounds.depth {
            return Ok(());
        }
        if let Some(file) = reader.file(text) {
            ranks.insert((height, file.copy(self.alloc)?, text.0))?;
        }
        Ok(())
    }
}

// The texts of ranks, in order.
fn texts_in_order(
    alloc: Global,
    mut ranks: BTreeSet<(u32, FileId, u32)>,
) -> Result<Vec<TextId>, AllocError>
    ensures { IfOk result (λ texts. texts.items ≡ map ranked_text ranks.keys) }
{
    let mut texts = Vec::with_capacity(alloc, ranks.len())?;
    while let Some((_, _, text)) = ranks.pop_first() {
        texts.push_reserved(TextId(text));
    }
    Ok(texts)
}
