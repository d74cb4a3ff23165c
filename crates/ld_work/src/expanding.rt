// Recursive expansion: each text's entries are made below nothing, and carried through the reference
// that enters it.
ghost use Rattle.std.specs.Prelude.{◌≡◌, ◌≤◌, ◌==◌, ◌&&◌, ◌∷◌, [], ◌++◌, ◌+◌, ℕ, suc, IfOk, List, None, OnOk, Some, length, nat_le, if◌then◌else◌};
ghost use Rattle.std.specs.List.{list_any};
ghost use Rattle.ld_names.specs.declared.file.TextId.{TextId};
ghost use Rattle.ld_colour.specs.Colour.{colour_of as colour_of_word};
ghost use Rattle.ld_entry.specs.Carrying.{above_of};
ghost use Rattle.ld_entry.specs.Heights.{Refers, height};
ghost use Rattle.ld_entry.specs.Outcomes.{all, found_outcomes, outer_of, part_outcomes};
ghost use Rattle.ld_cache.specs.Kept.{kept_of};
ghost use Rattle.ld_work.specs.Inside.Agreeing.{AgreesWith, height_in};
ghost use Rattle.ld_work.specs.Inside.Gathering.{Extends, Gathers, alone, enter_with};
ghost use Rattle.ld_work.specs.Inside.Parsing.{IsParsedText, parsed_outcomes, reads_parsed, reads_used, used_outcomes};
ghost use Rattle.ld_work.specs.Inside.Working.{Gives, IsLineOf, MayPass, ReadsAtMost, basis_of, below_with, left_at, texts_of};
ghost use Rattle.ld_work.specs.Reads.{is_given, reads_entered, reads_within};
ghost use Rattle.ld_work.specs.declared.line.Finding.TheVariants.{File};

use crate::bounds::Bounds;
use crate::carrying::carry_from;
use crate::line::{Finding, NO_LINES, ParsedLine, Reference, Said};
use crate::parsed::{ParsedText, ParsedTexts};
use crate::seen::is_part;
use crate::taking::take;
use ld_bfc::below_of;
use ld_cache::{Cache, Kept};
use ld_colour::colour_of;
use ld_entry::{
    Entry, Fault, Outer, Source, What, action_law, carry_laws, cut_laws, reuse_law, walk_laws,
};
use ld_graph::{Graph, Reader};
use ld_names::TextId;
use ld_num::mirrored;
use smallvec::SmallVec;
use std::alloc::{AllocError, Global};

// Over what texts are expanded, and up to how many entries, which are at most those of the bounds.
#[derive(Drop)]
pub(crate) struct Expander<'a> {
    pub(crate) alloc: Global,
    pub(crate) graph: &'a Graph,
    pub(crate) cache: &'a Cache,
    pub(crate) bounds: Bounds,
    pub(crate) most: u32,
}

// The files on the way to what is expanded, the entries so far, and the lines that were parsed.
#[derive(Drop)]
pub(crate) struct Work {
    pub(crate) way: SmallVec<TextId, 64>,
    pub(crate) entries: Vec<Entry>,
    pub(crate) parsed: ParsedTexts,
}

fn fault(what: What, source: Source) -> Option<Fault>
    ensures { result ≡ Some (record { what = what; source = source }) }
{
    Some(Fault { what, source })
}

// Whether the file is in hand.
fn on_way(way: &[TextId], text: TextId, file: TextId) -> bool
    ensures { result ≡ list_any (λ on. on.0 == file.0) (way.now ++ text ∷ []) }
{
    let mut rest = way;
    while let Some((on, more)) = rest.split_first() {
        if on.0 == file.0 {
            return true;
        }
        rest = more;
    }
    text.0 == file.0
}

// What a reference passes down.
fn passed_down(reference: &Reference) -> Outer
    ensures passed { above_of result ≡ above_of (outer_of reference.now.state reference.now.source reference.now.colour reference.now.placement) }
    ensures colour { result.colour ≡ colour_of_word reference.now.colour }
    ensures source { result.source ≡ reference.now.source }
{
    Outer {
        placement: reference.placement,
        colour: colour_of(reference.colour),
        below: below_of(reference.state, mirrored(&reference.placement)),
        source: reference.source,
    }
}

impl Expander<'_> {
    // A part text is an entry of its own where the text that refers to it is none. The entry is of the
    // text at which its moves end.
    fn push_part(
        &self,
        reader: &Reader<'_>,
        outer: &Outer,
        file: TextId,
        entries: &mut Vec<Entry>,
    ) -> Result<(), AllocError>
        requires { AgreesWith self.now.graph.now self.now.bounds.depth reader.now.texts }
        ensures extends { OnOk result (Extends entries.old.items entries.new.items) }
        ensures within { OnOk result (length entries.new.items ≤ suc (length entries.old.items)) }
        ensures gathers { OnOk result ((way : List TextId) (most word : ℕ) → outer.now.colour ≡ colour_of_word word →
            Gathers most entries.old.items entries.new.items None
            (part_outcomes (alone (texts_of reader.now) way outer.now.source.text) outer.now.source word file)) }
    {
        let _ = NO_LINES;
        if !is_part(reader, outer.source.text) && is_part(reader, file) {
            entries.push(Entry::Part {
                file: self.graph.target(reader, file),
                colour: outer.colour,
                source: outer.source,
            })?;
        }
        Ok(())
    }

    // What is kept of a file, if it may stand for the file at the end of a way of so many files.
    fn given(&self, above: usize, file: TextId) -> Option<Kept<'_>>
        requires { above ≤ self.now.bounds.depth }
        ensures { result ≡ (if nat_le (above + height_in self.now.graph.now file) self.now.bounds.depth then kept_of self.now.cache.now file else None) }
    {
        if self.graph.height(file) as usize > self.bounds.depth as usize - above {
            return None;
        }
        self.cache.get(file)
    }

    // What a reference gives that finds a file.
    #[cycle(expand)]
    fn enter_file(
        &self,
        reader: &mut Reader<'_>,
        work: &mut Work,
        reference: &Reference,
        file: TextId,
    ) -> Result<Option<Fault>, AllocError>
        requires may { MayPass self.now reader.old work.old reference.now.source.text }
        requires found { Refers (texts_of reader.old) reference.now.source.text file }
        ensures gives { IfOk result (λ end. Gives (texts_of reader.old) self.now.most work.old work.new end
            (found_outcomes (enter_with (left_at self.now work.old)) (alone (texts_of reader.old) work.old.way.items reference.now.source.text) reference.now.state reference.now.source reference.now.colour reference.now.placement (Some file))) }
        ensures reads { ReadsAtMost reader.old reader.new (reads_entered (basis_of self.now reader.old) (below_with (basis_of self.now reader.old) (left_at self.now work.old)) (work.old.way.items ++ reference.now.source.text ∷ []) file) }
    {
        let _ = NO_LINES;
        let source = reference.source;
        if on_way(work.way.as_slice(), source.text, file) {
            return Ok(fault(What::Cycle, source));
        }
        if work.way.len() + 1 >= self.bounds.depth as usize {
            return Ok(fault(What::TooDeep, source));
        }
        cut_laws();
        action_law();
        carry_laws();
        walk_laws();
        let outer = passed_down(reference);
        self.push_part(reader, &outer, file, &mut work.entries)?;
        let first = work.entries.len();
        if first > self.most as usize {
            return Ok(None);
        }
        work.way.push(source.text)?;
        let end = self.pass_file(reader, work, file)?;
        work.way.pop();
        let refusal = carry_from(&outer, first, &mut work.entries);
        Ok(refusal.or(end))
    }

    // What a file gives at the end of the way: what is kept of it, where that may stand for it there.
    #[cycle(expand)]
    fn pass_file(
        &self,
        reader: &mut Reader<'_>,
        work: &mut Work,
        file: TextId,
    ) -> Result<Option<Fault>, AllocError>
        requires may { MayPass self.now reader.old work.old file }
        requires height { height_in self.now.graph.now file ≡ height (suc self.now.bounds.depth) (texts_of reader.old) file }
        ensures gives { IfOk result (λ end. Gives (texts_of reader.old) self.now.most work.old work.new end
            (all (left_at self.now work.old) (alone (texts_of reader.old) work.old.way.items file))) }
        ensures reads { ReadsAtMost reader.old reader.new (if is_given (basis_of self.now reader.old) work.old.way.items file then 0 else reads_within (basis_of self.now reader.old) (left_at self.now work.old) work.old.way.items file) }
    {
        let _ = NO_LINES;
        cut_laws();
        reuse_law();
        if let Some(kept) = self.given(work.way.len(), file) {
            let end = take(&kept, self.most, &mut work.entries)?;
            return Ok(end);
        }
        self.pass_text(reader, work, file)
    }

    // What a text gives at the end of the way.
    #[cycle(expand)]
    fn pass_text(
        &self,
        reader: &mut Reader<'_>,
        work: &mut Work,
        text: TextId,
    ) -> Result<Option<Fault>, AllocError>
        requires { MayPass self.now reader.old work.old text }
        ensures gives { IfOk result (λ end. Gives (texts_of reader.old) self.now.most work.old work.new end
            (all (left_at self.now work.old) (alone (texts_of reader.old) work.old.way.items text))) }
        ensures reads { ReadsAtMost reader.old reader.new (reads_within (basis_of self.now reader.old) (left_at self.now work.old) work.old.way.items text) }
    {
        let _ = NO_LINES;
        let mut parsed = work.parsed.take(self.alloc, reader, text);
        let end = self.pass_lines(reader, work, &mut parsed)?;
        work.parsed.put(parsed)?;
        Ok(end)
    }

    // What its lines give, one after another.
    #[cycle(expand)]
    fn pass_lines(
        &self,
        reader: &mut Reader<'_>,
        work: &mut Work,
        parsed: &mut ParsedText,
    ) -> Result<Option<Fault>, AllocError>
        requires may { MayPass self.now reader.old work.old parsed.old.cursor.text }
        requires parsed { IsParsedText (texts_of reader.old) parsed.old }
        ensures gives { IfOk result (λ end. Gives (texts_of reader.old) self.now.most work.old work.new end
            (all (left_at self.now work.old) (alone (texts_of reader.old) work.old.way.items parsed.old.cursor.text))) }
        ensures parsed { OnOk result (IsParsedText (texts_of reader.old) parsed.new) }
        ensures reads { ReadsAtMost reader.old reader.new (reads_within (basis_of self.now reader.old) (left_at self.now work.old) work.old.way.items parsed.old.cursor.text) }
    {
        let _ = NO_LINES;
        walk_laws();
        carry_laws();
        let text = parsed.cursor.text;
        let mut before: usize = 0;
        while work.entries.len() <= self.most as usize {
            let Some(line) = parsed.line(self.alloc, reader, before)? else {
                return Ok(None);
            };
            before += 1;
            let end = self.pass_line(reader, work, text, line)?;
            if let Some(fault) = end {
                return Ok(Some(fault));
            }
        }
        Ok(None)
    }

    // What a line of a text gives.
    #[cycle(expand)]
    pub(crate) fn pass_line(
        &self,
        reader: &mut Reader<'_>,
        work: &mut Work,
        text: TextId,
        line: ParsedLine,
    ) -> Result<Option<Fault>, AllocError>
        requires may { MayPass self.now reader.old work.old text }
        requires line { IsLineOf (texts_of reader.old) text line }
        ensures gives { IfOk result (λ end. Gives (texts_of reader.old) self.now.most work.old work.new end
            (parsed_outcomes (enter_with (left_at self.now work.old)) (texts_of reader.old) work.old.way.items line)) }
        ensures reads { ReadsAtMost reader.old reader.new (reads_parsed (basis_of self.now reader.old) (below_with (basis_of self.now reader.old) (left_at self.now work.old)) (work.old.way.items ++ text ∷ []) line.finding line.said) }
    {
        let _ = NO_LINES;
        let ParsedLine { said, finding } = line;
        match said {
            Said::Nothing => Ok(None),
            Said::Shows(entry) => {
                work.entries.push(entry)?;
                Ok(None)
            }
            Said::Fails(fault) => Ok(Some(fault)),
            Said::Uses(reference) => self.pass_reference(reader, work, &reference, finding),
        }
    }

    // What a reference gives, by what its name finds.
    #[cycle(expand)]
    fn pass_reference(
        &self,
        reader: &mut Reader<'_>,
        work: &mut Work,
        reference: &Reference,
        finding: Finding,
    ) -> Result<Option<Fault>, AllocError>
        requires may { MayPass self.now reader.old work.old reference.now.source.text }
        requires finds { (file : TextId) → finding ≡ File file → Refers (texts_of reader.old) reference.now.source.text file }
        ensures gives { IfOk result (λ end. Gives (texts_of reader.old) self.now.most work.old work.new end
            (used_outcomes (enter_with (left_at self.now work.old)) (texts_of reader.old) work.old.way.items reference.now finding)) }
        ensures reads { ReadsAtMost reader.old reader.new (reads_used (basis_of self.now reader.old) (below_with (basis_of self.now reader.old) (left_at self.now work.old)) (work.old.way.items ++ reference.now.source.text ∷ []) finding) }
    {
        let _ = NO_LINES;
        match finding {
            Finding::NoName => Ok(fault(What::Unnamed, reference.source)),
            Finding::NoFile => Ok(fault(What::Missing, reference.source)),
            Finding::File(file) => self.enter_file(reader, work, reference, file),
        }
    }
}
