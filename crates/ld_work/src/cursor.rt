// A text that is read line by line.
ghost use Rattle.std.specs.Prelude.{◌≡◌, ◌+◌, ◌-◌, IfOk, OnOk, length, min, slice_get, if◌then◌else◌};
ghost use Rattle.std.specs.Option.{is_some};
ghost use Rattle.ld_work.specs.Inside.Parsing.{IsAt, parsed_lines};
ghost use Rattle.ld_work.specs.Inside.Working.{ReadsAtMost, texts_of};

use crate::line::{ParsedLine, parse};
use crate::seen::{is_part, line_behind};
use ld_bfc::{State, next, start};
use ld_entry::Source;
use ld_graph::Reader;
use ld_line::read_line;
use ld_names::TextId;
use std::alloc::{AllocError, Global};

// A text, how many of its lines are read, and the state of back face culling behind them.
#[derive(Clone, Copy)]
pub(crate) struct Cursor {
    pub(crate) text: TextId,
    pub(crate) before: u32,
    pub(crate) state: State,
}

impl Cursor {
    // No line of the text is read.
    pub(crate) fn new(reader: &Reader<'_>, text: TextId) -> Cursor
        ensures text { result.text ≡ text }
        ensures before { result.before ≡ 0 }
        ensures at { IsAt (texts_of reader.now) result }
    {
        Cursor {
            text,
            before: 0,
            state: start(is_part(reader, text)),
        }
    }

    // The next line, if there is one.
    pub(crate) fn read(
        &mut self,
        alloc: Global,
        reader: &mut Reader<'_>,
    ) -> Result<Option<ParsedLine>, AllocError>
        requires at { IsAt (texts_of reader.old) self.old }
        ensures line { IfOk result (λ line. line ≡ slice_get (parsed_lines (texts_of reader.old) self.old.text) self.old.before) }
        ensures before { IfOk result (λ line. self.new.before ≡ self.old.before + (if is_some line then 1 else 0)) }
        ensures at { OnOk result (IsAt (texts_of reader.old) self.new) }
        ensures text { self.new.text ≡ self.old.text }
        ensures reads { ReadsAtMost reader.old reader.new (min 1 (length ((texts_of reader.old).lines self.old.text) - self.old.before)) }
    {
        let Some(line) = line_behind(reader, self.text, self.before) else {
            return Ok(None);
        };
        let line = read_line(alloc, line)?;
        self.before += 1;
        let source = Source {
            text: self.text,
            line: self.before,
        };
        let state = self.state;
        self.state = next(state, &line);
        Ok(Some(parse(reader, state, source, line)))
    }
}
