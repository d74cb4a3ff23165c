// Where parts moved to.
ghost use Rattle.std.specs.Prelude.{◌≡◌, ◌∷◌, ◌++◌, ◌==◌, []};
ghost use Rattle.std.specs.List.{list_any};
ghost use Rattle.ld_texts.specs.Known.{file_at};
ghost use Rattle.ld_graph.specs.Agreeing.{Agrees};
ghost use Rattle.ld_graph.specs.Inside.Moving.{part_behind, part_named};
ghost use Rattle.ld_graph.specs.Moving.{target_of};

use crate::graph::Graph;
use crate::reader::Reader;
use crate::resolving::{Resolved, resolve};
use ld_names::{Name, TextId, file_laws, lookup_law};
use ld_texts::number_law;

// The most texts that moves lead through, the first among them.
const MOST: usize = 64;

impl Graph {
    /// The text at which the moves of a text end: a moved text leads to the part text that its one
    /// reference finds, through 64 texts at most, and none is gone through twice. No line is read.
    pub fn target(&self, reader: &Reader<'_>, id: TextId) -> TextId
        requires { Agrees self.now reader.now.texts }
        ensures { result ≡ target_of reader.now.texts.known id (file_at reader.now.texts.known id.0) }
    {
        let _ = reader.known();
        number_law();
        file_laws();
        lookup_law();
        let mut before = [id; MOST];
        let mut count = 0;
        let mut last = id;
        while count < MOST - 1 {
            let Some(next) = self.part_behind(reader, last) else {
                return last;
            };
            if is_among(&before[..count], last, next) {
                return last;
            }
            before[count] = last;
            count += 1;
            last = next;
        }
        last
    }

    // The part text to which a text moved. A moved text has one reference, so its first name is that of it.
    fn part_behind(&self, reader: &Reader<'_>, text: TextId) -> Option<TextId>
        requires { Agrees self.now reader.now.texts }
        ensures { result ≡ part_behind reader.now.texts.known text }
    {
        let _ = reader.moved(text)?;
        let name = self.name(text, 0)?;
        part_named(reader, text, name)
    }
}

// The part text that a name comes to.
fn part_named(reader: &Reader<'_>, from: TextId, name: &Name) -> Option<TextId>
    ensures { result ≡ part_named reader.now.texts.known from name.now }
{
    let Resolved::Text(id) = resolve(reader, from, name) else {
        return None;
    };
    if reader.is_part(id) { Some(id) } else { None }
}

// Whether a text is the last one or among those before it.
fn is_among(before: &[TextId], last: TextId, text: TextId) -> bool
    ensures { result ≡ list_any (λ on. on.0 == text.0) (before.now ++ last ∷ []) }
{
    let mut rest = before;
    while let Some((on, more)) = rest.split_first() {
        if on.0 == text.0 {
            return true;
        }
        rest = more;
    }
    last.0 == text.0
}
