ghost use Rattle.std.specs.Prelude.{◌≡◌, ◌++◌, codes, OnErr, OnOk};
ghost use Rattle.std.specs.List.{flat_map};
ghost use Rattle.ld_texts.specs.Known.{line_at};
ghost use Rattle.ld_report.specs.Extending.{Extends};
ghost use Rattle.ld_report.specs.Entries.{fault_text, named_words, reference_words, what_text, words_at};

use crate::pieces::print_source;
use crate::undoing::or_undone;
use ld_entry::{Fault, Source, What};
use ld_line::{Line, read_line};
use ld_texts::Texts;
use std::alloc::AllocError;

/// Appends a fault as one line, in this project's own words: `fault WHAT SOURCE`. Behind a missing
/// file and a cycle stands the normal name to which the line at the source refers.
///
/// # Errors
///
/// Want of memory. The text is then as before.
pub fn print_fault(texts: &Texts, fault: &Fault, into: &mut Vec<u8>) -> Result<(), AllocError>
    ensures ok { OnOk result (into.new.items ≡ into.old.items ++ fault_text texts.now.known fault.now) }
    ensures err { OnErr result (into.new.items ≡ into.old.items) }
{
    let length = into.len();
    let outcome = append_fault(texts, fault, into);
    or_undone(outcome, length, into)
}

#[tactic(auto, using(crate::proofs::Extending::extending), unfolding(crate::specs::Entries::fault_text))]
fn append_fault(texts: &Texts, fault: &Fault, into: &mut Vec<u8>) -> Result<(), AllocError>
    ensures ok { OnOk result (into.new.items ≡ into.old.items ++ fault_text texts.now.known fault.now) }
    ensures keeps { Extends into.old.items into.new.items }
{
    into.extend_from_slice(b"fault ")?;
    into.extend_from_slice(what_word(fault.what))?;
    print_source(texts, fault.source, into)?;
    print_named(texts, fault, into)?;
    into.push(b'\n')?;
    Ok(())
}

// What a missing file and a cycle are told with.
#[tactic(auto, using(crate::proofs::Extending::extending))]
fn print_named(texts: &Texts, fault: &Fault, into: &mut Vec<u8>) -> Result<(), AllocError>
    ensures ok { OnOk result (into.new.items ≡ into.old.items ++ flat_map (λ word. codes " " ++ word) (named_words fault.now.what (line_at texts.now.known fault.now.source.text.0 fault.now.source.line))) }
    ensures keeps { Extends into.old.items into.new.items }
{
    match fault.what {
        What::Missing | What::Cycle => print_reference(texts, fault.source, into),
        What::Unnamed | What::TooDeep | What::Range | What::Malformed | What::TooMany => Ok(()),
    }
}

// A space and the name to which the line refers.
#[tactic(auto, using(crate::proofs::Extending::extending))]
fn print_reference(texts: &Texts, source: Source, into: &mut Vec<u8>) -> Result<(), AllocError>
    ensures ok { OnOk result (into.new.items ≡ into.old.items ++ flat_map (λ word. codes " " ++ word) (words_at (line_at texts.now.known source.text.0 source.line))) }
    ensures keeps { Extends into.old.items into.new.items }
{
    let Some(bytes) = texts.line(source.text, source.line) else {
        return Ok(());
    };
    let line = read_line(*into.allocator(), bytes)?;
    print_name(line, into)
}

#[tactic(auto, using(crate::proofs::Extending::extending))]
fn print_name(line: Line, into: &mut Vec<u8>) -> Result<(), AllocError>
    ensures ok { OnOk result (into.new.items ≡ into.old.items ++ flat_map (λ word. codes " " ++ word) (reference_words line)) }
    ensures keeps { Extends into.old.items into.new.items }
{
    match line {
        Line::Ref {
            name: Some(name),
            ..
        } => {
            into.push(b' ')?;
            into.extend_from_slice(name.bytes())
        }
        _ => Ok(()),
    }
}

fn what_word(what: What) -> &'static [u8]
    ensures { result.now ≡ what_text what ++ codes " " }
{
    match what {
        What::Missing => b"missing ",
        What::Unnamed => b"unnamed ",
        What::Cycle => b"cycle ",
        What::TooDeep => b"toodeep ",
        What::Range => b"range ",
        What::Malformed => b"malformed ",
        What::TooMany => b"toomany ",
    }
}
