// Entries that a reference carries, where they stand.
ghost use Rattle.std.specs.Prelude.{◌≤◌, length};
ghost use Rattle.ld_entry.specs.Carrying.{above_of};
ghost use Rattle.ld_work.specs.Inside.Gathering.{CarriesFrom};

use ld_entry::{Entry, Fault, Outer, carry};

// Carries the entries from a place on, up to the first that is refused: it and those behind it go.
pub(crate) fn carry_from(outer: &Outer, start: usize, entries: &mut Vec<Entry>) -> Option<Fault>
    requires { start ≤ length entries.old.items }
    ensures { CarriesFrom (above_of outer.now) start entries.old.items entries.new.items result }
{
    for index in start..entries.len() {
        match carry(outer, &entries[index]) {
            Ok(entry) => entries[index] = entry,
            Err(fault) => {
                entries.truncate(index);
                return Some(fault);
            }
        }
    }
    None
}
