// A kept expansion behind the entries so far.
ghost use Rattle.std.specs.Prelude.{◌≤◌, IfOk, length};
ghost use Rattle.ld_work.specs.Inside.Gathering.{Extends, Gathers, IsWithin, shown};

use ld_cache::Kept;
use ld_entry::{Entry, Fault};
use std::alloc::AllocError;

// Appends what is kept, up to an entry too many; its end counts where there is none.
pub(crate) fn take(
    kept: &Kept<'_>,
    most: u32,
    entries: &mut Vec<Entry>,
) -> Result<Option<Fault>, AllocError>
    requires { length entries.old.items ≤ most }
    ensures extends { IfOk result (λ end. Extends entries.old.items entries.new.items) }
    ensures within { IfOk result (λ end. IsWithin most entries.new.items end) }
    ensures gathers { IfOk result (λ end. Gathers most entries.old.items entries.new.items end (shown kept.now.entries kept.now.end)) }
{
    let room = most as usize + 1 - entries.len();
    let count = room.min(kept.len() as usize) as u32;
    kept.copy_first(count, entries)?;
    if entries.len() > most as usize {
        return Ok(None);
    }
    Ok(kept.end())
}
