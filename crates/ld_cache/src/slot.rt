ghost use Rattle.std.specs.Prelude.{◌≡◌, ◌<◌, ◌+◌, max, Some, length};
ghost use Rattle.std.specs.Vec.{vec_capacity};
ghost use Rattle.ld_cache.specs.Inside.Table.{IsPut};

use ld_entry::Fault;
use ld_names::List;
use ld_pool::Run;

// A kept expansion whose entries stand in a pool.
#[derive(Drop)]
pub(crate) struct Slot {
    pub(crate) run: Run,
    pub(crate) line_ends: List<u32>,
    pub(crate) end: Option<Fault>,
}

impl Slot {
    // Its run alone.
    pub(crate) fn into_run(self) -> Run
        ensures { result ≡ self.run }
    {
        let Slot {
            run,
            line_ends: _,
            end: _,
        } = self;
        run
    }
}

// Puts a slot into the table at the number of its text. The table reaches up to it then.
pub(crate) fn put(slots: &mut Vec<Option<Slot>>, text: usize, slot: Slot)
    requires { text < vec_capacity slots.old }
    ensures slots { IsPut slots.old.items text (Some slot) slots.new.items }
    ensures len { length slots.new.items ≡ max (length slots.old.items) (text + 1) }
    ensures room { vec_capacity slots.new ≡ vec_capacity slots.old }
{
    while slots.len() <= text {
        slots.push_reserved(None);
    }
    slots[text] = Some(slot);
}
