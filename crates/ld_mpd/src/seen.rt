ghost use Rattle.std.specs.Prelude.{◌≡◌, [], IfOk, OnOk, not};
ghost use Rattle.std.specs.Bool.{OnFalse};
ghost use Rattle.ld_mpd.specs.Seen.{HasSeen, Notes, SeesSame, has_seen};

use ld_names::Name;
use std::alloc::{AllocError, Global};
use std::collections::BTreeSet;

// The names of the blocks that were seen, by kind.
#[derive(Drop)]
pub(crate) struct Seen {
    texts: BTreeSet<Name>,
    data: BTreeSet<Name>,
}

impl Seen {
    pub(crate) fn new(alloc: Global) -> Seen
        ensures { HasSeen result [] }
    {
        Seen {
            texts: BTreeSet::new(alloc),
            data: BTreeSet::new(alloc),
        }
    }

    // Notes the kind and a copy of the name. Whether they are new.
    pub(crate) fn insert_copy(
        &mut self,
        alloc: Global,
        is_data: bool,
        name: &Name,
    ) -> Result<bool, AllocError>
        ensures new { IfOk result (λ is_new. is_new ≡ not (has_seen self.old is_data name.now)) }
        ensures noted { OnOk result (Notes self.old self.new is_data name.now) }
        ensures same { IfOk result (λ is_new. OnFalse is_new (SeesSame self.old self.new)) }
    {
        let name = name.copy(alloc)?;
        self.insert(is_data, name)
    }

    fn insert(&mut self, is_data: bool, name: Name) -> Result<bool, AllocError>
        ensures new { IfOk result (λ is_new. is_new ≡ not (has_seen self.old is_data name)) }
        ensures noted { OnOk result (Notes self.old self.new is_data name) }
        ensures same { IfOk result (λ is_new. OnFalse is_new (SeesSame self.old self.new)) }
    {
        if is_data {
            Ok(self.data.insert(name)?)
        } else {
            Ok(self.texts.insert(name)?)
        }
    }
}
