ghost use Rattle.std.specs.Prelude.{◌≡◌, None, Some, true};
ghost use Rattle.ld_engine.specs.Learning.{are_clean};
ghost use Rattle.ld_engine.specs.Limits.{bad_limit};
ghost use Rattle.ld_engine.specs.Workspace.{Opens};

use crate::limits::{Limits, OpenError};
use ld_texts::Texts;
use std::alloc::Global;
use std::marker::Model;

/// The texts of a model and of what it reaches, and the limits on them.
#[derive(Drop)]
pub struct Workspace {
    pub(crate) alloc: Global,
    pub(crate) limits: Limits,
    pub(crate) texts: Texts,
}

impl Model for Workspace {
    ghost use Rattle.ld_engine.specs.Workspace.{IsOpen, Workspace};

    ghost Value = { Workspace };

    ghost view = { λ workspace. record { limits = workspace.limits; texts = workspace.texts } };

    ghost invariant = { λ workspace. IsOpen workspace.limits workspace.texts };
}

impl Workspace {
    /// A workspace that knows nothing.
    ///
    /// # Errors
    ///
    /// `BadLimit` with the number of the first limit that is out of its bounds.
    pub fn open(alloc: Global, limits: Limits) -> Result<Workspace, OpenError>
        ensures opens { Opens limits result }
    {
        if let Some(number) = limits.first_bad() {
            return Err(OpenError::BadLimit(number));
        }
        let texts = Texts::new(alloc, limits.texts, limits.total_weight);
        Ok(Workspace {
            alloc,
            limits,
            texts,
        })
    }

    pub(crate) fn limits(&self) -> Limits
        ensures limits { result ≡ self.now.limits }
        ensures bounds { bad_limit self.now.limits ≡ None }
    {
        self.limits
    }

    /// The texts that are known.
    pub fn texts(&self) -> &Texts
        ensures texts { result.now ≡ self.now.texts }
        ensures files { self.now.texts.max_files ≡ self.now.limits.texts }
        ensures weight { self.now.texts.max_weight ≡ self.now.limits.total_weight }
        ensures clean { are_clean self.now.texts.known ≡ true }
    {
        &self.texts
    }
}
