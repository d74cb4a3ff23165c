ghost use Rattle.std.specs.Prelude.{◌≡◌, Err, IfSome, None};
ghost use Rattle.ld_io.specs.Shelf.{IsOnlyRead};
ghost use Rattle.ld_texts.specs.Reach.{wanted};
ghost use Rattle.ld_engine.specs.Asking.{Answers, AnswersTold};
ghost use Rattle.ld_engine.specs.Keeping.{IsLearntFor};
ghost use Rattle.ld_engine.specs.Learning.{LearnsFor};
ghost use Rattle.ld_engine.specs.Stopping.{AnswersKnown, answer_stopped, answered_as};

use crate::answering::answer_of;
use crate::learning::LearnStop;
use crate::workspace::Workspace;
use ld_colour::Colour;
use ld_entry::{Entry, Fault};
use ld_io::Shelf;
use ld_names::{FileId, List, TextId};
use ld_steps::StepPart;
use ld_texts::{Over, number_law};
use thiserror::Error;

/// What a root shows.
#[derive(Debug, Drop)]
pub struct Answer {
    /// All entries, in reading order.
    pub entries: List<Entry>,
    /// The steps of the root's lines, with the entries that come from each. Steps of other texts
    /// count for nothing.
    pub steps: List<StepPart>,
}

/// Why a query is not answered.
#[derive(Debug, Drop, Error)]
pub enum AnswerError {
    /// The first fault of the expansion, in reading order.
    #[error("a line of the model has a fault")]
    Fault(Fault),
    #[error("a file could not be read")]
    ReadFault,
    /// The file has more bytes than a file may have.
    #[error("a file is too big")]
    TooBig(FileId),
    /// The limit that a further file would pass, with what is kept.
    #[error("a limit on the known files is passed")]
    Full(Over),
    #[error("the root is absent")]
    NoRoot,
    #[error("memory was lacking")]
    Memory,
}

fn stopped_by(stop: LearnStop) -> AnswerError
    ensures { result ≡ answer_stopped stop }
{
    match stop {
        LearnStop::ReadFault => AnswerError::ReadFault,
        LearnStop::TooBig(file) => AnswerError::TooBig(file),
        LearnStop::Full(over) => AnswerError::Full(over),
        LearnStop::Memory => AnswerError::Memory,
    }
}

impl Workspace {
    /// Learns what the root reaches, and answers the root in a colour by recursive expansion of the
    /// texts as they are then known. What was known stays.
    ///
    /// # Errors
    ///
    /// A stop of the learning, after which a file is still wanted; `NoRoot` where the root is absent;
    /// `Fault` with the first fault in reading order, or at the first entry that is one too many.
    pub fn answer<S: Shelf>(
        &mut self,
        shelf: &mut S,
        root: &FileId,
        colour: Colour,
    ) -> Result<Answer, AnswerError>
        ensures limits { self.new.limits ≡ self.old.limits }
        ensures learns { LearnsFor root.now self.old.texts.known self.new.texts.known }
        ensures answers { Answers self.old.limits root.now colour self.new.texts.known result }
        ensures told { IfSome (S.files shelf.old) (λ files.
            AnswersTold self.old.limits files root.now self.old.texts.known self.new.texts.known result) }
        ensures shelf { IsOnlyRead (S.files shelf.old) (S.files shelf.new) (S.faults shelf.old) (S.faults shelf.new) (result ≡ Err AnswerError.ReadFault) }
        ensures unread { wanted self.old.texts.known root.now ≡ None → shelf.new ≡ shelf.old }
    {
        match self.learn_for(shelf, root) {
            Ok(id) => self.answer_known(root, id, colour),
            Err(stop) => Err(stopped_by(stop)),
        }
    }

    // Answers a root for which all is learnt.
    fn answer_known(&self, root: &FileId, id: TextId, colour: Colour) -> Result<Answer, AnswerError>
        requires { IsLearntFor root.now self.now.texts.known id.0 }
        ensures { AnswersKnown self.now.limits root.now colour self.now.texts.known result }
    {
        number_law();
        let limits = self.limits();
        if !self.texts().present(id) {
            return Err(AnswerError::NoRoot);
        }
        match answer_of(
            self.alloc,
            self.texts(),
            id,
            colour,
            limits.depth,
            limits.entries,
        ) {
            Ok(given) => answered(given),
            Err(_) => Err(AnswerError::Memory),
        }
    }
}

fn answered(given: Result<Answer, Fault>) -> Result<Answer, AnswerError>
    ensures { result ≡ answered_as given }
{
    match given {
        Ok(answer) => Ok(answer),
        Err(fault) => Err(AnswerError::Fault(fault)),
    }
}
