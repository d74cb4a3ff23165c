//! Types that cross threads.
use ld_engine::{Answer, AnswerError, EditError, Limits, OpenError, Workspace};
use ld_script::{Command, Query, Root};
use ld_texts::{Change, Edit, LearnError, PrepareError, Ready, Texts};

fn crosses_threads<T: Send + Sync>() {}

#[test]
fn types_cross_threads() {
    crosses_threads::<Workspace>();
    crosses_threads::<Limits>();
    crosses_threads::<Answer>();
    crosses_threads::<AnswerError>();
    crosses_threads::<EditError>();
    crosses_threads::<OpenError>();
    crosses_threads::<Command>();
    crosses_threads::<Query>();
    crosses_threads::<Root>();
    crosses_threads::<Texts>();
    crosses_threads::<Ready>();
    crosses_threads::<Change>();
    crosses_threads::<LearnError>();
    crosses_threads::<Edit>();
    crosses_threads::<PrepareError>();
}
