ghost use Rattle.std.specs.Prelude.{◌≡◌};
ghost use Rattle.ld_bfc.specs.LineState.{decided, face, next, obeyed, start};

use ld_line::{BfcWord, Line, Winding};

/// What a text's first BFC statement says of certification.
#[derive(Clone, Copy, Debug, PartialEq, Eq)]
pub enum Cert {
    /// No statement has decided.
    Silent,
    Yes,
    No,
}

/// The state of back face culling before a line of a text.
#[derive(Clone, Copy, Debug, PartialEq, Eq)]
pub struct State {
    /// Whether the text is a part text.
    pub part: bool,
    pub cert: Cert,
    pub clip: bool,
    pub winding: Winding,
    /// Whether an `INVERTNEXT` waits for the next reference or drawn line.
    pub invert_next: bool,
    /// Whether a reference or a drawn line came before.
    pub drawn: bool,
}

/// The state before a text's first line.
pub fn start(part: bool) -> State
    ensures { result ≡ start part }
{
    State {
        part,
        cert: Cert::Silent,
        clip: true,
        winding: Winding::Ccw,
        invert_next: false,
        drawn: false,
    }
}

/// The state behind a line, by the state before it.
#[tactic(auto, unfolding(crate::specs::LineState::next))]
pub fn next(state: State, line: &Line) -> State
    ensures { result ≡ next state line.now }
{
    match line {
        Line::Bfc(word) => obey(decide(state, *word), *word),
        Line::Ref { .. } | Line::Draw { .. } => State {
            invert_next: false,
            drawn: true,
            ..state
        },
        _ => state,
    }
}

/// Whether a face that is drawn in a state is certified, whether it is clipped, and its winding.
pub fn face(state: State) -> (bool, bool, Winding)
    ensures { result ≡ face state }
{
    (state.cert == Cert::Yes, state.clip, state.winding)
}

// The first statement decides, if nothing is drawn before it.
fn decide(state: State, word: BfcWord) -> State
    ensures { result ≡ decided word state }
{
    if state.cert != Cert::Silent || state.drawn {
        return state;
    }
    match word {
        BfcWord::NoCertify => State {
            cert: Cert::No,
            ..state
        },
        BfcWord::Certify(winding) => State {
            cert: Cert::Yes,
            winding,
            ..state
        },
        _ => State {
            cert: Cert::Yes,
            ..state
        },
    }
}

// What a statement sets wherever it stands.
fn obey(state: State, word: BfcWord) -> State
    ensures { result ≡ obeyed word state }
{
    match word {
        BfcWord::Certify(_) | BfcWord::NoCertify => state,
        BfcWord::Clip => State {
            clip: true,
            ..state
        },
        BfcWord::NoClip => State {
            clip: false,
            ..state
        },
        BfcWord::Wind(winding) => State { winding, ..state },
        BfcWord::ClipWind(winding) => State {
            clip: true,
            winding,
            ..state
        },
        BfcWord::InvertNext => State {
            invert_next: true,
            ..state
        },
    }
}
