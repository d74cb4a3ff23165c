ghost use Rattle.std.specs.Prelude.{◌≡◌};
ghost use Rattle.ld_bfc.specs.Passing.{below, enabled, with};

use crate::culling::{Cert, State};

/// What a reference passes down to the faces below it.
#[derive(Clone, Copy, Debug, PartialEq, Eq)]
pub struct Below {
    /// Whether faces below may be certified.
    pub enable: bool,
    /// Whether faces below may be clipped.
    pub clip: bool,
    /// Whether faces below are turned.
    pub invert: bool,
}

/// What a reference that is met in a state passes down; `mirrored` says whether the determinant of
/// its matrix is below zero.
#[tactic(auto, unfolding(crate::specs::Passing::below))]
pub fn below_of(state: State, mirrored: bool) -> Below
    ensures { result ≡ below state mirrored }
{
    Below {
        enable: passes_certification(state),
        clip: state.clip,
        invert: state.invert_next != mirrored,
    }
}

fn passes_certification(state: State) -> bool
    ensures { result ≡ enabled state }
{
    match state.cert {
        Cert::Yes => true,
        Cert::Silent => !state.part,
        Cert::No => false,
    }
}

/// What two references, one below the other, pass down together.
pub fn with(outer: Below, inner: Below) -> Below
    ensures { result ≡ with outer inner }
{
    Below {
        enable: outer.enable && inner.enable,
        clip: outer.clip && inner.clip,
        invert: outer.invert != inner.invert,
    }
}
