//! Worked states of back face culling, and what references pass down.
ghost use Rattle.std.specs.Prelude.{◌≡◌, [], ◌∷◌, codes, false, map, true};
ghost use Rattle.ld_line.specs.Reading.{line_of};
ghost use Rattle.ld_line.specs.declared.line.BfcWord.TheVariants.{InvertNext};
ghost use Rattle.ld_line.specs.declared.line.Kind.TheVariants.{Line2, Tri};
ghost use Rattle.ld_line.specs.declared.line.Line.TheVariants.{Bfc, Comment, Draw};
ghost use Rattle.ld_line.specs.declared.line.Winding.TheVariants.{Ccw, Cw};
ghost use Rattle.ld_bfc.specs.LineState.{face, start, state_before};
ghost use Rattle.ld_bfc.specs.Passing.{below, neutral, with};
ghost use Rattle.ld_bfc.specs.declared.culling.Cert.TheVariants.{No, Silent, Yes};

use ld_bfc::{Below, Cert, State, below_of, face, next, start, with};
use ld_line::{Winding, read_line};
use std::alloc::{AllocError, Global};

// Lines of a text, and the state behind them: certification, clip, winding, a waiting INVERTNEXT,
// and whether something is drawn.
const STATES: &str = " => Silent true Ccw false false\n\
0 BFC CERTIFY => Yes true Ccw false false\n\
0 BFC CERTIFY CCW => Yes true Ccw false false\n\
0 BFC CERTIFY CW => Yes true Cw false false\n\
0 BFC NOCERTIFY => No true Ccw false false\n\
0 BFC CLIP => Yes true Ccw false false\n\
0 BFC NOCLIP => Yes false Ccw false false\n\
0 BFC CW => Yes true Cw false false\n\
0 BFC CCW => Yes true Ccw false false\n\
0 BFC CLIP CW => Yes true Cw false false\n\
0 BFC CW CLIP => Yes true Cw false false\n\
0 BFC CLIP CCW => Yes true Ccw false false\n\
0 BFC CCW CLIP => Yes true Ccw false false\n\
0 BFC INVERTNEXT => Yes true Ccw true false\n\
0 BFC NOCLIP CW => Silent true Ccw false false\n\
0 BFC => Silent true Ccw false false\n\
0 a note => Silent true Ccw false false\n\
0 STEP => Silent true Ccw false false\n\
0 ROTSTEP 0 45 0 => Silent true Ccw false false\n\
0 !LDRAW_ORG Part => Silent true Ccw false false\n\
0 !LDRAW_ORG Model => Silent true Ccw false false\n\
3 bad => Silent true Ccw false false\n\
2 24 2000000 0 0 1 0 0 => Silent true Ccw false false\n\
2 24 0 0 0 1 0 0 => Silent true Ccw false true\n\
3 16 0 0 0 1 0 0 0 1 0 => Silent true Ccw false true\n\
1 16 0 0 0 1 0 0 0 1 0 0 0 1 x.dat => Silent true Ccw false true\n\
1 16 0 0 0 1 0 0 0 1 0 0 0 1 a..b/../x.dat => Silent true Ccw false true\n\
0 BFC CERTIFY CW|0 BFC CERTIFY CCW => Yes true Cw false false\n\
0 BFC CERTIFY CW|0 BFC NOCERTIFY => Yes true Cw false false\n\
0 BFC NOCERTIFY|0 BFC CERTIFY CW => No true Ccw false false\n\
0 BFC NOCERTIFY|0 BFC CLIP CW => No true Cw false false\n\
0 BFC NOCERTIFY|0 BFC NOCLIP|0 BFC INVERTNEXT => No false Ccw true false\n\
0 BFC CW|0 BFC CERTIFY CCW => Yes true Cw false false\n\
0 BFC NOCLIP|0 BFC CLIP => Yes true Ccw false false\n\
0 BFC NOCLIP|0 BFC CW => Yes false Cw false false\n\
0 BFC NOCLIP|0 BFC CW CLIP => Yes true Cw false false\n\
0 BFC CERTIFY CW|0 BFC CCW => Yes true Ccw false false\n\
0 BFC CERTIFY CW|0 BFC CLIP CCW => Yes true Ccw false false\n\
2 24 0 0 0 1 0 0|0 BFC CERTIFY CW => Silent true Ccw false true\n\
2 24 0 0 0 1 0 0|0 BFC NOCERTIFY => Silent true Ccw false true\n\
2 24 0 0 0 1 0 0|0 BFC CW => Silent true Cw false true\n\
2 24 0 0 0 1 0 0|0 BFC NOCLIP|0 BFC INVERTNEXT => Silent false Ccw true true\n\
1 16 0 0 0 1 0 0 0 1 0 0 0 1 x.dat|0 BFC CERTIFY => Silent true Ccw false true\n\
2 24 2000000 0 0 1 0 0|0 BFC CERTIFY CW => Yes true Cw false false\n\
3 bad|0 note|0 BFC CERTIFY CW => Yes true Cw false false\n\
0 BFC INVERTNEXT|0 note|0 STEP|3 bad|0 BFC CW => Yes true Cw true false\n\
0 BFC INVERTNEXT|0 BFC INVERTNEXT => Yes true Ccw true false\n\
0 BFC INVERTNEXT|1 16 0 0 0 1 0 0 0 1 0 0 0 1 x.dat => Yes true Ccw false true\n\
0 BFC INVERTNEXT|3 16 0 0 0 1 0 0 0 1 0 => Yes true Ccw false true\n\
0 BFC INVERTNEXT|2 24 0 0 0 1 0 0|1 16 0 0 0 1 0 0 0 1 0 0 0 1 x.dat => Yes true Ccw false true\n\
0 BFC CERTIFY CW|0 BFC NOCLIP|2 24 0 0 0 1 0 0 => Yes false Cw false true";

fn state_behind(alloc: Global, part: bool, lines: &str) -> Result<State, AllocError> {
    let mut state = start(part);
    for line in lines.split('|') {
        state = step(alloc, state, line)?;
    }
    Ok(state)
}

fn step(alloc: Global, state: State, line: &str) -> Result<State, AllocError> {
    let line = read_line(alloc, line.as_bytes())?;
    Ok(next(state, &line))
}

fn state_text(alloc: Global, state: &State) -> Result<String, AllocError> {
    let State {
        cert,
        clip,
        winding,
        invert_next,
        drawn,
        ..
    } = state;
    format!(in alloc; "{cert:?} {clip} {winding:?} {invert_next} {drawn}")
}

fn is_shown(alloc: Global, state: &State, want: &str) -> bool {
    match state_text(alloc, state) {
        Ok(text) => text.as_str() == want,
        Err(_) => false,
    }
}

fn row_holds(alloc: Global, row: &str, part: bool) -> bool {
    let Some((lines, want)) = row.split_once(" => ") else {
        return false;
    };
    match state_behind(alloc, part, lines) {
        Ok(state) => state.part == part && is_shown(alloc, &state, want),
        Err(_) => false,
    }
}

#[test]
fn states_behind_lines(rt: HostRuntime) {
    let alloc = rt.alloc();
    for row in STATES.lines() {
        assert!(rt;
            row_holds(alloc, row, false) && row_holds(alloc, row, true),
            "{row:?}"
        );
    }
}

fn state_of(cert: Cert, part: bool, clip: bool, invert_next: bool) -> State {
    State {
        cert,
        clip,
        invert_next,
        winding: Winding::Cw,
        ..start(part)
    }
}

fn below(enable: bool, clip: bool, invert: bool) -> Below {
    Below {
        enable,
        clip,
        invert,
    }
}

fn has_face(state: State, certified: bool, clip: bool) -> bool {
    face(state) == (certified, clip, Winding::Cw)
}

fn passes(state: State, mirrored: bool, below: Below) -> bool {
    below_of(state, mirrored) == below
}

// Whether the faces of a text, and what its references pass down, are as wanted.
fn is_culled(cert: Cert, part: bool, enable: bool, clip: bool) -> bool {
    let plain = state_of(cert, part, clip, false);
    let waiting = state_of(cert, part, clip, true);
    let straight = below(enable, clip, false);
    let turned = below(enable, clip, true);
    let certified = matches!(cert, Cert::Yes);
    has_face(plain, certified, clip)
        && has_face(waiting, certified, clip)
        && passes(plain, false, straight)
        && passes(plain, true, turned)
        && passes(waiting, false, turned)
        && passes(waiting, true, straight)
}

// A text's certification, whether it is a part text, and whether it passes certification on.
static CULLED: [(Cert, bool, bool); 6] = [
    (Cert::Yes, false, true),
    (Cert::Yes, true, true),
    (Cert::No, false, false),
    (Cert::No, true, false),
    (Cert::Silent, false, true),
    (Cert::Silent, true, false),
];

fn are_culled(cert: Cert, part: bool, enable: bool) -> bool {
    is_culled(cert, part, enable, false) && is_culled(cert, part, enable, true)
}

#[test]
fn faces_and_references(rt: HostRuntime) {
    for (cert, part, enable) in &CULLED {
        assert!(rt; are_culled(*cert, *part, *enable), "{cert:?} {part}");
    }
}

fn are_with(outer: Below, inner: Below, wanted: Below) -> bool {
    with(outer, inner) == wanted
}

#[test]
fn two_references(rt: HostRuntime) {
    let turned = below(true, true, true);
    let plain = below(true, true, false);
    let bare = below(false, false, false);
    assert!(rt; are_with(turned, turned, plain));
    assert!(rt; are_with(turned, plain, turned));
    assert!(rt; are_with(bare, turned, below(false, false, true)));
    assert!(rt; are_with(turned, below(true, false, false), below(true, false, true)));
}

// The definitions, by computing.
fn states_by_definition()
    ensures silent { state_before true (map line_of (codes "0 note" ∷ codes "3 bad" ∷ [])) 3 ≡ start true }
    ensures first_statement { state_before false (map line_of (codes "0 BFC CERTIFY CW" ∷ codes "0 BFC CERTIFY CCW" ∷ codes "0 BFC NOCERTIFY" ∷ [])) 4 ≡ record (start false) { cert = Yes; winding = Cw } }
    ensures any_statement { state_before false (map line_of (codes "0 BFC NOCLIP" ∷ codes "0 BFC NOCERTIFY" ∷ [])) 3 ≡ record (start false) { cert = Yes; clip = false } }
    ensures after_drawing { state_before false ((Draw Line2 24 [] ∷ map line_of (codes "0 BFC CERTIFY" ∷ codes "0 BFC CW" ∷ []))) 4 ≡ record (start false) { winding = Cw; drawn = true } }
    ensures invertnext_stands { state_before false (map line_of (codes "0 BFC INVERTNEXT" ∷ codes "0 note" ∷ codes "3 bad" ∷ [])) 4 ≡ record (start false) { cert = Yes; invert_next = true } }
    ensures invertnext_used_up { state_before false ((Bfc InvertNext ∷ Draw Tri 16 [] ∷ Comment ∷ [])) 3 ≡ record (start false) { cert = Yes; drawn = true } }
    ensures uncertified_face { face (start false) ≡ (false, true, Ccw) }
    ensures invertnext_and_mirror { below (record (start false) { cert = Yes; invert_next = true }) true ≡ neutral }
    ensures silent_part { below (start true) false ≡ record neutral { enable = false } }
    ensures uncertified_text { below (record (start false) { cert = No }) true ≡ record { enable = false; clip = true; invert = true } }
    ensures turned_twice { let turned = record neutral { invert = true } in with turned turned ≡ neutral }
{}
