ghost use Rattle.std.specs.Prelude.{◌≡◌, ◌==◌, IfOk, Some, bytes_eq, map, refl};
ghost use Rattle.std.proofs.Common.{rules};
ghost use Rattle.std.specs.Ordering.{nat_cmp};
ghost use Rattle.std.specs.List.{list_any, slice_split};
ghost use Rattle.std.specs.Hash as fed;
ghost use Rattle.std.specs.Cmp.{partial_equiv_from_equiv};
ghost use Rattle.std.specs.Cmp.Lexicographic.{slice_cmp, nat_list_eq_equiv, nat_list_cmp_total, texts_ties, texts_po};
ghost use Rattle.std.specs.Cmp.Rules.{hashing};
ghost use Rattle.ld_names.specs.Normal.{GivesName, is_control, is_relative, lower, normal_of, trim, trim_end, trim_start, has_drive, is_step, is_blank};
ghost use Rattle.ld_names.specs.declared.name.NameError.TheVariants.{Memory};

use crate::list::List;
use std::alloc::{AllocError, Global};
use std::cmp::Ordering;
use std::hash::{Hash, Hasher};
use std::marker::Model;

/// The name of a file in its normal form: 1 to 255 bytes, with `/` between its components, none of
/// which is empty, `.` or `..`, no capital of ASCII and no control character.
#[derive(Debug, Drop)]
pub struct Name {
    bytes: List<u8>,
}

impl Model for Name {
    ghost use Rattle.std.specs.Prelude.{◌≡◌, ◌==◌, List, ℕ, Ok};
    ghost use Rattle.ld_names.specs.Normal.{normal_of};

    ghost Value = { List ℕ };

    ghost view = { λ name. name.bytes };

    ghost invariant = { λ name. normal_of name.bytes ≡ Ok name.bytes };
}

/// Why a text has no normal form: the first of these that applies. Blanks at its ends don't count.
#[derive(Clone, Copy, Debug, PartialEq, Eq)]
pub enum NameError {
    /// Nothing is left.
    Empty,
    /// More than 255 bytes are left.
    TooLong,
    /// It begins with a drive, as `c:`, or a component between `/` is empty, `.` or `..`.
    NotRelative,
    /// A byte is below 32 or is 127.
    Control,
    /// Memory was lacking.
    Memory,
}

impl From<AllocError> for NameError {
    ghost from_gives = { λ _ e. e ≡ Memory };

    fn from(_error: AllocError) -> NameError {
        NameError::Memory
    }
}

/// The normal form of a file's name: without the spaces and tabs at both ends, with capitals of
/// ASCII lowered, and with `/` for `\`. It is this project's own; File Format 1.0.2 ("Line Type 1")
/// has blanks around a name ignored.
#[tactic(auto, unfolding(crate::specs::Normal::normal_of))]
pub fn normal(alloc: Global, text: &[u8]) -> Result<Name, NameError>
    ensures { GivesName result (normal_of text.now) }
{
    let text = trimmed(text);
    if text.is_empty() {
        return Err(NameError::Empty);
    }
    if text.len() > 255 {
        return Err(NameError::TooLong);
    }
    if !relative(text) {
        return Err(NameError::NotRelative);
    }
    if controlled(text) {
        return Err(NameError::Control);
    }
    let bytes = lowered(alloc, text)?;
    Ok(Name {
        bytes: List::from_vec(bytes),
    })
}

fn trimmed(text: &[u8]) -> &[u8]
    ensures { result.now ≡ trim text.now }
{
    trimmed_end(trimmed_start(text))
}

/// The text without the blanks (spaces and tabs) at its start.
pub fn trimmed_start(text: &[u8]) -> &[u8]
    ensures { result.now ≡ trim_start text.now }
{
    let mut rest = text;
    while let Some((first, more)) = rest.split_first() {
        if !blank(*first) {
            break;
        }
        rest = more;
    }
    rest
}

fn trimmed_end(text: &[u8]) -> &[u8]
    ensures { result.now ≡ trim_end text.now }
{
    let mut rest = text;
    while let Some((last, more)) = rest.split_last() {
        if !blank(*last) {
            break;
        }
        rest = more;
    }
    rest
}

/// Whether the byte is a space or a tab.
pub fn blank(byte: u8) -> bool
    ensures { result ≡ is_blank byte }
{
    matches!(byte, b' ' | b'\t')
}

fn lowered(alloc: Global, text: &[u8]) -> Result<Vec<u8>, AllocError>
    ensures { IfOk result (λ bytes. bytes.items ≡ map lower text.now) }
{
    text.iter().map(|byte| lowered_byte(*byte)).collect(alloc)
}

fn lowered_byte(byte: u8) -> u8
    ensures { result ≡ lower byte }
{
    match byte {
        b'\\' => b'/',
        _ => byte.to_ascii_lowercase(),
    }
}

// Of a name that is not lowered yet: whether it is relative then.
fn relative(name: &[u8]) -> bool
    ensures { result ≡ is_relative (map lower name.now) }
{
    !drive(name) && !steps(name)
}

fn controlled(name: &[u8]) -> bool
    ensures { result ≡ list_any is_control name.now }
{
    name.iter().any(|byte| *byte < 32 || *byte == 127)
}

fn drive(name: &[u8]) -> bool
    ensures { result ≡ has_drive (map lower name.now) }
{
    matches!(name, [b'a'..=b'z' | b'A'..=b'Z', b':', ..])
}

fn steps(name: &[u8]) -> bool
    ensures { result ≡ list_any is_step (slice_split (λ byte. byte == 47) (map lower name.now)) }
{
    name.split(|byte| *byte == b'/' || *byte == b'\\')
        .any(|part| step(part))
}

fn step(part: &[u8]) -> bool
    ensures { result ≡ is_step part.now }
{
    part.is_empty() || part == b".".as_slice() || part == b"..".as_slice()
}

impl Name {
    /// The bytes of the name.
    pub fn bytes(&self) -> &[u8]
        ensures bytes { result.now ≡ self.now }
        ensures normal { normal_of self.now ≡ Ok self.now }
    {
        self.bytes.as_slice()
    }

    /// An equal name.
    pub fn copy(&self, alloc: Global) -> Result<Name, AllocError>
        ensures { IfOk result (λ name. name ≡ self.now) }
    {
        Ok(Name {
            bytes: List::from_slice(alloc, self.bytes.as_slice())?,
        })
    }
}

impl PartialEq for Name {
    ghost eq = { bytes_eq };

    ghost laws = { partial_equiv_from_equiv nat_list_eq_equiv };

    fn eq(&self, other: &Name) -> bool {
        self.bytes() == other.bytes()
    }
}

impl Eq for Name {
    ghost laws = { nat_list_eq_equiv };
}

impl PartialOrd for Name {
    ghost partial_cmp = { λ a b. Some (slice_cmp nat_cmp a b) };

    ghost laws = { texts_po };

    fn partial_cmp(&self, other: &Name) -> Option<Ordering> {
        Some(self.cmp(other))
    }
}

impl Ord for Name {
    ghost cmp = { slice_cmp nat_cmp };

    ghost total = { nat_list_cmp_total };

    ghost matches_partial_cmp = { λ a b. refl };

    ghost matches_eq = { texts_ties };

    fn cmp(&self, other: &Name) -> Ordering {
        self.bytes().cmp(other.bytes())
    }
}

impl Hash for Name {
    ghost hash_input = { fed.slice fed.u8 };

    ghost respects_eq = { Prim.search (hashing, rules) };

    fn hash<H: Hasher>(&self, state: &mut H) {
        self.bytes().hash(state);
    }
}
