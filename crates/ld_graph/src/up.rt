// The dirt of a change is marked.
ghost use Rattle.std.specs.Prelude.{◌≡◌, ◌<◌, ◌⊎◌, ◌↔◌, ℕ, IfSome, IsSomeAnd, Some, length, true};
ghost use Rattle.std.specs.List.{Contains};
ghost use Rattle.ld_graph.specs.Changing.{NamesText};
ghost use Rattle.ld_graph.specs.Inside.Linking.{found_by_name};
ghost use Rattle.ld_graph.specs.Inside.Marking.{IsMarked, MarksMore};
ghost use Rattle.ld_graph.specs.Items.{web_of};
ghost use Rattle.ld_graph.specs.Web.{Reaches, Refers};

use crate::links::Links;
use crate::marks::Marks;
use ld_names::{TextId, file_laws};

// Whether a text finds another by its name.
fn finds(links: &Links, user: u32, text: u32) -> bool
    ensures { (result ≡ true) ↔ (found_by_name links.now.items user text ≡ Some text) }
{
    match links.found(user, text) {
        Some(found) => found == text,
        None => false,
    }
}

// Marks the texts that refer to a text.
fn mark_parents(links: &Links, marks: &mut Marks, text: u32)
    requires size { length marks.old.marks ≡ length links.now.items }
    requires text { text < length links.now.items }
    ensures more { MarksMore marks.old marks.new }
    ensures marked { (user : ℕ) → Refers (web_of links.now.items) user text → IsMarked marks.new user }
    ensures only { (other : ℕ) → IsMarked marks.new other → IsMarked marks.old other ⊎ Refers (web_of links.now.items) other text }
{
    file_laws();
    let users = links.users(text);
    for user in users {
        marks.mark_if(*user, finds(links, *user, text));
    }
}

// Marks the texts that name a text.
fn mark_namers(links: &Links, marks: &mut Marks, text: u32)
    requires size { length marks.old.marks ≡ length links.now.items }
    requires text { text < length links.now.items }
    ensures more { MarksMore marks.old marks.new }
    ensures marked { (user : ℕ) → NamesText links.now.items user text → IsMarked marks.new user }
    ensures only { (other : ℕ) → IsMarked marks.new other → IsMarked marks.old other ⊎ NamesText links.now.items other text }
{
    let users = links.users(text);
    for user in users {
        marks.mark_if(*user, links.looks_at(*user, text));
    }
}

// Marks a text, and those that name it where it appeared or went.
pub(crate) fn mark_touched(links: &Links, marks: &mut Marks, text: u32, turned: bool)
    requires size { length marks.old.marks ≡ length links.now.items }
    requires text { text < length links.now.items }
    ensures more { MarksMore marks.old marks.new }
    ensures marked { IsMarked marks.new text }
    ensures namers { turned ≡ true → (user : ℕ) → NamesText links.now.items user text → IsMarked marks.new user }
    ensures only { (other : ℕ) → IsMarked marks.new other → IsMarked marks.old other ⊎ ((other ≡ text) ⊎ (turned ≡ true) × NamesText links.now.items other text) }
{
    marks.mark(text);
    if turned {
        mark_namers(links, marks, text);
    }
}

// The same of a text that there may be.
pub(crate) fn mark_listed(links: &Links, marks: &mut Marks, text: Option<TextId>, turned: bool)
    requires size { length marks.old.marks ≡ length links.now.items }
    requires text { IfSome text (λ text. text.0 < length links.now.items) }
    ensures more { MarksMore marks.old marks.new }
    ensures marked { IfSome text (λ text. IsMarked marks.new text.0) }
    ensures namers { turned ≡ true → IfSome text (λ text. (user : ℕ) → NamesText links.now.items user text.0 → IsMarked marks.new user) }
    ensures only { (other : ℕ) → IsMarked marks.new other → IsMarked marks.old other ⊎ IsSomeAnd text (λ text. (other ≡ text.0) ⊎ (turned ≡ true) × NamesText links.now.items other text.0) }
{
    if let Some(text) = text {
        mark_touched(links, marks, text.0, turned);
    }
}

// Marks all texts from which a walk leads to a marked one.
pub(crate) fn mark_up(links: &Links, marks: &mut Marks)
    requires size { length marks.old.marks ≡ length links.now.items }
    ensures more { MarksMore marks.old marks.new }
    ensures marked { (text : ℕ) → IsMarked marks.new text ↔ Reaches (web_of links.now.items) (IsMarked marks.old) text }
{
    let mut at = 0;
    while at < marks.listed().len() {
        let text = marks.listed()[at];
        mark_parents(links, marks, text);
        at += 1;
    }
}
