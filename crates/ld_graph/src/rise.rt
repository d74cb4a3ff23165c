// Heights are raised by single references: a text that has risen lifts those that refer to it.
ghost use Rattle.std.specs.Prelude.{◌≡◌, ◌≤◌, ◌<◌, ◌⊎◌, ℕ, Some, [], length, min, suc};
ghost use Rattle.std.specs.List.{All, Contains};
ghost use Rattle.std.specs.Option.{option_map_or};
ghost use Rattle.ld_graph.specs.Inside.Linking.{RefersByName, found_by_name};
ghost use Rattle.ld_graph.specs.Inside.Marking.{IsMarked};
ghost use Rattle.ld_graph.specs.Inside.Rising.{AreBelow, AreRight, AreSettled, HasFloor, IsSettled, Raises, height_in};
ghost use Rattle.ld_graph.specs.Items.{web_of};
ghost use Rattle.ld_graph.specs.Web.{Refers, height, over};

use crate::links::Links;
use crate::marks::Marks;
use ld_names::file_laws;

// Lifts a text to a height, and marks it if it was lower.
fn lift(heights: &mut Vec<u8>, marks: &mut Marks, text: u32, high: u8)
    requires within { text < length heights.old.items }
    requires size { length marks.old.marks ≡ length heights.old.items }
    ensures raises { (cap : ℕ) → high ≤ cap → Raises cap heights.old.items heights.new.items marks.old marks.new }
    ensures only { (other : ℕ) → (height_in heights.new.items other ≡ height_in heights.old.items other) ⊎ (other ≡ text) × (height_in heights.new.items other ≡ high) }
    ensures high { high ≤ height_in heights.new.items text }
{
    if heights[text as usize] < high {
        heights[text as usize] = high;
        marks.mark(text);
    }
}

// One more than the height of a text that may be found, up to the cap.
fn above(heights: &[u8], child: Option<u32>, cap: u8) -> u8
    ensures { result ≡ option_map_or (λ child. min cap (suc (height_in heights.now child))) child 0 }
{
    let Some(child) = child else {
        return 0;
    };
    let height = heights.get(child as usize).copied().unwrap_or(0);
    if height < cap { height + 1 } else { cap }
}

// Lifts a text over what it finds by the name of another.
fn lift_user(links: &Links, heights: &mut Vec<u8>, marks: &mut Marks, user: u32, text: u32, cap: u8)
    requires within { user < length heights.old.items }
    requires size { length marks.old.marks ≡ length heights.old.items }
    ensures raises { Raises cap heights.old.items heights.new.items marks.old marks.new }
    ensures only { (other : ℕ) → (height_in heights.new.items other ≡ height_in heights.old.items other) ⊎ (other ≡ user) × (height_in heights.new.items other ≡ option_map_or (λ child. min cap (suc (height_in heights.old.items child))) (found_by_name links.now.items user text) 0) }
    ensures settled { (child : ℕ) → found_by_name links.now.items user text ≡ Some child → IsSettled cap heights.new.items marks.new user child }
{
    let high = above(heights, links.found(user, text), cap);
    lift(heights, marks, user, high);
}

// Lifts the texts that refer by the name of a text over what they find by it.
fn lift_users(links: &Links, heights: &mut Vec<u8>, marks: &mut Marks, text: u32, cap: u8)
    requires size { length heights.old.items ≡ length links.now.items }
    requires marks { length marks.old.marks ≡ length links.now.items }
    requires below { AreBelow (web_of links.now.items) cap heights.old.items }
    ensures raises { Raises cap heights.old.items heights.new.items marks.old marks.new }
    ensures below { AreBelow (web_of links.now.items) cap heights.new.items }
    ensures settled { (user child : ℕ) → RefersByName links.now.items user child text → IsSettled cap heights.new.items marks.new user child }
{
    let users = links.users(text);
    for user in users {
        lift_user(links, heights, marks, *user, text, cap);
    }
}

// Lifts a text over all that it refers to.
fn lift_text(links: &Links, heights: &mut Vec<u8>, marks: &mut Marks, text: u32, cap: u8)
    requires within { text < length heights.old.items }
    requires size { length marks.old.marks ≡ length heights.old.items }
    requires below { AreBelow (web_of links.now.items) cap heights.old.items }
    ensures raises { Raises cap heights.old.items heights.new.items marks.old marks.new }
    ensures below { AreBelow (web_of links.now.items) cap heights.new.items }
    ensures floor { HasFloor (web_of links.now.items) cap heights.new.items text }
    ensures settled { (child : ℕ) → Refers (web_of links.now.items) text child → IsSettled cap heights.new.items marks.new text child }
{
    let high = links.over(heights, text, cap);
    lift(heights, marks, text, high);
}

// Raises all texts to their heights, where those that call for greater ones are marked; in the end none is.
fn rise(links: &Links, heights: &mut Vec<u8>, marks: &mut Marks, cap: u8)
    requires size { length heights.old.items ≡ length links.now.items }
    requires marks { length marks.old.marks ≡ length links.now.items }
    requires below { AreBelow (web_of links.now.items) cap heights.old.items }
    requires floors { (text : ℕ) → HasFloor (web_of links.now.items) cap heights.old.items text }
    requires settled { AreSettled (web_of links.now.items) cap heights.old.items marks.old }
    ensures size { length heights.new.items ≡ length links.now.items }
    ensures marks { length marks.new.marks ≡ length links.now.items }
    ensures none { marks.new.list ≡ [] }
    ensures right { AreRight (web_of links.now.items) cap heights.new.items }
{
    file_laws();
    while let Some(text) = marks.take_last() {
        lift_users(links, heights, marks, text, cap);
    }
}

// Raises all texts to their heights after a text was learnt, which is as low as can be.
pub(crate) fn raise_learnt(
    links: &Links,
    heights: &mut Vec<u8>,
    marks: &mut Marks,
    text: u32,
    cap: u8,
)
    requires within { text < length links.now.items }
    requires size { length heights.old.items ≡ length links.now.items }
    requires marks { length marks.old.marks ≡ length links.now.items }
    requires below { AreBelow (web_of links.now.items) cap heights.old.items }
    requires floors { (other : ℕ) → (other ≡ text) ⊎ HasFloor (web_of links.now.items) cap heights.old.items other }
    requires settled { (other child : ℕ) → Refers (web_of links.now.items) other child → (other ≡ text) ⊎ (RefersByName links.now.items other child text ⊎ IsSettled cap heights.old.items marks.old other child) }
    ensures size { length heights.new.items ≡ length links.now.items }
    ensures marks { length marks.new.marks ≡ length links.now.items }
    ensures none { marks.new.list ≡ [] }
    ensures right { AreRight (web_of links.now.items) cap heights.new.items }
{
    lift_text(links, heights, marks, text, cap);
    lift_users(links, heights, marks, text, cap);
    rise(links, heights, marks, cap);
}

// Lowers each of the texts to 0.
fn lower_each(heights: &mut Vec<u8>, list: &[u32])
    requires { All (λ text. text < length heights.old.items) list.now }
    ensures size { length heights.new.items ≡ length heights.old.items }
    ensures low { (text : ℕ) → Contains list.now text → height_in heights.new.items text ≡ 0 }
    ensures others { (text : ℕ) → Contains list.now text ⊎ (height_in heights.new.items text ≡ height_in heights.old.items text) }
{
    for text in list {
        heights[*text as usize] = 0;
    }
}

// Lifts a text that is marked over all that it refers to.
fn lift_marked(links: &Links, heights: &mut Vec<u8>, text: u32, cap: u8)
    requires within { text < length heights.old.items }
    ensures size { length heights.new.items ≡ length heights.old.items }
    ensures others { (other : ℕ) → (other ≡ text) ⊎ (height_in heights.new.items other ≡ height_in heights.old.items other) }
    ensures up { height_in heights.old.items text ≤ height_in heights.new.items text }
    ensures high { min cap (over (web_of links.now.items) (height_in heights.old.items) text) ≤ height_in heights.new.items text }
    ensures below { AreBelow (web_of links.now.items) cap heights.old.items → AreBelow (web_of links.now.items) cap heights.new.items }
{
    let high = links.over(heights, text, cap);
    if heights[text as usize] < high {
        heights[text as usize] = high;
    }
}

// Lifts each of the texts over all that it refers to.
fn lift_each(links: &Links, heights: &mut Vec<u8>, list: &[u32], cap: u8)
    requires within { All (λ text. text < length heights.old.items) list.now }
    requires below { AreBelow (web_of links.now.items) cap heights.old.items }
    ensures size { length heights.new.items ≡ length heights.old.items }
    ensures below { AreBelow (web_of links.now.items) cap heights.new.items }
    ensures others { (text : ℕ) → Contains list.now text ⊎ (height_in heights.new.items text ≡ height_in heights.old.items text) }
    ensures floors { (text : ℕ) → Contains list.now text → HasFloor (web_of links.now.items) cap heights.new.items text }
    ensures settled { (text child : ℕ) → Contains list.now text → Refers (web_of links.now.items) text child → Contains list.now child ⊎ (min cap (suc (height_in heights.new.items child)) ≤ height_in heights.new.items text) }
{
    for text in list {
        lift_marked(links, heights, *text, cap);
    }
}

// Gives all texts their heights. Those that are not marked have theirs; in the end none is marked.
pub(crate) fn settle(links: &Links, heights: &mut Vec<u8>, marks: &mut Marks, cap: u8)
    requires size { length heights.old.items ≡ length links.now.items }
    requires marks { length marks.old.marks ≡ length links.now.items }
    requires others { (text : ℕ) → IsMarked marks.old text ⊎ (height_in heights.old.items text ≡ height (web_of links.now.items) cap text) }
    ensures size { length heights.new.items ≡ length links.now.items }
    ensures marks { length marks.new.marks ≡ length links.now.items }
    ensures none { marks.new.list ≡ [] }
    ensures right { AreRight (web_of links.now.items) cap heights.new.items }
{
    lower_each(heights, marks.listed());
    lift_each(links, heights, marks.listed(), cap);
    rise(links, heights, marks, cap);
}
