//! Lines of the text: where they end, and whose entry a line is of.

ghost use Rattle.std.specs.Prelude.{◌≡◌, ◌++◌, ◌∷◌, [], ◌≤◌, IfSome, IfNone, length, true, false};
ghost use mathlib.Core.List.{IsPrefix};
ghost use Rattle.report_text.specs.Lines.{blank};
ghost use Rattle.runners.specs.Places.{most_actors};
ghost use Rattle.history_check.specs.Verdicts.{behind_first_line};
ghost use Rattle.history_check.specs.Fronts.{IsOf, IsOfNobody};

use kernel_types::values::Turn;
use report_text::names::NameList;

/// The first line with the line feed that ends it, and what stands behind it. A text without a line feed is all
/// first line.
pub fn first_line(text: &[u8]) -> (&[u8], &[u8])
    ensures parts { text.now ≡ result.0.now ++ result.1.now }
    ensures behind { result.1.now ≡ behind_first_line text.now }
{
    for at in 0..text.len() {
        if text[at] == b'\n' {
            return text.split_at(at + 1);
        }
    }
    text.split_at(text.len())
}

/// What stands behind this front of the text; none where the text does not begin with it.
pub fn behind<'t>(text: &'t [u8], front: &[u8]) -> Option<&'t [u8]>
    ensures some { IfSome result (λ rest. text.now ≡ front.now ++ rest.now) }
    ensures none { IfNone result (IsPrefix front.now text.now → ⊥) }
{
    text.strip_prefix(front)
}

// Whether a text begins with this word and a blank.
fn begins_with(text: &[u8], word: &[u8]) -> bool
    ensures yes { result ≡ true → IsPrefix (word.now ++ blank ∷ []) text.now }
    ensures no { result ≡ false → IsPrefix (word.now ++ blank ∷ []) text.now → ⊥ }
{
    match behind(text, word) {
        Some(rest) => behind(rest, b" ").is_some(),
        None => false,
    }
}

/// Whose entry a line is of, by what stands behind its number: an actor's, the device's, or idle's, whose steps have
/// no call. None where nobody has that name.
pub fn turn_of(names: &NameList, said: &[u8]) -> Option<Turn>
    requires { length names.now ≤ most_actors }
    ensures some { IfSome result (λ turn. IsOf names.now said.now turn) }
    ensures none { IfNone result (IsOfNobody names.now said.now) }
{
    if behind(said, b"device ->").is_some() {
        return Some(Turn::Device);
    }
    if behind(said, b"idle ->").is_some() {
        return Some(Turn::Idle);
    }
    let all = names.as_slice();
    for actor in 0..all.len() {
        if begins_with(said, all[actor].as_slice()) {
            return Some(Turn::Actor(actor as u32));
        }
    }
    None
}
