//! The size of the queues to the normal world.

ghost use Rattle.std.specs.Prelude.{◌≡◌, IfOk, IsTrue, map};
ghost use Rattle.kernel_values.specs.SceneLaw.{is_queue_size};
ghost use Rattle.script_lines.specs.Gives.{Gives};
ghost use Rattle.scene_lines.specs.Lawful.{IsLawful};
ghost use Rattle.scene_lines.specs.declared.reading.Used.{Used};
ghost use Rattle.scene_lines.specs.Reading.{may_be_sized, queue_word, queue_in, queues_act};

use crate::last_place::is_in_repeat;
use crate::reading::{Place, Registered};
use script_lines::fault::LineRefused::{self, Fault};
use script_lines::fault::SceneKind::{BadWords, OutOfPlace};
use script_lines::numbers::number;

// The size may be told once, before the first client.
fn may_be_sized(before: &Registered, last: &Place) -> bool
    ensures { result ≡ may_be_sized before.now last.now }
{
    !is_in_repeat(last)
        && before.noted.client_names.as_slice().is_empty()
        && before.noted.queue.is_none()
}

// Whether it is a power of two from 1 to 256.
fn is_queue_size(size: u32) -> bool
    ensures { result ≡ is_queue_size size }
{
    [1, 2, 4, 8, 16, 32, 64, 128, 256]
        .iter()
        .any(|power| *power == size)
}

#[tactic(auto, unfolding(crate::specs::Reading::queue_word))]
fn queue_word(word: &[u8]) -> Result<u32, LineRefused>
    ensures exact { Gives (λ size. size) result (queue_word word.now) }
    ensures lawful { IfOk result (λ size. IsTrue (is_queue_size size)) }
{
    let size = number(word)?;
    if is_queue_size(size) {
        return Ok(size);
    }
    Err(Fault(BadWords))
}

#[tactic(auto, unfolding(crate::specs::Reading::queue_in))]
fn queue_in(words: &[&[u8]]) -> Result<u32, LineRefused>
    ensures exact { Gives (λ size. size) result (queue_in (map (λ word. word.now) words.now)) }
    ensures lawful { IfOk result (λ size. IsTrue (is_queue_size size)) }
{
    match words {
        [word] => queue_word(word),
        _ => Err(Fault(BadWords)),
    }
}

/// `queues NUMBER`
#[tactic(auto, unfolding(crate::specs::Reading::queues_act))]
pub fn queues_act(
    before: Registered,
    last: &Place,
    words: &[&[u8]],
) -> Result<Registered, LineRefused>
    ensures exact { Gives (λ next. next) result (queues_act before last.now (map (λ word. word.now) words.now)) }
    ensures kept { (used : Used) → IsLawful before last.now used → IfOk result (λ next. IsLawful next last.now used) }
{
    if !may_be_sized(&before, last) {
        return Err(Fault(OutOfPlace));
    }
    let size = queue_in(words)?;
    let mut before = before;
    before.noted.queue = Some(size);
    Ok(before)
}
