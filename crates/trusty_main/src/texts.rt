//! What the program writes besides reports.

ghost use Rattle.std.specs.Prelude.{◌≡◌, IfOk};
ghost use Rattle.trusty_main.specs.Texts.{usage_text, fault_text, turn_text, too_long_text, yes_text, no_text};

use itoa::Buffer;
use kernel_types::values::NoMemory;
use scene_reader::SceneFault;
use std::alloc::Global;

#[tactic(auto, unfolding(crate::specs::Texts::usage_text))]
pub fn usage_line() -> &'static [u8]
    ensures { result.now ≡ usage_text }
{
    b"usage: trusty COMMAND [--form FORM]\n"
}

#[tactic(auto, unfolding(crate::specs::Texts::too_long_text))]
pub fn too_long_line() -> &'static [u8]
    ensures { result.now ≡ too_long_text }
{
    b"run too long\n"
}

/// The first fault of a scene, and its line.
#[tactic(auto, unfolding(crate::specs::Texts::fault_text))]
pub fn fault_line(alloc: Global, fault: &SceneFault) -> Result<Vec<u8>, NoMemory>
    ensures { IfOk result (λ line. line.items ≡ fault_text fault.now) }
{
    let mut number = Buffer::new();
    let mut line = Vec::from_slice(alloc, b"refused line ")?;
    line.extend_from_slice(number.format(fault.line).as_bytes())?;
    line.extend_from_slice(b": ")?;
    line.extend_from_slice(fault.kind.text())?;
    line.extend_from_slice(b"\n")?;
    Ok(line)
}

/// The number of the turn that was refused.
#[tactic(auto, unfolding(crate::specs::Texts::turn_text))]
pub fn turn_line(alloc: Global, turn: u64) -> Result<Vec<u8>, NoMemory>
    ensures { IfOk result (λ line. line.items ≡ turn_text turn) }
{
    let mut number = Buffer::new();
    let mut line = Vec::from_slice(alloc, b"turn ")?;
    line.extend_from_slice(number.format(turn).as_bytes())?;
    line.extend_from_slice(b" refused\n")?;
    Ok(line)
}

/// A history's number of entries, of which a report was that.
#[tactic(auto, unfolding(crate::specs::Texts::yes_text))]
pub fn yes_line(alloc: Global, count: u64) -> Result<Vec<u8>, NoMemory>
    ensures { IfOk result (λ line. line.items ≡ yes_text count) }
{
    let mut number = Buffer::new();
    let mut line = Vec::from_slice(alloc, b"yes ")?;
    line.extend_from_slice(number.format(count).as_bytes())?;
    line.extend_from_slice(b"\n")?;
    Ok(line)
}

/// The number of entries with which a report goes along with a history.
#[tactic(auto, unfolding(crate::specs::Texts::no_text))]
pub fn no_line(alloc: Global, count: u64) -> Result<Vec<u8>, NoMemory>
    ensures { IfOk result (λ line. line.items ≡ no_text count) }
{
    let mut number = Buffer::new();
    let mut line = Vec::from_slice(alloc, b"no entry ")?;
    line.extend_from_slice(number.format(count).as_bytes())?;
    line.extend_from_slice(b"\n")?;
    Ok(line)
}
