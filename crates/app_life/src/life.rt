//! What changes in one application.

ghost use Rattle.std.specs.Prelude.{◌≡◌, [], map, true, slice_get, option_and_then, IfOk};
ghost use Rattle.kernel_types.specs.Objects.{map_at};
ghost use Rattle.app_life.specs.Inside.{begun, is_left, next_start, stopped, reported_life, opening_life, life_table};

use handle_table::Table;
use kernel_values::{App, Handle, Items, NoMemory};
use std::alloc::Global;

// An application starts at most so often.
const MAX_STARTS: u32 = 4;

/// How often an application was started, whether it runs, its handle table, and the number that its last
/// `waitany` reported.
#[derive(Drop)]
pub struct Life {
    pub starts: u32,
    pub running: bool,
    pub table: Table,
    pub last: Option<Handle>,
}

/// The lives with which the applications of a scene begin.
pub fn opening_lives(alloc: Global, apps: &[App]) -> Result<Items<Life>, NoMemory>
    ensures { IfOk result (λ lives. lives ≡ map opening_life apps.now) }
{
    let mut lives = Items::new(alloc);
    for app in apps {
        let running = !app.manifest.deferred;
        lives.push(Life {
            starts: if running { 1 } else { 0 },
            running,
            table: Table::new(),
            last: None,
        })?;
    }
    Ok(lives)
}

/// The number of the next start of the application at the place, from 1; none where it runs or no start is
/// left.
pub fn next_start(lives: &Items<Life>, at: usize) -> Option<u32>
    ensures { result ≡ option_and_then next_start (slice_get lives.now at) }
{
    let Some(life) = lives.get(at) else {
        return None;
    };
    if life.running || life.starts >= MAX_STARTS {
        return None;
    }
    Some(life.starts + 1)
}

/// One more start of the application at the place, for which a start is left.
pub fn begin_life(lives: &mut Items<Life>, at: usize)
    requires left { is_left (slice_get lives.old at) ≡ true }
    requires empty { life_table (slice_get lives.old at) ≡ [] }
    ensures { lives.new ≡ map_at begun lives.old at }
{
    if let Some(life) = lives.get_mut(at) {
        life.starts += 1;
        life.running = true;
        life.last = None;
    }
}

/// The application at the place no longer runs.
pub fn stop_life(lives: &mut Items<Life>, at: usize)
    requires { life_table (slice_get lives.old at) ≡ [] }
    ensures { lives.new ≡ map_at stopped lives.old at }
{
    if let Some(life) = lives.get_mut(at) {
        life.running = false;
    }
}

/// The number is the last that the application at the place was told of.
pub fn report_life(lives: &mut Items<Life>, at: usize, handle: Handle)
    ensures { lives.new ≡ map_at (reported_life handle) lives.old at }
{
    if let Some(life) = lives.get_mut(at) {
        life.last = Some(handle);
    }
}
