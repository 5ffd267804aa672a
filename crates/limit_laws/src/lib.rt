//! The limits of the program, each with its number: laws on functions without a body to run.
#![tactic(auto)]

ghost use Rattle.std.specs.Prelude.{◌≡◌, ◌≤◌, ◌+◌, ℕ, true, false, List, length, codes, nat_le, sum_by};
ghost use Rattle.app_manifest.specs.Manifests.{most_ports};
ghost use Rattle.kernel_types.specs.Clients.{send_limit};
ghost use Rattle.kernel_types.specs.Events.{chain_limit};
ghost use Rattle.kernel_types.specs.Kernel.{step_limit};
ghost use Rattle.kernel_types.specs.Memories.{is_lawful_size};
ghost use Rattle.kernel_types.specs.Messages.{part_limit};
ghost use Rattle.kernel_types.specs.Ports.{is_lawful_port};
ghost use Rattle.kernel_types.specs.Sets.{member_limit};
ghost use Rattle.kernel_types.specs.Tables.{has_room, is_full};
ghost use Rattle.kernel_types.specs.Turns.{history_limit};
ghost use Rattle.kernel_values.specs.SceneLaw.{SceneValue, IsLawfulScene, commands_of, is_lawful_app, payload_of_script, scripts_of};
ghost use Rattle.kernel_values.specs.declared.state.TableEntry.{TableEntry};
ghost use Rattle.scene_lines.specs.Reading.{most_apps, most_clients, most_commands, most_payload};
ghost use Rattle.limit_laws.specs.Rows.{app_of_threads};

use outside_io::{INPUT_LIMIT, READ_SIZE};

/// An input has at most 4,194,304 bytes, of which at most 65,536 are read at a time; and a run has at most 4,194,304
/// entries.
pub fn runs_have_limits()
    ensures input { INPUT_LIMIT ≡ 4194304 }
    ensures read_size { READ_SIZE ≡ 65536 }
    ensures history { history_limit ≡ 4194304 }
{}

/// A scene has at most 32 applications of at most 4 threads and 8 start ports, 8 clients, 16,384 commands and 16,777,216
/// bytes of payload.
pub fn scenes_have_limits()
    ensures apps { most_apps ≡ 32 }
    ensures threads { (is_lawful_app (app_of_threads 4) ≡ true) × (is_lawful_app (app_of_threads 5) ≡ false) }
    ensures start_ports { most_ports ≡ 8 }
    ensures clients { most_clients ≡ 8 }
    ensures commands { most_commands ≡ 16384 }
    ensures payload { most_payload ≡ 16777216 }
    ensures lawful { (scene : SceneValue) → IsLawfulScene scene → (length scene.apps ≤ 32) × (length scene.clients ≤ 8) × (commands_of scene ≤ 16384) × (sum_by payload_of_script (scripts_of scene) ≤ 16777216) }
{}

/// A port has at most 32 buffers of at most 4,096 bytes; a message at most 8 parts, and one of the normal world 4,096
/// bytes; a table 64 handles; a set 64 members, and a chain of sets 8; a memory reference 65,536 bytes; and a kernel makes
/// at most 4,294,967,295 steps.
pub fn kernels_have_limits()
    ensures ports { (is_lawful_port (codes "p") 32 4096 ≡ true) × (is_lawful_port (codes "p") 33 4096 ≡ false) × (is_lawful_port (codes "p") 32 4097 ≡ false) }
    ensures parts { part_limit ≡ 8 }
    ensures sends { send_limit ≡ 4096 }
    ensures handles { (table : List TableEntry) → is_full table ≡ nat_le 64 (length table) }
    ensures room { (count : ℕ) (table : List TableEntry) → has_room count table ≡ nat_le (length table + count) 64 }
    ensures members { member_limit ≡ 64 }
    ensures chains { chain_limit ≡ 8 }
    ensures memory { (is_lawful_size 65536 ≡ true) × (is_lawful_size 65537 ≡ false) }
    ensures steps { step_limit ≡ 4294967295 }
{}
