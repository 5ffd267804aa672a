//! The bridge names the ends of its device's entries.

ghost use Rattle.std.specs.Prelude.{List};
ghost use Rattle.kernel_values.specs.SceneLaw.{SceneValue};
ghost use Rattle.kernel_values.specs.declared.entry.Entry.{Entry};
ghost use Rattle.kernel_types.specs.History.{state_after};
ghost use Rattle.kernel_types.specs.Opening.{opening};
ghost use Rattle.bridge_laws.specs.Bridged.{NamesItsEntries};

/// In every history from an opening state the bridge names exactly the ends of the device's entries, each once: a connection
/// of the normal world names its end from its request until it is left, refused or broken, and nothing else does.
pub fn bridges_name_their_entries()
    ensures { (scene : SceneValue) (entries : List Entry) → NamesItsEntries (state_after (opening scene) entries) }
{}
