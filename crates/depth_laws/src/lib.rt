//! A law of how deep sets may stand in one another: when a membership is refused for it.
#![tactic(auto)]

ghost use Rattle.std.specs.Prelude.{◌≡◌, ℕ};
ghost use Rattle.kernel_values.specs.declared.errno.Errno.TheVariants as errno;
ghost use Rattle.kernel_values.specs.declared.flags.Events.{Events};
ghost use Rattle.kernel_values.specs.declared.reply.Answer.TheVariants as answer;
ghost use Rattle.kernel_values.specs.declared.state.CoreState.{CoreState};
ghost use Rattle.kernel_laws.specs.Numbers.{RisesFrom};
ghost use Rattle.kernel_types.specs.Sets.{set_add};
ghost use Rattle.depth_laws.specs.LongChains.{MakesLongChain};

/// RECURSE_TOO_DEEP comes only where the membership would make a chain of more than 8 sets: where `add`
/// answers it, and the objects stand in rising order of their numbers, as they do in every history, such a
/// chain is there once the set has the member.
pub fn too_deep_is_a_long_chain()
    ensures { (c : CoreState) (app set handle : ℕ) (mask : Events) (cookie : ℕ) → RisesFrom 0 c.objects c.next → (set_add c app set handle mask cookie).answer ≡ answer.Refuses errno.RecurseTooDeep
        → MakesLongChain c app set handle mask cookie }
{}
