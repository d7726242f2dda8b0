// Which configurations can be compiled, and that ranges of a journal become its outcomes.
ghost use Rattle.std.specs.Prelude.{◌≡◌, ◌+◌, ◌++◌, ℕ, List, Ok, map, take, drop, length};
ghost use Rattle.std.specs.List.{All};
ghost use Rattle.gl_fields.specs.declared.entry.Entry.{Entry};
ghost use Rattle.gl_commands.specs.declared.command.Command.{Command};
ghost use Rattle.gl_settings.specs.Settings.{Settings, initial_settings};
ghost use Rattle.gl_config.specs.Applying.{applied};
ghost use Rattle.gl_history.specs.Versions.{config_at};
ghost use Rattle.gl_outcome.specs.Compiling.{IsCompilable};
ghost use Rattle.gl_outcome.specs.Outcomes.{outcome_under};
ghost use Rattle.gl_process.specs.Journal.{outcomes_to, IsRecorded};

use gl_grok::law_other_names_play_no_part;

/// Law: each configuration that commands make can be compiled: that of a new store, and the next one of one that can be; so that of
/// each version of a journal.
pub fn law_configurations_compile()
    ensures begins { IsCompilable initial_settings }
    ensures stays { (c next : Settings) (command : Command) → IsCompilable c → applied c command ≡ Ok next → IsCompilable next }
    ensures always { (journal : List Entry) (version : ℕ) → IsCompilable (config_at journal version) }
{
    law_other_names_play_no_part();
}

/// Law: the outcomes up to a range of the journal whose messages are of one version, and then those of the range under the
/// configuration of that version, are the outcomes up to its end.
pub fn law_ranges_follow()
    ensures { (journal range : List Entry) (first version : ℕ) → range ≡ take (length range) (drop first journal) → All (IsRecorded version) range
        → outcomes_to journal first ++ map (outcome_under (config_at journal version)) range ≡ outcomes_to journal (first + length range) }
{}
