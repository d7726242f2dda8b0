// What commands and versions are, whatever the journal.
ghost use Rattle.std.specs.Prelude.{◌≡◌, ◌≤◌, ◌∷◌, ◌++◌, [], ℕ, List, Ok};
ghost use Rattle.std.specs.List.{All};
ghost use Rattle.gl_fields.specs.declared.entry.Entry.{Entry};
ghost use Rattle.gl_fields.specs.declared.entry.Entry.TheVariants.{Admin, Message as Payload};
ghost use Rattle.gl_fields.specs.declared.entry.Message.{Message};
ghost use Rattle.gl_fields.specs.Entries.{version_after};
ghost use Rattle.gl_streams.specs.declared.stream.Stream.{Stream};
ghost use Rattle.gl_commands.specs.declared.command.Command.{Command};
ghost use Rattle.gl_settings.specs.Settings.{Settings, initial_settings};
ghost use Rattle.gl_config.specs.Applying.{applied};
ghost use Rattle.gl_history.specs.Versions.{config_at, AreAccepted};
ghost use Rattle.gl_history.specs.History.{Kept, Remembers};
ghost use Rattle.gl_history.specs.Lawful.{IsSettings};

use gl_grok::law_other_names_play_no_part;

/// Law: where each command is accepted, the configuration at a version has that version.
pub fn law_versions_are_counted()
    ensures { (journal : List Entry) (version : ℕ) → AreAccepted journal → version ≤ version_after journal → (config_at journal version).version ≡ version }
{}

/// Law: what is appended to a journal changes none of its versions.
pub fn law_versions_stay()
    ensures { (journal more : List Entry) (version : ℕ) → version ≤ version_after journal → config_at (journal ++ more) version ≡ config_at journal version }
{}

/// Law: a history remembers a journal with a message more as well.
pub fn law_messages_change_no_version()
    ensures { (kept : Kept) (journal : List Entry) (from : ℕ) (message : Message) → Remembers kept journal from → Remembers kept (journal ++ Payload message ∷ []) from }
{}

/// Law: the configuration of a new store is lawful, and so is what a command makes of a lawful one.
pub fn law_settings_stay()
    ensures begin { IsSettings initial_settings }
    ensures stay { (c next : Settings) (command : Command) → IsSettings c → applied c command ≡ Ok next → IsSettings next }
{
    law_other_names_play_no_part();
}

/// Law: each configuration of a journal is lawful.
pub fn law_configurations_are_lawful()
    ensures { (journal : List Entry) (version : ℕ) → IsSettings (config_at journal version) }
{
    law_other_names_play_no_part();
}

/// Law: the ids of a lawful configuration's streams are at most 128.
pub fn law_stream_ids_are_few()
    ensures { (c : Settings) → IsSettings c → All (λ (stream : Stream). stream.id ≤ 128) c.streams }
{}
