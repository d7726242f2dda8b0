// What texts and commands are to each other.
ghost use Rattle.std.specs.Prelude.{◌≡◌, ◌↔◌, ℕ, List, Some};
ghost use Rattle.gl_commands.specs.declared.command.Command.{Command};
ghost use Rattle.gl_commands.specs.Texts.{command_bytes, IsCommand};
ghost use Rattle.gl_commands.specs.CommandReading.{command_in};

/// Law: the command that a text keeps is the one whose own text it is, byte for byte, and each command that may be kept is
/// kept by its own text.
pub fn law_one_command()
    ensures { (text : List ℕ) (command : Command) → (command_in text ≡ Some command) ↔ ((text ≡ command_bytes command) × IsCommand command) }
{}
