//! The names of commands.
ghost use Rattle.std.specs.Prelude.{◌≡◌};
ghost use Rattle.scripts.specs.CommandNames.{command_name_of};

/// The name of a command, without its operands.
#[derive(Clone, Copy)]
pub enum CommandName {
    Create,
    Write,
    Publish,
    Downgrade,
    Get,
    Read,
    Release,
    Clear,
}

/// The command that a text names.
pub fn find_command(text: &str) -> Option<CommandName>
    ensures { result ≡ command_name_of text.now }
{
    match text {
        "create" => Some(CommandName::Create),
        "write" => Some(CommandName::Write),
        "publish" => Some(CommandName::Publish),
        "downgrade" => Some(CommandName::Downgrade),
        "get" => Some(CommandName::Get),
        "read" => Some(CommandName::Read),
        "release" => Some(CommandName::Release),
        "clear" => Some(CommandName::Clear),
        _ => None,
    }
}
