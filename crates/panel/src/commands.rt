// The commands: which values of the command register are one.
ghost use Rattle.std.specs.Prelude.{true, false, ℕ, ◌≡◌, MatchOption};
ghost use Rattle.panel.specs.Commands.{call_meant, call_named, is_command};

// The calls that a command runs; set, file and other stand in registers.
#[derive(Clone, Copy)]
pub enum Command {
    Create,
    Delete,
    Make { writeable: bool },
    Remove,
}

// "a session op 1, 4, 5, 6 or 7"
#[tactic(auto, unfolding(crate::specs::Commands::is_command, crate::specs::Commands::call_named))]
pub fn command_of(op: u8) -> Option<Command>
    ensures { MatchOption result (is_command op ≡ false) (λ k. (is_command op ≡ true) × ((s f o : ℕ) → call_meant k s f o ≡ call_named op s f o)) }
{
    match op {
        1 => Some(Command::Create),
        4 => Some(Command::Delete),
        5 => Some(Command::Make { writeable: false }),
        6 => Some(Command::Make { writeable: true }),
        7 => Some(Command::Remove),
        _ => None,
    }
}
