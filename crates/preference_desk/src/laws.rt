//! What holds of a desk, shared or not: each call here does nothing, and its contract is a law.
ghost use Rattle.preference_desk.specs.RefusedCommands.{DoneCommandsAreEnough, RefusedCommandsChangeNothing};
ghost use Rattle.preference_desk.specs.Shared.{StepsAreEntriesLaw};

/// The steps of a legal history of the desk, with seat n read as session n + 1, are the entries
/// that it added to the journal. They are a legal journal from the state before them, and the state
/// is the one after them.
pub fn steps_are_entries()
    ensures { StepsAreEntriesLaw }
{}

/// A refused command, one whose reply is not `Done`, changes nothing.
pub fn refused_commands_change_nothing()
    ensures { RefusedCommandsChangeNothing }
{}

/// The commands of a legal journal that were carried out make a legal journal by themselves, and
/// what the students want after it is what they want after the whole journal.
pub fn done_commands_are_enough()
    ensures { DoneCommandsAreEnough }
{}
