//! That the command is complete, stated on a function that does nothing.

ghost use Rattle.com_commands.specs.Responses.{RespondsWhole};
ghost use Rattle.com_command_migrate.specs.Migrating.{IsMigrated, migrating};

/// Where the input is told and no count of faults rises, `migrate` answers it whole; or want of memory comes.
pub fn migrate_completeness()
    ensures { RespondsWhole migrating IsMigrated }
{}
