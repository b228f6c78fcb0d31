//! What the process's number means.
ghost use Rattle.dcp_io.specs.Moves.{Intake, Outlet};
ghost use Rattle.dcp_io.specs.Statuses.{exit_code};
ghost use Rattle.dcp_io.specs.declared.status.Status.{Status};
ghost use Rattle.transcript_back.specs.Backs.{Went};
ghost use Rattle.transcript_back.specs.Exits.{Tells};

/// The number of a status tells what was read and written.
pub fn exits_in_numbers()
    ensures { (old new : Intake) (before after : Outlet) (answer : Status)
        → Went old new before after answer → Tells (exit_code answer) old new before after }
{}
