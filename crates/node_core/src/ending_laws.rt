//! How a client's connection and a dial end, each law as the contract of a function that does nothing.
ghost use Rattle.node_core.specs.EndingLaws.{LastLines, LeavesOpenAlone, LetsClosedGo, OverByRefusals};

use vb_calls::{Journals, VbAccess};

/// A client whose session is closed by its bytes, or by what became of its durable write, is let go:
/// its key has no connection any more, and a connection of a closed session is never kept. Any other
/// stays under its key.
pub fn closed_sessions_are_let_go<A: VbAccess, J: Journals>()
    ensures node { LetsClosedGo A J A.step }
    ensures alone { LeavesOpenAlone }
{}

/// Why a dial is over, by what was refused: a failover log or a message that the vBucket does not take,
/// a rollback that it refuses, a vBucket that does not follow any more, and bytes that begin no frame
/// are no part of the protocol; a rollback that could not be read or written down is the disk's. What
/// is taken ends no dial.
pub fn refusals_end_dials()
    ensures reasons { OverByRefusals }
    ensures lines { LastLines }
{}
