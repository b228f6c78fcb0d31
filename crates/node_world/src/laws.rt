//! What holds of every line of a script. Each law is a function with no work to do.
ghost use Rattle.std.specs.Prelude.{ℕ, ◌≡◌};
ghost use Rattle.{node_world.specs.Causes.{CausesInOrder}, node_world.specs.OwnLinks.{RolesCutLinks}, node_world.specs.Worlds.{PlainWorld}};
ghost use Rattle.{node_world.specs.Power.{numbers}, node_world.specs.declared.script_node.TheConstants.{MAX_CLIENTS}};
ghost use Rattle.{node_world.specs.Stops.{StartsAtZero, StopsInOrder}, vb_disk.specs.declared.made.Outcome.{Outcome as OutcomeData}};
ghost use Rattle.{node_world.specs.Nodes.{PlainNode}, node_world.specs.Posting.{GoesToWhoAwaits}, vb_calls.specs.declared.calls.Resolved.{Resolved}};

/// For each verb the causes to refuse its line, one after the other: each where the ones before it do
/// not hold. A line that none of them refuses is not refused.
pub fn causes_in_order()
    ensures { (w : PlainWorld) → CausesInOrder w }
{}

/// What became of a durable write is told to the connection that awaits it, as the first line, and to
/// nobody where none does. Other connections stay.
pub fn outcomes_go_to_who_awaits()
    ensures { (r : Resolved) (node : PlainNode) → GoesToWhoAwaits r node }
{}

/// A vBucket that gets another role is fed by no link: the first line tells that it was cut.
pub fn roles_cut_links()
    ensures { (w : PlainWorld) (n v : ℕ) → RolesCutLinks w n v }
{}

/// A node that stops, by a crash or inside a device call, tells the ends of its links and then those
/// of its client connections, each by rising numbers. It has no vBucket and no connection in
/// memory then, and its clock shows 0, also when it starts.
pub fn stops_are_told_in_order()
    ensures lines { (w : PlainWorld) (n : ℕ) (out : OutcomeData) → StopsInOrder w n out }
    ensures starts { (n : ℕ) (node : PlainNode) → StartsAtZero n node }
{}

/// The numbers of client connections and of links are below 1,000.
pub fn world_limits()
    ensures clients { MAX_CLIENTS ≡ 1000 }
    ensures links { numbers ≡ 1000 }
{}
