//! The clients of a storm, each on a thread of its own.
ghost use Rattle.std.specs.Prelude.{◌≡◌, IfOk, OnOk, length, map};
ghost use Rattle.vb_calls.specs.declared.calls.VbCall.TheVariants.{Store};
ghost use Rattle.vb_calls.specs.declared.calls.VbReply.{VbReply as ReplyData};
ghost use Rattle.node_threads.specs.Seats.{CalledVb, row_of, rows_of};
ghost use Rattle.storm_model.specs.Writes.{all_writes};
ghost use Rattle.storm.specs.Rows.{AllTwo, AreOpened, AreStormed, HaveMore, SameTurn, gives};
ghost use Rattle.storm.specs.Clients.{AreAimed, AreClients, HasWorked, HaveFour, HaveWritten};

use crate::plan::Plan;
use crate::seats::{join_all, share_all};
use node_threads::SeatSlot;
use std::alloc::{AllocError, Global};
use std::sync::Wait;
use std::thread;
use std::thread::Threads;
use storm_model::{Aimed, Writes};
use vb_calls::VbCall;
use vb_turn::Gate;

/// What a client starts with: its number, and a seat of each vBucket.
#[derive(Drop)]
pub(crate) struct Client {
    number: u32,
    slots: Vec<SeatSlot>,
}

/// Makes a write, at the seat of its vBucket.
fn store<W: Wait, G: Gate>(
    rt: &W,
    gate: &G,
    slot: &mut SeatSlot,
    aimed: Aimed,
) -> Result<(), AllocError>
    ensures same { SameTurn (row_of slot.old) (row_of slot.new) }
    ensures ok { OnOk result ((reply : ReplyData) × CalledVb (row_of slot.old).view (Store aimed.write 0) reply (row_of slot.new).view) }
{
    let call = VbCall::Store {
        write: aimed.write,
        clock: 0,
    };
    slot.turn
        .call_gated(rt, gate, aimed.vb, &mut slot.seat, call)?;
    Ok(())
}

/// Makes all writes, in order.
fn write_all<W: Wait, G: Gate>(
    rt: &W,
    gate: &G,
    mut writes: Writes,
    slots: &mut Vec<SeatSlot>,
) -> Result<(), AllocError>
    requires aimed { AreAimed writes }
    requires four { length slots.old.items ≡ 4 }
    ensures { OnOk result (HaveWritten writes (rows_of slots.old.items) (rows_of slots.new.items)) }
{
    while let Some(aimed) = writes.next()? {
        let at = usize::from(aimed.vb);
        store(rt, gate, &mut slots[at], aimed)?;
    }
    Ok(())
}

/// A client's whole work. Its seats come back.
fn work<W: Wait, G: Gate>(
    rt: &W,
    alloc: Global,
    gate: &G,
    plan: &Plan,
    client: Client,
) -> Result<Vec<SeatSlot>, AllocError>
    requires { length client.slots.items ≡ 4 }
    ensures { IfOk result (λ slots. HaveWritten (all_writes plan.now.seed client.number plan.now.writes) (rows_of client.slots.items) (rows_of slots.items)) }
{
    let Client { number, mut slots } = client;
    let writes = Writes::new(alloc, plan.seed, number, plan.writes);
    write_all(rt, gate, writes, &mut slots)?;
    Ok(slots)
}

/// A client for each number, with seats that are cut from these.
fn clients(alloc: Global, count: u32, slots: &mut Vec<SeatSlot>) -> Result<Vec<Client>, AllocError>
    requires { HaveMore count (rows_of slots.old.items) }
    ensures rows { OnOk result (rows_of slots.new.items ≡ map (gives count) (rows_of slots.old.items)) }
    ensures clients { IfOk result (λ clients. AreClients count (rows_of slots.old.items) clients.items) }
{
    let mut clients = Vec::new(alloc);
    for number in 0..count {
        let own = share_all(alloc, slots)?;
        clients.push(Client { number, slots: own })?;
    }
    Ok(clients)
}

/// All clients' work, each on a thread of its own where one can be started. Their seats come back, client by
/// client.
#[tactic(auto, using(crate::proofs::Jobs::four_at))]
fn work_all<R: Threads + Wait + Sync, G: Gate + Sync>(
    rt: &R,
    alloc: Global,
    gate: &G,
    plan: &Plan,
    clients: Vec<Client>,
) -> Result<Vec<Result<Vec<SeatSlot>, AllocError>>, AllocError>
    requires { HaveFour clients.items }
    ensures { IfOk result (λ done. AllTwo (HasWorked plan.now) 0 clients.items done.items) }
{
    thread::map_vec(
        rt,
        clients,
        &|client: Client| -> Result<Vec<SeatSlot>, AllocError>
            requires { length client.slots.items ≡ 4 }
            ensures { HasWorked plan.entry.now 0 client result }
        { work(rt, alloc, gate, plan, client) },
    )
}

/// The clients write to these vBuckets, and their seats are taken in again. An `Err` is want of memory: then
/// seats that clients had may be gone, and with them their parts.
pub fn run_clients<R: Threads + Wait + Sync, G: Gate + Sync>(
    rt: &R,
    alloc: Global,
    gate: &G,
    plan: &Plan,
    slots: &mut Vec<SeatSlot>,
) -> Result<(), AllocError>
    requires { AreOpened (rows_of slots.old.items) }
    ensures { OnOk result (AreStormed plan.now.seed plan.now.clients plan.now.writes (rows_of slots.new.items)) }
{
    let clients = clients(alloc, plan.clients, slots)?;
    for own in work_all(rt, alloc, gate, plan, clients)? {
        join_all(slots, own?);
    }
    Ok(())
}
