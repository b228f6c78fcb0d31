//! A node that is loaded from its disks.
ghost use Rattle.std.specs.Prelude.{◌≡◌, ◌≤◌, ◌+◌, ◌++◌, ◌∷◌, [], filter, length, map, not, is_some, reverse, take, zip, IfOk, IfErr, IfSome, OnOk};
ghost use Rattle.std.specs.VecDeque.{deque_len, deque_capacity};
ghost use Rattle.branch_model.specs.Logs.{log_limit};
ghost use Rattle.disk_journals.specs.{Devices.{device}, Opening.{book_of, disk_of, seen_opened}};
ghost use Rattle.journal_points.specs.Points.{saved as saved_by};
ghost use Rattle.node_core.specs.{Loading.{active_in, active_ones, are_short, is_there, loaded_states, starts_of, was_active, with_loaded}, Loads.{FailsBy, IsBare, Loads}};
ghost use Rattle.{vb_calls.specs.State.{is_active}, vb_calls.specs.States.{States}, vbucket.specs.Stands.{SlotsStand}};

use crate::{Alloc, Node};
use disk_journals::{DiskJournals, Disks, OpenCause, OpenJournal, close_journals, open_journals};
use journal_points::{Saved, state};
use std::alloc::Global;
use std::collections::VecDeque;
use vb_disk::Disk;
use vb_journal::MAX_LOG;
use vb_types::{Listed, LogEntry, Record, Role};
use vbucket::{VBucket, VbMap};

/// Why a node was not loaded. All its disks are handed back, in their order.
#[derive(Drop)]
pub enum LoadFault<D> {
    /// Memory was short.
    NoMemory { disks: Disks<D> },
    /// A disk failed.
    DiskFailed { disks: Disks<D> },
    /// The bytes of a disk from the gate at this place on are no journal's.
    Damaged { place: u64, disks: Disks<D> },
    /// There are fewer ids of new branches than vBuckets that were active.
    IdsShort { disks: Disks<D> },
}

/// A node that was loaded; its vBuckets that are to take new branches, in their order, each with the
/// id of its branch; and of how many disks a record stands.
#[derive(Drop)]
pub struct Loaded<D: Disk> {
    pub node: Node<VbMap, DiskJournals<D>>,
    pub starts: Vec<(u16, u64)>,
    pub made: usize,
}

/// The first entries of a log, as many as a vBucket keeps.
fn first_entries(alloc: Global, log: &[LogEntry]) -> Alloc<Listed<LogEntry>>
    ensures log { IfOk result (λ list. list ≡ take log_limit log.now) }
    ensures short { IfOk result (λ list. length list ≤ log_limit) }
{
    let mut kept = Vec::from_slice(alloc, log)?;
    kept.truncate(MAX_LOG);
    Ok(Listed::from_vec(kept))
}

/// What a vBucket starts with.
fn saved_of(alloc: Global, records: &[Record]) -> Alloc<Saved>
    ensures told { IfOk result (λ s. s ≡ record (saved_by (reverse records.now)) { log = take log_limit (saved_by (reverse records.now)).log }) }
    ensures short { IfOk result (λ s. length s.log ≤ log_limit) }
{
    let mut told = state(alloc, records)?;
    told.log = first_entries(alloc, told.log.as_slice())?;
    Ok(told)
}

/// Whether it is active.
fn is_active(role: Role) -> bool
    ensures { result ≡ is_active role }
{
    matches!(role, Role::Active)
}

/// Loads a vBucket of these records, unless none stands or there is one of its number; and whether
/// its last role was active.
fn load_vb(alloc: Global, node: u8, v: u16, records: &[Record], vbs: &mut VbMap) -> Alloc<bool>
    ensures active { IfOk result (λ active. active ≡ was_active (v, reverse records.now)) }
    ensures stand { OnOk result ((states : States) → SlotsStand vbs.old states → SlotsStand vbs.new (with_loaded node states v (reverse records.now))) }
{
    if records.is_empty() {
        return Ok(false);
    }
    let told = saved_of(alloc, records)?;
    let active = is_active(told.role);
    if vbs.has(v) {
        return Ok(active);
    }
    let vb = VBucket::load(alloc, node, &told)?;
    vbs.add(v, vb)?;
    Ok(active)
}

/// Loads the vBucket of one more journal, and adds its number where it was active.
fn load_next<D: Disk>(
    alloc: Global,
    node: u8,
    journal: &OpenJournal<D>,
    vbs: &mut VbMap,
    active: &mut Vec<u16>,
) -> Alloc<()>
    ensures active { OnOk result (active.new.items ≡ active.old.items ++ active_in (book_of journal.now)) }
    ensures stand { OnOk result ((states : States) → SlotsStand vbs.old states → SlotsStand vbs.new (with_loaded node states journal.now.number (reverse journal.now.records))) }
{
    if load_vb(alloc, node, journal.number, journal.records.as_slice(), vbs)? {
        active.push(journal.number)?;
    }
    Ok(())
}

/// The vBuckets of journals that were opened, and the numbers of those that were active.
fn load_vbs<D: Disk>(
    alloc: Global,
    node: u8,
    opened: &VecDeque<OpenJournal<D>>,
) -> Alloc<(VbMap, Vec<u16>)>
    ensures stand { IfOk result (λ loaded. SlotsStand loaded.0 (loaded_states node (map book_of opened.now.items))) }
    ensures active { IfOk result (λ loaded. loaded.1.items ≡ active_ones (map book_of opened.now.items)) }
{
    let mut vbs = VbMap::new(alloc);
    let mut active = Vec::new(alloc);
    for at in 0..opened.len() {
        load_next(alloc, node, &opened[at], &mut vbs, &mut active)?;
    }
    Ok((vbs, active))
}

/// Each of these with its id, as many as there are of both.
fn starts_of(alloc: Global, active: &[u16], ids: &[u64]) -> Alloc<Vec<(u16, u64)>>
    ensures { IfOk result (λ starts. starts.items ≡ zip active.now ids.now) }
{
    active
        .iter()
        .copied()
        .zip(ids.iter().copied())
        .collect(alloc)
}

/// One where a record stands, and none where none does.
fn made_by<D: Disk>(journal: &OpenJournal<D>) -> usize
    ensures number { result ≡ length (filter is_there (book_of journal.now ∷ [])) }
    ensures few { result ≤ 1 }
{
    if journal.records.as_slice().is_empty() {
        0
    } else {
        1
    }
}

/// On how many of these disks a record stands.
fn count_made<D: Disk>(opened: &VecDeque<OpenJournal<D>>) -> usize
    ensures { result ≡ length (filter is_there (map book_of opened.now.items)) }
{
    let mut made = 0;
    for at in 0..opened.len() {
        made += made_by(&opened[at]);
    }
    made
}

/// What was read of a node's disks: its vBuckets, those that are to take new branches, with their
/// ids, and of how many disks a record stands.
#[derive(Drop)]
struct ReadVbs {
    vbs: VbMap,
    starts: Vec<(u16, u64)>,
    made: usize,
}

/// Loads the vBuckets of journals that were opened; none where there are too few ids.
fn read_vbs<D: Disk>(
    alloc: Global,
    node: u8,
    opened: &VecDeque<OpenJournal<D>>,
    ids: &[u64],
) -> Alloc<Option<ReadVbs>>
    ensures short { IfOk result (λ read. is_some read ≡ not (are_short (map book_of opened.now.items) ids.now)) }
    ensures stand { IfOk result (λ read. IfSome read (λ r. SlotsStand r.vbs (loaded_states node (map book_of opened.now.items)))) }
    ensures starts { IfOk result (λ read. IfSome read (λ r. r.starts.items ≡ starts_of (map book_of opened.now.items) ids.now)) }
    ensures made { IfOk result (λ read. IfSome read (λ r. r.made ≡ length (filter is_there (map book_of opened.now.items)))) }
{
    let (vbs, active) = load_vbs(alloc, node, opened)?;
    if ids.len() < active.len() {
        return Ok(None);
    }
    let starts = starts_of(alloc, &active, ids)?;
    let made = count_made(opened);
    Ok(Some(ReadVbs { vbs, starts, made }))
}

/// Ends journals that were opened, and hands their disks back. `room` is what these were taken out of.
fn closed<D: Disk + Drop>(opened: VecDeque<OpenJournal<D>>, mut room: Disks<D>) -> Disks<D>
    requires none { room.items ≡ [] }
    requires room { deque_len opened + deque_len room ≤ deque_capacity room }
    ensures { result.items ≡ map disk_of opened.items }
{
    close_journals(opened, &mut room);
    room
}

impl<A, J: Drop> Node<A, J> {
    /// Ends the node, and gives the vBuckets that it reached.
    pub fn into_vbs(self) -> A
        ensures { result ≡ self.vbs }
    {
        self.vbs
    }
}

impl<A: Drop, J> Node<A, J> {
    /// Ends the node, and gives its journals.
    pub fn into_journals(self) -> J
        ensures { result ≡ self.disks }
    {
        self.disks
    }
}

impl<D: Disk + Drop> Node<VbMap, DiskJournals<D>> {
    /// Loads a node from its disks: opens their journals in their order, and makes a vBucket of each
    /// of which a record stands. One that was active is dead until it starts, and takes the next of
    /// the ids. Where the node is not loaded, all
    /// disks are handed back.
    pub fn load(
        alloc: Global,
        number: u8,
        mut disks: Disks<D>,
        ids: &[u64],
    ) -> Result<Loaded<D>, LoadFault<D>>
        ensures ok { IfOk result (λ loaded. Loads (device D.storage D.crashes D.armed D.left_by) number disks.items ids.now loaded) }
        ensures err { IfErr result (λ fault. FailsBy (device D.storage D.crashes D.armed D.left_by) disks.items ids.now fault) }
    {
        let opened = match open_journals(alloc, &mut disks) {
            Ok(opened) => opened,
            Err(OpenCause::NoMemory) => return Err(LoadFault::NoMemory { disks }),
            Err(OpenCause::DiskFailed) => return Err(LoadFault::DiskFailed { disks }),
            Err(OpenCause::Damaged { place }) => return Err(LoadFault::Damaged { place, disks }),
        };
        let read = match read_vbs(alloc, number, &opened, ids) {
            Ok(Some(read)) => read,
            Ok(None) => {
                let disks = closed(opened, disks);
                return Err(LoadFault::IdsShort { disks });
            }
            Err(_) => {
                let disks = closed(opened, disks);
                return Err(LoadFault::NoMemory { disks });
            }
        };
        match Self::over_read(alloc, number, read, opened, disks) {
            Ok(loaded) => Ok(loaded),
            Err(disks) => Err(LoadFault::NoMemory { disks }),
        }
    }

    /// A node over what was read. Where memory is short, the disks are handed back.
    fn over_read(
        alloc: Global,
        number: u8,
        read: ReadVbs,
        opened: VecDeque<OpenJournal<D>>,
        room: Disks<D>,
    ) -> Result<Loaded<D>, Disks<D>>
        requires none { room.items ≡ [] }
        requires room { deque_len opened + deque_len room ≤ deque_capacity room }
        ensures vbs { IfOk result (λ loaded. loaded.node.vbs ≡ read.vbs) }
        ensures starts { IfOk result (λ loaded. loaded.starts.items ≡ read.starts.items) }
        ensures made { IfOk result (λ loaded. loaded.made ≡ read.made) }
        ensures bare { IfOk result (λ loaded. IsBare number (map seen_opened opened.items) loaded.node) }
        ensures err { IfErr result (λ disks. disks.items ≡ map disk_of opened.items) }
    {
        let ReadVbs { vbs, starts, made } = read;
        match DiskJournals::opened(alloc, opened, room) {
            Ok(journals) => {
                let node = Node::over(alloc, number, vbs, journals);
                Ok(Loaded { node, starts, made })
            }
            Err((opened, disks)) => Err(closed(opened, disks)),
        }
    }
}
