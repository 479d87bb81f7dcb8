//! What an end works with.

ghost use Rattle.std.specs.Prelude.{◌≡◌, ◌≤◌, ◌^◌, ◌∷◌, [], length, OnOk};
ghost use Rattle.ppp_party.specs.Counted.{AllCounted, IsCounted};
ghost use Rattle.ppp_party.specs.Frame.{marked_frames, noted_frames};
ghost use Rattle.ppp_party.specs.Party.{each_noted, each_queued, queued, room, AreRoomy};
ghost use Rattle.ppp_party.specs.Reader.{IsOpen};
ghost use Rattle.ppp_trunk.specs.Moves.{AreLinked, IsLinked};
ghost use Rattle.ppp_trunk.specs.StationOut.{entry_seen};
ghost use Rattle.ppp_trunk.specs.declared.station_out.TheConstants.{MOST_ENTRIES};

use crate::about::About;
use crate::bap_kind::lent_bap_kind;
use crate::carried::lent_carried;
use crate::ledgers::Ledgers;
use crate::queue::Queue;
use crate::reader::{make_reader, read};
use ppp_frame::Deframer;
use ppp_memory::Memory;
use ppp_station::{StationEntry, StationOut};
use std::alloc::Global;

/// What one end at a time works with: the list that its station fills, and the reader of what goes out. It takes the memory
/// for all that it holds later.
#[derive(Drop)]
pub struct Desk {
    pub(crate) out: StationOut,
    pub(crate) reader: Deframer,
    pub(crate) ghost open: { IsOpen reader },
}

impl Desk {
    /// A desk with nothing on it.
    pub fn new(alloc: Global) -> Result<Desk, Memory> {
        Ok(Desk {
            out: StationOut::new(alloc)?,
            reader: make_reader(alloc)?,
        })
    }
}

/// Notes the frames of a list, each in the ledgers of its link, and puts them into the link's queue, behind a frame of that mark.
pub(crate) fn post(
    out: &StationOut,
    reader: &mut Deframer,
    mark: u64,
    ledgers: &mut Vec<Ledgers>,
    incoming: &mut Vec<Queue>,
) -> Result<(), Memory>
    requires reader { IsOpen reader.old }
    requires few { length out.now.entries ≤ MOST_ENTRIES }
    requires linked { AreLinked (length ledgers.old.items) out.now.entries }
    requires alike { length incoming.old.items ≡ length ledgers.old.items }
    requires counted { AllCounted (2 ^ 62) ledgers.old.items }
    requires queues { AreRoomy incoming.old.items }
    ensures reader { IsOpen reader.new }
    ensures ledgers { OnOk result (ledgers.new.items ≡ each_noted 1 out.now.entries ledgers.old.items) }
    ensures incoming { OnOk result (incoming.new.items
        ≡ each_queued 1 mark out.now.entries ledgers.old.items incoming.old.items) }
    ensures few { AreRoomy incoming.new.items }
    ensures count { length ledgers.new.items ≡ length ledgers.old.items }
    ensures queues { length incoming.new.items ≡ length incoming.old.items }
{
    for i in 0..out.count() {
        post_entry(out.at(i), reader, mark, ledgers, incoming)?;
    }
    Ok(())
}

/// Notes an entry and puts it into a queue, if it is a frame that goes out.
fn post_entry(
    entry: StationEntry<'_>,
    reader: &mut Deframer,
    mark: u64,
    ledgers: &mut Vec<Ledgers>,
    incoming: &mut Vec<Queue>,
) -> Result<(), Memory>
    requires reader { IsOpen reader.old }
    requires linked { IsLinked (length ledgers.old.items) (entry_seen entry) }
    requires alike { length incoming.old.items ≡ length ledgers.old.items }
    requires counted { AllCounted (2 ^ 63) ledgers.old.items }
    requires queues { AreRoomy incoming.old.items }
    ensures reader { IsOpen reader.new }
    ensures ledgers { OnOk result (ledgers.new.items ≡ each_noted 1 (entry_seen entry.entry ∷ []) ledgers.old.items) }
    ensures incoming { OnOk result (incoming.new.items
        ≡ each_queued 1 mark (entry_seen entry.entry ∷ []) ledgers.old.items incoming.old.items) }
    ensures few { AreRoomy incoming.new.items }
    ensures count { length ledgers.new.items ≡ length ledgers.old.items }
    ensures queues { length incoming.new.items ≡ length incoming.old.items }
{
    let StationEntry::Push { link, octets } = entry else {
        return Ok(());
    };
    let i = usize::from(link) - 1;
    post_frame(octets, reader, mark, &mut ledgers[i], &mut incoming[i])
}

/// Notes a frame and puts it into a queue.
pub(crate) fn post_frame(
    octets: &[u8],
    reader: &mut Deframer,
    mark: u64,
    ledgers: &mut Ledgers,
    queue: &mut Queue,
) -> Result<(), Memory>
    requires reader { IsOpen reader.old }
    requires counted { IsCounted (2 ^ 63) ledgers.old }
    requires queue { length queue.old ≤ room }
    ensures reader { IsOpen reader.new }
    ensures ledgers { OnOk result (ledgers.new ≡ noted_frames ledgers.old (octets.now ∷ [])) }
    ensures queue { OnOk result (queue.new ≡ queued queue.old (marked_frames ledgers.old mark (octets.now ∷ []))) }
    ensures few { length queue.new ≤ room }
{
    read(reader, octets);
    let carried = lent_carried(reader);
    let mark = ledgers.post(mark, &carried)?;
    queue.send(mark, About::of(&carried), lent_bap_kind(reader), octets)
}
