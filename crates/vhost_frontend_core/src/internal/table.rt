//! The memory table: what is sent, and what is received for it.

ghost use Rattle.std.specs.Prelude.{◌≡◌, ◌≤◌, ◌*◌, List, IfOk, length, map, take};
ghost use Rattle.vhost_message.specs.declared.limits.TheConstants.{MAX_ATTACHED_FD_ENTRIES, MAX_MEM_REGIONS, MEMORY_REGION_SIZE};
ghost use Rattle.vhost_message.specs.MsgHeader.{fields_of};
ghost use Rattle.vhost_message.specs.declared.heard_req.HeardReq.TheVariants.{SET_MEM_TABLE};
ghost use Rattle.vhost_protocol.specs.Ask as ask;
ghost use Rattle.vhost_protocol.specs.declared.asked.Awaited.TheVariants.{Nobody, Reply};
ghost use Rattle.vhost_protocol.specs.declared.asked.Shape.TheVariants as shape;
ghost use Rattle.vhost_protocol.specs.FrontendCall as call;
ghost use Rattle.vhost_protocol.specs.Written as payload;
ghost use Rattle.vhost_frontend_core.specs.Kept.{KeepsTable, IsKeptFor};
ghost use Rattle.vhost_frontend_core.specs.Regions.{table_in, bases_seen};

use crate::asked::{Kept, KeptTable, Sent};
use crate::internal::{FrontendInternal, Header};
use crate::regions::{Regions, bases_of, first_handle, handles_of, table_of};
use vhost_link::Link;
use vhost_message::{
    Error, HeardReq, MAX_MEM_REGIONS, MEMORY_HEAD_SIZE, MEMORY_REGION_SIZE, Result,
    VhostUserMemory, VhostUserMemoryRegion, put_regions,
};
use vhost_protocol::{Awaited, Shape};

impl<L: Link> FrontendInternal<L> {
    ghost use Rattle.vhost_connection.specs.Asking.{request_with};
    ghost use Rattle.vhost_frontend_core.specs.Asking.{AsksWithRoom, Tries};
    ghost use Rattle.vhost_frontend_core.specs.Frontend.{endpoint_of, session_of, awaits};
    ghost use Rattle.vhost_frontend_core.specs.Taking.{IsAck, RecvsTable};
    ghost use Rattle.vhost_frontend_core.specs.Halves.{AsksHalfWithRoom, TakesHalf};

    /// Gives the backend the guest's memory.
    pub(crate) fn ask_table(&mut self, regions: &Regions<'_, L::Handle>) -> Result<Sent>
        ensures asked { AsksHalfWithRoom L.event (call.SetMemTable (table_in regions.now)) self.old result self.new }
        ensures kept { IfOk result (λ sent. IsKeptFor {H = L.Handle} (call.SetMemTable (table_in regions.now)) sent.awaited sent.kept) }
    {
        let first = first_handle(regions)?;
        let count = regions.len();
        let table = table_of(regions);
        let handles = handles_of(regions, first);
        if self.session.is_listening() {
            return self.ask_bases(table, count, &handles[..count]);
        }
        let (flags, awaited) = (self.session.flags(), self.session.acknowledgement());
        self.send_table((flags, awaited), &table[..count], &handles[..count])
    }

    /// The same while postcopy listens, of the first `count` regions of a table.
    fn ask_bases(
        &mut self,
        table: [VhostUserMemoryRegion; MAX_MEM_REGIONS],
        count: usize,
        handles: &[&L::Handle],
    ) -> Result<Sent>
        requires few { count ≤ MAX_MEM_REGIONS }
        requires handles { length handles.now ≤ MAX_ATTACHED_FD_ENTRIES }
        ensures asked { AsksWithRoom L.event (ask.asks_unacknowledged (session_of self.old) SET_MEM_TABLE (payload.Regions (take count table)) (map (λ h. h.now) handles.now) shape.Memory) (endpoint_of self.old) (session_of self.old) (awaits self.old) result (endpoint_of self.new) (session_of self.new) (awaits self.new) }
        ensures kept { IfOk result (λ sent. KeepsTable (take count table) sent.kept) }
    {
        let Ok(bases) = Vec::with_capacity(self.alloc, count) else {
            return Err(Error::OutOfMemory);
        };
        let Ok(regions) = Vec::from_slice(self.alloc, &table[..count]) else {
            return Err(Error::OutOfMemory);
        };
        let request = (
            self.session.unacknowledged_flags(),
            Awaited::Reply(Shape::Memory),
        );
        match self.send_table(request, &table[..count], handles) {
            Ok(mut sent) => {
                sent.kept = Kept::Table(KeptTable {
                    regions,
                    count,
                    bases,
                });
                Ok(sent)
            }
            Err(error) => Err(error),
        }
    }

    /// Sends a table with these flags, and the descriptors of its regions.
    fn send_table(
        &mut self,
        request: (u32, Awaited),
        regions: &[VhostUserMemoryRegion],
        handles: &[&L::Handle],
    ) -> Result<Sent>
        requires few { length regions.now ≤ MAX_MEM_REGIONS }
        requires handles { length handles.now ≤ MAX_ATTACHED_FD_ENTRIES }
        ensures session { session_of self.new ≡ session_of self.old }
        ensures sent { Tries L.event (request_with request.0 SET_MEM_TABLE (payload.Regions regions.now) (map (λ h. h.now) handles.now)) request.1 (endpoint_of self.old) (awaits self.old) result (endpoint_of self.new) (awaits self.new) }
    {
        let (flags, awaited) = request;
        let mut text = [0; MEMORY_REGION_SIZE * MAX_MEM_REGIONS];
        let payload = &mut text[..];
        let payload = &mut payload[..MEMORY_REGION_SIZE * regions.len()];
        put_regions(regions, payload);
        let head = VhostUserMemory::new(regions.len() as u32);
        let request = (HeardReq::SET_MEM_TABLE, flags, awaited);
        self.send(request, &head, payload, handles)
    }

    /// Receives the acknowledgement, where there is one; or where each region is mapped.
    pub fn take_set_mem_table(&mut self, sent: Sent) -> Result<Option<Vec<u64>>>
        ensures mapped { (infos : List (call.Info L.Handle)) → IsKeptFor {H = L.Handle} (call.SetMemTable infos) (Reply shape.Memory) sent.kept → sent.awaited ≡ Reply shape.Memory
            → TakesHalf L.event (call.SetMemTable infos) (λ bases. call.Bases (bases_seen bases)) (Reply shape.Memory) sent self.old result self.new }
        ensures acked { (infos : List (call.Info L.Handle)) → IsAck sent.awaited
            → TakesHalf L.event (call.SetMemTable infos) (λ bases. call.Bases (bases_seen bases)) sent.awaited sent self.old result self.new }
        ensures quiet { awaits self.new ≡ Nobody }
    {
        match sent.awaited {
            Awaited::Reply(_) => self.take_bases(sent),
            _ => match self.take_ack(sent) {
                Ok(()) => Ok(None),
                Err(error) => Err(error),
            },
        }
    }

    /// Receives where each region is mapped.
    ///
    /// InvalidParam: the request was sent as a reply, so there is none.
    fn take_bases(&mut self, sent: Sent) -> Result<Option<Vec<u64>>>
        ensures taken { (infos : List (call.Info L.Handle)) → KeepsTable (ask.regions_in infos) sent.kept
            → TakesHalf L.event (call.SetMemTable infos) (λ bases. call.Bases (bases_seen bases)) (Reply shape.Memory) sent self.old result self.new }
        ensures quiet { awaits self.new ≡ Nobody }
    {
        self.awaited = Awaited::Nobody;
        let Sent { request, kept, .. } = sent;
        if request.is_reply() {
            return Err(Error::InvalidParam);
        }
        let Kept::Table(table) = kept else {
            return Err(Error::InvalidMessage);
        };
        let mut text = [0; MEMORY_REGION_SIZE * MAX_MEM_REGIONS];
        let room = &mut text[..];
        let room = &mut room[..MEMORY_REGION_SIZE * table.count];
        match self.recv_table(&request, table.count, room) {
            Ok(()) => match bases_of(table, room) {
                Some(bases) => Ok(Some(bases)),
                None => Err(Error::InvalidMessage),
            },
            Err(error) => Err(error),
        }
    }

    /// Receives the reply with a table of so many regions, whose wire bytes are in the buffer now.
    ///
    /// InvalidMessage: it has another number of regions, or a descriptor.
    fn recv_table(&mut self, request: &Header, count: usize, room: &mut [u8]) -> Result<()>
        requires few { count ≤ MAX_MEM_REGIONS }
        requires room { length room.old ≡ MEMORY_REGION_SIZE * count }
        ensures same { self.new ≡ record self.old { endpoint = self.new.endpoint } }
        ensures received { RecvsTable L.event (session_of self.old).profile count (endpoint_of self.old) (fields_of request.now) result room.new (endpoint_of self.new) }
    {
        let profile = self.session.profile;
        match self
            .endpoint
            .recv_reply::<VhostUserMemory>(profile, request, room)
        {
            Ok((size, head, len, handles)) => {
                if size as usize != MEMORY_HEAD_SIZE + MEMORY_REGION_SIZE * count {
                    return Err(Error::InvalidMessage);
                }
                if head.num_regions as usize != count {
                    return Err(Error::InvalidMessage);
                }
                if len != MEMORY_REGION_SIZE * count {
                    return Err(Error::InvalidMessage);
                }
                if handles.is_some() {
                    return Err(Error::InvalidMessage);
                }
                Ok(())
            }
            Err(error) => Err(error),
        }
    }
}
