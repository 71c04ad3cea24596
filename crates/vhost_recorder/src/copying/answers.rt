//! Copies of answers, for which there is room beforehand.

ghost use Rattle.std.specs.Prelude.{◌≡◌, ◌≤◌, [], IfOk, length, vec_len, vec_capacity};
ghost use Rattle.vhost_frontend_core.specs.Values.{answer_of, call_of};
ghost use Rattle.vhost_joined.specs.Lists.{regions_in, buffer_in, records_for};
ghost use Rattle.vhost_recorder.specs.Room.{HasRoomFor, Holds, places_in};

use crate::copying::errors::copy_error;
use std::alloc::{AllocError, Global};
use vhost_joined::{FrontendAnswer, FrontendCall};
use vhost_message::VhostUserShMemConfig;

/// Room for one answer: its lists, and the regions of shared memory.
#[derive(Drop)]
pub struct Room {
    bases: Vec<u64>,
    bytes: Vec<u8>,
    place: Option<Box<VhostUserShMemConfig>>,
}

impl Room {
    /// Room for whatever the call may answer.
    pub fn new(alloc: Global, call: &FrontendCall) -> Result<Room, AllocError>
        ensures { IfOk result (λ room. HasRoomFor room (call_of call.now)) }
    {
        let bases = Vec::with_capacity(alloc, bases_of_call(call))?;
        let bytes = Vec::with_capacity(alloc, bytes_of_call(call))?;
        let place = place_of_call(alloc, call)?;
        Ok(Room {
            bases,
            bytes,
            place,
        })
    }
}

/// How many bases the call may answer.
fn bases_of_call(call: &FrontendCall) -> usize
    ensures { result ≡ regions_in (call_of call.now) }
{
    match call {
        FrontendCall::SetMemTable(regions) => regions.len(),
        _ => 0,
    }
}

/// How many bytes the call may answer.
fn bytes_of_call(call: &FrontendCall) -> usize
    ensures { result ≡ buffer_in (call_of call.now) }
{
    match call {
        FrontendCall::GetConfig(_, _, _, buffer) => buffer.len(),
        _ => 0,
    }
}

/// A place for the regions of shared memory, where the call asks for them.
fn place_of_call(
    alloc: Global,
    call: &FrontendCall,
) -> Result<Option<Box<VhostUserShMemConfig>>, AllocError>
    ensures { IfOk result (λ place. records_for (call_of call.now) ≤ places_in place) }
{
    match call {
        FrontendCall::GetShmemConfig => match Box::new(alloc, VhostUserShMemConfig::default()) {
            Ok(place) => Ok(Some(place)),
            Err(_) => Err(AllocError),
        },
        _ => Ok(None),
    }
}

/// The same regions, in their place.
fn placed(
    place: Option<Box<VhostUserShMemConfig>>,
    config: &VhostUserShMemConfig,
) -> Box<VhostUserShMemConfig>
    requires { 1 ≤ places_in place }
    ensures { result.value ≡ config.now }
{
    match place {
        Some(mut place) => {
            *place = *config;
            place
        }
        None => unreachable!(),
    }
}

/// The same items, in a list that has room for them.
fn filled<T: Copy + Drop>(room: Vec<T>, items: &[T]) -> Vec<T>
    requires empty { (vec_len room ≡ 0) × (room.items ≡ []) }
    requires room { length items.now ≤ vec_capacity room }
    ensures { result.items ≡ items.now }
{
    let mut list = room;
    let _fits = list.extend_from_slice(items);
    list
}

/// The same answer, with what it needs of the room.
pub fn copy_answer(answer: &FrontendAnswer, room: Room) -> FrontendAnswer
    requires { Holds room (answer_of answer.now) }
    ensures { answer_of result ≡ answer_of answer.now }
{
    match answer {
        FrontendAnswer::Failed(error) => FrontendAnswer::Failed(copy_error(error)),
        FrontendAnswer::Done => FrontendAnswer::Done,
        FrontendAnswer::Number(number) => FrontendAnswer::Number(*number),
        FrontendAnswer::Bases(None) => FrontendAnswer::Bases(None),
        FrontendAnswer::Bases(Some(bases)) => {
            FrontendAnswer::Bases(Some(filled(room.bases, bases)))
        }
        FrontendAnswer::Base(base) => FrontendAnswer::Base(*base),
        FrontendAnswer::Config(part, bytes) => {
            FrontendAnswer::Config(*part, filled(room.bytes, bytes))
        }
        FrontendAnswer::Handle(handle) => FrontendAnswer::Handle(*handle),
        FrontendAnswer::Inflight(area, handle) => FrontendAnswer::Inflight(*area, *handle),
        FrontendAnswer::StateHandle(handle) => FrontendAnswer::StateHandle(*handle),
        FrontendAnswer::ShmemConfig(config) => {
            FrontendAnswer::ShmemConfig(placed(room.place, config))
        }
    }
}
