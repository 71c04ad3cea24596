//! The answer that was decoded last is read, by its form.

ghost use Rattle.std.specs.Prelude.{◌≡◌, ◌≢◌, IfErr};
ghost use Rattle.vhost_c.specs.Answers.{Puts, ReadsNumber, ReadsBases, ReadsConfig, ReadsFd, ReadsInflight, ReadsShmem};
ghost use Rattle.vhost_c_common.specs.ByNumber.{By};
ghost use Rattle.vhost_c_frontend.specs.Session.{Reading};

use crate::holder::Holder;
use std::alloc::Global;
use vhost_c_common::{Config, Inflight, Refusal, fd_of, number_of};
use vhost_frontend_core::FrontendAnswer;

type Outcome = Result<(), Refusal>;

/// Reads a number, or features.
#[unsafe(no_mangle)]
pub extern "C" fn covretin_answer_number(
    alloc: Global,
    session: &mut Holder,
    number: &mut u64,
) -> u32
    ensures does { By (Reading (ReadsNumber number.new)) session.old.session result session.new.session }
    ensures untouched { result ≢ 0 → number.new ≡ number.old }
{
    match session.take(alloc) {
        None => number_of(Err(Refusal::NoSession)),
        Some(held) => {
            let outcome = read_number(held.answer(), number);
            session.put(held);
            number_of(outcome)
        }
    }
}

/// Reads where regions are mapped, if the backend listens for page faults; else their count is 0.
#[unsafe(no_mangle)]
pub extern "C" fn covretin_answer_bases(
    alloc: Global,
    session: &mut Holder,
    bases: &mut [u64],
    count: &mut usize,
) -> u32
    ensures does { By (Reading (ReadsBases bases.old bases.new count.new)) session.old.session result session.new.session }
    ensures untouched { result ≢ 0 → (bases.new ≡ bases.old) × (count.new ≡ count.old) }
{
    match session.take(alloc) {
        None => number_of(Err(Refusal::NoSession)),
        Some(held) => {
            let outcome = read_bases(held.answer(), bases, count);
            session.put(held);
            number_of(outcome)
        }
    }
}

/// Reads a part of the configuration space, and its bytes.
#[unsafe(no_mangle)]
pub extern "C" fn covretin_answer_config(
    alloc: Global,
    session: &mut Holder,
    config: &mut Config,
    bytes: &mut [u8],
    count: &mut usize,
) -> u32
    ensures does { By (Reading (ReadsConfig config.new bytes.old bytes.new count.new)) session.old.session result session.new.session }
    ensures untouched { result ≢ 0 → (config.new ≡ config.old) × (bytes.new ≡ bytes.old) × (count.new ≡ count.old) }
{
    match session.take(alloc) {
        None => number_of(Err(Refusal::NoSession)),
        Some(held) => {
            let outcome = read_config(held.answer(), config, bytes, count);
            session.put(held);
            number_of(outcome)
        }
    }
}

/// Reads a file descriptor; -1 is none, where the call may do without.
#[unsafe(no_mangle)]
pub extern "C" fn covretin_answer_fd(alloc: Global, session: &mut Holder, fd: &mut i32) -> u32
    ensures does { By (Reading (ReadsFd fd.new)) session.old.session result session.new.session }
    ensures untouched { result ≢ 0 → fd.new ≡ fd.old }
{
    match session.take(alloc) {
        None => number_of(Err(Refusal::NoSession)),
        Some(held) => {
            let outcome = read_fd(held.answer(), fd);
            session.put(held);
            number_of(outcome)
        }
    }
}

/// Reads the inflight region, and the file descriptor that maps it.
#[unsafe(no_mangle)]
pub extern "C" fn covretin_answer_inflight(
    alloc: Global,
    session: &mut Holder,
    inflight: &mut Inflight,
    fd: &mut i32,
) -> u32
    ensures does { By (Reading (ReadsInflight inflight.new fd.new)) session.old.session result session.new.session }
    ensures untouched { result ≢ 0 → (inflight.new ≡ inflight.old) × (fd.new ≡ fd.old) }
{
    match session.take(alloc) {
        None => number_of(Err(Refusal::NoSession)),
        Some(held) => {
            let outcome = read_inflight(held.answer(), inflight, fd);
            session.put(held);
            number_of(outcome)
        }
    }
}

/// Reads the sizes of the regions of shared memory, in bytes, 0 where there is none; `count` is how many regions there are.
#[unsafe(no_mangle)]
pub extern "C" fn covretin_answer_shmem(
    alloc: Global,
    session: &mut Holder,
    sizes: &mut [u64],
    count: &mut usize,
) -> u32
    ensures does { By (Reading (ReadsShmem sizes.old sizes.new count.new)) session.old.session result session.new.session }
    ensures untouched { result ≢ 0 → (sizes.new ≡ sizes.old) × (count.new ≡ count.old) }
{
    match session.take(alloc) {
        None => number_of(Err(Refusal::NoSession)),
        Some(held) => {
            let outcome = read_shmem(held.answer(), sizes, count);
            session.put(held);
            number_of(outcome)
        }
    }
}

fn read_number(answer: &FrontendAnswer, number: &mut u64) -> Outcome
    ensures reads { ReadsNumber number.new answer.now result }
    ensures untouched { IfErr result (λ _. number.new ≡ number.old) }
{
    match answer {
        FrontendAnswer::Number(value) => {
            *number = *value;
            Ok(())
        }
        _ => Err(Refusal::OtherAnswer),
    }
}

fn read_bases(answer: &FrontendAnswer, places: &mut [u64], count: &mut usize) -> Outcome
    ensures reads { ReadsBases places.old places.new count.new answer.now result }
    ensures untouched { IfErr result (λ _. (places.new ≡ places.old) × (count.new ≡ count.old)) }
{
    match answer {
        FrontendAnswer::Bases(Some(bases)) => put(bases, places, count),
        FrontendAnswer::Base(Some(base)) => put(&[*base], places, count),
        FrontendAnswer::Bases(None) | FrontendAnswer::Base(None) => put(&[], places, count),
        _ => Err(Refusal::OtherAnswer),
    }
}

fn read_config(
    answer: &FrontendAnswer,
    place: &mut Config,
    room: &mut [u8],
    count: &mut usize,
) -> Outcome
    ensures reads { ReadsConfig place.new room.old room.new count.new answer.now result }
    ensures untouched { IfErr result (λ _. (place.new ≡ place.old) × (room.new ≡ room.old) × (count.new ≡ count.old)) }
{
    match answer {
        FrontendAnswer::Config(part, bytes) => {
            put(bytes, room, count)?;
            *place = Config {
                offset: part.offset,
                size: part.size,
                flags: part.flags,
            };
            Ok(())
        }
        _ => Err(Refusal::OtherAnswer),
    }
}

fn read_fd(answer: &FrontendAnswer, fd: &mut i32) -> Outcome
    ensures reads { ReadsFd fd.new answer.now result }
    ensures untouched { IfErr result (λ _. fd.new ≡ fd.old) }
{
    match answer {
        FrontendAnswer::Handle(handle) | FrontendAnswer::StateHandle(Some(handle)) => {
            *fd = fd_of(*handle);
            Ok(())
        }
        FrontendAnswer::StateHandle(None) => {
            *fd = -1;
            Ok(())
        }
        _ => Err(Refusal::OtherAnswer),
    }
}

fn read_inflight(answer: &FrontendAnswer, place: &mut Inflight, fd: &mut i32) -> Outcome
    ensures reads { ReadsInflight place.new fd.new answer.now result }
    ensures untouched { IfErr result (λ _. (place.new ≡ place.old) × (fd.new ≡ fd.old)) }
{
    match answer {
        FrontendAnswer::Inflight(data, handle) => {
            *place = Inflight::of(data);
            *fd = fd_of(*handle);
            Ok(())
        }
        _ => Err(Refusal::OtherAnswer),
    }
}

fn read_shmem(answer: &FrontendAnswer, sizes: &mut [u64], count: &mut usize) -> Outcome
    ensures reads { ReadsShmem sizes.old sizes.new count.new answer.now result }
    ensures untouched { IfErr result (λ _. (sizes.new ≡ sizes.old) × (count.new ≡ count.old)) }
{
    match answer {
        FrontendAnswer::ShmemConfig(config) => {
            put(&config.memory_sizes, sizes, count)?;
            *count = config.nregions as usize;
            Ok(())
        }
        _ => Err(Refusal::OtherAnswer),
    }
}

/// Copies a list to the start of a buffer; `count` is how long it is.
///
/// NoRoom: the buffer is too small.
fn put<T: Copy>(list: &[T], place: &mut [T], count: &mut usize) -> Outcome
    ensures puts { Puts list.now place.old place.new count.new result }
    ensures untouched { IfErr result (λ _. (place.new ≡ place.old) × (count.new ≡ count.old)) }
{
    if list.len() > place.len() {
        return Err(Refusal::NoRoom);
    }
    place[..list.len()].copy_from_slice(list);
    *count = list.len();
    Ok(())
}
