//! The arguments of the call that is to be replied to, by its form.

ghost use Rattle.std.specs.Prelude.{◌≡◌, ◌≢◌};
ghost use Rattle.vhost_c_common.specs.ByNumber.{By};
ghost use Rattle.vhost_c_backend.specs.Arguments.{number_arg, ring_arg, vring_arg, ring_fd_arg, fd_arg, inflight_arg, transfer_arg, log_arg, PutsRegions, PutsConfig, PutsName, PutsOther, PutsFds};
ghost use Rattle.vhost_c_backend.specs.Serving.{Telling, Putting};

use crate::backend_holder::BackendHolder;
use std::alloc::Global;
use vhost_c_common::{Config, Inflight, Refusal, Region, Vring, number_of};

/// Reads a number, or features.
#[unsafe(no_mangle)]
pub extern "C" fn covretin_call_number(
    alloc: Global,
    backend: &mut BackendHolder,
    number: &mut u64,
) -> u32
    ensures does { By (Telling (λ hs c. number_arg c) number.new) backend.old.session result backend.new.session }
    ensures untouched { result ≢ 0 → number.new ≡ number.old }
{
    match backend.take(alloc) {
        None => number_of(Err(Refusal::NoSession)),
        Some(held) => {
            let outcome = held.number();
            backend.put(held);
            match outcome {
                Ok(value) => {
                    *number = value;
                    number_of(Ok(()))
                }
                Err(refusal) => number_of(Err(refusal)),
            }
        }
    }
}

/// Reads the index of a ring, and a number.
#[unsafe(no_mangle)]
pub extern "C" fn covretin_call_ring(
    alloc: Global,
    backend: &mut BackendHolder,
    index: &mut u32,
    number: &mut u32,
) -> u32
    ensures does { By (Telling (λ hs c. ring_arg c) (index.new, number.new)) backend.old.session result backend.new.session }
    ensures untouched { result ≢ 0 → (index.new ≡ index.old) × (number.new ≡ number.old) }
{
    match backend.take(alloc) {
        None => number_of(Err(Refusal::NoSession)),
        Some(held) => {
            let outcome = held.ring();
            backend.put(held);
            match outcome {
                Ok((ring, value)) => {
                    *index = ring;
                    *number = value;
                    number_of(Ok(()))
                }
                Err(refusal) => number_of(Err(refusal)),
            }
        }
    }
}

/// Reads the index of a ring, and where it lies.
#[unsafe(no_mangle)]
pub extern "C" fn covretin_call_vring(
    alloc: Global,
    backend: &mut BackendHolder,
    index: &mut u32,
    ring: &mut Vring,
) -> u32
    ensures does { By (Telling (λ hs c. vring_arg c) (index.new, ring.new)) backend.old.session result backend.new.session }
    ensures untouched { result ≢ 0 → (index.new ≡ index.old) × (ring.new ≡ ring.old) }
{
    match backend.take(alloc) {
        None => number_of(Err(Refusal::NoSession)),
        Some(held) => {
            let outcome = held.vring();
            backend.put(held);
            match outcome {
                Ok((number, place)) => {
                    *index = number;
                    *ring = place;
                    number_of(Ok(()))
                }
                Err(refusal) => number_of(Err(refusal)),
            }
        }
    }
}

/// Reads the index of a ring, and a file descriptor; -1: none.
#[unsafe(no_mangle)]
pub extern "C" fn covretin_call_ring_fd(
    alloc: Global,
    backend: &mut BackendHolder,
    index: &mut u32,
    fd: &mut i32,
) -> u32
    ensures does { By (Telling ring_fd_arg (index.new, fd.new)) backend.old.session result backend.new.session }
    ensures untouched { result ≢ 0 → (index.new ≡ index.old) × (fd.new ≡ fd.old) }
{
    match backend.take(alloc) {
        None => number_of(Err(Refusal::NoSession)),
        Some(held) => {
            let outcome = held.ring_fd();
            backend.put(held);
            match outcome {
                Ok((ring, number)) => {
                    *index = ring;
                    *fd = number;
                    number_of(Ok(()))
                }
                Err(refusal) => number_of(Err(refusal)),
            }
        }
    }
}

/// Reads regions of memory, how many there are, and whether postcopy listens.
#[unsafe(no_mangle)]
pub extern "C" fn covretin_call_regions(
    alloc: Global,
    backend: &mut BackendHolder,
    regions: &mut [Region],
    count: &mut usize,
    listening: &mut bool,
) -> u32
    ensures does { By (Putting PutsRegions regions.old regions.new (count.new, listening.new)) backend.old.session result backend.new.session }
    ensures untouched { result ≢ 0 → (regions.new ≡ regions.old) × (count.new ≡ count.old) × (listening.new ≡ listening.old) }
{
    match backend.take(alloc) {
        None => number_of(Err(Refusal::NoSession)),
        Some(held) => {
            let outcome = held.regions(regions);
            backend.put(held);
            match outcome {
                Ok((length, listens)) => {
                    *count = length;
                    *listening = listens;
                    number_of(Ok(()))
                }
                Err(refusal) => number_of(Err(refusal)),
            }
        }
    }
}

/// Reads which part of the configuration space is meant, its bytes, and how many there are.
#[unsafe(no_mangle)]
pub extern "C" fn covretin_call_config(
    alloc: Global,
    backend: &mut BackendHolder,
    config: &mut Config,
    bytes: &mut [u8],
    count: &mut usize,
) -> u32
    ensures does { By (Putting (λ hs c. PutsConfig c) bytes.old bytes.new (count.new, config.new)) backend.old.session result backend.new.session }
    ensures untouched { result ≢ 0 → (config.new ≡ config.old) × (bytes.new ≡ bytes.old) × (count.new ≡ count.old) }
{
    match backend.take(alloc) {
        None => number_of(Err(Refusal::NoSession)),
        Some(held) => {
            let outcome = held.config(bytes);
            backend.put(held);
            match outcome {
                Ok((length, part)) => {
                    *count = length;
                    *config = part;
                    number_of(Ok(()))
                }
                Err(refusal) => number_of(Err(refusal)),
            }
        }
    }
}

/// Reads the file descriptor of a socket.
#[unsafe(no_mangle)]
pub extern "C" fn covretin_call_fd(alloc: Global, backend: &mut BackendHolder, fd: &mut i32) -> u32
    ensures does { By (Telling fd_arg fd.new) backend.old.session result backend.new.session }
    ensures untouched { result ≢ 0 → fd.new ≡ fd.old }
{
    match backend.take(alloc) {
        None => number_of(Err(Refusal::NoSession)),
        Some(held) => {
            let outcome = held.fd();
            backend.put(held);
            match outcome {
                Ok(number) => {
                    *fd = number;
                    number_of(Ok(()))
                }
                Err(refusal) => number_of(Err(refusal)),
            }
        }
    }
}

/// Reads the name of a shared object: 16 bytes.
#[unsafe(no_mangle)]
pub extern "C" fn covretin_call_name(
    alloc: Global,
    backend: &mut BackendHolder,
    name: &mut [u8],
) -> u32
    ensures does { By (Putting (λ hs c. PutsName c) name.old name.new tt) backend.old.session result backend.new.session }
    ensures untouched { result ≢ 0 → name.new ≡ name.old }
{
    match backend.take(alloc) {
        None => number_of(Err(Refusal::NoSession)),
        Some(held) => {
            let outcome = held.name_to(name);
            backend.put(held);
            match outcome {
                Ok(()) => { number_of(Ok(())) }
                Err(refusal) => number_of(Err(refusal)),
            }
        }
    }
}

/// Reads the inflight region, and the file descriptor that maps it; -1: none.
#[unsafe(no_mangle)]
pub extern "C" fn covretin_call_inflight(
    alloc: Global,
    backend: &mut BackendHolder,
    inflight: &mut Inflight,
    fd: &mut i32,
) -> u32
    ensures does { By (Telling inflight_arg (inflight.new, fd.new)) backend.old.session result backend.new.session }
    ensures untouched { result ≢ 0 → (inflight.new ≡ inflight.old) × (fd.new ≡ fd.old) }
{
    match backend.take(alloc) {
        None => number_of(Err(Refusal::NoSession)),
        Some(held) => {
            let outcome = held.inflight();
            backend.put(held);
            match outcome {
                Ok((area, number)) => {
                    *inflight = area;
                    *fd = number;
                    number_of(Ok(()))
                }
                Err(refusal) => number_of(Err(refusal)),
            }
        }
    }
}

/// Reads the direction and the phase of a transfer of the device's state, and its file descriptor.
#[unsafe(no_mangle)]
pub extern "C" fn covretin_call_transfer(
    alloc: Global,
    backend: &mut BackendHolder,
    direction: &mut u32,
    phase: &mut u32,
    fd: &mut i32,
) -> u32
    ensures does { By (Telling transfer_arg (direction.new, phase.new, fd.new)) backend.old.session result backend.new.session }
    ensures untouched { result ≢ 0 → (direction.new ≡ direction.old) × (phase.new ≡ phase.old) × (fd.new ≡ fd.old) }
{
    match backend.take(alloc) {
        None => number_of(Err(Refusal::NoSession)),
        Some(held) => {
            let outcome = held.transfer();
            backend.put(held);
            match outcome {
                Ok((way, when, number)) => {
                    *direction = way;
                    *phase = when;
                    *fd = number;
                    number_of(Ok(()))
                }
                Err(refusal) => number_of(Err(refusal)),
            }
        }
    }
}

/// Reads where the dirty log is kept.
#[unsafe(no_mangle)]
pub extern "C" fn covretin_call_log(
    alloc: Global,
    backend: &mut BackendHolder,
    log: &mut Region,
) -> u32
    ensures does { By (Telling log_arg log.new) backend.old.session result backend.new.session }
    ensures untouched { result ≢ 0 → log.new ≡ log.old }
{
    match backend.take(alloc) {
        None => number_of(Err(Refusal::NoSession)),
        Some(held) => {
            let outcome = held.log();
            backend.put(held);
            match outcome {
                Ok(region) => {
                    *log = region;
                    number_of(Ok(()))
                }
                Err(refusal) => number_of(Err(refusal)),
            }
        }
    }
}

/// Reads a request without a call of its own: its number, its body, and how long that is.
#[unsafe(no_mangle)]
pub extern "C" fn covretin_call_other(
    alloc: Global,
    backend: &mut BackendHolder,
    request: &mut u32,
    bytes: &mut [u8],
    count: &mut usize,
) -> u32
    ensures does { By (Putting (λ hs c. PutsOther c) bytes.old bytes.new (count.new, request.new)) backend.old.session result backend.new.session }
    ensures untouched { result ≢ 0 → (request.new ≡ request.old) × (bytes.new ≡ bytes.old) × (count.new ≡ count.old) }
{
    match backend.take(alloc) {
        None => number_of(Err(Refusal::NoSession)),
        Some(held) => {
            let outcome = held.other(bytes);
            backend.put(held);
            match outcome {
                Ok((length, number)) => {
                    *count = length;
                    *request = number;
                    number_of(Ok(()))
                }
                Err(refusal) => number_of(Err(refusal)),
            }
        }
    }
}

/// Reads all file descriptors of such a request, and how many there are.
#[unsafe(no_mangle)]
pub extern "C" fn covretin_call_fds(
    alloc: Global,
    backend: &mut BackendHolder,
    fds: &mut [i32],
    count: &mut usize,
) -> u32
    ensures does { By (Putting PutsFds fds.old fds.new (count.new, tt)) backend.old.session result backend.new.session }
    ensures untouched { result ≢ 0 → (fds.new ≡ fds.old) × (count.new ≡ count.old) }
{
    match backend.take(alloc) {
        None => number_of(Err(Refusal::NoSession)),
        Some(held) => {
            let outcome = held.fds(fds);
            backend.put(held);
            match outcome {
                Ok((length, _)) => {
                    *count = length;
                    number_of(Ok(()))
                }
                Err(refusal) => number_of(Err(refusal)),
            }
        }
    }
}
