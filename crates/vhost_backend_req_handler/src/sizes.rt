//! The numbers of an answer fit their types.

ghost use Rattle.std.specs.Prelude.{◌<◌, ◌^◌, All};
ghost use Rattle.vhost_message.specs.RecordLaws.{InflightFits};
ghost use Rattle.vhost_backend_req_handler.specs.Sized.{AnswerSized};

use vhost_backend_req_handler_core::DeviceAnswer;
use vhost_message::{VhostUserInflight, VhostUserShMemConfig};

/// The numbers of an answer fit their types, and so do those in the place for shared memory where that is the answer.
pub(crate) fn sizes_law<H: Drop>(answer: &DeviceAnswer<H>, shmem: &VhostUserShMemConfig)
    ensures { AnswerSized shmem.now answer.now }
{
    match answer {
        DeviceAnswer::Number(Ok(number)) => {
            let _number = *number;
        }
        DeviceAnswer::Base(Ok(Some(base))) => {
            let _base = *base;
        }
        DeviceAnswer::RingState(Ok(ring)) => {
            let (_index, _num) = (ring.index, ring.num);
        }
        DeviceAnswer::Bases(Ok(Some(bases))) => bases_law(bases),
        DeviceAnswer::Inflight(Ok(part)) => area_law(&part.0),
        DeviceAnswer::Shmem(Ok(())) => shmem.fits_law(),
        _ => {}
    }
}

fn bases_law(bases: &[u64])
    ensures { All (λ base. base < 2 ^ 64) bases.now }
{}

fn area_law(area: &VhostUserInflight)
    ensures { InflightFits area.now }
{
    let VhostUserInflight {
        mmap_size: _size,
        mmap_offset: _offset,
        num_queues: _queues,
        queue_size: _queue,
    } = *area;
}
