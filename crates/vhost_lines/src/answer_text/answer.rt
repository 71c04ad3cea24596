//! Answers.

ghost use Rattle.std.specs.Prelude.{◌++◌, Some, codes};
ghost use Rattle.std.specs.Fmt.{WritesOnOk};
ghost use Rattle.vhost_lines.specs.Numbers.{numbers_text};
ghost use Rattle.vhost_lines.specs.Text.{answer_text, handle_text, part_text, area_text, regions_text};

use crate::answer_text::error::show_error;
use crate::answer_text::lists::{show_bytes, show_numbers};
use std::fmt;
use std::fmt::Formatter;
use vhost_frontend_core::FrontendAnswer;
use vhost_link::PlainHandle;
use vhost_message::{VhostUserConfig, VhostUserInflight, VhostUserShMemConfig};

/// An answer: `err` and the name of the error, or `ok` and its value.
///
/// Numbers are in hexadecimal, as `0x10`, and with commas between them where they are a list (`-` for an empty one); bytes
/// are in hexadecimal (`-` where there is none); a file descriptor is its number, as `[1]`; `none` stands for an option
/// that holds nothing. A part of the configuration space is its offset, size, flags and bytes. The inflight region is its
/// size, offset, number of queues, their size, and the file descriptor. Regions of shared memory are their number and the
/// list of all 256 sizes.
#[derive(Clone, Copy)]
pub struct Answer<'a>(pub &'a FrontendAnswer);

impl<'a> fmt::Display for Answer<'a> {
    ghost output = { λ a. Some (answer_text a.0.now) };

    fn fmt<W: fmt::Write>(&self, f: &mut Formatter<W>) -> fmt::Result {
        match self.0 {
            FrontendAnswer::Failed(error) => show_error(error, f),
            FrontendAnswer::Done => f.write_str("ok"),
            FrontendAnswer::Number(value) => write!(f, "ok 0x{value:x}"),
            FrontendAnswer::Bases(Some(bases)) => show_bases(bases, f),
            FrontendAnswer::Base(Some(base)) => write!(f, "ok 0x{base:x}"),
            FrontendAnswer::Config(part, bytes) => show_part(part, bytes, f),
            FrontendAnswer::Handle(handle) => show_handle(handle, f),
            FrontendAnswer::Inflight(area, handle) => show_area(area, handle, f),
            FrontendAnswer::StateHandle(Some(handle)) => show_handle(handle, f),
            FrontendAnswer::ShmemConfig(config) => show_regions(config, f),
            FrontendAnswer::Bases(None)
            | FrontendAnswer::Base(None)
            | FrontendAnswer::StateHandle(None) => f.write_str("ok none"),
        }
    }
}

/// Shows where regions are mapped.
fn show_bases<W: fmt::Write>(bases: &[u64], f: &mut Formatter<W>) -> fmt::Result
    ensures { WritesOnOk W.write_str_gives f.old result (codes "ok " ++ numbers_text bases.now) f.new }
{
    f.write_str("ok ")?;
    show_numbers(bases, f)
}

/// Shows a file descriptor by its number.
fn show_handle<W: fmt::Write>(handle: &PlainHandle, f: &mut Formatter<W>) -> fmt::Result
    ensures { WritesOnOk W.write_str_gives f.old result (codes "ok " ++ handle_text handle.now) f.new }
{
    let id = handle.id;
    write!(f, "ok [{id}]")
}

/// Shows a part of the configuration space, and its bytes.
fn show_part<W: fmt::Write>(
    part: &VhostUserConfig,
    bytes: &[u8],
    f: &mut Formatter<W>,
) -> fmt::Result
    ensures { WritesOnOk W.write_str_gives f.old result (codes "ok " ++ part_text part.now bytes.now) f.new }
{
    let (offset, size, flags) = (part.offset, part.size, part.flags);
    write!(f, "ok 0x{offset:x} 0x{size:x} 0x{flags:x} ")?;
    show_bytes(bytes, f)
}

/// Shows the inflight region.
fn show_area<W: fmt::Write>(
    area: &VhostUserInflight,
    handle: &PlainHandle,
    f: &mut Formatter<W>,
) -> fmt::Result
    ensures { WritesOnOk W.write_str_gives f.old result (codes "ok " ++ area_text area.now handle.now) f.new }
{
    let (size, offset) = (area.mmap_size, area.mmap_offset);
    let (queues, length) = (area.num_queues, area.queue_size);
    let id = handle.id;
    write!(
        f,
        "ok 0x{size:x} 0x{offset:x} 0x{queues:x} 0x{length:x} [{id}]"
    )
}

/// Shows the regions of shared memory.
fn show_regions<W: fmt::Write>(config: &VhostUserShMemConfig, f: &mut Formatter<W>) -> fmt::Result
    ensures { WritesOnOk W.write_str_gives f.old result (codes "ok " ++ regions_text config.now) f.new }
{
    let count = config.nregions;
    write!(f, "ok 0x{count:x} ")?;
    show_numbers(&config.memory_sizes, f)
}
