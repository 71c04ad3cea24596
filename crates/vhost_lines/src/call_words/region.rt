//! Words as a region of guest memory.

ghost use Rattle.std.specs.Prelude.{◌≡◌, ◌∷◌, ◌<◌, length, IfSome, MatchOption, None, option_map};
ghost use Rattle.vhost_lines.specs.Calls.{region, only_region, regions};
ghost use Rattle.vhost_lines.specs.Read.{texts, words_of};
ghost use Rattle.vhost_lines.specs.Words.{words};
ghost use Rattle.vhost_frontend_core.specs.Regions.{info_of};

use crate::call_words::argument::handle;
use crate::call_words::number::number;
use crate::call_words::words::first_word;
use vhost_frontend_core::RegionInfo;
use vhost_link::PlainHandle;
use vhost_message::VhostUserMemoryRegion;

/// A region of guest memory and its file descriptor, each number in a word of its own.
fn region(
    guest: &str,
    size: &str,
    user: &str,
    offset: &str,
    mapping: &str,
) -> Option<RegionInfo<PlainHandle>>
    ensures { option_map info_of result ≡ region guest.now size.now user.now offset.now mapping.now }
{
    let guest = number(guest)?;
    let size = number(size)?;
    let user = number(user)?;
    let offset = number(offset)?;
    Some(RegionInfo {
        region: VhostUserMemoryRegion::new(guest, size, user, offset),
        mmap_handle: Some(handle(mapping)?),
    })
}

/// One region of guest memory.
pub(crate) fn only_region(args: &[&str]) -> Option<RegionInfo<PlainHandle>>
    ensures { option_map info_of result ≡ only_region (texts args.now) }
{
    let [guest, size, user, offset, mapping] = args else {
        return None;
    };
    region(guest, size, user, offset, mapping)
}

/// The region of the first five words of a text, and the text behind them, where there is one. None where they are no region,
/// or too few.
pub(crate) fn first_region(text: &str) -> Option<(RegionInfo<PlainHandle>, Option<&str>)>
    ensures regions { MatchOption result (regions (words text.now) ≡ None) (λ found. regions (words text.now) ≡ option_map (λ infos. info_of found.0 ∷ infos) (regions (words_of found.1))) }
    ensures fewer { IfSome result (λ found. length (words_of found.1) < length (words text.now)) }
{
    let (guest, rest) = first_word(text);
    let (size, rest) = first_word(rest?);
    let (user, rest) = first_word(rest?);
    let (offset, rest) = first_word(rest?);
    let (mapping, rest) = first_word(rest?);
    Some((region(guest, size, user, offset, mapping)?, rest))
}
