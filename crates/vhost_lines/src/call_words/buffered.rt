//! Calls that bring a list. Each is none where there is another count of arguments, or where one of them is none.

ghost use Rattle.std.specs.Prelude.{◌≡◌, IfOk};
ghost use Rattle.vhost_lines.specs.Calls.{regions, set_mem_table, get_config, set_config};
ghost use Rattle.vhost_lines.specs.Read.{called, texts, words_of, infos_of};

use crate::call_words::argument::{byte_string, config_flags};
use crate::call_words::number::number_32;
use crate::call_words::region::first_region;
use std::alloc::{AllocError, Global};
use vhost_frontend_core::{FrontendCall, RegionInfo};
use vhost_link::PlainHandle;

/// The greatest buffer for a part of configuration space, in bytes.
const MAX_BUFFER: u32 = 4096;

/// The regions of a text, of five words each. AllocError: an allocation failed.
fn regions(
    alloc: Global,
    text: Option<&str>,
) -> Result<Option<Vec<RegionInfo<PlainHandle>>>, AllocError>
    ensures { IfOk result (λ found. infos_of found ≡ regions (words_of text.entry)) }
{
    let mut found = Vec::new(alloc);
    let mut rest = text;
    while let Some(text) = rest {
        let Some((info, behind)) = first_region(text) else {
            return Ok(None);
        };
        found.push(info)?;
        rest = behind;
    }
    Ok(Some(found))
}

/// A table of memory, of any number of regions. AllocError: an allocation failed.
pub(crate) fn set_mem_table(
    alloc: Global,
    text: Option<&str>,
) -> Result<Option<FrontendCall>, AllocError>
    ensures { IfOk result (λ call. called call ≡ set_mem_table (words_of text.entry)) }
{
    let Some(regions) = regions(alloc, text)? else {
        return Ok(None);
    };
    Ok(Some(FrontendCall::SetMemTable(regions)))
}

/// A part of configuration space, and a buffer for it. AllocError: an allocation failed.
pub(crate) fn get_config(alloc: Global, args: &[&str]) -> Result<Option<FrontendCall>, AllocError>
    ensures { IfOk result (λ call. called call ≡ get_config (texts args.now)) }
{
    let [offset, size, flags] = args else {
        return Ok(None);
    };
    let Some(offset) = number_32(offset) else {
        return Ok(None);
    };
    let Some(size) = number_32(size) else {
        return Ok(None);
    };
    let Some(flags) = config_flags(flags) else {
        return Ok(None);
    };
    let buffer = vec![in alloc; 0u8; size.min(MAX_BUFFER) as usize]?;
    Ok(Some(FrontendCall::GetConfig(offset, size, flags, buffer)))
}

/// Bytes for a part of configuration space. AllocError: an allocation failed.
pub(crate) fn set_config(alloc: Global, args: &[&str]) -> Result<Option<FrontendCall>, AllocError>
    ensures { IfOk result (λ call. called call ≡ set_config (texts args.now)) }
{
    let [offset, flags, bytes] = args else {
        return Ok(None);
    };
    let Some(offset) = number_32(offset) else {
        return Ok(None);
    };
    let Some(flags) = config_flags(flags) else {
        return Ok(None);
    };
    let Some(bytes) = byte_string(alloc, bytes)? else {
        return Ok(None);
    };
    Ok(Some(FrontendCall::SetConfig(offset, flags, bytes)))
}
