//! Why a line is no call, for who wants to know.

use crate::call_words::argument::{
    config_flags, direction, enabled, handle, header_flags, object_name, phase, protocol_features,
    request,
};
use crate::call_words::number::{number, number_16, number_32};
use crate::call_words::words::first_word;

/// Each call, and a letter for each word behind its name, as many as it may have; `*` is any number of regions.
// generated from protocol/requests.toml: calls
static CALLS: [(&str, &str); 38] = [
    ("get_features", ""),
    ("set_owner", ""),
    ("reset_owner", ""),
    ("get_protocol_features", ""),
    ("get_queue_num", ""),
    ("reset_device", ""),
    ("get_max_mem_slots", ""),
    ("get_shmem_config", ""),
    ("check_device_state", ""),
    ("postcopy_advise", ""),
    ("postcopy_listen", ""),
    ("postcopy_end", ""),
    ("set_features", "l"),
    ("set_protocol_features", "p"),
    ("get_vring_base", "l"),
    ("set_log_fd", "h"),
    ("set_backend_request_fd", "h"),
    ("get_shared_object", "n"),
    ("postcopy_ack_mem_regions", "r"),
    ("set_mtu", "s"),
    ("set_hdr_flags", "f"),
    ("set_vring_num", "ls"),
    ("set_vring_base", "ls"),
    ("set_packed_vring_base", "li"),
    ("set_vring_call", "lh"),
    ("set_vring_kick", "lh"),
    ("set_vring_err", "lh"),
    ("set_vring_enable", "lo"),
    ("set_log_base", "lllh"),
    ("set_vring_addr", "lillll"),
    ("get_inflight_fd", "llss"),
    ("set_inflight_fd", "llssh"),
    ("add_mem_region", "llllh"),
    ("remove_mem_region", "llllh"),
    ("set_device_state_fd", "dth"),
    ("set_mem_table", "*"),
    ("get_config", "iic"),
    ("set_config", "icb"),
];
// end

/// What a line that asks for help is told.
// generated from protocol/requests.toml: help
static HELP: &str =
    "the calls are get_features, set_features, set_owner, reset_owner, set_mem_table, set_log_base, set_log_fd, set_vring_num, set_vring_addr, set_vring_base, get_vring_base, set_vring_kick, set_vring_call, set_vring_err, get_protocol_features, set_protocol_features, get_queue_num, set_vring_enable, set_mtu, set_backend_request_fd, get_config, set_config, postcopy_advise, postcopy_listen, postcopy_end, get_inflight_fd, set_inflight_fd, reset_device, get_max_mem_slots, add_mem_region, remove_mem_region, get_shared_object, set_device_state_fd, check_device_state, get_shmem_config, set_hdr_flags, set_packed_vring_base, postcopy_ack_mem_regions";
// end

/// The words of a region.
static REGION: [u8; 5] = [b'l', b'l', b'l', b'l', b'h'];

/// What is wrong with a line that is no call: the number of the first word where it is seen, and what is wrong there.
pub(crate) fn why_none(line: &[u8]) -> (u64, &'static str) {
    let Ok(text) = str::from_utf8(line) else {
        return (place_beyond_ascii(line), "not UTF-8");
    };
    let (name, rest) = first_word(text);
    match letters_of(name) {
        Some(letters) => why_arguments(letters, rest),
        None if name == "help" => (1, HELP),
        None => (1, "no call has this name"),
    }
}

/// The number of the first word with a byte that is not ASCII.
fn place_beyond_ascii(line: &[u8]) -> u64 {
    let mut place = 1u64;
    for byte in line {
        if *byte >= 128 {
            break;
        }
        if *byte == b' ' {
            place = place.saturating_add(1);
        }
    }
    place
}

/// The letters of a call's words.
fn letters_of(name: &str) -> Option<&'static str> {
    for (known, letters) in &CALLS {
        if *known == name {
            return Some(letters);
        }
    }
    None
}

/// The same of the words behind the name.
fn why_arguments(letters: &str, text: Option<&str>) -> (u64, &'static str) {
    let mut rest = text;
    let mut place = 2u64;
    for _ in 0..u64::MAX {
        let Some(text) = rest else {
            break;
        };
        let (word, behind) = first_word(text);
        if let Some(why) = why_word(letter_at(letters, place), word) {
            return (place, why);
        }
        place = place.saturating_add(1);
        rest = behind;
    }
    (place, "missing")
}

/// The letter of a call's word with this number.
fn letter_at(letters: &str, place: u64) -> Option<u8> {
    let index = place.saturating_sub(2);
    if letters == "*" {
        return REGION.get((index % 5) as usize).copied();
    }
    letters.as_bytes().get(index as usize).copied()
}

/// What is wrong with a word, where something is.
fn why_word(letter: Option<u8>, word: &str) -> Option<&'static str> {
    match letter {
        None => Some("one too many"),
        Some(_) if word.is_empty() => Some("empty"),
        Some(b'b') if !is_bytes(word) => Some("no bytes"),
        Some(b'n') if object_name(word).is_none() => Some("not 16 bytes"),
        Some(b'b' | b'n') => None,
        Some(letter) => why_number(letter, word),
    }
}

/// The same of a word that is to be a number.
fn why_number(letter: u8, word: &str) -> Option<&'static str> {
    if !is_number(word) {
        return Some("no number");
    }
    if !is_small(letter, word) {
        return Some("too large");
    }
    if !is_known(letter, word) {
        return Some("no such value");
    }
    None
}

/// Whether a word is bytes, each by two hexadecimal digits.
fn is_bytes(word: &str) -> bool {
    word.len() % 2 == 0 && word.as_bytes().iter().all(|byte| byte.is_ascii_hexdigit())
}

/// Whether a word is digits, or hexadecimal ones behind `0x`.
fn is_number(word: &str) -> bool {
    match word.strip_prefix("0x") {
        Some(digits) => {
            !digits.is_empty()
                && digits
                    .as_bytes()
                    .iter()
                    .all(|byte| byte.is_ascii_hexdigit())
        }
        None => word.as_bytes().iter().all(|byte| byte.is_ascii_digit()),
    }
}

/// Whether a number fits its place.
fn is_small(letter: u8, word: &str) -> bool {
    match letter {
        b'l' | b'o' | b'p' => number(word).is_some(),
        b's' => number_16(word).is_some(),
        _ => number_32(word).is_some(),
    }
}

/// Whether a number that fits has a meaning there.
fn is_known(letter: u8, word: &str) -> bool {
    match letter {
        b'o' => enabled(word).is_some(),
        b'p' => protocol_features(word).is_some(),
        b'c' => config_flags(word).is_some(),
        b'f' => header_flags(word).is_some(),
        b'h' => handle(word).is_some(),
        b'r' => request(word).is_some(),
        b'd' => direction(word).is_some(),
        b't' => phase(word).is_some(),
        _ => true,
    }
}
