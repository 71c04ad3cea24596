//! Lines that are run, with the exact output.

ghost use Rattle.std.specs.Prelude.{◌≡◌, IfOk, IfErr};
ghost use Rattle.vhost_session_tests.specs.TwoLines.{two_lines_shown};

use std::alloc::Global;
use vhost_lines::run_lines;

/// What two lines print.
pub(crate) const SHOWN: &str =
    "010000000100000000000000 0100000005000000080000000300004000000000 ok 0x40000003\n030000000100000000000000 - ok\n";

/// Runs two lines: the example device is asked for its features, and claimed. Unless the status is 2, the output is exactly what these
/// lines show.
pub(crate) fn runs_two_lines(alloc: Global) -> Result<Vec<u8>, u8>
    ensures output { IfOk result (λ output. output.items ≡ two_lines_shown) }
    ensures status { IfErr result (λ status. status ≡ 2) }
{
    let mut input: &[u8] = b"get_features\nset_owner\n";
    let mut output = Vec::new(alloc);
    let mut errors = Vec::new(alloc);
    let status = run_lines(alloc, &mut input, &mut output, &mut errors);
    if status == 0 {
        return Ok(output);
    }
    Err(status)
}

/// Whether lines end with this status, print these lines last, and say this of a bad one.
fn prints(alloc: Global, lines: &str, last: &str, status: u8, complaint: &str) -> bool {
    let mut input: &[u8] = lines.as_bytes();
    let mut output = Vec::new(alloc);
    let mut errors = Vec::new(alloc);
    let ended = run_lines(alloc, &mut input, &mut output, &mut errors);
    let is_last = output.as_slice().ends_with(last.as_bytes());
    ended == status && is_last && errors.as_slice() == complaint.as_bytes()
}

/// A part of the configuration that the device lacks, and one that it has.
const CONFIG: &str =
    "get_features\nset_protocol_features 0x200\nget_config 0x200 4 0\nget_config 0x100 4 0\n";

const CONFIG_SHOWN: &str =
    "18000000010000001000000000020000040000000000000000000000 18000000050000000c000000000200000000000000000000 err BackendInternalError\n18000000010000001000000000010000040000000000000000000000 180000000500000010000000000100000400000000000000a5a5a5a5 ok 0x100 0x4 0x0 a5a5a5a5\n";

/// The device is claimed twice: the second claim is acknowledged as failed. A third without an acknowledgement ends the session.
const CLAIMS: &str =
    "get_features\nset_owner\nset_features 0x40000001\nget_protocol_features\nset_protocol_features 0x8\nset_hdr_flags 0x8\nset_owner\nset_hdr_flags 0\nset_owner\nget_features\n";

const CLAIMS_SHOWN: &str =
    "030000000900000000000000 0300000005000000080000000100000000000000 err BackendInternalError\n- - ok\n030000000100000000000000 - ok\n- - stopped\n";

/// Memory is set while postcopy listens: each region has an address of the device's.
const POSTCOPY: &str =
    "get_features\nset_protocol_features 0x108\nset_hdr_flags 0x8\npostcopy_advise\npostcopy_listen\nset_mem_table 0 0x1000 0x7000 0 1 0x1000 0x1000 0x9000 0 2\npostcopy_ack_mem_regions 5\n";

const POSTCOPY_SHOWN: &str = " ok 0x7000,0x9000\n0500000001000000080000000000000000000000 - ok\n";

#[test]
fn lines_are_answered(rt: HostRuntime) {
    let alloc = rt.alloc();
    let found = [
        prints(alloc, "get_features\nset_owner\n", SHOWN, 0, ""),
        prints(alloc, CONFIG, CONFIG_SHOWN, 0, ""),
        prints(alloc, CLAIMS, CLAIMS_SHOWN, 0, ""),
        prints(alloc, POSTCOPY, POSTCOPY_SHOWN, 0, ""),
        prints(
            alloc,
            "set_owner\n\n",
            "030000000100000000000000 - ok\n",
            1,
            "line 2: bad call\n",
        ),
    ];
    assert!(rt; found == [true; 5]);
}
