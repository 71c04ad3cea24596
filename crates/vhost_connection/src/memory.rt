//! What an endpoint over a link in memory does to its stream.

ghost use Rattle.vhost_connection.specs.Memory.{TalksLaw};

use vhost_link::stream_law;

/// However its stream is split, an endpoint over a link in memory hands it on in order, and its link appends what it accepts.
pub fn talks_law()
    ensures talks { TalksLaw }
{
    stream_law();
}
