//! Segments in a buffer of the caller.

ghost use Rattle.std.specs.Prelude.{◌≡◌, ◌<◌, ◌≤◌, ◌++◌, length, option_to_list, take};

use vhost_queue::Segment;

/// Writes the segment behind the first ones, if there is one: how many there are then.
pub(crate) fn put(segments: &mut [Segment], count: usize, segment: Option<Segment>) -> usize
    requires { count < length segments.old }
    ensures segments { take result segments.new ≡ take count segments.old ++ option_to_list segment }
    ensures few { result ≤ length segments.old }
    ensures len { length segments.new ≡ length segments.old }
{
    match segment {
        None => count,
        Some(segment) => {
            segments[count] = segment;
            count + 1
        }
    }
}
