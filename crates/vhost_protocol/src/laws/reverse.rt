//! The backend channel.

ghost use Rattle.vhost_protocol.specs.ReverseLaws.{ReverseAnswers, ReverseTakes};

/// Where both sides have the same flag for acknowledgements, the caller's answer is known after each call; and a number
/// that the server sent back is received as the answer that it stands for.
pub fn answered_as_served<H>()
    ensures answers { ReverseAnswers H }
    ensures takes { ReverseTakes H }
{}
