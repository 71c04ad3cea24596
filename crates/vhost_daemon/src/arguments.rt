//! What the arguments ask for.

use std::fmt;
use vhost_protocol::Profile;
use vhost_sockets::Options;

/// The most connections that `PATH COUNT` asks for.
const MAX_COUNT: u32 = 1024;

/// What is asked for.
#[derive(Clone, Copy)]
pub enum Call<'a> {
    /// To say how it is called.
    Help,
    /// To say which version it is.
    Version,
    /// To say what it can do, in the words of QEMU's conventions.
    Capabilities,
    /// To serve at this path.
    Serve(&'a str, Options),
}

/// Why the arguments are wrong.
#[derive(Clone, Copy)]
pub enum Wrong<'a> {
    /// They are not PATH and COUNT.
    Form,
    /// There is no such option.
    Unknown(&'a str),
    /// An option is given twice.
    Twice(&'static str),
    /// An option is missing.
    NoPath,
    /// An option stands beside PATH or COUNT that says the same.
    Beside(&'a str),
    /// This is no number of connections.
    Count(&'a str),
    /// There is no such profile.
    Profile(&'a str),
}

impl fmt::Display for Wrong<'_> {
    fn fmt<W: fmt::Write>(&self, f: &mut fmt::Formatter<W>) -> fmt::Result {
        match self {
            Wrong::Form => f.write_str("not PATH and COUNT"),
            Wrong::Unknown(word) => write!(f, "{word}: there is no such option"),
            Wrong::Twice(name) => write!(f, "{name} is given twice"),
            Wrong::NoPath => f.write_str("--socket-path is missing"),
            Wrong::Beside(word) => write!(f, "{word} is given beside --socket-path"),
            Wrong::Count(word) => write!(f, "--count={word}: not a number from 1 to 4294967295"),
            Wrong::Profile(word) => write!(f, "--profile={word}: neither standard nor vhost"),
        }
    }
}

/// The words, sorted by what they are.
#[derive(Clone, Copy)]
struct Words<'a> {
    path: Option<&'a str>,
    count: Option<&'a str>,
    socket_path: Option<&'a str>,
    limit: Option<&'a str>,
    profile: Option<&'a str>,
    verbose: bool,
    /// Whether there are more than two words without a name.
    is_long: bool,
}

/// What these words ask for.
pub fn call_of<'a>(words: &'a [String]) -> Result<Call<'a>, Wrong<'a>> {
    if let Some(call) = inquiry_in(words) {
        return Ok(call);
    }
    let words = sorted(words)?;
    let Some(path) = words.socket_path else {
        return plain(words);
    };
    if let Some(word) = words.path {
        return Err(Wrong::Beside(word));
    }
    let count = match words.limit {
        None => None,
        Some(word) => match number(word) {
            Some(count) => Some(count),
            None => return Err(Wrong::Count(word)),
        },
    };
    let options = Options {
        count,
        verbose: words.verbose,
        profile: profile_of(words)?,
    };
    Ok(Call::Serve(path, options))
}

/// The profile that is named; without one, that of the crate `vhost`.
fn profile_of<'a>(words: Words<'a>) -> Result<Profile, Wrong<'a>> {
    match words.profile {
        None | Some("vhost") => Ok(Profile::Vhost),
        Some("standard") => Ok(Profile::Standard),
        Some(word) => Err(Wrong::Profile(word)),
    }
}

/// The first word that asks for an answer at once, whatever the others are.
fn inquiry_in<'a>(words: &'a [String]) -> Option<Call<'a>> {
    for word in words {
        match word.as_str() {
            "-h" | "--help" => return Some(Call::Help),
            "--version" => return Some(Call::Version),
            "--print-capabilities" => return Some(Call::Capabilities),
            _ => {}
        }
    }
    None
}

/// The words by what they are.
fn sorted<'a>(words: &'a [String]) -> Result<Words<'a>, Wrong<'a>> {
    let mut sorted = Words {
        path: None,
        count: None,
        socket_path: None,
        limit: None,
        profile: None,
        verbose: false,
        is_long: false,
    };
    for word in words {
        let word = word.as_str();
        if word == "-v" {
            sorted.verbose = true;
        } else if let Some(path) = word.strip_prefix("--socket-path=") {
            if sorted.socket_path.is_some() {
                return Err(Wrong::Twice("--socket-path"));
            }
            sorted.socket_path = Some(path);
        } else if let Some(limit) = word.strip_prefix("--count=") {
            if sorted.limit.is_some() {
                return Err(Wrong::Twice("--count"));
            }
            sorted.limit = Some(limit);
        } else if let Some(profile) = word.strip_prefix("--profile=") {
            if sorted.profile.is_some() {
                return Err(Wrong::Twice("--profile"));
            }
            sorted.profile = Some(profile);
        } else if word.starts_with('-') {
            return Err(Wrong::Unknown(word));
        } else if sorted.path.is_none() {
            sorted.path = Some(word);
        } else if sorted.count.is_none() {
            sorted.count = Some(word);
        } else {
            sorted.is_long = true;
        }
    }
    Ok(sorted)
}

/// PATH and COUNT.
fn plain<'a>(words: Words<'a>) -> Result<Call<'a>, Wrong<'a>> {
    if words.limit.is_some() {
        return Err(Wrong::NoPath);
    }
    let (Some(path), Some(count), false) = (words.path, words.count, words.is_long) else {
        return Err(Wrong::Form);
    };
    match number(count) {
        Some(count) if count <= MAX_COUNT && !path.is_empty() => {
            let options = Options {
                count: Some(count),
                verbose: words.verbose,
                profile: profile_of(words)?,
            };
            Ok(Call::Serve(path, options))
        }
        _ => Err(Wrong::Form),
    }
}

/// A number from 1 on, in decimal digits.
fn number(word: &str) -> Option<u32> {
    if word.starts_with('+') {
        return None;
    }
    match word.parse::<u32>() {
        Ok(0) | Err(_) => None,
        Ok(number) => Some(number),
    }
}
