//! The lines of the input, each answered in its turn.

ghost use Rattle.std.specs.Prelude.{◌≡◌, ◌≢◌, ◌≤◌, false, Some, IfSome, IfOk, OnOk, codes};
ghost use Rattle.vhost_joined.specs.declared.halt.Stop.TheVariants.{Premise};
ghost use Rattle.std.specs.Io.KnownBytes.{Appends};
ghost use Rattle.vhost_lines.specs.Lines.{lines, is_blank, passes, bad_line, status_of, complaint_of, Explains, GivesLine};
ghost use Rattle.vhost_lines.specs.Shown.{line_text};
ghost use Rattle.vhost_frontend_core.specs.Values.{call_of};
ghost use Rattle.vhost_protocol.specs.declared.profile.Profile.TheVariants.{Vhost};
ghost use Rattle.vhost_lines.specs.Run.{ShowsLines, ShowsFront};
ghost use Rattle.vhost_lines.specs.Session.{IsFresh, Answers, AnswersLines, AnswersFront};

use crate::answer_text::{Answer, Message};
use crate::call_words::{call_of, why_none};
use crate::device::{Device, new_device};
use crate::fault::{Fault, input_fault};
use crate::output::write_line;
use std::alloc::Global;
use std::io;
use std::io::{BufRead, ErrorKind, Write};
use vhost_device::VhostUserBackendReqHandlerMut;
use vhost_frontend_core::{FrontendAnswer, FrontendCall, Profile};
use vhost_joined::{Halt, Joined, Stop};
use vhost_link::MemLink;

/// A frontend joined to the example device.
type Session = Joined<Device>;

/// Runs the calls of the input, one a line, on one session over the example device, and writes each line's request,
/// reply and answer. An empty line is no call.
///
/// The status is 0 at the end of the input; 1 after a line that is no call, which is reported to `errors`; 2 after an I/O
/// error of a reader, a writer or a link, or a failed allocation, which is reported to `errors` in one line, and then the
/// line that met it isn't written. Nothing is written to `output` after a write or a flush of it that failed: whatever the
/// status, what was written is a prefix of the output of all lines.
/// Where the device fails to allocate bytes of its configuration space, it refuses the call, and the line says that.
pub fn run_lines<I: BufRead, W: Write, E: Write>(
    alloc: Global,
    input: &mut I,
    output: &mut W,
    errors: &mut E,
) -> u8
    ensures range { result ≤ 2 }
    ensures status { result ≢ 2 → IfSome (I.remaining input.old) (λ text. result ≡ status_of (bad_line false 1 (lines text))) }
    ensures told { result ≢ 2 → IfSome (I.remaining input.old) (λ text. Appends (E.contents errors.old) (E.contents errors.new) (complaint_of (bad_line false 1 (lines text)))) }
    ensures shown { result ≢ 2 → IfSome (I.remaining input.old) (λ text. ShowsLines false Vhost text (W.contents output.old) (W.contents output.new)) }
    ensures front { IfSome (I.remaining input.old) (λ text. ShowsFront false Vhost text (W.contents output.old) (W.contents output.new)) }
{
    run_lines_as(alloc, Profile::Vhost, false, input, output, errors)
}

/// The same, where both sides have this profile, and lines that say nothing are passed over where there may be comments: those that are
/// empty, and those that begin with a number sign.
#[tactic(auto, using(crate::proofs::InRun::lines_known, crate::proofs::InRun::front_known))]
pub fn run_lines_as<I: BufRead, W: Write, E: Write>(
    alloc: Global,
    profile: Profile,
    comments: bool,
    input: &mut I,
    output: &mut W,
    errors: &mut E,
) -> u8
    ensures range { result ≤ 2 }
    ensures status { result ≢ 2 → IfSome (I.remaining input.old) (λ text. result ≡ status_of (bad_line comments 1 (lines text))) }
    ensures told { result ≢ 2 → IfSome (I.remaining input.old) (λ text. Appends (E.contents errors.old) (E.contents errors.new) (complaint_of (bad_line comments 1 (lines text)))) }
    ensures shown { result ≢ 2 → IfSome (I.remaining input.old) (λ text. ShowsLines comments profile text (W.contents output.old) (W.contents output.new)) }
    ensures front { IfSome (I.remaining input.old) (λ text. ShowsFront comments profile text (W.contents output.old) (W.contents output.new)) }
{
    let mut line = Vec::new(alloc);
    match answer_lines(alloc, profile, comments, input, output, &mut line) {
        Ok(None) => 0,
        Ok(Some(number)) => match complain(number, errors) {
            Ok(()) => 1,
            Err(_) => 2,
        },
        Err(fault) => {
            tell(fault, errors);
            2
        }
    }
}

/// The same, where the report of a line that is no call says why: which word is wrong, and what is wrong with it.
#[tactic(auto, using(crate::proofs::InRun::lines_known, crate::proofs::InRun::front_known))]
pub fn explain_lines_as<I: BufRead, W: Write, E: Write>(
    alloc: Global,
    profile: Profile,
    comments: bool,
    input: &mut I,
    output: &mut W,
    errors: &mut E,
) -> u8
    ensures range { result ≤ 2 }
    ensures status { result ≢ 2 → IfSome (I.remaining input.old) (λ text. result ≡ status_of (bad_line comments 1 (lines text))) }
    ensures told { result ≢ 2 → IfSome (I.remaining input.old) (λ text. Explains (E.contents errors.old) (E.contents errors.new) (bad_line comments 1 (lines text))) }
    ensures shown { result ≢ 2 → IfSome (I.remaining input.old) (λ text. ShowsLines comments profile text (W.contents output.old) (W.contents output.new)) }
    ensures front { IfSome (I.remaining input.old) (λ text. ShowsFront comments profile text (W.contents output.old) (W.contents output.new)) }
{
    let mut line = Vec::new(alloc);
    match answer_lines(alloc, profile, comments, input, output, &mut line) {
        Ok(None) => 0,
        Ok(Some(number)) => match explain(number, why_none(&line), errors) {
            Ok(()) => 1,
            Err(_) => 2,
        },
        Err(fault) => {
            tell(fault, errors);
            2
        }
    }
}

/// Reports which line is no call.
fn complain<E: Write>(number: u64, errors: &mut E) -> io::Result<()>
    ensures { OnOk result (Appends (E.contents errors.old) (E.contents errors.new) (complaint_of (Some number))) }
{
    writeln!(errors, "line {number}: bad call")?;
    errors.flush()
}

/// The same, and which word is wrong, and what is wrong with it.
fn explain<E: Write>(number: u64, why: (u64, &'static str), errors: &mut E) -> io::Result<()>
    ensures { OnOk result (Explains (E.contents errors.old) (E.contents errors.new) (Some number)) }
{
    let (word, reason) = why;
    writeln!(errors, "line {number}: bad call: word {word}: {reason}")?;
    errors.flush()
}

/// Reports why the lines can't go on. Where that can't be written either, the report is lost.
fn tell<E: Write>(fault: Fault, errors: &mut E) {
    if writeln!(errors, "{fault}").is_ok() {
        let _ = errors.flush();
    }
}

/// Answers the lines up to the end, or to one that is no call and is not passed over, which is then `line`; its number.
fn answer_lines<I: BufRead, W: Write>(
    alloc: Global,
    profile: Profile,
    comments: bool,
    input: &mut I,
    output: &mut W,
    line: &mut Vec<u8>,
) -> Result<Option<u64>, Fault>
    ensures bad { IfOk result (λ bad. IfSome (I.remaining input.old) (λ text. bad ≡ bad_line comments 1 (lines text))) }
    ensures shown { OnOk result (IfSome (I.remaining input.old) (λ text. AnswersLines comments profile text (W.contents output.old) (W.contents output.new))) }
    ensures front { IfSome (I.remaining input.old) (λ text. AnswersFront comments profile text (W.contents output.old) (W.contents output.new)) }
{
    let mut session = new_session(alloc, profile)?;
    let mut shown = Vec::new(alloc);
    for number in 1..u64::MAX {
        match read_line(input, line) {
            Ok(true) => {}
            Ok(false) => return Ok(None),
            Err(error) => return Err(input_fault(error)),
        }
        if passes(comments, line) {
            continue;
        }
        match call_of(alloc, line)? {
            Some(call) => {
                show_call(&mut session, &call, &mut shown)?;
                write_line(output, &shown)?;
            }
            None => return Ok(Some(number)),
        }
    }
    Err(Fault::Input(io::Error::from(ErrorKind::FileTooLarge)))
}

/// Both sides as they begin, which are too large for a frame.
#[inline(never)]
fn new_session(alloc: Global, profile: Profile) -> Result<Box<Session>, Fault>
    ensures { IfOk result (λ session. IsFresh profile session.value) }
{
    let device = new_device(alloc)?;
    let scripts = (Vec::new(alloc), Vec::new(alloc));
    let mut joined = Joined::new(alloc, device, 2, 3, scripts)?;
    joined.set_profile(profile);
    match Box::new(alloc, joined) {
        Ok(session) => Ok(session),
        Err(_) => Err(Fault::OutOfMemory),
    }
}

/// Reads the next line without its end. False where there is none.
fn read_line<I: BufRead>(input: &mut I, line: &mut Vec<u8>) -> io::Result<bool>
    ensures { IfOk result (λ more. GivesLine (I.remaining input.old) (I.remaining input.new) more line.new.items) }
{
    line.clear();
    if input.read_until(b'\n', line)? == 0 {
        return Ok(false);
    }
    if line.last() == Some(&b'\n') {
        line.pop();
    }
    Ok(true)
}

/// Whether a line is passed over: it says nothing, and there may be comments.
fn passes(comments: bool, line: &[u8]) -> bool
    ensures { result ≡ passes comments line.now }
{
    comments && is_blank(line)
}

/// Whether a line says nothing: it is empty, or begins with a number sign.
fn is_blank(line: &[u8]) -> bool
    ensures { result ≡ is_blank line.now }
{
    match line.first() {
        Some(byte) => *byte == b'#',
        None => true,
    }
}

/// Does a call, and makes its line.
#[inline(never)]
fn show_call(session: &mut Session, call: &FrontendCall, shown: &mut Vec<u8>) -> Result<(), Fault>
    ensures { OnOk result (Answers session.old (call_of call.now) shown.new.items session.new) }
{
    match session.step(call) {
        Ok(answer) => show_answer(session, &answer, shown),
        Err(Halt::Stopped) => show_stopped(shown),
        Err(Halt::OutOfMemory) => Err(Fault::OutOfMemory),
    }
}

/// Makes the line of an answered call, unless a link or an allocation failed in its middle.
#[inline(never)]
fn show_answer<D: VhostUserBackendReqHandlerMut<Link = MemLink>>(
    session: &Joined<D>,
    answer: &FrontendAnswer,
    shown: &mut Vec<u8>,
) -> Result<(), Fault>
    ensures premises { OnOk result (session.now.stopped ≢ Some Premise) }
    ensures line { OnOk result (shown.new.items ≡ line_text session.now.request session.now.reply answer.now) }
{
    if session.stopped() == Some(Stop::Premise) {
        return Err(Fault::Link);
    }
    let (bytes, handles) = session.last_request();
    let request = Message { bytes, handles };
    let (bytes, handles) = session.last_reply();
    let reply = Message { bytes, handles };
    let answer = Answer(answer);
    shown.clear();
    match writeln!(shown, "{request} {reply} {answer}") {
        Ok(()) => Ok(()),
        Err(_) => Err(Fault::OutOfMemory),
    }
}

/// Makes the line of a call behind the run's end.
fn show_stopped(shown: &mut Vec<u8>) -> Result<(), Fault>
    ensures { OnOk result (shown.new.items ≡ codes "- - stopped\n") }
{
    shown.clear();
    match writeln!(shown, "- - stopped") {
        Ok(()) => Ok(()),
        Err(_) => Err(Fault::OutOfMemory),
    }
}
