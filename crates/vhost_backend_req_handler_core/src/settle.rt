//! What becomes of a request that the table leaves unanswered: under Standard whoever waits is answered, or the session ends.

ghost use Rattle.std.specs.Prelude.{◌≡◌, List, length, is_ok};
ghost use Rattle.vhost_protocol.specs.Settled as settled_;
ghost use Rattle.vhost_protocol.specs.Settled.{config_asked, inflight_asked, has_reply, is_unanswered};
ghost use Rattle.vhost_protocol.specs.Served.{Silent};
ghost use Rattle.vhost_protocol.specs.Step.{Outcome};
ghost use Rattle.vhost_backend_req_handler_core.specs.Beginning.{message_in};
ghost use Rattle.vhost_backend_req_handler_core.specs.Concluding.{Beside, outcome_in, served_in, verdict_in};
ghost use Rattle.vhost_backend_req_handler_core.specs.Session.{session_of};
ghost use Rattle.vhost_backend_req_handler_core.specs.Settling.{Settles, acked, formed, settled_by};

use crate::answer::{Conclusion, DeviceAnswer, Reply, Told, Verdict};
use crate::conclude::Conclusions;
use crate::incoming::Incoming;
use crate::session::Session;
use vhost_message::{
    ByteValued, HeardReq, VhostUserConfig, VhostUserInflight, has_bit, protocol_bit,
};

/// The number of a session's end: the protocol has no answer that refuses.
pub const EPROTO: i32 = 71;

/// How a request is refused that has a reply of its own.
#[derive(Clone, Copy)]
pub enum Form {
    /// No reply refuses: the session ends.
    Ends,
    /// A reply without a body, and without a descriptor.
    Empty,
    Number(u64),
    /// 0 where it succeeded, else 1.
    Outcome,
    /// The record alone.
    Config(VhostUserConfig),
    /// The area without a descriptor.
    Inflight(VhostUserInflight),
}

/// What a request asks of its acknowledgement.
#[derive(Clone, Copy)]
pub struct Acks {
    pub need_reply: bool,
    /// It is itself a reply, which nobody hears refused.
    pub reply: bool,
    /// It turns the state of both sides, so nobody may miss that it was refused.
    pub turns: bool,
}

/// What becomes of a request where nothing was written that it waits for.
#[derive(Clone, Copy)]
pub enum Unanswered {
    /// It stays so, by the profile Vhost.
    Stays,
    /// It has a reply of its own.
    Own(Form),
    /// It has none.
    Acks(Acks),
}

impl<H: Drop> Conclusions<H> {
    /// What becomes of a request where nothing is written that it waits for.
    pub fn unanswered(session: &Session, message: &Incoming) -> Unanswered
        ensures { (hs : List H) → Settles (session_of session.now) (message_in message.now hs) result }
    {
        if !session.is_standard() {
            return Unanswered::Stays;
        }
        if !has_own_reply(session, message) {
            return Unanswered::Acks(Acks {
                need_reply: message.need_reply,
                reply: message.reply,
                turns: is_listening(message.code),
            });
        }
        if message.reply {
            return Unanswered::Own(Form::Ends);
        }
        Unanswered::Own(Self::form(message))
    }

    /// The form in which the reply of a request refuses it.
    fn form(message: &Incoming) -> Form
        ensures { (o : Outcome H) → formed result o ≡ settled_.refused_reply message.now.code message.now.body.now o }
    {
        match message.code {
            HeardReq::GET_CONFIG => Form::Config(no_config(message)),
            HeardReq::GET_INFLIGHT_FD => Form::Inflight(no_inflight(message)),
            HeardReq::GET_SHARED_OBJECT | HeardReq::POSTCOPY_ADVISE => Form::Empty,
            HeardReq::SET_DEVICE_STATE_FD => Form::Number(0x101),
            HeardReq::CHECK_DEVICE_STATE => Form::Number(1),
            HeardReq::POSTCOPY_END => Form::Outcome,
            _ => Form::Ends,
        }
    }

    /// What a call became, where the request is answered for which somebody waits. The session may end.
    pub fn settle(
        session: &mut Session,
        unanswered: &Unanswered,
        answer: &DeviceAnswer<H>,
        conclusion: &mut Conclusion<'_, H>,
    )
        ensures { (b : Beside) → outcome_in (session_of session.new) b answer.now conclusion.new ≡ settled_by unanswered.now (outcome_in (session_of session.old) b answer.now conclusion.old) }
    {
        let verdict = conclusion.verdict;
        match unanswered {
            Unanswered::Stays => {}
            Unanswered::Own(form) => {
                if conclusion.told.is_missing(true) {
                    conclusion.told = Self::refuse(session, form, answer, verdict);
                }
            }
            Unanswered::Acks(acks) => {
                if conclusion.told.is_missing(false) {
                    conclusion.told = Self::acknowledge(session, acks, answer, verdict);
                }
            }
        }
    }

    /// A request is refused in this form.
    fn refuse<'t>(
        session: &mut Session,
        form: &Form,
        answer: &DeviceAnswer<H>,
        verdict: Verdict,
    ) -> Told<'t, H>
        ensures { (b : Beside) → outcome_in (session_of session.new) b answer.now (record { verdict = verdict; told = result }) ≡ formed form.now (record { answer = verdict_in answer.now verdict; served = Silent; session = session_of session.old }) }
    {
        let reply = match form {
            Form::Ends => {
                session.failed = Some(EPROTO);
                return Told::Silent;
            }
            Form::Empty => Reply::Empty,
            Form::Number(number) => Reply::U64(*number),
            Form::Outcome => Reply::U64(if answer.agrees(verdict) { 0 } else { 1 }),
            Form::Config(config) => Reply::Config(*config),
            Form::Inflight(area) => Reply::InflightArea(*area),
        };
        Told::Replied(reply)
    }

    /// A request is acknowledged that asks for it. The session ends where a refusal would be missed.
    fn acknowledge<'t>(
        session: &mut Session,
        acks: &Acks,
        answer: &DeviceAnswer<H>,
        verdict: Verdict,
    ) -> Told<'t, H>
        ensures { (b : Beside) → outcome_in (session_of session.new) b answer.now (record { verdict = verdict; told = result }) ≡ acked acks.now (record { answer = verdict_in answer.now verdict; served = Silent; session = session_of session.old }) }
    {
        let agreed = answer.agrees(verdict);
        let wanted = session.acknowledges(acks.need_reply);
        if !agreed && (acks.reply || acks.turns && !wanted) {
            session.failed = Some(EPROTO);
            return Told::Silent;
        }
        if wanted {
            Told::Acknowledged(agreed)
        } else {
            Told::Silent
        }
    }
}

impl<H: Drop> Told<'_, H> {
    /// Whether nothing is told that a frontend waits for: nothing, or an acknowledgement in the place of a reply.
    fn is_missing(&self, own: bool) -> bool
        ensures { (b : Beside) → result ≡ is_unanswered own (served_in b self.now) }
    {
        match self {
            Told::Silent => true,
            Told::Acknowledged(_) => own,
            Told::Replied(_) => false,
            Told::RepliedWith(_, _) => false,
        }
    }
}

/// Whether a request has a reply of its own, whatever its flags.
fn has_own_reply(session: &Session, message: &Incoming) -> bool
    ensures { result ≡ has_reply message.now.code (session_of session.now) (length message.now.body.now) }
{
    match message.code {
        HeardReq::GET_FEATURES
        | HeardReq::GET_PROTOCOL_FEATURES
        | HeardReq::GET_QUEUE_NUM
        | HeardReq::GET_VRING_BASE
        | HeardReq::GET_CONFIG
        | HeardReq::GET_INFLIGHT_FD
        | HeardReq::GET_MAX_MEM_SLOTS
        | HeardReq::GET_STATUS
        | HeardReq::GET_SHARED_OBJECT
        | HeardReq::GET_SHMEM_CONFIG
        | HeardReq::CREATE_CRYPTO_SESSION
        | HeardReq::SET_DEVICE_STATE_FD
        | HeardReq::CHECK_DEVICE_STATE
        | HeardReq::POSTCOPY_ADVISE
        | HeardReq::POSTCOPY_END => true,
        HeardReq::SET_LOG_BASE => {
            let acked_protocol_features = session.acked_protocol_features;
            has_bit(acked_protocol_features, protocol_bit::LOG_SHMFD)
        }
        HeardReq::SET_MEM_TABLE | HeardReq::ADD_MEM_REG => {
            session.is_listening() && message.body.len() != 8
        }
        _ => false,
    }
}

/// Whether a request turns the state of both sides and has no reply of its own.
fn is_listening(code: HeardReq) -> bool
    ensures { result ≡ settled_.is_listening code }
{
    matches!(code, HeardReq::POSTCOPY_LISTEN)
}

/// The record that a request for configuration bytes begins with, and none of them.
fn no_config(message: &Incoming) -> VhostUserConfig
    ensures { result ≡ record (config_asked message.now.body.now) { size = 0 } }
{
    let mut config = VhostUserConfig::default();
    if message.body.len() >= VhostUserConfig::SIZE {
        config = VhostUserConfig::decode(&message.body[..VhostUserConfig::SIZE]);
    }
    config.size = 0;
    config
}

/// The area that a request asks for, of size 0.
fn no_inflight(message: &Incoming) -> VhostUserInflight
    ensures { result ≡ record (inflight_asked message.now.body.now) { mmap_size = 0 } }
{
    let mut area = VhostUserInflight::default();
    if message.body.len() >= VhostUserInflight::SIZE {
        area = VhostUserInflight::decode(&message.body[..VhostUserInflight::SIZE]);
    }
    area.mmap_size = 0;
    area
}
