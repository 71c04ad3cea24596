//! What a log has of one call.

ghost use Rattle.std.specs.Prelude.{◌≡◌, ◌↔◌, IsTrue};
ghost use Rattle.vhost_frontend_core.specs.Values.{call_of, answer_of};

use std::marker::Model;
use vhost_comparing::{is_same_answer, is_same_call};
use vhost_joined::{FrontendAnswer, FrontendCall};

/// Who called, how many times before, with what, and what was answered.
#[derive(Drop)]
pub struct Entry {
    caller: u32,
    serial: u64,
    call: FrontendCall,
    answer: FrontendAnswer,
}

impl Model for Entry {
    ghost use Rattle.vhost_link.specs.declared.plain.PlainHandle.{PlainHandle};
    ghost use Rattle.vhost_protocol.specs.Log.{Entry as Logged};
    ghost use Rattle.vhost_frontend_core.specs.Values.{call_of, answer_of};

    ghost Value = { Logged PlainHandle };

    ghost view = { λ e. record { caller = e.caller; serial = e.serial; call = call_of e.call; result = answer_of e.answer } };
}

impl Entry {
    pub(crate) fn new(caller: u32, serial: u64, call: FrontendCall, answer: FrontendAnswer) -> Self
        ensures { result ≡ record { caller = caller; serial = serial; call = call_of call; result = answer_of answer } }
    {
        Entry {
            caller,
            serial,
            call,
            answer,
        }
    }

    /// Who called.
    pub fn caller(&self) -> u32
        ensures { result ≡ self.now.caller }
    {
        self.caller
    }

    /// How many entries the caller had before.
    pub fn serial(&self) -> u64
        ensures { result ≡ self.now.serial }
    {
        self.serial
    }

    /// What was called.
    pub fn call(&self) -> &FrontendCall
        ensures { call_of result.now ≡ self.now.call }
    {
        &self.call
    }

    /// What was answered.
    pub fn answer(&self) -> &FrontendAnswer
        ensures { answer_of result.now ≡ self.now.result }
    {
        &self.answer
    }

    /// Whether both are the same, the call and the answer with all their lists.
    pub fn is_same(&self, other: &Entry) -> bool
        ensures { IsTrue result ↔ self.now ≡ other.now }
    {
        self.caller == other.caller
            && self.serial == other.serial
            && is_same_call(&self.call, &other.call)
            && is_same_answer(&self.answer, &other.answer)
    }
}
