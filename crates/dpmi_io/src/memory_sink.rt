// A sink in memory, whose puts fail by a list and where its room is full.
ghost use Rattle.std.specs.Prelude.{◌≡◌, ◌≤◌, ◌<◌, ◌↔◌, length, take, IfOk, OnOk, OnErr, IsErr, IsTrue};

use crate::plan::FaultPlan;
use crate::{Sink, SinkFail};
use std::alloc::{AllocError, Global};
use std::marker::Model;

/// A sink in memory with room for some bytes, which takes at most a piece at each put.
/// Its puts count from 1, and fail where they are listed or the room is full. Source: own.
#[derive(Drop)]
pub struct MemSink {
    buf: Vec<u8>,
    used: usize,
    piece: usize,
    plan: FaultPlan,
}

impl Model for MemSink {
    ghost use Rattle.std.specs.Prelude.{◌≤◌, ◌<◌, ◌-◌, length, take};
    ghost use Rattle.dpmi_io.specs.MemSink.{MemSinkState};

    ghost Value = { MemSinkState };

    ghost view = { λ s. record {
      taken = take s.used s.buf.items;
      room = length s.buf.items - s.used;
      piece = s.piece;
      plan = s.plan;
    } };

    ghost invariant = { λ s. (s.used ≤ length s.buf.items) × (0 < s.piece) };
}

impl Sink for MemSink {
    ghost use Rattle.dpmi_io.specs.Causes.{Rose};
    ghost use Rattle.dpmi_io.specs.Content.{Bytes, Gains, GainsPart};
    ghost use Rattle.dpmi_io.specs.MemSink.{put_fails, put_count, after_put, after_failed_put};

    ghost taken = { λ s. Bytes s.taken };

    ghost faults = { λ s. s.plan.faults };

    fn put(&mut self, bytes: &[u8]) -> Result<usize, SinkFail>
        requires { 0 < length bytes.now }
        ensures fails { IsErr result ↔ IsTrue (put_fails self.old) }
        ensures count { IfOk result (λ n. n ≡ put_count self.old bytes.now) }
        ensures after { IfOk result (λ n. self.new ≡ after_put self.old (take n bytes.now)) }
        ensures after_failed { OnErr result (self.new ≡ after_failed_put self.old) }

        // What a sink promises.
        ensures bound { IfOk result (λ n. (0 < n) × (n ≤ length bytes.now)) }
        ensures took { IfOk result (λ n. Gains (Bytes self.old.taken) (Bytes self.new.taken) (take n bytes.now)) }
        ensures quiet { OnOk result (self.new.plan.faults ≡ self.old.plan.faults) }
        ensures part { OnErr result (GainsPart (Bytes self.old.taken) (Bytes self.new.taken) bytes.now) }
        ensures failed { OnErr result (Rose self.old.plan.faults self.new.plan.faults) }
        ensures later { self.old.plan.faults ≤ self.new.plan.faults }
    {
        let room = self.buf.len() - self.used;
        if self.plan.count() || room == 0 {
            self.plan.fail();
            return Err(SinkFail);
        }
        let count = self.piece.min(room).min(bytes.len());
        let end = self.used + count;
        self.buf[self.used..end].copy_from_slice(&bytes[..count]);
        self.used = end;
        Ok(count)
    }
}

impl MemSink {
    ghost use Rattle.dpmi_io.specs.FaultPlan.{after_listing};
    ghost use Rattle.dpmi_io.specs.MemSink.{new_sink};

    /// A sink with room for that many bytes, which takes at most `piece` of them at a put. Fails where memory is out. Source: own.
    pub fn new(alloc: Global, room: usize, piece: usize) -> Result<MemSink, AllocError>
        requires { 0 < piece }
        ensures { IfOk result (λ s. s ≡ new_sink room piece) }
    {
        Ok(MemSink {
            buf: vec![in alloc; 0; room]?,
            used: 0,
            piece,
            plan: FaultPlan::new(alloc),
        })
    }

    /// Lists a put that isn't made yet, counted from 1: it will fail, and take nothing. Fails itself where memory is out; the sink is then
    /// as it was. Source: own.
    pub fn fail_at(&mut self, call: u64) -> Result<(), AllocError>
        requires { self.old.plan.calls < call }
        ensures ok { OnOk result (self.new ≡ record self.old { plan = after_listing self.old.plan call }) }
        ensures err { OnErr result (self.new ≡ self.old) }
    {
        self.plan.fail_at(call)
    }

    /// The bytes taken, from the first on. Source: own.
    pub fn bytes(&self) -> &[u8]
        ensures { result.now ≡ self.now.taken }
    {
        &self.buf[..self.used]
    }
}
