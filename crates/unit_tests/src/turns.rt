// Two clients that follow scripts, in turns.
ghost use Rattle.std.specs.Prelude.{◌≡◌, ◌≤◌, ◌<◌, ◌+◌, [], None, length};
ghost use Rattle.client_world.specs.declared.limits.TheConstants.{MAX_STEPS};
ghost use Rattle.unit_tests.specs.Scripted.{scripted_close, scripted_counts, scripted_extends, scripted_stays, scripted_turn};
ghost use Rattle.unit_tests.specs.Scripted.{scripted_world};

use crate::compare::same;
use arrayvec::ArrayVec;
use client_world::Exit;
use dpmi_io::MemSink;
use pair_run::{Turns, pair};
use std::test::Fail;

/// A client that follows a script: each of its turns takes a byte, and writes it unless it is a dot; at the end it exits.
#[derive(Drop)]
struct Scripted<'a> {
    script: &'a [u8],
    console: ArrayVec<u8, 16>,
    steps: u32,
    exit: Option<Exit>,
    ghost room: { length console.items + length script.now ≤ 16 },
}

impl<'a> Scripted<'a> {
    fn new(script: &'a [u8]) -> Scripted<'a>
        requires { length script.now ≤ 16 }
        ensures { scripted_world result.script.now result.console.items result.steps result.exit ≡ scripted_world script.now [] 0 None }
    {
        Scripted {
            script,
            console: ArrayVec::new(),
            steps: 0,
            exit: None,
        }
    }

    // One turn.
    fn take_turn(&mut self)
        requires { self.old.exit ≡ None → self.old.steps < MAX_STEPS }
        ensures few { self.new.steps ≤ self.old.steps + 1 }
        ensures was_on { self.new.exit ≡ None → self.old.exit ≡ None }
        ensures world { (scripted_world self.new.script.now self.new.console.items self.new.steps self.new.exit)
            ≡ scripted_turn (scripted_world self.old.script.now self.old.console.items self.old.steps self.old.exit) }
    {
        if self.exit.is_some() {
            return;
        }
        self.steps += 1;
        match self.script.split_first() {
            None => self.exit = Some(Exit::Exited(0)),
            Some((byte, rest)) => {
                self.script = rest;
                if *byte != b'.' {
                    self.console.push(*byte);
                }
            }
        }
    }
}

impl<'a> Turns for Scripted<'a> {
    ghost use Rattle.std.proofs.Common.{refl};

    ghost world = { λ s. scripted_world s.script.now s.console.items s.steps s.exit };

    ghost turn = { scripted_turn };

    ghost closed = { scripted_close };

    ghost console_of = { λ w. w.host.console };

    ghost exit_of = { λ w. w.host.exit };

    ghost steps_of = { λ w. w.host.steps };

    fn go(&mut self, n: u32) -> Option<Exit> {
        for count in 0..n {
            self.take_turn();
        }
        self.exit
    }

    fn close(&mut self) {
        self.exit = Some(Exit::Bound);
    }

    fn console(&self) -> &[u8] {
        self.console.as_slice()
    }

    ghost closed_is_bound = { λ w. (refl, refl, refl) };

    ghost ended_stays = { scripted_stays };

    ghost turn_is_counted = { scripted_counts };

    ghost console_extends = { scripted_extends };
}

const TEXT: &[u8] =
    b"pair slice 2\nslice 0 a 1\nx\nslice 0 b 1\nu\nslice 1 a 1\ny\nslice 1 b 1\nv\nslice 2 a 1\nz\n";

#[test]
fn slices_are_written_in_turns(rt: HostRuntime) -> Result<(), Fail> {
    let mut a = Scripted::new(b"x..yz");
    let mut b = Scripted::new(b".uv");
    let mut sink = MemSink::new(rt.alloc(), 100, 7)?;
    let whole = pair(&mut a, &mut b, 2, 10, &mut sink);
    same("answer", whole == Ok(()))?;
    same("text", sink.bytes() == TEXT)?;
    Ok(())
}
