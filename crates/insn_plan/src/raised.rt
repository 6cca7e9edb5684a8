// What an instruction raises, in one word.
ghost use Rattle.std.specs.Prelude.{◌≡◌};
ghost use Rattle.client_world.specs.{declared.faults.Event.{Event as AnEvent}, declared.faults.Event.TheVariants.{Soft}};
ghost use Rattle.insn_plan.specs.Raised.{event_in};

use client_world::{Event, Fault};
use std::marker::Model;

/// An event in one word: a row's answer then stays in two registers, where an `Event` would be stored and copied at each call. Source: own.
#[derive(Drop)]
pub struct Raised {
    word: u64,
}

impl Model for Raised {
    ghost Value = { AnEvent };

    ghost view = { λ r. event_in r.word };
}

impl From<Fault> for Raised {
    ghost use Rattle.std.specs.Prelude.{◌≡◌};
    ghost use Rattle.client_world.specs.declared.faults.Event.TheVariants.{Fault as fault};

    ghost from_gives = { λ f r. r ≡ fault f };

    fn from(f: Fault) -> Raised {
        Raised {
            word: u64::from(f.number) * 2 + u64::from(f.code) * 0x2_0000,
        }
    }
}

impl Raised {
    /// The software interrupt of a number, 0 to 255, whose instruction has `len` bytes. Source: own.
    pub fn soft(number: u8, len: u8) -> Raised
        ensures { result ≡ Soft number len }
    {
        Raised {
            word: 1 + u64::from(number) * 2 + u64::from(len) * 0x200,
        }
    }

    /// The event, in its parts. Source: own.
    pub fn event(self) -> Event
        ensures { result ≡ self }
    {
        let number = (self.word / 2 % 0x100) as u8;
        if self.word % 2 == 0 {
            Event::Fault(Fault {
                number,
                code: (self.word / 0x2_0000 % 0x1_0000_0000) as u32,
            })
        } else {
            Event::Soft {
                number,
                len: (self.word / 0x200 % 0x100) as u8,
            }
        }
    }
}
