// That a run has ended, and how, in one word.
ghost use Rattle.std.specs.Prelude.{◌≡◌};
ghost use Rattle.client_world.specs.declared.outcome.Exit.{Exit as AnExit};
ghost use Rattle.host_run.specs.Ending.{exit_in};

use client_world::Exit;
use std::marker::Model;

/// That the run has ended; its host says how (`Host::exit`). It holds nothing, so that a turn's answer is one byte and is compared once.
/// Source: own.
#[derive(Drop)]
pub struct Ended;

/// An exit in one word: the answer of a turn's work then stays in two registers, where an `Exit` would be stored and copied at each call.
/// Source: own.
#[derive(Drop)]
pub(crate) struct Ending {
    word: u64,
}

impl Model for Ending {
    ghost Value = { AnExit };

    ghost view = { λ e. exit_in e.word };
}

impl From<Exit> for Ending {
    ghost use Rattle.std.specs.Prelude.{◌≡◌};

    ghost from_gives = { λ exit e. e ≡ exit };

    #[inline(always)]
    #[tactic(auto, unfolding(crate::specs::Ending::exit_in))]
    fn from(exit: Exit) -> Ending {
        let word = match exit {
            Exit::Exited(code) => u64::from(code) * 0x10,
            Exit::Fault(number, code) => 1 + u64::from(number) * 0x10 + u64::from(code) * 0x1000,
            Exit::Bound => 2,
            Exit::NoKeys => 3,
            Exit::ConsoleFull => 4,
            Exit::Deep => 5,
            Exit::Stray => 6,
            Exit::LostStructure => 7,
            Exit::BadFrame => 8,
            Exit::BadSwitch => 9,
        };
        Ending { word }
    }
}

impl Ending {
    /// The exit.
    #[inline(never)]
    #[tactic(auto, unfolding(crate::specs::Ending::exit_in))]
    pub(crate) fn exit(&self) -> Exit
        ensures { result ≡ self.now }
    {
        let number = (self.word / 0x10 % 0x100) as u8;
        match self.word % 0x10 {
            0 => Exit::Exited(number),
            1 => Exit::Fault(number, (self.word / 0x1000 % 0x1_0000_0000) as u32),
            2 => Exit::Bound,
            3 => Exit::NoKeys,
            4 => Exit::ConsoleFull,
            5 => Exit::Deep,
            6 => Exit::Stray,
            7 => Exit::LostStructure,
            8 => Exit::BadFrame,
            _ => Exit::BadSwitch,
        }
    }
}
