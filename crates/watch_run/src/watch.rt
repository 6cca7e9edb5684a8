// The watchpoints that are held.
ghost use Rattle.std.specs.Prelude.{◌≡◌, ◌<◌, ◌≤◌, ◌-◌, ◌||◌, IfSome, false, true, length, slice_set};
ghost use Rattle.client_world.specs.{declared.limits.TheConstants.{WATCHES}, WatchWorld.{no_watches}};
ghost use Rattle.watch_run.specs.Watches.{watch_at};

use client_world::Watch;
use client_world::limits::WATCHES;
use std::marker::Model;

/// The watchpoints, by their handles 1 to 16, and whether a hit waits to be delivered as exception 1.
#[derive(Drop)]
pub struct Watches {
    watches: [Option<Watch>; WATCHES as usize],
    due: bool,
    // One was made since the start: it may be held, and a hit of it due.
    used: bool,
}

impl Model for Watches {
    ghost use Rattle.std.specs.Prelude.{◌≡◌, false, length};
    ghost use Rattle.client_world.specs.declared.limits.TheConstants.{WATCHES};
    ghost use Rattle.client_world.specs.WatchWorld.{Watching, no_watches};

    ghost Value = { Watching };

    ghost view = { λ w. record { watches = w.watches; due = w.due } };

    ghost invariant = { λ w. (length w.watches ≡ WATCHES) × (w.used ≡ false → w.watches ≡ no_watches.watches)
        × (w.used ≡ false → w.due ≡ false) };
}

impl Watches {
    /// No watchpoint is held, and no hit is due.
    pub fn new() -> Watches
        ensures { result ≡ no_watches }
    {
        Watches {
            watches: [None; WATCHES as usize],
            due: false,
            used: false,
        }
    }

    /// The watchpoint of a handle; `None` where the handle isn't held.
    pub(crate) fn watch(&self, handle: u16) -> Option<Watch>
        ensures watch { result ≡ watch_at self.now.watches handle }
        ensures handle { IfSome result (λ watch. (0 < handle) × (handle ≤ WATCHES)) }
    {
        if handle == 0 || handle > WATCHES {
            None
        } else {
            self.watches[usize::from(handle) - 1]
        }
    }

    /// All of them, by handle less 1.
    pub(crate) fn slots(&self) -> &[Option<Watch>; WATCHES as usize]
        ensures slots { result.now ≡ self.now.watches }
        ensures count { length self.now.watches ≡ WATCHES }
    {
        &self.watches
    }

    /// Whether no watchpoint was made yet, so that none is held, and no hit waits.
    pub(crate) fn is_unused(&self) -> bool
        ensures { result ≡ true → self.now ≡ no_watches }
    {
        !self.used
    }

    /// Whether a hit waits to be delivered as exception 1.
    pub(crate) fn is_due(&self) -> bool
        ensures { result ≡ self.now.due }
    {
        self.due
    }

    /// No hit waits any more.
    pub(crate) fn clear_due(&mut self)
        ensures { self.new ≡ record self.old { due = false } }
    {
        self.due = false;
    }

    /// Puts a watchpoint, or none, at a place, and notes whether a hit of it is due.
    pub(crate) fn put_hit(&mut self, place: usize, watch: Option<Watch>, due: bool)
        requires { place < WATCHES }
        ensures hit { self.new ≡ record {
          watches = slice_set self.old.watches place watch;
          due = self.old.due || due;
        } }
        ensures count { length self.new.watches ≡ WATCHES }
    {
        self.watches[place] = watch;
        self.due = self.due || due;
        self.used = true;
    }

    /// Puts a watchpoint, or none, at a handle.
    pub(crate) fn put(&mut self, handle: u16, watch: Option<Watch>)
        requires from { 0 < handle }
        requires to { handle ≤ WATCHES }
        ensures { self.new ≡ record self.old { watches = slice_set self.old.watches (handle - 1) watch } }
    {
        self.watches[usize::from(handle) - 1] = watch;
        self.used = true;
    }
}
