// The records of the calls that haven't returned, as a stack.
ghost use Rattle.std.specs.Prelude.{◌≡◌, ◌≢◌, ◌≤◌, ◌<◌, None};
ghost use Rattle.client_world.specs.{declared.limits.TheConstants.{GREATEST_DEPTH}, World.{depth}, declared.calls.Record.{Record}};
ghost use Rattle.host_memory.specs.Records.{record_at, record_bytes};
ghost use Rattle.mode_stack.specs.Stack.{Pushes, after_pop, top};

use crate::packing::{pack, unpack};
use client_world::limits::GREATEST_DEPTH;
use client_world::{Deep, Record, a_flags_image_gives_its_flags_back};
use guest_space::Machine;

// The number of rows, one for each depth.
const ROWS: u8 = GREATEST_DEPTH as u8;

/// The depth: the number of records, 32 at most. Source: own.
pub fn depth(m: &Machine) -> u8
    ensures depth { result ≡ depth m.now.world }
    ensures most { result ≤ GREATEST_DEPTH }
{
    m.record_count()
}

/// The innermost record, or `None` at depth 0. Source: own.
pub fn top(m: &Machine) -> Option<Record>
    ensures { result ≡ top m.now.world }
{
    let n = depth(m);
    if n == 0 {
        return None;
    }

    Some(unpack(&m.record_bytes(n - 1)))
}

/// Makes a record the innermost one. `Deep` at the greatest depth, which leaves the machine as it was. Source: own.
pub fn push(m: &mut Machine, r: &Record) -> Result<(), Deep>
    requires { m.old.world.width ≢ None }
    ensures { Pushes r.now result m.old m.new }
{
    a_flags_image_gives_its_flags_back();
    if depth(m) == ROWS {
        return Err(Deep);
    }

    m.put_record(&pack(r));
    Ok(())
}

/// Removes the innermost record. Source: own.
pub fn pop(m: &mut Machine)
    requires { 0 < depth m.old.world }
    ensures { m.new ≡ after_pop m.old }
{
    m.drop_record();
}

/// Reading the bytes of a record gives that record back, whatever its numbers are.
pub fn every_record_is_read_from_its_bytes()
    ensures { (r : Record) → record_at (record_bytes r) 0 ≡ r }
{
    a_flags_image_gives_its_flags_back();
}
