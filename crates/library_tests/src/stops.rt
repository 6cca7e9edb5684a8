// The stops of a run.
use crate::letter::{letter, no_program};
use dpmi_calls::{Client, DONE, REFUSED, Stop, Wanted, first_stops, last_stop};
use std::alloc::Global;
use std::test::Fail;

// What is looked for.
fn wanted(places: &'static [u32], bytes: &'static [u32]) -> Wanted<'static> {
    Wanted {
        places,
        bytes,
        stay_at: 0,
        stay_size: 0,
    }
}

// The numbers of a stop.
fn numbers(stop: &Stop) -> (u32, u32, u32) {
    (stop.turn, stop.reason, stop.which)
}

// The first two stops of some turns, how many there are, and the last turn that was made.
fn first_two(
    alloc: Global,
    from: u32,
    to: u32,
    wanted: &Wanted<'_>,
) -> Option<((u32, u32, u32), (u32, u32, u32), usize, u32)> {
    let mut stops = [Stop::NONE; 2];
    let (mut made, mut reached) = (0, 0);
    if first_stops(
        alloc,
        letter(0),
        from,
        to,
        wanted,
        &mut stops,
        &mut made,
        &mut reached,
    ) != DONE
    {
        return None;
    }
    Some((numbers(&stops[0]), numbers(&stops[1]), made, reached))
}

// The last stop of some turns, and the last turn that was made.
fn last(alloc: Global, from: u32, to: u32, wanted: &Wanted<'_>) -> Option<((u32, u32, u32), u32)> {
    let mut stop = Stop::NONE;
    let mut reached = 0;
    if last_stop(alloc, letter(0), from, to, wanted, &mut stop, &mut reached) != DONE {
        return None;
    }
    Some((numbers(&stop), reached))
}

const NONE: (u32, u32, u32) = (0, 0, 0);

// The client comes back from the first INT 21h to 0074h:0006h, the linear address 746h, in turn 4, and is at the vector's trap, at F0021h,
// after turns 3 and 6. The first INT changes the word at 84Eh, in turn 3; the second one pushes the same. It ends in turn 7, still at the
// trap.
#[test]
fn stops_are_at_places_and_changes(rt: HostRuntime) -> Result<(), Fail> {
    let place = wanted(&[0x740, 0x746], &[]);
    let trap = wanted(&[0xF_0021], &[]);
    let change = wanted(&[], &[0x84F, 0x84E]);
    let rows = [
        first_two(rt.alloc(), 1, 100, &place) == Some(((4, 2, 1), NONE, 1, 7)),
        first_two(rt.alloc(), 5, 100, &place) == Some((NONE, NONE, 0, 7)),
        first_two(rt.alloc(), 1, 100, &trap) == Some(((3, 2, 0), (6, 2, 0), 2, 6)),
        first_two(rt.alloc(), 4, 5, &trap) == Some((NONE, NONE, 0, 5)),
        first_two(rt.alloc(), 1, 100, &change) == Some(((3, 1, 0), NONE, 1, 7)),
        first_two(rt.alloc(), 4, 100, &change) == Some((NONE, NONE, 0, 7)),
        last(rt.alloc(), 1, 100, &trap) == Some(((7, 2, 0), 7)),
        last(rt.alloc(), 1, 5, &trap) == Some(((3, 2, 0), 5)),
        last(rt.alloc(), 1, 100, &change) == Some(((3, 1, 0), 7)),
    ];
    let wrong = rows.iter().position(|is_right| !*is_right);
    assert!(rt; wrong.is_none());
    Ok(())
}

// The client leaves the six bytes from 740h on in turn 4: in turn 3 it is at a trap.
#[test]
fn a_way_out_is_at_an_instruction(rt: HostRuntime) -> Result<(), Fail> {
    let stay = Wanted {
        places: &[],
        bytes: &[],
        stay_at: 0x740,
        stay_size: 6,
    };
    let found = first_two(rt.alloc(), 1, 4, &stay) == Some(((4, 3, 0), NONE, 1, 4));
    assert!(rt; found);
    Ok(())
}

// Whether a search in these turns of a client is refused.
fn is_refused(alloc: Global, client: Client<'_>, from: u32, to: u32) -> bool {
    let mut stop = Stop::NONE;
    let mut reached = 1;
    let status = last_stop(
        alloc,
        client,
        from,
        to,
        &wanted(&[], &[]),
        &mut stop,
        &mut reached,
    );
    status == REFUSED && reached == 0
}

#[test]
fn turns_that_are_none_are_refused(rt: HostRuntime) -> Result<(), Fail> {
    let rows = [
        is_refused(rt.alloc(), letter(0), 0, 5),
        is_refused(rt.alloc(), letter(0), 6, 5),
        is_refused(rt.alloc(), letter(0), 1, 1_000_000_001),
        is_refused(rt.alloc(), letter(1_000_000_001), 1, 5),
        is_refused(rt.alloc(), no_program(), 1, 5),
        !is_refused(rt.alloc(), letter(3), 5, 5),
    ];
    let wrong = rows.iter().position(|is_right| !*is_right);
    assert!(rt; wrong.is_none());
    Ok(())
}
