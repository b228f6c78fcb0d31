//! Printed lines that no script shows: ends of links that a sound node does not bring about, the greatest
//! numbers of a line and of a client's connection, and other spellings of one; states that are put on a
//! stream, pulls that wait for the answer to one, and other spellings of both.
use bytes::BytesMut;
use script_text::{parse_transcript, print};
use std::alloc::{AllocError, Global};
use std::test::Fail;
use vb_events::{Answer, EndReason, Event, Group, StreamName, Why};
use vb_types::{Listed, Role};

/// The text of a group.
fn printed(alloc: Global, group: &Group) -> Result<BytesMut, Fail> {
    let mut out = BytesMut::new(alloc);
    print(alloc, group, &mut out)?;
    Ok(out)
}

/// The text of group 10, in which link 4 ends.
fn printed_end(alloc: Global, reason: EndReason) -> Result<BytesMut, Fail> {
    let group = Group {
        line: 10,
        events: Listed::one(alloc, Event::Ended { link: 4, reason })?,
        answer: Answer::Ok,
    };
    printed(alloc, &group)
}

#[test]
fn a_protocol_fault_is_printed(rt: HostRuntime) -> Result<(), Fail> {
    let out = printed_end(rt.alloc(), EndReason::Protocol)?;
    assert_eq!(rt; out.as_slice(), b"#10\nend L4 protocol\nok\n".as_slice());
    Ok(())
}

#[test]
fn a_stream_that_is_done_is_printed(rt: HostRuntime) -> Result<(), Fail> {
    let out = printed_end(rt.alloc(), EndReason::Done)?;
    assert_eq!(rt; out.as_slice(), b"#10\nend L4 done\nok\n".as_slice());
    Ok(())
}

/// A group of two lines, under the greatest number.
fn two_closed(alloc: Global) -> Result<Group, Fail> {
    let mut events = Listed::one(alloc, Event::Closed { node: 0, client: 9 })?;
    events.push(Event::Closed { node: 0, client: 8 })?;
    Ok(Group {
        line: u64::MAX,
        events,
        answer: Answer::Number(191),
    })
}

#[test]
fn a_group_has_its_lines_in_order(rt: HostRuntime) -> Result<(), Fail> {
    let group = two_closed(rt.alloc())?;
    let out = printed(rt.alloc(), &group)?;
    let text = b"#18446744073709551615\nclosed 0 9\nclosed 0 8\nok 191\n".as_slice();
    assert_eq!(rt; out.as_slice(), text);
    Ok(())
}

/// A group in which a stream of the client's connection ends that has the greatest numbers.
fn widest_client(alloc: Global) -> Result<Group, Fail> {
    let stream = StreamName::Client(u8::MAX, u32::MAX);
    let ended = Event::Finished { stream, reason: 5 };
    Ok(Group {
        line: 10,
        events: Listed::one(alloc, ended)?,
        answer: Answer::Ok,
    })
}

const WIDEST_CLIENT: &[u8] = b"#10\nfin C255.4294967295 5\nok\n";

#[test]
fn the_widest_client_is_printed(rt: HostRuntime) -> Result<(), Fail> {
    let group = widest_client(rt.alloc())?;
    let out = printed(rt.alloc(), &group)?;
    assert_eq!(rt; out.as_slice(), WIDEST_CLIENT);
    Ok(())
}

/// The number of the first bad line of a transcript, if it has one.
fn bad_line(alloc: Global, text: &[u8]) -> Result<Option<u64>, AllocError> {
    Ok(parse_transcript(alloc, text)?.err().map(|bad| bad.line))
}

#[test]
fn the_widest_client_is_read(rt: HostRuntime) -> Result<(), Fail> {
    assert_eq!(rt; bad_line(rt.alloc(), WIDEST_CLIENT)?, None);
    Ok(())
}

// Transcripts that break off at their second line.
const OTHER_CLIENTS: [&[u8]; 9] = [
    b"#10\nfin C00.1 5\nok\n",
    b"#10\nfin C0.01 5\nok\n",
    b"#10\nfin C0 5\nok\n",
    b"#10\nfin C0.1.2 5\nok\n",
    b"#10\nfin C.1 5\nok\n",
    b"#10\nfin C0. 5\nok\n",
    b"#10\nfin c0.1 5\nok\n",
    b"#10\nfin C256.1 5\nok\n",
    b"#10\nfin C0.4294967296 5\nok\n",
];

/// The place of the first of these transcripts that does not break off at its second line.
fn first_read(alloc: Global, texts: &[&[u8]]) -> Result<Option<usize>, AllocError> {
    for (at, text) in texts.iter().enumerate() {
        if bad_line(alloc, *text)? != Some(2) {
            return Ok(Some(at));
        }
    }
    Ok(None)
}

#[test]
fn other_spellings_of_a_client_are_bad(rt: HostRuntime) -> Result<(), Fail> {
    assert_eq!(rt; first_read(rt.alloc(), &OTHER_CLIENTS)?, None);
    Ok(())
}

/// A group in which a pull put a state, and waits for the answer to it.
fn told(alloc: Global, line: u64, stream: StreamName, role: Role) -> Result<Group, Fail> {
    // Another number in each of the four groups.
    let frames = 5u64.saturating_sub(line);
    Ok(Group {
        line,
        events: Listed::one(alloc, Event::Stated { stream, role })?,
        answer: Answer::Pulled(frames, Why::WaitState),
    })
}

/// The text of a group of each role that a state tells.
fn printed_states(alloc: Global) -> Result<BytesMut, Fail> {
    let mut out = BytesMut::new(alloc);
    let widest = StreamName::Client(u8::MAX, u32::MAX);
    print(
        alloc,
        &told(alloc, 1, StreamName::Link(1), Role::Pending)?,
        &mut out,
    )?;
    print(
        alloc,
        &told(alloc, 2, StreamName::Link(u32::MAX), Role::Active)?,
        &mut out,
    )?;
    print(
        alloc,
        &told(alloc, 3, StreamName::Client(0, 1), Role::Replica)?,
        &mut out,
    )?;
    print(alloc, &told(alloc, 4, widest, Role::Dead)?, &mut out)?;
    Ok(out)
}

const STATES: &[u8] = b"#1\nstate L1 pending\nok 4 wait-state\n\
#2\nstate L4294967295 active\nok 3 wait-state\n\
#3\nstate C0.1 replica\nok 2 wait-state\n\
#4\nstate C255.4294967295 dead\nok 1 wait-state\n";

#[test]
fn states_are_printed(rt: HostRuntime) -> Result<(), Fail> {
    assert_eq!(rt; printed_states(rt.alloc())?.as_slice(), STATES);
    Ok(())
}

/// What the groups of a transcript print, if it is one.
fn printed_again(alloc: Global, text: &[u8]) -> Result<BytesMut, Fail> {
    let mut out = BytesMut::new(alloc);
    if let Ok(groups) = parse_transcript(alloc, text)? {
        for group in groups.as_slice() {
            print(alloc, group, &mut out)?;
        }
    }
    Ok(out)
}

#[test]
fn states_are_read(rt: HostRuntime) -> Result<(), Fail> {
    assert_eq!(rt; printed_again(rt.alloc(), STATES)?.as_slice(), STATES);
    Ok(())
}

// Transcripts that break off at their second line.
const OTHER_STATES: [&[u8]; 12] = [
    b"#10\nstate L1 Pending\nok\n",
    b"#10\nstate L1\nok\n",
    b"#10\nstate L1 pending x\nok\n",
    b"#10\nstate pending\nok\n",
    b"#10\nstate 1 pending\nok\n",
    b"#10\nstate L01 pending\nok\n",
    b"#10\nstate L1 pendin\nok\n",
    b"#10\nState L1 pending\nok\n",
    b"#10\nok 4 wait-State\n",
    b"#10\nok 4 wait-stat\n",
    b"#10\nok wait-state\n",
    b"#10\nok 4 wait-state 4\n",
];

#[test]
fn other_spellings_of_states_are_bad(rt: HostRuntime) -> Result<(), Fail> {
    assert_eq!(rt; first_read(rt.alloc(), &OTHER_STATES)?, None);
    Ok(())
}
