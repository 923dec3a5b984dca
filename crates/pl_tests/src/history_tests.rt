// The printed lines, whose texts were written by hand from the rules of the format, and a history that is filled.
ghost use Rattle.std.specs.Prelude.{◌≡◌};
ghost use Rattle.pl_history.specs.History.{part_end};

use pl_base::{EncNo, No, Place, State, Why};
use pl_history::{Answer, Entry, History, put_entry, put_history, put_summary};
use pl_io::MemSink;
use std::alloc::Global;
use std::process::Abort;
use std::test::Fail;

const BYTES: [u8; 4] = [0xff, 0, 0x0f, 0xab];

const BLOCK: Place = Place::Block {
    page: 1234,
    block: 63,
};

const NODE: Place = Place::Node {
    level: 1,
    zone: 2,
    index: 511,
};

const ROOT_NODE: Place = Place::RootNode { level: 2, index: 0 };

fn part_end(answer: &Answer) -> u64
    ensures { result ≡ part_end answer.now }
{
    match *answer {
        Answer::Wrote { from, len, .. } | Answer::Kept { from, len, .. } => {
            u64::from(from) + u64::from(len)
        }
        _ => 0,
    }
}

// The line of an entry of hart 1 or the attacker, where there are four harts.
fn line_of(alloc: Global, actor: u8, answer: Answer) -> Result<Vec<u8>, Fail> {
    let mut history = History::new(alloc, 1, 4)?;
    history.add_bytes(&BYTES);
    if part_end(&answer) > 4 {
        return Err(Fail::from("names a part past the bytes"));
    }
    history.add(Entry {
        actor,
        line: 70,
        answer,
    });
    let mut sink = MemSink::new(alloc, 100, Vec::new(alloc))?;
    put_entry(&mut sink, 4, &history, 0)?;
    Ok(Vec::from_slice(alloc, sink.bytes())?)
}

fn has_line(
    rt: &impl Abort,
    alloc: Global,
    actor: u8,
    answer: Answer,
    want: &str,
) -> Result<(), Fail> {
    let line = line_of(alloc, actor, answer)?;
    assert_eq!(rt; line.as_slice(), want.as_bytes(), "{want}");
    Ok(())
}

// An actor, its answer, and the line.
const ANSWERS: [(u8, Answer, &str); 7] = [
    (0, Answer::Begun, "h0 70 begun\n"),
    (4, Answer::Ok, "x 70 ok\n"),
    (3, Answer::Value(0xab), "h3 70 value 00000000000000ab\n"),
    (1, Answer::Word(u64::MAX), "h1 70 word ffffffffffffffff\n"),
    (
        4,
        Answer::Wrote {
            changed: true,
            pa: 0x8000_0040,
            from: 1,
            len: 3,
        },
        "x 70 wrote 1 80000040 000fab\n",
    ),
    (
        4,
        Answer::Wrote {
            changed: false,
            pa: 0x8000_0fff,
            from: 0,
            len: 1,
        },
        "x 70 wrote 0 80000fff ff\n",
    ),
    (
        4,
        Answer::Kept {
            pa: 0,
            from: 0,
            len: 4,
        },
        "x 70 kept 0 ff000fab\n",
    ),
];

#[test]
fn each_answer_has_its_line(rt: HostRuntime) -> Result<(), Fail> {
    for &(actor, answer, want) in &ANSWERS {
        has_line(&rt, rt.alloc(), actor, answer, want)?;
    }
    Ok(())
}

// A count, a reason to leave, and what the line says of them.
const REASONS: [(u32, Why, &str); 9] = [
    (0, Why::Ended(42), "left 0 ended 000000000000002a"),
    (4_294_967_295, Why::Budget, "left 4294967295 budget"),
    (1, Why::Waiting, "left 1 waiting"),
    (8193, Why::OutFull, "left 8193 out-full"),
    (2, Why::NeedPage, "left 2 need-page"),
    (
        3,
        Why::Trapped {
            cause: 15,
            value: 0x10ff8,
        },
        "left 3 trapped 15 0000000000010ff8",
    ),
    (4, Why::Fault(BLOCK), "left 4 fault block 1234 63"),
    (5, Why::Fault(NODE), "left 5 fault node 1 2 511"),
    (6, Why::Fault(ROOT_NODE), "left 6 fault root-node 2 0"),
];

#[test]
fn each_reason_to_leave_has_its_line(rt: HostRuntime) -> Result<(), Fail> {
    let alloc = rt.alloc();
    for &(count, why, want) in &REASONS {
        let whole = format!(in alloc; "h1 70 {want}\n")?;
        has_line(&rt, alloc, 1, Answer::Left { count, why }, whole.as_str())?;
    }
    Ok(())
}

fn has_line_of_no(rt: &impl Abort, alloc: Global, cause: No, want: &str) -> Result<(), Fail> {
    let whole = format!(in alloc; "h2 70 no {want}\n")?;
    has_line(rt, alloc, 2, Answer::No(cause), whole.as_str())
}

// A cause, and what the line says of it.
const REFUSALS: [(No, &str); 21] = [
    (No::Misaligned, "2 misaligned"),
    (No::PageFault, "3 page-fault"),
    (No::AccessFault, "4 access-fault"),
    (No::Fault(BLOCK), "5 fault block 1234 63"),
    (No::Fault(NODE), "5 fault node 1 2 511"),
    (No::Fault(ROOT_NODE), "5 fault root-node 2 0"),
    (No::BadAddress, "6 bad-address"),
    (No::Busy, "7 busy"),
    (No::Mapped, "8 mapped"),
    (No::NotYours(4095), "9 not-yours 4095"),
    (No::NotMapped, "10 not-mapped"),
    (No::Exists, "11 exists"),
    (No::Count, "12 count"),
    (No::Twice(0), "13 twice 0"),
    (No::StillMapped(20), "14 still-mapped 20"),
    (No::Barred(4_294_967_295), "15 barred 4294967295"),
    (No::NoEnclave, "16 no-enclave"),
    (No::Full, "18 full"),
    (No::Empty, "19 empty"),
    (No::TooMany, "20 too-many"),
    (No::InUse(EncNo(63)), "21 in-use 63"),
];

#[test]
fn each_refusal_has_its_line(rt: HostRuntime) -> Result<(), Fail> {
    for &(cause, want) in &REFUSALS {
        has_line_of_no(&rt, rt.alloc(), cause, want)?;
    }
    Ok(())
}

// A wrong state, and what the line says of it.
const STATES: [(State, &str); 10] = [
    (State::Free, "17 wrong-state free"),
    (State::Building, "17 wrong-state building"),
    (State::Fresh, "17 wrong-state fresh"),
    (State::On, "17 wrong-state on"),
    (State::Paused, "17 wrong-state paused"),
    (State::Ended, "17 wrong-state ended"),
    (State::Trapped, "17 wrong-state trapped"),
    (State::Faulted, "17 wrong-state faulted"),
    (State::Dying, "17 wrong-state dying"),
    (State::Sealed, "17 wrong-state sealed"),
];

#[test]
fn each_wrong_state_has_its_line(rt: HostRuntime) -> Result<(), Fail> {
    for &(state, want) in &STATES {
        has_line_of_no(&rt, rt.alloc(), No::WrongState(state), want)?;
    }
    Ok(())
}

const FIRST: Entry = Entry {
    actor: 0,
    line: 0,
    answer: Answer::Begun,
};

const SECOND: Entry = Entry {
    actor: 1,
    line: 3,
    answer: Answer::Kept {
        pa: 0x8000_0000,
        from: 3,
        len: 2,
    },
};

#[test]
fn a_history_is_filled(rt: HostRuntime) -> Result<(), Fail> {
    let mut history = History::new(rt.alloc(), 2, 6)?;
    assert_eq!(rt; history.room(), (2, 6));
    assert_eq!(rt; history.add_bytes(&BYTES), 0);
    assert_eq!(rt; history.add_bytes(&[0x7f]), 4);
    assert_eq!(rt; history.room(), (2, 1));
    history.add(FIRST);
    history.add(SECOND);
    assert_eq!(rt; history.room(), (0, 1));
    assert_eq!(rt; history.bytes(), [0xff, 0, 0x0f, 0xab, 0x7f].as_slice());
    assert_eq!(rt; history.entries(), [FIRST, SECOND].as_slice());
    Ok(())
}

// Where there is one hart the other actor is the attacker, and where there are two it is hart 1.
#[test]
fn a_history_is_printed(rt: HostRuntime) -> Result<(), Fail> {
    let mut history = History::new(rt.alloc(), 2, 6)?;
    history.add_bytes(&[0xff, 0, 0x0f, 0xab, 0x7f]);
    history.add(FIRST);
    history.add(SECOND);
    let mut sink = MemSink::new(rt.alloc(), 200, Vec::new(rt.alloc()))?;
    put_history(&mut sink, 1, &history)?;
    put_history(&mut sink, 2, &history)?;
    assert_eq!(rt;
        sink.bytes(),
        b"h0 0 begun\nx 3 kept 80000000 ab7f\nh0 0 begun\nh1 3 kept 80000000 ab7f\n".as_slice()
    );
    Ok(())
}

// Adds an answer that names no bytes.
fn add(history: &mut History, answer: Answer) -> Result<(), Fail> {
    if history.room().0 == 0 || part_end(&answer) > 0 {
        return Err(Fail::from("no room, or bytes are named"));
    }
    history.add(Entry {
        actor: 0,
        line: 0,
        answer,
    });
    Ok(())
}

fn has_summary(rt: &impl Abort, alloc: Global, history: &History, want: &[u8]) -> Result<(), Fail> {
    let mut sink = MemSink::new(alloc, 200, Vec::new(alloc))?;
    put_summary(&mut sink, history)?;
    assert_eq!(rt; sink.bytes(), want);
    Ok(())
}

// Four lines and two words.
const FIVE: [Answer; 5] = [
    Answer::Begun,
    Answer::Ok,
    Answer::Word(0xf0f0_0000_0000_1234),
    Answer::No(No::Empty),
    Answer::Word(0x0ff0_0000_0000_0204),
];

#[test]
fn a_summary_counts_lines_and_words(rt: HostRuntime) -> Result<(), Fail> {
    let mut history = History::new(rt.alloc(), 5, 0)?;
    let empty = b"lines 0\nwords 0\nxor 0000000000000000\n";
    has_summary(&rt, rt.alloc(), &history, empty)?;
    for &answer in &FIVE {
        add(&mut history, answer)?;
    }
    let five = b"lines 4\nwords 2\nxor ff00000000001030\n";
    has_summary(&rt, rt.alloc(), &history, five)
}
