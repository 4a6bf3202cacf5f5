// Each call of the shelf in turn fails, each write of the sink, and each place of the text at which
// the sink has no more room.
use super::cases::text_of;
use super::*;

// An input of a few bytes takes so many calls of the shelf: its begin, its reading, its end.
const CALLS: u64 = 3;

// A command, how many inputs it reads, and its answer.
type Command = (&'static str, u16, &'static str);

const RUNS: [Command; 2] = [
    (
        "run 2 term.cat term.stu term.set term.s1",
        4,
        "0 term.text\n",
    ),
    (
        "run 2 four.cat four.stu ACCEPT8 four.s1",
        4,
        "5\norder 1 1 1 1\nno prices: least error 9\n",
    ),
];

const OF_PUBLISHED_TEXTS: [Command; 4] = [
    (
        "check term.cat term.stu term.set term.text term.s1",
        5,
        "0\naccepted\n",
    ),
    (
        "explain term.cat term.stu term.set term.text bob A term.s1",
        5,
        "0\nbob A alone price\n",
    ),
    (
        "audit 2 term.cat term.stu term.set term.text term.s1",
        5,
        "0 term.envy\n",
    ),
    (
        "hall equal.cat equal.stu equal.text DROP-X BLANK",
        5,
        "0\nentry 1 drop u X: dropped 0\nfinal u []\nfinal v []\nused X 0 1\n",
    ),
];

// Each input is read to its end, also the comment line of a first session.
const OF_WISHES: [Command; 5] = [
    (
        "demand 2 four.cat four.stu four.set X=102 four.s1",
        5,
        "0\norder 1 1 1 1\nbundle s1 []\nbundle s2 []\nbundle s3 [X]\nbundle s4 [X]\ncount X 2\nerror 1\n",
    ),
    (
        "prefer four.cat four.stu RATE-X",
        3,
        "0\nentry 1 done rate s1 X 50\nrate s1 X 50\n",
    ),
    (
        "prefer TWO ANN COMMENT RATE-A",
        4,
        "0\nentry 2 done rate ann A 9\nrate ann A 9\n",
    ),
    (
        "quote four.cat RATE-X s1 10 1",
        2,
        "0\nbundle s1 [X]\nutility 50\n",
    ),
    (
        "quote TWO TIE ann 10 1",
        2,
        "0\nbundle ann [A]\nutility 50\n",
    ),
];

/// Runs a command where the shelf's call and the sink's write of these numbers fail, counted from
/// 1; with 0 none fails. Fails where it has none of these answers.
pub(super) fn try_failing<R: Threads + Wait + Sync + Abort>(
    rt: &R,
    alloc: Global,
    line: &str,
    failing: (u64, u64),
    answers: &str,
) -> Result<(), Fail> {
    let answer = run_by(rt, alloc, line, failing, ROOM, &OpenGate)?;
    assert_told(rt, alloc, line, answers, &answer)
}

// The input that is being read is told, and nothing else is written; where the first write fails as
// well, nothing is.
fn try_fault<R: Threads + Wait + Sync + Abort>(
    rt: &R,
    alloc: Global,
    line: &str,
    input: u16,
    call: u64,
) -> Result<(), Fail> {
    let status = Status::ShelfFault { input };
    let told = format!(in alloc; "{status:?}\ninput {input} can not be read\n")?;
    try_failing(rt, alloc, line, (call, 0), told.as_str())?;
    try_failing(rt, alloc, line, (call, 1), "6\n")
}

// Each of the calls that read so many inputs; where the next one would fail, there is none.
fn try_faults<R: Threads + Wait + Sync + Abort>(
    rt: &R,
    alloc: Global,
    line: &str,
    inputs: u16,
    answer: &str,
) -> Result<(), Fail> {
    for input in 1..=inputs {
        let before = CALLS.saturating_mul(u64::from(input.saturating_sub(1)));
        for call in 1..=CALLS {
            try_fault(rt, alloc, line, input, before.saturating_add(call))?;
        }
    }
    let next = CALLS.saturating_mul(u64::from(inputs)).saturating_add(1);
    try_failing(rt, alloc, line, (next, 0), answer)
}

// A sink that has less room than the text takes the first bytes of it.
fn try_rooms<R: Threads + Wait + Sync + Abort>(
    rt: &R,
    alloc: Global,
    command: &Command,
) -> Result<(), Fail> {
    let (line, _, answer) = command;
    let Some((title, text)) = answer.split_once('\n') else {
        return Err(Fail::from("an answer without a text"));
    };
    let text = text_of(alloc, title, text)?;
    for room in 0..text.len() {
        let (status, written) = run_by(rt, alloc, line, (0, 0), room, &OpenGate)?;
        assert_front(rt, line, &text, room, status, written.as_str());
    }
    Ok(())
}

fn assert_front<R: Abort>(
    rt: &R,
    line: &str,
    text: &[u8],
    room: usize,
    status: Status,
    written: &str,
) {
    assert_eq!(rt; status, Status::SinkFault, "{line}: room {room}");
    assert!(rt;
        text.get(..room) == Some(written.as_bytes()),
        "{line}: room {room}"
    );
}

// Each call of the shelf and each write of the sink. Where the first write fails nothing is
// written; a second one is not made.
fn try_calls<R: Threads + Wait + Sync + Abort>(
    rt: &R,
    alloc: Global,
    commands: &[Command],
) -> Result<(), Fail> {
    for (line, inputs, answer) in commands {
        try_faults(rt, alloc, line, *inputs, answer)?;
        try_failing(rt, alloc, line, (0, 1), "6\n")?;
        try_failing(rt, alloc, line, (0, 2), answer)?;
    }
    Ok(())
}

#[test]
fn every_call_that_fails(rt: HostRuntime) -> Result<(), Fail> {
    try_calls(&rt, rt.alloc(), &RUNS)?;
    try_calls(&rt, rt.alloc(), &OF_PUBLISHED_TEXTS)?;
    try_calls(&rt, rt.alloc(), &OF_WISHES)
}

// The first call of the shelf fails, or the first write of the sink, where nobody is on the roll.
const OF_NOBODY: [((u64, u64), &str); 2] = [
    ((1, 0), "ShelfFault { input: 1 }\ninput 1 can not be read\n"),
    ((0, 1), "6\n"),
];

#[test]
fn the_first_call_that_fails(rt: HostRuntime) -> Result<(), Fail> {
    let line = "run 2 nobody.cat nobody.stu nobody.set nobody.s1";
    for (failing, answers) in OF_NOBODY {
        try_failing(&rt, rt.alloc(), line, failing, answers)?;
    }
    Ok(())
}

#[test]
fn every_room_of_a_run(rt: HostRuntime) -> Result<(), Fail> {
    try_all_rooms(&rt, rt.alloc(), &RUNS)
}

#[test]
fn every_room_of_the_other_forms(rt: HostRuntime) -> Result<(), Fail> {
    try_all_rooms(&rt, rt.alloc(), &OF_PUBLISHED_TEXTS)?;
    try_all_rooms(&rt, rt.alloc(), &OF_WISHES)
}

fn try_all_rooms<R: Threads + Wait + Sync + Abort>(
    rt: &R,
    alloc: Global,
    commands: &[Command],
) -> Result<(), Fail> {
    for command in commands {
        try_rooms(rt, alloc, command)?;
    }
    Ok(())
}
