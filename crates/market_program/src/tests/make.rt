// `make`, which reads no input.
use super::every_fault::try_failing;
use super::*;

// No number of workers changes a byte.
const MADE: &str = "\
== two students and two sections
make 1 7 2 2 0
make 2 7 2 2 0
=> 0
students 2
sections 2
commands 6
error 0
turns 0
rounds 0
passes 1
seats 2
utility 182
proof 17
== one student and one section
make 2 0 1 1 0
=> 0
students 1
sections 1
commands 1
error 0
turns 0
rounds 0
passes 1
seats 1
utility 54
proof 6
== forty students, no error
make 1 7 40 15 0
make 16 7 40 15 0
=> 5
no prices: least error 3
";

// Markets of more seats, and of more students: their tests take too long where each step is watched
// (`rt try --test`).
const GREATER: &str = "\
== forty students, any error
make 1 7 40 15 1000000000000
make 2 7 40 15 1000000000000
make 16 7 40 15 1000000000000
=> 0
students 40
sections 15
commands 640
error 84
turns 0
rounds 87
passes 2
seats 62
utility 5370
proof 4517
== three hundred students
make 1 11 300 60 1000000000000
make 4 11 300 60 1000000000000
=> 0
students 300
sections 60
commands 6300
error 0
turns 0
rounds 0
passes 1
seats 1200
utility 104248
proof 32400
== greatest seed
make 2 18446744073709551615 9 5 1000000000000
=> 0
students 9
sections 5
commands 54
error 54
turns 0
rounds 16
passes 2
seats 12
utility 895
proof 239
== search in thirteen turns
make 4 7 40 3 0
=> 0
students 40
sections 3
commands 160
error 0
turns 13
rounds 0
passes 1
seats 33
utility 2557
proof 431
== many rounds
make 4 3 200 12 1000000000000
=> 0
students 200
sections 12
commands 2600
error 3248
turns 0
rounds 65
passes 2
seats 251
utility 20992
proof 15775
";

#[test]
fn made_markets_are_run(rt: HostRuntime) -> Result<(), Fail> {
    try_cases(&rt, rt.alloc(), MADE)
}

#[test]
fn greater_made_markets_are_run(rt: HostRuntime) -> Result<(), Fail> {
    try_cases(&rt, rt.alloc(), GREATER)
}

// Commands and their answers where the shelf of no input answers no call.
const UNREAD: [(&str, &str); 3] = [
    (
        "make 2 7 2 2 0",
        "0\nstudents 2\nsections 2\ncommands 6\nerror 0\nturns 0\nrounds 0\npasses 1\nseats 2\nutility 182\nproof 17\n",
    ),
    (
        "make 2 0 1 1 0",
        "0\nstudents 1\nsections 1\ncommands 1\nerror 0\nturns 0\nrounds 0\npasses 1\nseats 1\nutility 54\nproof 6\n",
    ),
    ("make 2 7 40 15 0", "5\nno prices: least error 3\n"),
];

#[test]
fn made_markets_take_no_input(rt: HostRuntime) -> Result<(), Fail> {
    for (line, answers) in UNREAD {
        try_failing(&rt, rt.alloc(), line, (1, 0), answers)?;
    }
    Ok(())
}
