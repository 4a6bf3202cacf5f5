// A call over a shelf and a sink that never fail.
use super::*;
use market_edge::{SureShelf, SureSink};
use market_host::sure_match;
use worked_terms::NOBODY_TERM;

// Nobody on the roll: the work is done, and the whole text is taken.
#[test]
fn a_sure_call_is_done(rt: HostRuntime) -> Result<(), Fail> {
    let alloc = rt.alloc();
    let line = "run 2 nobody.cat nobody.stu nobody.set nobody.s1";
    let mut shelf = SureShelf::make(named_files(alloc, line)?);
    let mut sink = SureSink::make(alloc, ROOM).expect(&rt, "room");
    let words = words_of(alloc, line)?;
    let status = sure_match(&rt, alloc, &words, &mut shelf, &mut sink, &OpenGate);
    assert_eq!(rt; status, Status::Done);
    assert_eq!(rt; sink.taken(), Some(NOBODY_TERM.text.as_bytes()));
    Ok(())
}
