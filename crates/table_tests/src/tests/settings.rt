// Texts of settings, beside the worked refusals of settings. Of each is told `read`, or its refusal
// as it prints itself.
use market_settings::{Settings, read_settings};
use std::alloc::Global;
use std::process::Abort;
use std::test::Fail;

// The settings of an ordinary text.
const ORDINARY: &str = "\
seed 3
spread 3
accept 3
turns 3
tabu 3
patience 3
steps [1]
raise 10
";

// A setting, another value of it in the ordinary text, and what is told then. Where it has
// `nothing`, the setting is left out.
const VALUES: &str = "\
seed 0 => read
seed 18446744073709551615 => read
seed 18446744073709551616 => Range(Seed)
seed 1.7976931348623158e308 => Range(Seed)
seed -1 => Range(Seed)
seed 1.7976931348623159e308 => NotJson
seed 1e999 => NotJson
seed 18446744073709551616. => NotJson
seed -0 => Range(Seed)
seed 1.0 => Range(Seed)
seed 1e3 => Range(Seed)
seed 07 => NotJson
seed \"7\" => Range(Seed)
seed null => Range(Seed)
seed [7] => Range(Seed)
seed {\"seed\":7} => Range(Seed)
spread 0 => read
spread 49 => read
spread 50 => Range(Spread)
accept 0 => read
accept 1000000000000 => read
accept 1000000000001 => Range(Accept)
turns 0 => read
turns 10000 => read
turns 10001 => Range(Turns)
turns 5.0 => Range(Turns)
turns 5e0 => Range(Turns)
tabu 0 => Range(Tabu)
tabu 1 => read
tabu 1000 => read
tabu 1001 => Range(Tabu)
patience 0 => Range(Patience)
patience 1 => read
patience 10000 => read
patience 10001 => Range(Patience)
steps [1,1,1,1,1,1,1,1,1,1,1,1,1,1,1,100000] => read
steps [1,1,1,1,1,1,1,1,1,1,1,1,1,1,1,1,1] => Range(Steps)
steps [] => Range(Steps)
steps [1,0] => Range(Steps)
steps [1,100001] => Range(Steps)
steps [1,-1] => Range(Steps)
steps [[1]] => Range(Steps)
steps 1 => Range(Steps)
raise 0 => read
raise 50 => read
raise 51 => Range(Raise)
seed nothing => Missing(Seed)
spread nothing => Missing(Spread)
accept nothing => Missing(Accept)
turns nothing => Missing(Turns)
tabu nothing => Missing(Tabu)
patience nothing => Missing(Patience)
steps nothing => Missing(Steps)
raise nothing => Missing(Raise)
";

// Whole texts: `|` is a line feed, and `..` the settings but the seed.
const TEXTS: &str = "\
null => NotObject
 => NotJson
[] => NotObject
{} => Missing(Seed)
{\"seed\":0,..} => read
 \t{\"seed\" : 0 ,|..}\r| => read
{\"seed\":0,..}x => NotJson
{\"seed\":0,..,} => NotJson
{\"seed\":0,..}// seed => NotJson
{\"seed\":0,.. => NotJson
\u{feff}{\"seed\":0,..} => NotJson
{\"\\ud800\":0,..} => NotJson
{\"\\u0073eed\":0,..} => read
{\"Seed\":0,..} => Missing(Seed)
{\"seed\":0,..,\"note\":1} => Unknown
{\"seed\":-1,..,\"note\":1} => Unknown
{\"note\":-1,..} => Missing(Seed)
{\"seed\":-1,\"seed\":0,..} => read
{\"seed\":0,..,\"seed\":-1} => Range(Seed)
{\"seed\":0,..,\"raise\":51,\"accept\":-1} => Range(Accept)
";

const REST: &str =
    "\"spread\":2,\"accept\":1,\"turns\":5,\"tabu\":5,\"patience\":3,\"steps\":[1],\"raise\":10";

fn is_same(name: &str, other: &str) -> bool {
    name == other
}

// The ordinary text, with another value of one setting, or without it.
fn text_with(alloc: Global, changed: &str, value: &str) -> Result<String, Fail> {
    let mut text = String::from_str(alloc, "{")?;
    for setting in ORDINARY.split_terminator('\n') {
        let Some((name, ordinary)) = setting.split_once(' ') else {
            return Err(Fail::from("a setting without a value"));
        };
        let shown = if is_same(name, changed) {
            value
        } else {
            ordinary
        };
        if shown == "nothing" {
            continue;
        }
        if text.len() > 1 {
            text.push_str(",")?;
        }
        let member = format!(in alloc; "\"{name}\":{shown}")?;
        text.push_str(member.as_str())?;
    }
    text.push_str("}")?;
    Ok(text)
}

// A whole text as a case writes it.
fn text_of(alloc: Global, written: &str) -> Result<String, Fail> {
    let lines = written.replace(alloc, "|", "\n")?;
    Ok(lines.as_str().replace(alloc, "..", REST)?)
}

fn told(alloc: Global, text: &[u8]) -> Result<String, Fail> {
    match read_settings(alloc, text) {
        Ok(_) => Ok(String::from_str(alloc, "read")?),
        Err(refusal) => Ok(format!(in alloc; "{refusal:?}")?),
    }
}

fn assert_told(rt: &impl Abort, alloc: Global, text: &str, wanted: &str) -> Result<(), Fail> {
    let answer = told(alloc, text.as_bytes())?;
    assert_eq!(rt; answer.as_str(), wanted, "{text}");
    Ok(())
}

fn try_value(rt: &impl Abort, alloc: Global, case: &str) -> Result<(), Fail> {
    let Some((changed, wanted)) = case.split_once(" => ") else {
        return Err(Fail::from("a case without an answer"));
    };
    let Some((name, value)) = changed.split_once(' ') else {
        return Err(Fail::from("a setting without a value"));
    };
    let text = text_with(alloc, name, value)?;
    assert_told(rt, alloc, text.as_str(), wanted)
}

fn try_text(rt: &impl Abort, alloc: Global, case: &str) -> Result<(), Fail> {
    let Some((written, wanted)) = case.split_once(" => ") else {
        return Err(Fail::from("a case without an answer"));
    };
    let text = text_of(alloc, written)?;
    assert_told(rt, alloc, text.as_str(), wanted)
}

#[test]
fn one_value_is_another(rt: HostRuntime) -> Result<(), Fail> {
    for case in VALUES.split_terminator('\n') {
        try_value(&rt, rt.alloc(), case)?;
    }
    Ok(())
}

#[test]
fn whole_texts(rt: HostRuntime) -> Result<(), Fail> {
    for case in TEXTS.split_terminator('\n') {
        try_text(&rt, rt.alloc(), case)?;
    }
    Ok(())
}

// Bytes that are no text.
#[test]
fn bytes_that_are_not_utf_8(rt: HostRuntime) -> Result<(), Fail> {
    let texts: [&[u8]; 2] = [b"\xff", b"{\"\xc3\":0}"];
    for text in texts {
        let answer = told(rt.alloc(), text)?;
        assert_eq!(rt; answer.as_str(), "NotJson");
    }
    Ok(())
}

// The ordinary text with a raise of 10 and, under a name that no setting has, arrays nested this
// deep.
fn nested(alloc: Global, levels: u8) -> Result<String, Fail> {
    let mut value = String::from_str(alloc, "10,\"x\":")?;
    for _ in 0..levels {
        value.push_str("[")?;
    }
    for _ in 0..levels {
        value.push_str("]")?;
    }
    text_with(alloc, "raise", value.as_str())
}

#[test]
fn deep_nesting(rt: HostRuntime) -> Result<(), Fail> {
    for (levels, wanted) in [(126, "Unknown"), (127, "NotJson")] {
        let text = nested(rt.alloc(), levels)?;
        assert_told(&rt, rt.alloc(), text.as_str(), wanted)?;
    }
    Ok(())
}

fn settings_in(rt: &impl Abort, alloc: Global, text: &[u8]) -> Settings {
    read_settings(alloc, text).expect(rt, "settings")
}

#[test]
fn the_values_are_those_written(rt: HostRuntime) -> Result<(), Fail> {
    let text =
        b"{\"raise\":9,\"steps\":[1,10,100],\"patience\":7,\"tabu\":6,\"turns\":5,\"accept\":4,\"spread\":3,\"seed\":2}";
    let settings = settings_in(&rt, rt.alloc(), text);
    let wide = [settings.seed, settings.accept];
    assert_eq!(rt; wide, [2, 4]);
    let numbers = [settings.turns, settings.tabu, settings.patience];
    assert_eq!(rt; numbers, [5, 6, 7]);
    assert_eq!(rt; [settings.spread, settings.raise], [3, 9]);
    assert_eq!(rt; settings.steps.as_slice(), [1, 10, 100].as_slice());
    assert_eq!(rt; settings.steps.into_vec().len(), 3);
    Ok(())
}
