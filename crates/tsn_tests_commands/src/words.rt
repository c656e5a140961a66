//! Texts of pictures and of fields, of names too that no network file can have, and of faults that no command can meet.

use std::test::*;
use tsn_chart::words::{write_microseconds, write_name, write_whole};
use tsn_replay::ReplayFault;
use tsn_text::write_quoted;

#[test]
fn names_are_cut_and_escaped(rt: HostRuntime) -> Result<(), Fail> {
    let mut text = String::new(rt.alloc());
    write_name(&mut text, "four", 4)?;
    write_name(&mut text, " and five", 5)?;
    write_whole(&mut text, " <a&b>\"'\n\u{1}\u{e9}")?;
    assert_eq!(&rt;
        text.as_str(),
        "four and&#8230; &lt;a&amp;b&gt;&quot;&#39; &#65533;\u{e9}"
    );
    Ok(())
}

#[test]
fn instants_have_few_decimals(rt: HostRuntime) -> Result<(), Fail> {
    let mut text = String::new(rt.alloc());
    for instant in [0, 1, 10, 100, 1000, 2924, 2050, 2500, 1_000_000_000] {
        write_microseconds(&mut text, instant)?;
        text.push(' ')?;
    }
    assert_eq!(&rt; text.as_str(), "0 0.001 0.01 0.1 1 2.924 2.05 2.5 1000000 ");
    Ok(())
}

#[test]
fn a_quote_stands_twice_in_a_field(rt: HostRuntime) -> Result<(), Fail> {
    let mut text = String::new(rt.alloc());
    write_quoted(&mut text, "four")?;
    write_quoted(&mut text, "a \"b\"\",c")?;
    assert_eq!(&rt; text.as_str(), "\"four\"\"a \"\"b\"\"\"\",c\"");
    Ok(())
}

/// A command replays the lists of its plan, which are in order.
#[test]
fn a_replay_says_what_it_refuses(rt: HostRuntime) -> Result<(), Fail> {
    for (fault, words) in [
        (
            ReplayFault::UnknownLink,
            "a list or a background frame is of no link, or a link has not one list",
        ),
        (
            ReplayFault::Limit,
            "a list or a background frame is outside the limits",
        ),
        (ReplayFault::Memory, "no memory"),
    ] {
        let text = format!(in rt.alloc(); "{fault}")?;
        assert!(&rt; text.as_str() == words, "{text}");
    }
    Ok(())
}
