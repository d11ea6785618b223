// What is read from words, and what comes of it.
use crate::request::{Refusal, Request, requested};
use crate::table::Table;
use crate::trial::tried;
use std::alloc::Global;
use std::process::Abort;
use std::test::Fail;
use tip_code::stop::Stop;
use tip_columns::Columns;

/// What the words of a line make.
fn asked(heap: Global, line: &str) -> Result<Result<Request, Refusal>, Fail> {
    let words: Vec<String> = line
        .split_whitespace()
        .map(|word| String::from_str(heap, word))
        .try_collect(heap)?;
    Ok(requested(&words))
}

/// What is said of the words of a line: the request, or why they are refused.
fn answer(heap: Global, line: &str) -> Result<String, Fail> {
    match asked(heap, line)? {
        Ok(request) => Ok(format!(in heap; "{request}")?),
        Err(refusal) => Ok(format!(in heap; "{refusal}")?),
    }
}

#[test]
fn words_are_read(rt: HostRuntime) -> Result<(), Fail> {
    let usual = "p = 5, lost columns 1 3 5";
    for (line, wanted) in [
        ("", usual),
        ("5 1 3 5", usual),
        ("5 5 3 1", usual),
        ("3", "p = 3, lost columns none"),
        ("31 31", "p = 31, lost columns 31"),
        ("7 0 7", "p = 7, lost columns 0 7"),
        ("7 2 2 2 2", "p = 7, lost columns 2"),
    ] {
        assert_eq!(rt; answer(rt.alloc(), line)?.as_str(), wanted, "{}", line);
    }
    Ok(())
}

/// A word that is no number comes first, then the stop with the lowest number.
#[test]
fn other_words_are_refused(rt: HostRuntime) -> Result<(), Fail> {
    for (line, wanted) in [
        ("five", Refusal::NoNumber(1)),
        ("-5 1", Refusal::NoNumber(1)),
        ("4 99 x", Refusal::NoNumber(3)),
        ("5 18446744073709551616", Refusal::NoNumber(2)),
        ("4", Refusal::Stopped(Stop::Prime)),
        ("37 99 1 2 3 4", Refusal::Stopped(Stop::Prime)),
        ("5 6", Refusal::Stopped(Stop::Column)),
        ("5 0 1 2 3 6", Refusal::Stopped(Stop::Column)),
        ("5 64", Refusal::Stopped(Stop::Column)),
        ("5 18446744073709551615 1", Refusal::Stopped(Stop::Column)),
        ("5 0 1 2 3", Refusal::Stopped(Stop::Lost)),
    ] {
        assert_eq!(rt; asked(rt.alloc(), line)?.err(), Some(wanted), "{}", line);
    }
    Ok(())
}

#[test]
fn refusals_are_shown(rt: HostRuntime) -> Result<(), Fail> {
    for (line, wanted) in [
        (
            "5 x",
            "argument 2 is not a number from 0 to 18446744073709551615",
        ),
        ("6 1", "stop 1: p is not one of the primes that are served"),
        ("5 6", "stop 12: a device or a lost column is above p"),
        ("5 0 1 2 3", "stop 13: too many columns are lost"),
    ] {
        assert_eq!(rt; answer(rt.alloc(), line)?.as_str(), wanted, "{}", line);
    }
    Ok(())
}

/// Tries the request of a line, and gives the table of what was solved, without the hidden columns.
fn solved(rt: &impl Abort, heap: Global, line: &str, hidden: Columns) -> Result<String, Fail> {
    let request = asked(heap, line)??;
    let trial = tried(heap, request)?;
    assert!(rt; trial.is_whole(), "{}", line);
    let table = Table {
        geometry: request.geometry,
        cells: &trial.solved,
        hidden,
    };
    Ok(format!(in heap; "{table}")?)
}

#[test]
fn lost_columns_come_back(rt: HostRuntime) -> Result<(), Fail> {
    let heap = rt.alloc();
    for line in ["", "3", "3 0 1 2", "3 3", "7 2 4 6", "31 0 30 31"] {
        let table = solved(&rt, heap, line, Columns(0))?;
        assert!(rt; !table.is_empty(), "{}", line);
    }
    assert_eq!(rt;
        solved(&rt, heap, "3 0 1 3", Columns(0b100))?.as_str(),
        "    1    1   --    1\n    2    2   --    2\n"
    );
    Ok(())
}
