// Tables of lines, each with what a town has to answer.
use script::town::{Answer, Town};
use std::alloc::Global;
use std::process::Abort;
use std::test::Fail;
use words::{decimal, hex, principal};

const SEED: &str = "00112233445566778899aabbccddeeff00112233445566778899aabbccddeeff";

// What a new town answers to a first line.
fn first(heap: Global, line: &str) -> Result<String, Fail> {
    let mut town = Town::new(heap)?;
    Ok(town.hear(line.as_bytes()).to_string(heap)?)
}

// That a new town takes the first line that begins so, with the seed after it.
fn opens(rt: &impl Abort, heap: Global, front: &str, shown: &str) -> Result<(), Fail> {
    let line = format!(in heap; "{front}{SEED}")?;
    let answer = first(heap, line.as_str())?;
    assert!(rt; answer.as_str() == shown, "{}", front);
    Ok(())
}

// That a new town refuses each first line that begins so.
fn refuses(rt: &impl Abort, heap: Global, fronts: &[&str]) -> Result<(), Fail> {
    for front in fronts {
        opens(rt, heap, front, "fault 13")?;
    }
    Ok(())
}

// What a town answers to a first line that is in range.
#[test]
fn first_lines_in_range(rt: HostRuntime) -> Result<(), Fail> {
    let heap = rt.alloc();
    opens(&rt, heap, "town 100 1000 5 ", "town 100 1000 5")?;
    opens(&rt, heap, "town 0 1 0 ", "town 0 1 0")?;
    opens(
        &rt,
        heap,
        "town 9223372036854775807 86400 600 ",
        "town 9223372036854775807 86400 600",
    )
}

#[test]
fn first_lines_out_of_range(rt: HostRuntime) -> Result<(), Fail> {
    let heap = rt.alloc();
    let fronts = [
        "town 9223372036854775808 1000 5 ",
        "town 18446744073709551616 1000 5 ",
        "town 100 0 5 ",
        "town 100 86401 5 ",
        "town 100 1000 601 ",
        "town 100 1000 999999999999999999999999999999 ",
        "town 100 18446744073709551617 5 ",
    ];
    refuses(&rt, heap, &fronts)
}

#[test]
fn first_lines_that_are_not_read(rt: HostRuntime) -> Result<(), Fail> {
    let heap = rt.alloc();
    let fronts = [
        "town 100 1000 5 0",
        "town  100 1000 5 ",
        " town 100 1000 5 ",
        "town 0100 1000 5 ",
        "town 00 1000 5 ",
        "town +100 1000 5 ",
        "town -100 1000 5 ",
        "town 100 1000 ",
        "town 100 1000 5 5 ",
        "town 100  5 ",
        "Town 100 1000 5 ",
        "tick ",
        "reader 5 ",
        "service 7 ",
        "house 100 1000 5 ",
        "",
    ];
    refuses(&rt, heap, &fronts)
}

#[test]
fn seeds_that_are_not_read(rt: HostRuntime) -> Result<(), Fail> {
    let heap = rt.alloc();
    let seeds = [
        "",
        "-",
        "00112233445566778899aabbccddeeff",
        "00112233445566778899aabbccddeeff00112233445566778899aabbccddeef",
        "00112233445566778899AABBCCDDEEFF00112233445566778899AABBCCDDEEFF",
        "00112233445566778899aabbccddeegg00112233445566778899aabbccddeeff",
        "00112233445566778899aabbccddeeff00112233445566778899aabbccddeeff ",
        "00112233445566778899aabbccddeeff00112233445566778899aabbccddeeff\r",
        " 00112233445566778899aabbccddeeff00112233445566778899aabbccddeef",
    ];
    for seed in seeds {
        let line = format!(in heap; "town 100 1000 5 {seed}")?;
        let answer = first(heap, line.as_str())?;
        assert!(rt; answer.as_str() == "fault 13", "{}", seed);
    }
    Ok(())
}

// Empty lines and comments come before the first line, and a refused one leaves the town as it was.
#[test]
fn a_town_waits_for_its_first_line(rt: HostRuntime) -> Result<(), Fail> {
    let heap = rt.alloc();
    let mut town = Town::new(heap)?;
    let silent = ["", "#", "# a comment", "#town 1 1 1"];
    for line in silent {
        let is_silent = matches!(town.hear(line.as_bytes()), Answer::Silent);
        assert!(rt; is_silent, "{}", line);
    }
    assert!(rt; !town.is_open(), "not yet open");
    let refused = matches!(town.hear(b"tick 5"), Answer::Fault);
    assert!(rt; refused, "a tick first");
    assert!(rt; !town.is_open(), "still not open");
    Ok(())
}

// A line of 1,048,576 bytes is read, and one of a byte more is not.
#[test]
fn long_lines(rt: HostRuntime) -> Result<(), Fail> {
    let heap = rt.alloc();
    let mut line = vec![in heap; b'#'; 1_048_576]?;
    let mut town = Town::new(heap)?;
    let passed = matches!(town.hear(line.as_slice()), Answer::Silent);
    assert!(rt; passed, "1,048,576 bytes");
    line.push(b'#')?;
    let refused = matches!(town.hear(line.as_slice()), Answer::Fault);
    assert!(rt; refused, "1,048,577 bytes");
    Ok(())
}

#[test]
fn decimals(rt: HostRuntime) {
    assert_eq!(rt; decimal(b"0"), Some(0));
    assert_eq!(rt; decimal(b"7"), Some(7));
    assert_eq!(rt; decimal(b"1048576"), Some(1_048_576));
    assert_eq!(rt; decimal(b"18446744073709551614"), Some(u64::MAX - 1));
    assert_eq!(rt; decimal(b"18446744073709551615"), Some(u64::MAX));
    assert_eq!(rt; decimal(b"18446744073709551616"), Some(u64::MAX));
    assert_eq!(rt; decimal(b"999999999999999999999999999999"), Some(u64::MAX));
    let none: [&[u8]; 10] = [
        b"", b"00", b"01", b"+1", b"-1", b" 1", b"1 ", b"1\r", b"1a", b"/:",
    ];
    for word in none {
        assert_eq!(rt; decimal(word), None);
    }
}

#[test]
fn principals(rt: HostRuntime) {
    assert_eq!(rt; principal(b"1"), Some(1));
    assert_eq!(rt; principal(b"1023"), Some(1023));
    assert_eq!(rt; principal(b"0"), None);
    assert_eq!(rt; principal(b"1024"), None);
    assert_eq!(rt; principal(b"18446744073709551617"), None);
    assert_eq!(rt; principal(b"01"), None);
}

// That a word is no hex of up to four bytes, and that nothing is written.
fn writes_nothing(rt: &impl Abort, word: &[u8]) {
    let mut out = [1u8, 2, 3, 4];
    assert_eq!(rt; hex(word, &mut out), None);
    assert_eq!(rt; out, [1, 2, 3, 4]);
}

#[test]
fn hex_words(rt: HostRuntime) {
    let mut out = [9u8; 4];
    assert_eq!(rt; hex(b"-", &mut out), Some(0));
    assert_eq!(rt; out, [9, 9, 9, 9]);
    assert_eq!(rt; hex(b"00ff7a", &mut out), Some(3));
    assert_eq!(rt; out, [0, 255, 122, 9]);
    assert_eq!(rt; hex(b"01020304", &mut out), Some(4));
    let none: [&[u8]; 7] = [b"", b"0", b"000", b"FF", b"0g", b"--", b"0102030405"];
    for word in none {
        writes_nothing(&rt, word);
    }
}
