//! What a replay prints, and its status.

use crate::{run, status_of};
use std::alloc::{AllocError, Global};
use std::fs;
use std::test::Fail;

// A script of five lines, and its replies.
const SCRIPT: &str = "# script 7\nblock 1 1\n\n# a comment\nregion 0 0\nlayout 0\n";

const REPLIES: &str = "# script 7\nblock 0\nregion 0\nlayout 0\n";

// Scripts, replies, the status, and what is printed.
const CASES: [(&str, &str, u8, &str); 13] = [
    (SCRIPT, REPLIES, 0, "1 scripts, 5 lines, 0 differ\n"),
    // The last line may lack its line feed.
    (
        SCRIPT,
        "# script 7\nblock 0\nregion 0\nlayout 0",
        0,
        "1 scripts, 5 lines, 0 differ\n",
    ),
    (
        SCRIPT,
        "# script 7\nblock 0\nregion 1\nlayout 0\n",
        1,
        "script 7, line 5: region 0 0\n  wanted: region 1\n  came:   region 0\n\
         1 scripts, 5 lines, 1 differ\n",
    ),
    // A reply is missing at the end, and in the middle.
    (
        SCRIPT,
        "# script 7\nblock 0\nregion 0\n",
        1,
        "script 7, line 6: layout 0\n  wanted: no reply\n  came:   layout 0\n\
         1 scripts, 5 lines, 1 differ\n",
    ),
    (
        SCRIPT,
        "# script 7\nblock 0\nlayout 0\n",
        1,
        "script 7, line 5: region 0 0\n  wanted: layout 0\n  came:   region 0\n\
         1 scripts, 5 lines, 1 differ\n",
    ),
    // A reply too many.
    (
        SCRIPT,
        "# script 7\nblock 0\nregion 0\nlayout 0\nok\n",
        1,
        "script 7, after its last line\n  wanted: ok\n  came:   no reply\n\
         1 scripts, 5 lines, 1 differ\n",
    ),
    // A bad line ends its script, whatever replies are recorded for it and those after it.
    (
        "# script 7\nblock 1 1\nregon 0 0\nlayout 0\n# script 8\ntable\n",
        "# script 7\nblock 0\nregion 0\nlayout 0\n# script 8\ntable 0\n",
        1,
        "script 7, line 3: regon 0 0\n  is a bad line\n2 scripts, 4 lines, 1 differ\n",
    ),
    (
        "# script 7\nblock 1 1\nregon 0 0\n",
        "# script 7\nblock 0\n",
        1,
        "script 7, line 3: regon 0 0\n  is a bad line\n1 scripts, 2 lines, 1 differ\n",
    ),
    // What differs before a bad line is told.
    (
        "# script 7\nblock 1 1\nregon 0 0\n",
        "# script 7\nblock 1\n",
        1,
        "script 7, line 2: block 1 1\n  wanted: block 1\n  came:   block 0\n\
         1 scripts, 2 lines, 1 differ\n",
    ),
    // Each machine is a new one, and replies go by the number of their script.
    (
        "# script 1\ntable\n# script 2\ntable\ntable 4\n",
        "# script 2\ntable 0\ntable 1\n# script 1\ntable 0\n",
        0,
        "2 scripts, 3 lines, 0 differ\n",
    ),
    (
        "# script 1\ntable\n# script 2\ntable\n",
        "# script 2\ntable 0\n# script 3\ntable 0\n",
        1,
        "script 1 has no replies\nscript 3 has replies alone\n2 scripts, 2 lines, 2 differ\n",
    ),
    // A file begins with a script.
    ("table\n", REPLIES, 2, ""),
    (SCRIPT, "", 2, ""),
];

fn words_of(alloc: Global, words: &[&str]) -> Result<Vec<String>, AllocError> {
    let mut all = Vec::new(alloc);
    for word in words {
        all.push(String::from_str(alloc, word)?)?;
    }
    Ok(all)
}

// The status of a run with these words, and what it prints.
fn told(rt: &HostRuntime, words: &[&str]) -> Result<String, Fail> {
    let words = words_of(rt.alloc(), words)?;
    let mut out = Vec::new(rt.alloc());
    let status = status_of(rt, run(rt, words.as_slice(), &mut out))?;
    let text = String::from_utf8(out)?;
    Ok(format!(in rt.alloc(); "{status} {text}")?)
}

fn expect_told(rt: &HostRuntime, words: &[&str], status: u8, text: &str) -> Result<(), Fail> {
    let told = told(rt, words)?;
    let wanted = format!(in rt.alloc(); "{status} {text}")?;
    if told != wanted {
        return Err(Fail::new(format_args!("{told}, not {wanted}")));
    }
    Ok(())
}

#[test]
fn the_first_line_that_differs_is_told(rt: HostRuntime) -> Result<(), Fail> {
    for (scripts, replies, status, text) in &CASES {
        fs::write(&rt, "scripts", *scripts)?;
        fs::write(&rt, "replies", *replies)?;
        expect_told(&rt, &["vmmem_replay", "scripts", "replies"], *status, text)?;
    }
    expect_told(&rt, &["vmmem_replay", "scripts", "absent"], 2, "")?;
    expect_told(&rt, &["vmmem_replay", "scripts"], 2, "")
}

#[test]
fn ten_scripts_that_differ_are_told_or_all(rt: HostRuntime) -> Result<(), Fail> {
    let alloc = rt.alloc();
    let (mut scripts, mut replies) = (String::new(alloc), String::new(alloc));
    let mut told = String::new(alloc);
    for number in 0..12u64 {
        write!(scripts, "# script {number}\ntable\n")?;
        write!(replies, "# script {number}\ntable 1\n")?;
        let line = 2 * number + 2;
        write!(
            told,
            "script {number}, line {line}: table\n  wanted: table 1\n  came:   table 0\n"
        )?;
        if number == 9 {
            fs::write(&rt, "told", told.as_str())?;
        }
    }
    fs::write(&rt, "scripts", scripts.as_str())?;
    fs::write(&rt, "replies", replies.as_str())?;
    let sum = "12 scripts, 12 lines, 12 differ\n";
    let all = format!(in alloc; "{told}{sum}")?;
    expect_told(
        &rt,
        &["vmmem_replay", "--all", "scripts", "replies"],
        1,
        all.as_str(),
    )?;
    let ten = fs::read_to_string(&rt, "told")?;
    let ten = format!(in alloc; "{ten}2 more, which --all tells\n{sum}")?;
    expect_told(
        &rt,
        &["vmmem_replay", "scripts", "replies"],
        1,
        ten.as_str(),
    )
}

#[test]
fn replies_are_recorded(rt: HostRuntime) -> Result<(), Fail> {
    fs::write(&rt, "scripts", SCRIPT)?;
    expect_told(&rt, &["vmmem_replay", "--record", "scripts"], 0, REPLIES)?;
    // The replies before a bad line are recorded.
    fs::write(
        &rt,
        "scripts",
        "# script 7\ntable\nregon\ntable\n# script 8\ntable\n",
    )?;
    let replies = "# script 7\ntable 0\n# script 8\ntable 0\n";
    expect_told(&rt, &["vmmem_replay", "--record", "scripts"], 1, replies)
}
