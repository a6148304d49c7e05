//! Each limit of a text, at its number and one past it.

use crate::worked::{GOOD, ends, run_on};
use commands::file_reply;
use std::alloc::Global;
use std::fmt::Write;
use std::process::Abort;
use std::test::Fail;

/// Texts by their parts, with what comes of them: what stands first, a piece, what stands behind
/// the pieces, another piece, what stands last, how often each piece stands, and the line of a
/// refusal or the last lines of a report. In a piece `#` is the number of its turn, from 1, and `~`
/// is the end of a line everywhere. An independent model of the rules gives what comes.
const LIMITS: &str = "\
int main(void) { return  |  | 9223372036854775807 |  | ;} | 0 | procedure main~case 1~  $ret = 9223372036854775807~total 0 proved, 0 unproved
int main(void) { return  |  | 9223372036854775808 |  | ;} | 0 | refused literal at 1:25
int main(void) { return  |  | 0X7fffffffffffffff |  | ;} | 0 | procedure main~case 1~  $ret = 9223372036854775807~total 0 proved, 0 unproved
int main(void) { return  |  | 0x8000000000000000 |  | ;} | 0 | refused literal at 1:25
int main(void) { | ; |  |  | } | 199993 | procedure main~case 1~  $ret = $1~total 0 proved, 0 unproved
int main(void) { | ; |  |  | } | 199994 | refused tokens at 1:200011
int main(void)  | { |  | } |  | 64 | procedure main~case 1~  $ret = $1~total 0 proved, 0 unproved
int main(void)  | { |  | } |  | 65 | refused deep at 1:80
int main(void) { | if (0)  | ; |  | } | 63 | procedure main~case 1~  $ret = $1~total 0 proved, 0 unproved
int main(void) { | if (0)  | ; |  | } | 64 | refused deep at 1:458
int main(void) { | if (0) ; else  | ; |  | } | 63 | procedure main~case 1~  $ret = $1~total 0 proved, 0 unproved
int main(void) { | if (0) ; else  | ; |  | } | 64 | refused deep at 1:899
int main(void) { | while (0)  | ; |  | } | 63 | procedure main~case 1~  $ret = $1~total 0 proved, 0 unproved
int main(void) { | while (0)  | ; |  | } | 64 | refused deep at 1:647
int main(void) { | do  | ; |  while (0); | } | 63 | procedure main~case 1~  $ret = $1~total 0 proved, 0 unproved
int main(void) { | do  | ; |  while (0); | } | 64 | refused deep at 1:206
int main(void) { | for (;0;)  | ; |  | } | 63 | procedure main~case 1~  $ret = $1~total 0 proved, 0 unproved
int main(void) { | for (;0;)  | ; |  | } | 64 | refused deep at 1:647
int main(void) { return | ( | 1 | ) | ;} | 63 | procedure main~case 1~  $ret = 1~total 0 proved, 0 unproved
int main(void) { return | ( | 1 | ) | ;} | 64 | refused deep at 1:87
int main(void) { return | ! | 1 |  | ;} | 63 | procedure main~case 1~  $ret = 0~total 0 proved, 0 unproved
int main(void) { return | ! | 1 |  | ;} | 64 | refused deep at 1:87
int main(void) { return 1 | +1 |  |  | ;} | 256 | procedure main~case 1~  $ret = 257~total 0 proved, 0 unproved
int main(void) { return 1 | +1 |  |  | ;} | 257 | refused deep at 1:538
 | void f#(void){}  | int main(void){} |  |  | 255 | total 0 proved, 0 unproved
 | void f#(void){}  | int main(void){} |  |  | 256 | refused many procedures at 1:4505
void f( | int a#, | int b) {} int main(void) {} |  |  | 7 | procedure f~case 1~procedure main~case 1~  $ret = $1~total 0 proved, 0 unproved
void f( | int a#, | int b) {} int main(void) {} |  |  | 8 | refused many parameters at 1:68
void f(int a, int b, int c, int d, int e, int g, int h, int i, int j) {} |  |  |  |  | 0 | refused many parameters at 1:68
int g | ,g# | ; int main(void) {} |  |  | 15 | total 0 proved, 0 unproved
int g | ,g# | ; int main(void) {} |  |  | 16 | refused many globals at 1:58
 | int a#;~ |  |  | int main(void) {} | 17 | refused many globals at 17:5
 | void f#(void) {assert(1);assert(1);assert(1);assert(1);assert(1);assert(1);assert(1);assert(1);}  | int main(void) { |  | } | 128 | total 1024 proved, 0 unproved
 | void f#(void) {assert(1);assert(1);assert(1);assert(1);assert(1);assert(1);assert(1);assert(1);}  | int main(void) { assert(1); |  | } | 128 | refused many assertions at 1:12582
int main(void) {~ |   int v#;~ |  |  | }~ | 24 | procedure main~case 1~  $ret = $1~total 0 proved, 0 unproved
int main(void) {~ |   int v#;~ |  |  | }~ | 25 | refused many slots at 26:7
int main(void) {} void f(int a, int b, int c, int d, int e, int g, int h, int i) { |  int v#; |  |  | } | 16 | procedure main~case 1~  $ret = $1~procedure f~case 1~total 0 proved, 0 unproved
int main(void) {} void f(int a, int b, int c, int d, int e, int g, int h, int i) { |  int v#; |  |  | } | 17 | refused many slots at 1:223
int f(void) { return 1; } int main(void) { return 0 | +f() |  |  | ;} | 24 | total 0 proved, 0 unproved
int f(void) { return 1; } int main(void) { return 0 | +f() |  |  | ;} | 25 | refused many slots at 1:149
int main(void) { int x; | x = 1; |  |  | } | 509 | procedure main~case 1~  $ret = $1~total 0 proved, 0 unproved
int main(void) { int x; | x = 1; |  |  | } | 510 | refused many nodes at 1:3084
int main(void) { return 1<2 | ||1 |  |  | ;} | 127 | procedure main~case 1~  $ret = 1~total 0 proved, 0 unproved
int main(void) { return 1 | ||1 |  |  | ;} | 128 | refused many cases at 1:25
int main(void) { assume(1 | ||1 |  |  | );} | 127 | procedure main~case 1~  $ret = $1~total 0 proved, 0 unproved
int main(void) { assume(1<2 | ||1 |  |  | );} | 128 | refused many cases at 1:25
int main(void) { assume(!1 | &&!1 |  |  | );} | 127 | procedure main~none~total 0 proved, 0 unproved
int main(void) { assume(1<2 | &&!1 |  |  | );} | 128 | refused many cases at 1:25
void f(int a, int b) {} int main(void) { f(1<2,1<2 | ||1 | );} |  |  | 63 | procedure f~case 1~procedure main~case 1~  $ret = $1~total 0 proved, 0 unproved
void f(int a, int b) {} int main(void) { f(1<2,1 | ||1 | );} |  |  | 63 | refused many cases at 1:44
";

/// A piece so many times.
fn pieces(alloc: Global, piece: &str, times: usize) -> Result<String, Fail> {
    let mut text = String::new(alloc);
    for number in 0..times {
        match piece.split_once('#') {
            Some((front, back)) => write!(text, "{front}{}{back}", number + 1)?,
            None => text.push_str(piece)?,
        }
    }
    Ok(text)
}

/// The text of these parts.
fn text_of(alloc: Global, parts: &[&str], times: usize) -> Result<String, Fail> {
    let [first, opening, middle, closing, last] = parts else {
        return Err("no row".into());
    };
    let opening = pieces(alloc, opening, times)?;
    let closing = pieces(alloc, closing, times)?;
    let text = format!(in alloc; "{first}{opening}{middle}{closing}{last}")?;
    Ok(text.replace(alloc, "~", "\n")?)
}

/// The text of a row is answered as the row says.
fn check_answer(alloc: Global, rt: &impl Abort, row: &str) -> Result<(), Fail> {
    let fields = row.split(" | ").collect::<Vec<&str>>(alloc)?;
    let [parts @ .., times, told] = fields.as_slice() else {
        return Err("no row".into());
    };
    let times = times.parse::<usize>().ok().ok_or("no number")?;
    let text = text_of(alloc, parts, times)?;
    let told = format!(in alloc; "{told}\n")?.replace(alloc, "~", "\n")?;
    let words = ["cra", "analyse"];
    if told.starts_with("refused ") {
        return ends(alloc, rt, &words, text.as_bytes(), 3, told.as_bytes());
    }
    let ended = run_on(alloc, &words, text.as_bytes(), GOOD)?;
    assert_eq!(rt; ended.status, 0);
    assert!(rt; ended.text.as_slice().ends_with(told.as_bytes()));
    Ok(())
}

#[test]
fn limits(rt: HostRuntime) -> Result<(), Fail> {
    for row in LIMITS.lines() {
        check_answer(rt.alloc(), &rt, row)?;
    }
    Ok(())
}

// A file and the newline behind it are printed up to a limit, and not past it.
#[test]
fn output_at_its_limit(rt: HostRuntime) -> Result<(), Fail> {
    let told = file_reply(rt.alloc(), b"{\"text\":\"\"}", 12)?;
    assert_eq!(rt; told.status.code(), 0);
    assert!(rt; told.text.as_slice() == b"{\"text\":\"\"}\n".as_slice());
    let told = file_reply(rt.alloc(), b"{\"text\":\"\"}", 11)?;
    assert_eq!(rt; told.status.code(), 9);
    assert!(rt; told.text.as_slice() == b"output is too long\n".as_slice());
    Ok(())
}

// Nested lists are no certificate file.
#[test]
fn deep_json(rt: HostRuntime) -> Result<(), Fail> {
    let alloc = rt.alloc();
    let file = text_of(alloc, &["", "[", "", "]", ""], 1_000)?;
    ends(
        alloc,
        &rt,
        &["cra", "check"],
        file.as_bytes(),
        7,
        b"input is not JSON\n",
    )
}

// As many edits as a script can have, and one more, each of which changes nothing.
#[test]
fn many_edits(rt: HostRuntime) -> Result<(), Fail> {
    let alloc = rt.alloc();
    let words = ["cra", "edit"];
    let first = "{\"text\":\"int main(void){}\",\"edits\":[";
    let opening = "{\"at\":0,\"remove\":0,\"insert\":\"\"},";
    let last = "{\"at\":0,\"remove\":0,\"insert\":\"\"}]}";
    let script = text_of(alloc, &[first, opening, "", "", last], 999)?;
    let ended = run_on(alloc, &words, script.as_bytes(), GOOD)?;
    assert_eq!(rt; ended.status, 0);
    assert!(rt;
        ended.text.as_slice().ends_with(
            b"version 1000 work 0 of 1 proved 0 unproved 0\nprocedure main\ncase 1\n  $ret = $1\ntotal 0 proved, 0 unproved\n"
        )
    );
    let script = text_of(alloc, &[first, opening, "", "", last], 1_000)?;
    ends(
        alloc,
        &rt,
        &words,
        script.as_bytes(),
        7,
        b"input has a wrong shape at /edits\n",
    )
}
