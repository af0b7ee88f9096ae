//! The program: its arguments, its files and what it prints.

use crate::answers::{answer, is_wanted};
use std::process::ExitCode;
use std::rt::{Env, Files};
use std::{env, fs, io};
use wc_lines::lines::Lines;
use wc_lines::rows::{Paragraph, Rows};

const USAGE: &str = "usage: wc_tests [--memory-may-fail] FILE...
       wc_tests -

Runs the rows of tests in files, and prints each whose answer differs. With --memory-may-fail,
an answer may stop at a line that says that memory ran out. With -, reads rows from standard
input and prints each with its answer. docs/ROWS.md says what a row is.";

/// Runs the rows of all files that are named, and gives the program's status.
pub(crate) fn run<R: Env + Files + Print + Input + AllocGlobal>(rt: &R) -> ExitCode {
    match run_files(rt) {
        Ok(true) => ExitCode::SUCCESS,
        Ok(false) => ExitCode::FAILURE,
        Err(e) => {
            let _ = println!(rt; "wc_tests: {e}");
            ExitCode::FAILURE
        }
    }
}

/// Whether all rows of all files that are named agreed.
fn run_files<R: Env + Files + Print + Input + AllocGlobal>(rt: &R) -> io::Result<bool> {
    let names: Vec<String> = env::args(rt)?.skip(1).collect(rt.alloc())?;
    if names.is_empty() {
        rt.println(USAGE)?;
    }
    let mut may_fail = false;
    let mut agree = true;
    for name in &names {
        if name.as_str() == "--memory-may-fail" {
            may_fail = true;
        } else if !run_named(rt, name.as_str(), may_fail)? {
            agree = false;
        }
    }
    Ok(agree)
}

fn run_named<R: Files + Print + Input + AllocGlobal>(
    rt: &R,
    name: &str,
    may_fail: bool,
) -> io::Result<bool> {
    if name == "-" {
        let text = io::read_to_string(rt.alloc(), rt.reader())?;
        print_answers(rt, text.as_str())?;
        return Ok(true);
    }
    let Ok(text) = fs::read_to_string(rt, name) else {
        println!(rt; "{name}: cannot be read")?;
        return Ok(false);
    };
    compare(rt, name, text.as_str(), may_fail)
}

/// Reads a file of rows, and prints the name and the answer of each.
fn print_answers<R: Print + AllocGlobal>(rt: &R, text: &str) -> io::Result<()> {
    let rows = Rows::read(rt.alloc(), text)?;
    for paragraph in &rows.rows {
        let name = paragraph.row.name;
        let mut out = Lines::new(rt.alloc());
        answer(rt.alloc(), paragraph, &mut out);
        let text = out.text()?;
        println!(rt; "row {name}")?;
        print_lines(rt, "out", text)?;
        rt.println("")?;
    }
    Ok(())
}

/// Runs the rows of a file, prints those whose answer differs, and how many agreed. Whether all did.
fn compare<R: Print + AllocGlobal>(
    rt: &R,
    file: &str,
    text: &str,
    may_fail: bool,
) -> io::Result<bool> {
    let rows = Rows::read(rt.alloc(), text)?;
    let mut agreed = 0u64;
    for paragraph in &rows.rows {
        if agrees(rt, file, paragraph, may_fail)? {
            agreed = agreed.saturating_add(1);
        }
    }
    let all = rows.rows.len() as u64;
    println!(rt; "{file}: {agreed} of {all} rows agree")?;
    Ok(agreed == all)
}

/// Whether a row's answer is the one that is wanted. Prints both where it is not.
fn agrees<R: Print + AllocGlobal>(
    rt: &R,
    file: &str,
    paragraph: &Paragraph<'_>,
    may_fail: bool,
) -> io::Result<bool> {
    let mut out = Lines::new(rt.alloc());
    answer(rt.alloc(), paragraph, &mut out);
    let text = out.text()?;
    if is_wanted(&paragraph.row, text, may_fail) {
        return Ok(true);
    }
    let name = paragraph.row.name;
    println!(rt; "{file}: {name} differs")?;
    for line in &paragraph.row.answer {
        println!(rt; "  expected {line}")?;
    }
    print_lines(rt, "  actual  ", text)?;
    Ok(false)
}

/// Prints each line of a text with a word at the front.
fn print_lines<R: Print>(rt: &R, word: &str, text: &str) -> io::Result<()> {
    for line in text.lines() {
        println!(rt; "{word} {line}")?;
    }
    Ok(())
}
