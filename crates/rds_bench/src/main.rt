//! `rds_bench`: the time of one form of a task over a recording, for tests/test_growth.py, and blocks of symbols.
#![tactic(auto)]

mod forms;
mod soft;
mod timing;

use anyhow::Result;
use forms::Form;
use std::env;

const USAGE: &str =
    "usage: rds_bench FORM [LOSS]  prints the nanoseconds of a form over the packed bits on standard input, and its count
       rds_bench --soft       blocks of windows of 27 symbols on standard input: offset, information word, error mask
Forms that find valid windows: scan, windows, places, divided. Forms that find valid blocks: report, guess, items.
LOSS: how many bad blocks in a row lose sync [default: 10]
";

/// After how many bad blocks in a row sync is lost by default.
const LOSS: u32 = 10;

fn main(rt: HostRuntime) -> Result<()> {
    let words: Vec<String> = env::args(&rt)?.skip(1).collect(rt.alloc())?;
    run(&rt, words.as_slice())
}

/// Does as these words ask.
fn run(rt: &HostRuntime, words: &[String]) -> Result<()> {
    if words.first().map(String::as_str) == Some("--soft") {
        return soft::show(rt);
    }
    match measurement(words) {
        Some((form, loss)) => timing::show(rt, form, loss),
        None => show_usage(rt),
    }
}

/// The form and the loss rule that these words ask for.
fn measurement(words: &[String]) -> Option<(Form, u32)> {
    match words {
        [form] => Some((Form::named(form.as_str())?, LOSS)),
        [form, loss] => Some((Form::named(form.as_str())?, loss.parse().ok()?)),
        _ => None,
    }
}

fn show_usage(rt: &HostRuntime) -> Result<()> {
    print!(rt; "{USAGE}")?;
    Ok(())
}
