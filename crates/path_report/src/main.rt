// The path program: reads its input, prints the report. Everything between is `report::path_report`.
#![tactic(auto)]

use report::{INPUT_LIMIT, path_report, within_limit};
use std::io::Read;

fn run(rt: &HostRuntime) -> anyhow::Result<()> {
    let mut input = Vec::new(rt.alloc());
    // one byte more, to see whether there is more
    rt.stdin()
        .take(INPUT_LIMIT as u64 + 1)
        .read_to_end(&mut input)?;
    let reported = within_limit(input.as_slice());
    if reported.len() < input.len() {
        eprintln!(rt;
            "path_report: the input is longer than {INPUT_LIMIT} bytes; the rest was not read"
        )?;
    }
    let text = path_report(rt.alloc(), reported)?;
    print!(rt; "{text}")?;
    Ok(())
}

fn main(rt: HostRuntime) -> anyhow::Result<()> {
    run(&rt)
}
