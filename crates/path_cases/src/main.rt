// The path report on a table of cases. Standard input has one case after another: a line with its title, then the bytes
// of a report's input up to a line feed and a line of four `=`. That line feed is not part of the case, so a case may
// end without one. Each title is printed, and below it what the path program would print.
#![tactic(auto)]

ghost use Rattle.std.specs.Prelude.{◌<◌, length};

use fields::split_at_byte;
use report::path_report;
use std::io::Read;

const CASE_END: &[u8] = b"\n====\n";

// The first case, and what stands behind its end.
fn split_case(cases: &[u8]) -> (&[u8], &[u8])
    ensures { 0 < length cases.now → length result.1.now < length cases.now }
{
    match cases
        .windows(CASE_END.len())
        .position(|part| part == CASE_END)
    {
        Some(end) => (&cases[..end], &cases[end + CASE_END.len()..]),
        None => (cases, &[]),
    }
}

fn print_case(rt: &HostRuntime, case: &[u8]) -> anyhow::Result<()> {
    let (title, input) = split_at_byte(case, b'\n').unwrap_or((case, &[]));
    let mut line = String::new(rt.alloc());
    line.extend(title.iter().map(|byte| char::from(*byte)))?;
    println!(rt; "{line}")?;
    let text = path_report(rt.alloc(), input)?;
    print!(rt; "{text}")?;
    Ok(())
}

fn run(rt: &HostRuntime) -> anyhow::Result<()> {
    let mut cases = Vec::new(rt.alloc());
    rt.stdin().read_to_end(&mut cases)?;
    let mut rest = cases.as_slice();
    while !rest.is_empty() {
        let (case, behind) = split_case(rest);
        print_case(rt, case)?;
        rest = behind;
    }
    Ok(())
}

fn main(rt: HostRuntime) -> anyhow::Result<()> {
    run(&rt)
}
