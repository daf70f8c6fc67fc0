// The night desk's report: reads one block from standard input and writes its four counts, a line for each, or the number of the refusal.
#![tactic(auto)]

use std::io;

fn main(rt: HostRuntime) -> io::Result<()> {
    report_text::report_input(&rt)
}
