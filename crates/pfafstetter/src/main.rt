// Reads a grid file from standard input and prints its report on standard output: the listing of its sheet, or the two
// lines after a refusal. It only moves bytes: the report is written by crate report, whose contract fixes it.
#![tactic(auto)]

use programs::{
    CELLS, LABEL_NUMBERS, REPORT_BYTES, ROWS, WORK_PLACES, complain, print_text, read_input,
};
use report::write_report;

fn main(rt: HostRuntime) {
    let mut dirs = [0u8; CELLS];
    let mut weights = [0u16; ROWS];
    let mut areas = [0u32; CELLS];
    let mut labels = [0u64; LABEL_NUMBERS];
    let mut basins = [0u32; CELLS];
    let mut work = [0u32; WORK_PLACES];
    let mut out = [0u8; REPORT_BYTES];
    let Some(read) = read_input(&mut rt.stdin(), &mut dirs, &mut weights) else {
        complain(
            &mut rt.stderr(),
            b"pfafstetter",
            b": standard input cannot be read\n",
        );
        return;
    };
    let answer = write_report(
        read,
        &dirs,
        &weights,
        &mut areas,
        &mut labels,
        &mut basins,
        &mut work,
        &mut out,
    );
    print_text(
        &mut rt.stdout(),
        &mut rt.stderr(),
        b"pfafstetter",
        answer,
        &out,
    );
}
