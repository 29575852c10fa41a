// Reads a grid file from standard input and prints its atlas on standard output: the pages of its sheet, or the two
// lines after a refusal. It only moves bytes: a page is written by crate atlas_file, whose contract fixes it.
#![tactic(auto)]

use atlas_file::write_verdict_page;
use faults::Sizes;
use programs::{
    CELLS, LABEL_NUMBERS, REPORT_BYTES, ROWS, WORK_PLACES, complain, print_text, read_input,
};
use report::verdict_of;
use sheet::Refusal;
use std::io;

// The most pages that the cells of the largest sheet fill, 59 cells a page. Later pages have no byte.
const PAGES: usize = 35;

// Prints the pages of a verdict, one after the other.
fn print_pages<W: io::Write, E: io::Write>(
    output: &mut W,
    errors: &mut E,
    verdict: Result<Sizes, Refusal>,
    dirs: &[u8],
    areas: &[u32],
    labels: &[u64],
    basins: &[u32],
    out: &mut [u8],
) {
    for page in 1..=PAGES {
        let answer = write_verdict_page(verdict, dirs, areas, labels, basins, page, out);
        if !print_text(output, errors, b"atlas", answer, out) {
            return;
        }
    }
}

fn main(rt: HostRuntime) {
    let mut dirs = [0u8; CELLS];
    let mut weights = [0u16; ROWS];
    let mut areas = [0u32; CELLS];
    let mut labels = [0u64; LABEL_NUMBERS];
    let mut basins = [0u32; CELLS];
    let mut work = [0u32; WORK_PLACES];
    let mut out = [0u8; REPORT_BYTES];
    let Some(read) = read_input(&mut rt.stdin(), &mut dirs, &mut weights) else {
        complain(
            &mut rt.stderr(),
            b"atlas",
            b": standard input cannot be read\n",
        );
        return;
    };
    let verdict = verdict_of(
        read,
        &dirs,
        &weights,
        &mut areas,
        &mut labels,
        &mut basins,
        &mut work,
    );
    print_pages(
        &mut rt.stdout(),
        &mut rt.stderr(),
        verdict,
        &dirs,
        &areas,
        &labels,
        &basins,
        &mut out,
    );
}
