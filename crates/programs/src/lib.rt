// What programs share: the sizes of what they lend, standard input read to its end, and a text printed on standard
// output.
#![tactic(auto)]

use intake::Intake;
use lines::LINE_BYTES;
use reading::Reader;
use sheet::Refusal;
use std::io;
use std::io::ErrorKind;

// The cells of the largest sheet that a program takes. A direction byte, an area, a label and a basin are lent for
// each.
pub const CELLS: usize = 2048;

// The numbers of their labels, two each.
pub const LABEL_NUMBERS: usize = 4096;

// The rows of the largest sheet. A weight is lent for each.
pub const ROWS: usize = 256;

// 8 work places a cell.
pub const WORK_PLACES: usize = 16384;

// 60 bytes of text a cell, beside the heading.
pub const REPORT_BYTES: usize = 122905;

// What a read of the input brought: more of the file, the end of its reading, or that it failed.
#[derive(Clone, Copy)]
enum Chunk {
    More(Reader),
    End(Reader),
    Failed,
}

// Reads once and feeds what came. Reading ends with the file, or when a line was refused.
fn read_once<R: io::Read>(
    input: &mut R,
    reader: Reader,
    line: &mut [u8; LINE_BYTES],
    dirs: &mut [u8],
    weights: &mut [u16],
) -> Chunk {
    let mut chunk = [0u8; 4096];
    match input.read(&mut chunk) {
        Ok(0) => Chunk::End(reader),
        Ok(n) => {
            let next = reader.feed(&chunk[..n], line, dirs, weights);
            if next.is_refused() {
                return Chunk::End(next);
            }
            Chunk::More(next)
        }
        Err(error) => {
            if error.kind() == ErrorKind::Interrupted {
                return Chunk::More(reader);
            }
            Chunk::Failed
        }
    }
}

// Reads to the end of the input, or until a line was refused; None if a read failed.
fn read_all<R: io::Read>(
    input: &mut R,
    line: &mut [u8; LINE_BYTES],
    dirs: &mut [u8],
    weights: &mut [u16],
) -> Option<Reader> {
    let mut reader = Reader::new();
    for _ in 0..u64::MAX {
        match read_once(input, reader, line, dirs, weights) {
            Chunk::More(next) => reader = next,
            Chunk::End(last) => return Some(last),
            Chunk::Failed => return None,
        }
    }
    None
}

// Reads the file on the input; None if it could not be read.
pub fn read_input<R: io::Read>(
    input: &mut R,
    dirs: &mut [u8],
    weights: &mut [u16],
) -> Option<Result<Intake, Refusal>> {
    let mut line = [0u8; LINE_BYTES];
    let reader = read_all(input, &mut line, dirs, weights)?;
    Some(reader.finish(&line, dirs, weights))
}

// Prints a line on standard error: the name of the program, and what went wrong.
pub fn complain<E: io::Write>(errors: &mut E, program: &[u8], what: &[u8]) {
    let _ = errors.write_all(program);
    let _ = errors.write_all(what);
}

// Prints the first n bytes of a buffer on standard output; false if that failed.
pub fn print<W: io::Write>(output: &mut W, out: &[u8], n: usize) -> bool {
    let Some(text) = out.get(..n) else {
        return false;
    };
    output.write_all(text).is_ok()
}

// Prints the text that a call wrote to the start of a buffer; false, with a line on standard error, if that failed.
pub fn print_text<W: io::Write, E: io::Write>(
    output: &mut W,
    errors: &mut E,
    program: &[u8],
    answer: Result<usize, Refusal>,
    out: &[u8],
) -> bool {
    let Ok(n) = answer else {
        complain(errors, program, b": the report does not fit its buffer\n");
        return false;
    };
    if !print(output, out, n) {
        complain(errors, program, b": standard output cannot be written\n");
        return false;
    }
    true
}
