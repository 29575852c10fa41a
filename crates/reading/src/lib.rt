// A whole file, read in chunks of any size: its lines go to the intake, one after the other.
#![tactic(auto)]

ghost use Rattle.std.specs.Prelude.{◌≡◌, List, ℕ, length};
ghost use Rattle.lines.specs.Fields.{line_bytes};
ghost use Rattle.intake.specs.Intake.{lent_sheet};
ghost use Rattle.reading.specs.Lines.{end_after, read_values};
ghost use Rattle.reading.specs.Feed.{reading, next_line, new_reader, hand_line, long_line, line_end, byte_after};
ghost use Rattle.reading.specs.Feed.{is_refused, feed_all, last_line, end_read, finished};

use decimal::LINE_FEED;
use intake::Intake;
use lines::LINE_BYTES;
use sheet::Refusal;

// The bytes of a file so far. The bytes of the line that is not ended yet stand in a lent buffer.
#[derive(Clone, Copy)]
pub struct Reader {
    pub intake: Intake,
    // the lines that went to the intake; the last of them is the refused one, if one was refused
    pub lines: usize,
    // how many bytes the present line has
    pub held: usize,
    // that of the last line
    pub outcome: Result<(), Refusal>,
}

// The number of the next line. It stays at the largest number, which no file of fewer than 2^64 - 1 bytes comes to.
#[tactic(auto, unfolding(crate::specs::Feed::next_line))]
fn next_line(lines: usize) -> usize
    ensures { result ≡ next_line lines }
{
    lines.saturating_add(1)
}

// Hands a line to the intake.
#[tactic(auto, unfolding(crate::specs::Feed::hand_line))]
fn hand_line(reader: Reader, text: &[u8], dirs: &mut [u8], weights: &mut [u16]) -> Reader
    ensures { (line : List ℕ) → reading result line (lent_sheet dirs.new weights.new)
        ≡ hand_line (reading reader line (lent_sheet dirs.old weights.old))
        text.now }
{
    let taken = reader.intake.line(text, dirs, weights);
    Reader {
        intake: taken.intake,
        lines: next_line(reader.lines),
        held: 0,
        // case by case, so that nothing is copied for an accepted line
        outcome: match taken.outcome {
            Ok(()) => Ok(()),
            Err(Refusal { number, place }) => Err(Refusal { number, place }),
        },
    }
}

// A line of more than LINE_BYTES bytes: for it a line goes to the intake that breaks the file's rules in every stage.
#[tactic(auto, unfolding(crate::specs::Feed::long_line))]
fn long_line(reader: Reader, dirs: &mut [u8], weights: &mut [u16]) -> Reader
    ensures { (line : List ℕ) → reading result line (lent_sheet dirs.new weights.new)
        ≡ long_line (reading reader line (lent_sheet dirs.old weights.old)) }
{
    hand_line(reader, &[LINE_FEED], dirs, weights)
}

// The end of the present line.
fn line_end(reader: Reader, line: &[u8], dirs: &mut [u8], weights: &mut [u16]) -> Reader
    requires { length line.now ≡ line_bytes }
    ensures { reading result line.now (lent_sheet dirs.new weights.new)
        ≡ line_end (reading reader line.now (lent_sheet dirs.old weights.old)) }
{
    let held = reader.held;
    if held <= LINE_BYTES {
        return hand_line(reader, &line[..held], dirs, weights);
    }
    long_line(reader, dirs, weights)
}

// One byte of the file. After a refusal it changes nothing; one that does not fit the present line ends that line. The
// reader is lent: handed back by value for every byte, its outcome would be copied for every byte.
#[tactic(auto, unfolding(crate::specs::Feed::byte_after, crate::specs::Feed::keep_byte))]
fn feed_byte(
    reader: &mut Reader,
    byte: u8,
    line: &mut [u8; LINE_BYTES],
    dirs: &mut [u8],
    weights: &mut [u16],
)
    ensures { reading reader.new line.new (lent_sheet dirs.new weights.new)
        ≡ byte_after (reading reader.old line.old (lent_sheet dirs.old weights.old))
        byte }
{
    let Ok(()) = reader.outcome else {
        return;
    };
    if byte == LINE_FEED {
        *reader = line_end(*reader, line, dirs, weights);
        return;
    }
    let at = reader.held;
    if at < LINE_BYTES {
        line[at] = byte;
        reader.held = at + 1;
        return;
    }
    *reader = long_line(*reader, dirs, weights);
}

// A last line that lacks its line feed.
#[tactic(auto, unfolding(crate::specs::Feed::last_line))]
fn last_line(
    reader: Reader,
    line: &[u8; LINE_BYTES],
    dirs: &mut [u8],
    weights: &mut [u16],
) -> Reader
    ensures { reading result line.now (lent_sheet dirs.new weights.new)
        ≡ last_line (reading reader line.now (lent_sheet dirs.old weights.old)) }
{
    let Ok(()) = reader.outcome else {
        return reader;
    };
    if reader.held == 0 {
        return reader;
    }
    line_end(reader, line, dirs, weights)
}

// The end of a file whose lines were all accepted.
#[tactic(auto, unfolding(crate::specs::Lines::end_after))]
fn end_intake(intake: Intake, lines: usize) -> Result<Intake, Refusal>
    ensures { result ≡ end_after intake (next_line lines) }
{
    let taken = intake.end();
    match taken.outcome {
        Ok(()) => Ok(taken.intake),
        Err(refusal) => Err(Refusal {
            place: next_line(lines),
            ..refusal
        }),
    }
}

// The end of the file, after its last line.
#[tactic(auto, unfolding(crate::specs::Feed::end_read))]
fn end_read(reader: Reader) -> Result<Intake, Refusal>
    ensures { result ≡ end_read reader }
{
    match reader.outcome {
        Ok(()) => end_intake(reader.intake, reader.lines),
        Err(refusal) => Err(Refusal {
            place: reader.lines,
            ..refusal
        }),
    }
}

impl Reader {
    // No byte yet.
    pub fn new() -> Self
        ensures { result ≡ new_reader }
    {
        Reader {
            intake: Intake::new(),
            lines: 0,
            held: 0,
            outcome: Ok(()),
        }
    }

    // The next bytes of the file.
    pub fn feed(
        self,
        chunk: &[u8],
        line: &mut [u8; LINE_BYTES],
        dirs: &mut [u8],
        weights: &mut [u16],
    ) -> Self
        ensures { reading result line.new (lent_sheet dirs.new weights.new)
            ≡ feed_all (reading self line.old (lent_sheet dirs.old weights.old))
            chunk.now }
    {
        let mut reader = self;
        for &byte in chunk {
            feed_byte(&mut reader, byte, line, dirs, weights);
        }
        reader
    }

    // Whether a line was refused. The bytes after it change nothing, so that they need not be read.
    #[tactic(auto, unfolding(crate::specs::Feed::is_refused))]
    pub fn is_refused(self) -> bool
        ensures { result ≡ is_refused self }
    {
        self.outcome.is_err()
    }

    // The end of the file.
    pub fn finish(
        self,
        line: &[u8; LINE_BYTES],
        dirs: &mut [u8],
        weights: &mut [u16],
    ) -> Result<Intake, Refusal>
        ensures file { record { read = result; lent = lent_sheet dirs.new weights.new }
            ≡ finished (reading self line.now (lent_sheet dirs.old weights.old)) }
        ensures values { read_values result
            ≡ read_values (finished
            (reading self line.now (lent_sheet dirs.old weights.old))).read }
    {
        let reader = last_line(self, line, dirs, weights);
        end_read(reader)
    }
}
