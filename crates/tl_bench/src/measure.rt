//! What the words name.
ghost use Rattle.std.specs.Prelude.{◌<◌, ◌≤◌, IfSome};
ghost use Rattle.tl_bench.specs.Measure.{IsRunnable};

/// The most bytes of a text.
const TEXT_LIMIT: u32 = 1_048_576;

/// The most directories of a tree in which each has two directories, within the depth that a path may have.
const NAMES_LIMIT: u32 = 131_070;

/// The most seats of one turn.
const SEATS: u8 = 64;

/// A measurement and its size.
#[derive(Clone, Copy, Debug, PartialEq, Eq)]
pub enum Measure<'a> {
    /// A script of this many lines after its header.
    Script { lines: u32 },
    /// A chain of this many jobs, a loss and a read.
    Chain { jobs: u32 },
    /// A fold of a fold over this many lines.
    Fold { lines: u16 },
    /// A text of this many bytes, at most `TEXT_LIMIT`.
    Text { bytes: u32 },
    /// This many directories and files, at most `NAMES_LIMIT`, in a tree and in one directory.
    Names { many: u32 },
    /// So many touches and puts of this many blocks, at least one.
    Blocks { blocks: u32, times: u32 },
    /// Saves and loads of this many blocks in a folder.
    Folder { folder: &'a str, blocks: u32 },
    /// Each measurement that starts no threads, at a small size.
    Small,
    /// This many turns by each of so many seats.
    Turns { seats: u8, turns: u32 },
}

impl<'a> Measure<'a> {
    /// The measurement that the words name: `script LINES`, `chain JOBS`, `fold LINES`, `text BYTES`, `names MANY`,
    /// `blocks BLOCKS TIMES`, `folder FOLDER BLOCKS`, `small`, or `turns SEATS TURNS` with 1 to 64 seats.
    pub fn of(words: &'a [String]) -> Option<Measure<'a>>
        ensures { IfSome result IsRunnable }
    {
        match words {
            [word, lines] if word.as_str() == "script" => {
                let lines = lines.parse().ok()?;
                Some(Measure::Script { lines })
            }
            [word, jobs] if word.as_str() == "chain" => {
                let jobs = jobs.parse().ok()?;
                Some(Measure::Chain { jobs })
            }
            [word, lines] if word.as_str() == "fold" => {
                let lines = lines.parse().ok()?;
                Some(Measure::Fold { lines })
            }
            [word, bytes] if word.as_str() == "text" => {
                let bytes = number_within(bytes, 0, TEXT_LIMIT)?;
                Some(Measure::Text { bytes })
            }
            [word, many] if word.as_str() == "names" => {
                let many = number_within(many, 0, NAMES_LIMIT)?;
                Some(Measure::Names { many })
            }
            [word, blocks, times] if word.as_str() == "blocks" => {
                let blocks = number_within(blocks, 1, u32::MAX)?;
                let times = times.parse().ok()?;
                Some(Measure::Blocks { blocks, times })
            }
            [word, folder, blocks] if word.as_str() == "folder" => {
                let folder = folder.as_str();
                let blocks = blocks.parse().ok()?;
                Some(Measure::Folder { folder, blocks })
            }
            [word] if word.as_str() == "small" => Some(Measure::Small),
            [word, seats, turns] if word.as_str() == "turns" => {
                let seats = seats.parse::<u8>().ok()?;
                let turns = turns.parse().ok()?;
                if seats == 0 || SEATS < seats {
                    return None;
                }
                Some(Measure::Turns { seats, turns })
            }
            _ => None,
        }
    }
}

// The number from `least` to `most` that a word spells.
fn number_within(word: &String, least: u32, most: u32) -> Option<u32>
    ensures { IfSome result (λ number. (least ≤ number) × (number ≤ most)) }
{
    let number = word.parse::<u32>().ok()?;
    if number < least || most < number {
        return None;
    }
    Some(number)
}
