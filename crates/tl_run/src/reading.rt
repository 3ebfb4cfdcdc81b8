//! Reading the whole input.

ghost use Rattle.std.specs.Prelude.{◌≡◌, ◌+◌, ◌<◌, ◌≤◌, length, IfOk, IsErrOf};
ghost use Rattle.tl_io.specs.Counts.{Rises};
ghost use Rattle.tl_run.specs.Streams.{NoneLeft, RisesBy, GivesPiece, ReadsAll, HasMore};

use std::alloc::{AllocError, Global};
use tl_io::{Failed, Source};

/// The greatest length of an input, in bytes.
pub const INPUT_LIMIT: usize = 16_777_216;

/// How many bytes are asked of a source at once, at most.
const PIECE: usize = 4096;

/// Why an input was not read to its end.
#[derive(Clone, Copy, Debug, PartialEq, Eq)]
pub(crate) enum ReadError {
    /// The source met a fault.
    Failed,
    /// The input is longer than it may be.
    TooLong,
    /// Memory ran out.
    NoMemory,
}

impl From<Failed> for ReadError {
    ghost use Rattle.std.specs.Prelude.{◌≡◌};
    ghost use Rattle.tl_run.specs.declared.reading.ReadError.TheVariants.{Failed as failed};

    ghost from_gives = { λ _ e. e ≡ failed };

    fn from(_error: Failed) -> ReadError {
        ReadError::Failed
    }
}

impl From<AllocError> for ReadError {
    ghost use Rattle.std.specs.Prelude.{◌≡◌};
    ghost use Rattle.tl_run.specs.declared.reading.ReadError.TheVariants.{NoMemory};

    ghost from_gives = { λ _ e. e ≡ NoMemory };

    fn from(_error: AllocError) -> ReadError {
        ReadError::NoMemory
    }
}

/// The whole input.
pub(crate) fn read_all<I: Source>(alloc: Global, input: &mut I) -> Result<Vec<u8>, ReadError>
    ensures read { IfOk result (λ text. ReadsAll (I.left input.old) (I.left input.new) text.items) }
    ensures short { IfOk result (λ text. length text.items ≤ INPUT_LIMIT) }
    ensures given { IfOk result (λ text. RisesBy (I.given input.old) (I.given input.new) (length text.items)) }

    ensures long { IsErrOf result ReadError.TooLong → HasMore INPUT_LIMIT (I.left input.old) }
    ensures long_given { IsErrOf result ReadError.TooLong → RisesBy (I.given input.old) (I.given input.new) (INPUT_LIMIT + 1) }
    ensures failed { IsErrOf result ReadError.Failed → Rises (I.faults input.old) (I.faults input.new) }
{
    let mut text = Vec::new(alloc);
    let mut buffer = [0u8; PIECE];
    'pieces: while text.len() <= INPUT_LIMIT {
        let room = PIECE.min(INPUT_LIMIT + 1 - text.len());
        if read_piece(input, &mut buffer[..room], &mut text)? == 0 {
            return Ok(text);
        }
    }
    Err(ReadError::TooLong)
}

// Appends the next bytes of the source to the text, and answers how many.
fn read_piece<I: Source>(
    input: &mut I,
    buffer: &mut [u8],
    text: &mut Vec<u8>,
) -> Result<usize, ReadError>
    requires { 0 < length buffer.old }
    ensures piece { IfOk result (GivesPiece (I.left input.old) (I.left input.new) text.old.items text.new.items) }
    ensures room { IfOk result (λ n. n ≤ length buffer.old) }
    ensures end { IfOk result (λ n. n ≡ 0 → NoneLeft (I.left input.old)) }
    ensures given { IfOk result (RisesBy (I.given input.old) (I.given input.new)) }
    ensures failed { IsErrOf result ReadError.Failed → Rises (I.faults input.old) (I.faults input.new) }
    ensures never_long { IsErrOf result ReadError.TooLong → ⊥ }
    ensures never_falls { I.faults input.old ≤ I.faults input.new }
{
    let n = input.read(buffer)?;
    text.extend_from_slice(&buffer[..n])?;
    Ok(n)
}
