//! Why a line is refused.

ghost use Rattle.std.specs.Prelude.{◌≡◌};
ghost use Rattle.line_text.specs.Causes.{Gives, Rises, guard as guarded, known as known_place};
ghost use Rattle.line_text.specs.Texts.{at_line as refusal_at};
ghost use Rattle.line_text.specs.declared.cause.FormError.TheVariants as form_errors;
ghost use Rattle.line_text.specs.declared.cause.LineError.TheVariants as line_errors;

use ind_base::NoMemory;
use thiserror::Error;

/// Why a line is refused, in the order in which the causes are looked for within a line.
#[derive(Clone, Copy, Debug)]
pub enum Cause {
    /// A byte is neither a tab nor one of 32 to 126.
    NotAscii,
    /// No token begins somewhere, or a number or word isn't one of the language.
    BadToken,
    /// The first token is none of the line words.
    UnknownLine,
    /// The tokens don't follow the line's form.
    BadForm,
    /// The line may not stand here.
    OutOfPlace,
    /// A declared name is reserved or was declared before.
    NameTaken,
    /// A name isn't declared as the kind that is needed.
    UnknownName,
    /// Arguments differ in number, sort or kind.
    WrongArguments,
    /// A number is outside its limit.
    OutOfRange,
    /// A limit on counts would be passed.
    TooMany,
    /// The first values are out of their bounds, or make a clause false.
    FalseAtStart,
    /// The input ends without a line `replicas`.
    ReplicasMissing,
}

/// Why a part of a line is not read.
#[derive(Clone, Copy)]
pub enum FormError {
    Memory,
    Refused,
}

/// Why one line is not taken.
#[derive(Clone, Copy)]
pub enum LineError {
    Memory,
    Refused(Cause),
}

/// Why a text is not read. `line` is the first line that is refused, from 1, and `cause` its first
/// cause.
#[derive(Clone, Copy, Debug, Error)]
pub enum ParseError {
    #[error("out of memory")]
    Memory,
    #[error("line {line}: {cause:?}")]
    BadLine { line: u32, cause: Cause },
}

impl From<NoMemory> for FormError {
    ghost from_gives = { λ _ e. e ≡ form_errors.Memory };

    fn from(_: NoMemory) -> FormError {
        FormError::Memory
    }
}

impl From<NoMemory> for LineError {
    ghost from_gives = { λ _ e. e ≡ line_errors.Memory };

    fn from(_: NoMemory) -> LineError {
        LineError::Memory
    }
}

/// Refuses for the cause, unless the condition holds.
pub fn guard(holds: bool, cause: Cause) -> Result<(), LineError>
    ensures { Gives (λ x. x) result (guarded holds cause) }
{
    if holds {
        Ok(())
    } else {
        Err(LineError::Refused(cause))
    }
}

/// The place of a name that has to be declared.
pub fn known(place: Option<usize>) -> Result<usize, LineError>
    ensures { Gives (λ i. i) result (known_place place) }
{
    match place {
        Some(i) => Ok(i),
        None => Err(LineError::Refused(Cause::UnknownName)),
    }
}

/// What a part of a line gives, with the cause of its refusal.
pub fn with_cause<T>(read: Result<T, FormError>, cause: Cause) -> Result<T, LineError>
    ensures { Rises read result cause }
{
    match read {
        Ok(x) => Ok(x),
        Err(FormError::Memory) => Err(LineError::Memory),
        Err(FormError::Refused) => Err(LineError::Refused(cause)),
    }
}

/// A line's refusal with its number, from 1.
pub fn at_line(line: u32, error: LineError) -> ParseError
    ensures { result ≡ refusal_at line error }
{
    match error {
        LineError::Memory => ParseError::Memory,
        LineError::Refused(cause) => ParseError::BadLine { line, cause },
    }
}
