//! What the bytes on a disk stand for.

ghost use Rattle.std.specs.Prelude.{◌≡◌, ◌≢◌, ℕ, [], ◌∷◌, ◌<◌, ◌≤◌, ◌↔◌, ◌++◌, length, take, false, IsTrue, IfOk, IfErr, IfSome, MatchOption};
ghost use Rattle.std.specs.List.{AllByRecursion};
ghost use Rattle.rights_journal.specs.Image.{IsFinished, IsUnfinished, HasHeader, NoHeader, NoFrame, IsForeign, IsBroken, magic, sized, frames, opened};
ghost use Rattle.rights_journal.specs.Batches.{IsSpelled, text_of};
ghost use Rattle.rights_journal.specs.Reading.{IsRead, RefusesAt, known_and};

use crate::batches::{decode_batch, is_text};
use ind_base::{List as Items, NoMemory};
use run_model::Batch;
use std::alloc::Global;

/// The text INDIGOJ1.
pub const MAGIC: [u8; 8] = [73, 78, 68, 73, 71, 79, 74, 49];

/// The header with its gate open.
pub const HEADER: [u8; 9] = [1, 73, 78, 68, 73, 71, 79, 74, 49];

/// The batches of a finished journal, and the place of its closed gate. First come so many of the
/// batches that were known, and then the others.
#[derive(Drop)]
pub struct Frames {
    pub same: usize,
    pub batches: Items<Batch>,
    pub gate: u64,
}

/// Why bytes could not be read.
#[derive(Clone, Copy, Debug, PartialEq, Eq)]
pub enum Refusal {
    Memory,
    Foreign(u64),
}

impl From<NoMemory> for Refusal {
    ghost use Rattle.rights_journal.specs.declared.reading.Refusal.TheVariants.{Memory};

    ghost from_gives = { λ _ e. e ≡ Memory };

    fn from(_e: NoMemory) -> Refusal {
        Refusal::Memory
    }
}

/// Whether an open header stands at the front, with a gate behind it.
pub fn has_header(bytes: &[u8]) -> bool
    ensures yes { IsTrue result → HasHeader bytes.now }
    ensures no { result ≡ false → NoHeader bytes.now }
{
    if bytes.len() < 10 {
        return false;
    }
    let (front, _rest) = bytes.split_at(9);
    front == HEADER.as_slice()
}

/// Whether the bytes are an unfinished journal.
pub fn is_unfinished(bytes: &[u8]) -> bool
    ensures yes { IsTrue result → IsUnfinished bytes.now }
    ensures no { result ≡ false → IsUnfinished bytes.now → ⊥ }
{
    match bytes {
        [] | [_] => true,
        [0, rest @ ..] => rest.len() <= 9,
        [first, rest @ ..] => *first != 1 && is_header_end(rest),
    }
}

/// Whether the magic stands there, then one closed gate, and no more.
fn is_header_end(bytes: &[u8]) -> bool
    ensures yes { IsTrue result → (last : ℕ) × (bytes.now ≡ magic ++ last ∷ []) × (last ≢ 1) }
    ensures no { result ≡ false → (last : ℕ) → bytes.now ≡ magic ++ last ∷ [] → last ≢ 1 → ⊥ }
{
    if bytes.len() != 9 {
        return false;
    }
    let (front, back) = bytes.split_at(8);
    front == MAGIC.as_slice() && back[0] != 1
}

/// The batch behind an open gate, and the bytes from the next gate on.
fn frame_of(alloc: Global, replicas: u32, bytes: &[u8]) -> Result<Option<(Batch, &[u8])>, NoMemory>
    ensures { IfOk result (λ found. MatchOption found (NoFrame replicas bytes.now)
        (λ x. IsSpelled replicas x.0 × (bytes.now ≡ sized (text_of replicas x.0) ++ x.1.now) × (0 < length x.1.now))) }
{
    if bytes.len() < 4 {
        return Ok(None);
    }
    let (front, rest) = bytes.split_at(4);
    let count = u32::from_be_bytes([front[0], front[1], front[2], front[3]]) as usize;
    if rest.len() <= count {
        return Ok(None);
    }
    let (body, next) = rest.split_at(count);
    match decode_batch(alloc, replicas, body)? {
        None => Ok(None),
        Some(batch) => Ok(Some((batch, next))),
    }
}

/// The bytes behind a frame of this batch at an open gate, from the next gate on.
fn behind_known<'a>(replicas: u32, batch: &Batch, bytes: &'a [u8]) -> Option<&'a [u8]>
    ensures { IfSome result (λ next. IsSpelled replicas batch.now × (bytes.now ≡ 1 ∷ (sized (text_of replicas batch.now) ++ next.now)) × (0 < length next.now)) }
{
    if bytes.len() < 5 || bytes[0] != 1 {
        return None;
    }
    let (_gate, after) = bytes.split_at(1);
    let (front, rest) = after.split_at(4);
    let count = u32::from_be_bytes([front[0], front[1], front[2], front[3]]) as usize;
    if rest.len() <= count {
        return None;
    }
    let (body, next) = rest.split_at(count);
    if is_text(replicas, batch, body) {
        Some(next)
    } else {
        None
    }
}

/// How many of the known batches have their frames at the front, and the bytes behind these.
fn known_frames<'a>(replicas: u32, known: &[Batch], bytes: &'a [u8]) -> (usize, &'a [u8])
    requires { 0 < length bytes.now }
    ensures bytes { bytes.now ≡ frames replicas (take result.0 known.now) ++ result.1.now }
    ensures gate { 0 < length result.1.now }
    ensures each { AllByRecursion (IsSpelled replicas) (take result.0 known.now) }
    ensures within { result.0 ≤ length known.now }
{
    let mut rest = bytes;
    for (at, batch) in known.iter().enumerate() {
        match behind_known(replicas, batch, rest) {
            Some(next) => {
                rest = next;
            }
            None => return (at, rest),
        }
    }
    (known.len(), rest)
}

/// The frames behind an open header. Where they are those of known batches they take no memory.
pub fn frames_of(
    alloc: Global,
    replicas: u32,
    known: &[Batch],
    bytes: &[u8],
) -> Result<Frames, Refusal>
    requires { HasHeader bytes.now }
    ensures ok { IfOk result (λ f. IsRead replicas (known_and f.same known.now f.batches) f.gate bytes.now) }
    ensures within { IfOk result (λ f. f.same ≤ length known.now) }
    ensures err { IfErr result (λ e. RefusesAt (λ at. IsBroken replicas at bytes.now) e) }
{
    let (_header, behind) = bytes.split_at(9);
    let front = known_frames(replicas, known, behind);
    let same = front.0;
    let mut batches = Items::new(alloc);
    let mut rest = front.1;
    'frames: while rest[0] == 1 {
        let (_gate, after) = rest.split_at(1);
        match frame_of(alloc, replicas, after)? {
            None => return Err(Refusal::Foreign((bytes.len() - rest.len()) as u64)),
            Some((batch, next)) => {
                batches.push(batch)?;
                rest = next;
            }
        }
    }
    Ok(Frames {
        same,
        batches,
        gate: (bytes.len() - rest.len()) as u64,
    })
}
