//! Batches as bytes.

ghost use Rattle.std.specs.Prelude.{◌≡◌, ◌<◌, ◌≤◌, ◌^◌, ◌+◌, ◌++◌, length, drop, IfOk, OnOk};
ghost use Rattle.std.specs.List.{flat_map};
ghost use Rattle.op_records.specs.Spelling.{number, args_text, span_text, spans_text, mode_code, right_text, piece_text, body_text, item_text, batch_text, AreArgs, IsSpan, AreSpans, IsNamed, IsRight, IsPiece, IsBody, IsItem, IsBatch};

use byteorder::{BigEndian, ByteOrder};
use ind_base::{Args, List as Items, NoMemory, Span, Spans};
use run_model::Batch;
use spec_model::{Body, LogItem, Mode, Piece, Right};
use std::alloc::Global;

/// No item has more bytes.
const LONGEST: usize = 60;

#[tactic(auto, unfolding(crate::specs::Spelling::number))]
fn put_byte(out: &mut Items<u8>, n: u32) -> Result<(), NoMemory>
    requires { n < 2 ^ 8 }
    ensures { OnOk result (out.new ≡ out.old ++ number 1 n) }
{
    out.push(n as u8)
}

#[tactic(auto, unfolding(crate::specs::Spelling::number))]
fn put_half(out: &mut Items<u8>, n: u32) -> Result<(), NoMemory>
    requires { n < 2 ^ 16 }
    ensures { OnOk result (out.new ≡ out.old ++ number 2 n) }
{
    let mut bytes = [0; 2];
    BigEndian::write_u16(&mut bytes, n as u16);
    out.extend(&bytes)
}

#[tactic(auto, unfolding(crate::specs::Spelling::number))]
fn put_word(out: &mut Items<u8>, n: u32) -> Result<(), NoMemory>
    ensures { OnOk result (out.new ≡ out.old ++ number 4 n) }
{
    let mut bytes = [0; 4];
    BigEndian::write_u32(&mut bytes, n);
    out.extend(&bytes)
}

#[tactic(auto, unfolding(crate::specs::Spelling::number))]
fn put_long(out: &mut Items<u8>, n: u64) -> Result<(), NoMemory>
    ensures { OnOk result (out.new ≡ out.old ++ number 8 n) }
{
    let mut bytes = [0; 8];
    BigEndian::write_u64(&mut bytes, n);
    out.extend(&bytes)
}

/// A tag, a number and arguments.
fn put_named(out: &mut Items<u8>, tag: u32, n: u32, args: &Args) -> Result<(), NoMemory>
    requires tag { tag < 2 ^ 8 }
    requires named { IsNamed n args.now }
    ensures { OnOk result (out.new ≡ out.old ++ (number 1 tag ++ (number 2 n ++ args_text args.now))) }
{
    put_byte(out, tag)?;
    put_half(out, n)?;
    put_args(out, args)
}

fn put_args(out: &mut Items<u8>, args: &Args) -> Result<(), NoMemory>
    requires { AreArgs args.now }
    ensures { OnOk result (out.new ≡ out.old ++ args_text args.now) }
{
    put_byte(out, args.len() as u32)?;
    for n in args.as_slice() {
        put_half(out, *n)?;
    }
    Ok(())
}

fn put_span(out: &mut Items<u8>, span: Span) -> Result<(), NoMemory>
    requires { IsSpan span }
    ensures { OnOk result (out.new ≡ out.old ++ span_text span) }
{
    put_half(out, span.lo)?;
    put_half(out, span.hi)
}

/// The span at a place, before those behind it.
fn put_span_at(out: &mut Items<u8>, spans: &Spans, at: usize) -> Result<(), NoMemory>
    requires place { at < length spans.now }
    requires spans { AreSpans spans.now }
    ensures { OnOk result (out.new ++ flat_map span_text (drop (at + 1) spans.now) ≡ out.old ++ flat_map span_text (drop at spans.now)) }
{
    match spans.get(at) {
        Some(span) => put_span(out, span),
        None => Ok(()),
    }
}

fn put_spans(out: &mut Items<u8>, spans: &Spans) -> Result<(), NoMemory>
    requires { AreSpans spans.now }
    ensures { OnOk result (out.new ≡ out.old ++ spans_text spans.now) }
{
    let count = spans.len();
    put_byte(out, count as u32)?;
    for at in 0..count {
        put_span_at(out, spans, at)?;
    }
    Ok(())
}

fn put_right(out: &mut Items<u8>, right: &Right) -> Result<(), NoMemory>
    requires { IsRight right.now }
    ensures { OnOk result (out.new ≡ out.old ++ right_text right.now) }
{
    match right {
        Right::Low(cell) => put_named(out, 1, cell.num, &cell.args),
        Right::High(cell) => put_named(out, 2, cell.num, &cell.args),
        Right::Lock { lock, key } => put_named(out, 3, *lock, key),
        Right::Entry {
            clause,
            args,
            literal,
        } => {
            put_named(out, 4, *clause, args)?;
            put_byte(out, *literal)
        }
        Right::Part { part, key } => put_named(out, 5, *part, key),
    }
}

/// The code of a mode.
fn code_of(mode: Mode) -> u32
    ensures { result ≡ mode_code mode }
{
    match mode {
        Mode::Forbid => 0,
        Mode::Allow => 1,
    }
}

fn put_piece(out: &mut Items<u8>, piece: &Piece) -> Result<(), NoMemory>
    requires { IsPiece piece.now }
    ensures { OnOk result (out.new ≡ out.old ++ piece_text piece.now) }
{
    match piece {
        Piece::Count(n) => put_long(out, *n),
        Piece::Shares { shares, mode } => {
            put_byte(out, *shares)?;
            put_byte(out, code_of(*mode))
        }
        Piece::Points(span) => put_span(out, *span),
    }
}

fn put_body(out: &mut Items<u8>, body: &Body) -> Result<(), NoMemory>
    requires { IsBody (2 ^ 8) body.now }
    ensures { OnOk result (out.new ≡ out.old ++ body_text body.now) }
{
    match body {
        Body::Act(inst) => {
            put_byte(out, 1)?;
            put_half(out, inst.op)?;
            put_spans(out, &inst.args)
        }
        Body::Out { to, right, piece } => {
            put_byte(out, 2)?;
            put_byte(out, *to)?;
            put_right(out, right)?;
            put_piece(out, piece)
        }
        Body::Accept { from, index } => {
            put_byte(out, 3)?;
            put_byte(out, *from)?;
            put_word(out, *index)
        }
    }
}

fn put_item(out: &mut Items<u8>, item: &LogItem) -> Result<(), NoMemory>
    requires origin { item.now.origin < 2 ^ 8 }
    requires body { IsBody (2 ^ 8) item.now.body }
    ensures { OnOk result (out.new ≡ out.old ++ item_text item.now) }
{
    put_byte(out, item.origin)?;
    put_word(out, item.index)?;
    for count in item.deps.as_slice() {
        put_word(out, *count)?;
    }
    put_body(out, &item.body)
}

/// The bytes of a batch of so many replicas.
pub fn encode_items(alloc: Global, replicas: u32, batch: &Batch) -> Result<Items<u8>, NoMemory>
    requires { IsBatch replicas batch.now.items }
    ensures { IfOk result (λ bytes. bytes ≡ batch_text replicas batch.now.items) }
{
    let items = batch.items.as_slice();
    let mut out = Items::from_vec(Vec::with_capacity(alloc, 3 + LONGEST * items.len())?);
    put_half(&mut out, items.len() as u32)?;
    put_byte(&mut out, replicas)?;
    for item in items {
        put_item(&mut out, item)?;
    }
    Ok(out)
}
