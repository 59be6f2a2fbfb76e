//! The small parts of a trace's text.

ghost use Rattle.std.specs.Prelude.{◌≡◌, ◌∷◌, [], ◌++◌, OnOk, codes, map, decimal};
ghost use Rattle.std.specs.List.{flat_map};
ghost use Rattle.run_model.specs.Trace as trace;

use ind_base::{List, NoMemory, Span, put_num};
use spec_model::{Amount, Cell, Held, Level, Mode, Right, Spec};

/// A comma before each part but the first.
pub(crate) fn put_comma(out: &mut List<u8>, at: usize) -> Result<(), NoMemory>
    ensures { OnOk result (out.new ≡ out.old ++ trace.comma at) }
{
    if at == 0 { Ok(()) } else { out.extend(b",") }
}

/// Numbers parted by commas.
fn put_numbers(out: &mut List<u8>, numbers: &[u32]) -> Result<(), NoMemory>
    ensures { OnOk result (out.new ≡ out.old ++ trace.numbers_text 0 numbers.now) }
{
    for (at, number) in numbers.iter().enumerate() {
        put_comma(out, at)?;
        put_num(out, u64::from(*number))?;
    }
    Ok(())
}

/// Numbers in parentheses.
pub(crate) fn put_tuple(out: &mut List<u8>, numbers: &[u32]) -> Result<(), NoMemory>
    ensures { OnOk result (out.new ≡ out.old ++ trace.tuple_text numbers.now) }
{
    out.push(b'(')?;
    put_numbers(out, numbers)?;
    out.push(b')')
}

pub(crate) fn put_integer(out: &mut List<u8>, n: i64) -> Result<(), NoMemory>
    ensures { OnOk result (out.new ≡ out.old ++ trace.integer_text n) }
{
    if n < 0 {
        out.push(b'-')?;
    }
    put_num(out, n.unsigned_abs())
}

pub(crate) fn put_span(out: &mut List<u8>, span: &Span) -> Result<(), NoMemory>
    ensures { OnOk result (out.new ≡ out.old ++ trace.span_text span.now) }
{
    put_num(out, u64::from(span.lo))?;
    out.push(b'-')?;
    put_num(out, u64::from(span.hi))
}

fn put_num_name(out: &mut List<u8>, spec: &Spec, num: u32) -> Result<(), NoMemory>
    ensures { OnOk result (out.new ≡ out.old ++ trace.num_name spec.now num) }
{
    match spec.nums.get(num as usize) {
        Some(num) => out.extend(num.name.as_slice()),
        None => Ok(()),
    }
}

pub(crate) fn put_cell(out: &mut List<u8>, spec: &Spec, cell: &Cell) -> Result<(), NoMemory>
    ensures { OnOk result (out.new ≡ out.old ++ trace.cell_text spec.now cell.now) }
{
    put_num_name(out, spec, cell.num)?;
    put_tuple(out, cell.args.as_slice())
}

fn put_level(out: &mut List<u8>, level: Level) -> Result<(), NoMemory>
    ensures { OnOk result (out.new ≡ out.old ++ trace.level_text level) }
{
    match level {
        Level::Forbid => out.extend(b"forbid"),
        Level::Allow => out.extend(b"allow"),
        Level::Exclusive => out.extend(b"exclusive"),
    }
}

fn put_mode(out: &mut List<u8>, mode: Mode) -> Result<(), NoMemory>
    ensures { OnOk result (out.new ≡ out.old ++ trace.mode_text mode) }
{
    match mode {
        Mode::Forbid => out.extend(b"forbid"),
        Mode::Allow => out.extend(b"allow"),
    }
}

/// Shares and their mode; no share has no mode.
pub(crate) fn put_shares(out: &mut List<u8>, shares: u32, mode: Mode) -> Result<(), NoMemory>
    ensures { OnOk result (out.new ≡ out.old ++ trace.shares_text shares mode) }
{
    if shares == 0 {
        return out.extend(b"0");
    }
    put_num(out, u64::from(shares))?;
    out.push(b' ')?;
    put_mode(out, mode)
}

fn put_lock(out: &mut List<u8>, lock: u32, key: &[u32]) -> Result<(), NoMemory>
    ensures { OnOk result (out.new ≡ out.old ++ codes "lock " ++ decimal lock ++ trace.tuple_text key.now) }
{
    out.extend(b"lock ")?;
    put_num(out, u64::from(lock))?;
    put_tuple(out, key)
}

fn put_part(out: &mut List<u8>, part: u32, key: &[u32]) -> Result<(), NoMemory>
    ensures { OnOk result (out.new ≡ out.old ++ codes "part " ++ decimal part ++ trace.tuple_text key.now) }
{
    out.extend(b"part ")?;
    put_num(out, u64::from(part))?;
    put_tuple(out, key)
}

fn put_mask(out: &mut List<u8>, clause: u32, args: &[u32], literal: u32) -> Result<(), NoMemory>
    ensures { OnOk result (out.new ≡ out.old ++ codes "mask " ++ decimal clause ++ trace.tuple_text args.now ++ codes " " ++ decimal literal) }
{
    out.extend(b"mask ")?;
    put_num(out, u64::from(clause))?;
    put_tuple(out, args)?;
    out.push(b' ')?;
    put_num(out, u64::from(literal))
}

fn put_low(out: &mut List<u8>, spec: &Spec, cell: &Cell) -> Result<(), NoMemory>
    ensures { OnOk result (out.new ≡ out.old ++ codes "low " ++ trace.cell_text spec.now cell.now) }
{
    out.extend(b"low ")?;
    put_cell(out, spec, cell)
}

fn put_high(out: &mut List<u8>, spec: &Spec, cell: &Cell) -> Result<(), NoMemory>
    ensures { OnOk result (out.new ≡ out.old ++ codes "high " ++ trace.cell_text spec.now cell.now) }
{
    out.extend(b"high ")?;
    put_cell(out, spec, cell)
}

pub(crate) fn put_right(out: &mut List<u8>, spec: &Spec, right: &Right) -> Result<(), NoMemory>
    ensures { OnOk result (out.new ≡ out.old ++ trace.right_text spec.now right.now) }
{
    match right {
        Right::Low(cell) => put_low(out, spec, cell),
        Right::High(cell) => put_high(out, spec, cell),
        Right::Lock { lock, key } => put_lock(out, *lock, key.as_slice()),
        Right::Entry {
            clause,
            args,
            literal,
        } => put_mask(out, *clause, args.as_slice(), *literal),
        Right::Part { part, key } => put_part(out, *part, key.as_slice()),
    }
}

pub(crate) fn put_amount(out: &mut List<u8>, amount: &Amount) -> Result<(), NoMemory>
    ensures { OnOk result (out.new ≡ out.old ++ trace.amount_text amount.now) }
{
    match amount {
        Amount::Count(n) => put_num(out, *n),
        Amount::Level(level) => put_level(out, *level),
        Amount::Points(_) => out.extend(b"1"),
        Amount::AnyForbid(_) => out.extend(b"forbid"),
    }
}

pub(crate) fn put_held(out: &mut List<u8>, held: &Held) -> Result<(), NoMemory>
    ensures { OnOk result (out.new ≡ out.old ++ trace.held_text held.now) }
{
    match held {
        Held::Count(n) => put_num(out, *n),
        Held::Shares { shares, mode } => put_shares(out, *shares, *mode),
        Held::Points { .. } => out.extend(b"0"),
    }
}

/// The lowest point that is missing.
pub(crate) fn put_missing(out: &mut List<u8>, held: &Held) -> Result<(), NoMemory>
    ensures { OnOk result (out.new ≡ out.old ++ trace.missing_text held.now) }
{
    match held {
        Held::Points {
            missing: Some(point),
            ..
        } => {
            out.push(b' ')?;
            put_num(out, u64::from(*point))
        }
        _ => Ok(()),
    }
}
