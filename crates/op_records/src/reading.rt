//! Batches from bytes.

ghost use Rattle.std.specs.Prelude.{◌≡◌, ◌≤◌, List, IfOk, IfSome, IfNone, IsTrue, Some, length};
ghost use Rattle.std.specs.Option.{option_map};
ghost use Rattle.spec_model.specs.declared.log.LogItem.{LogItem};
ghost use Rattle.op_records.specs.Reading.{Reads, number_at, many_at, some_at, below_at, args_at, few_at, span_at, right_of, right_at, mode_at, count_at, shares_at, piece_at, act_at, out_at, accept_at, body_at, both_at, is_count, place_at, item_at, counts_at, batch_at};
ghost use Rattle.op_records.specs.Spelling.{Spells};

use crate::cursor::Cursor;
use crate::same::same_body;
use ind_base::{Args, Cut, List as Items, NoMemory, Span, Spans};
use run_model::Batch;
use spec_model::{Body, Cell, Inst, LogItem, Mode, Piece, Right};
use std::alloc::Global;

/// Whether a past has just the items of its origin before this index.
fn is_own(index: u32, count: Option<u32>) -> bool
    ensures { result ≡ is_count index count }
{
    match count {
        Some(count) => count == index,
        None => false,
    }
}

impl<'a> Cursor<'a> {
    /// A number below a bound.
    fn below(&mut self, bound: u32) -> Option<u32>
        ensures { Reads (below_at bound) self.old self.new result }
    {
        let number = self.byte()?;
        if number < bound { Some(number) } else { None }
    }

    fn args_of(&mut self, count: u32) -> Option<Args>
        requires { count ≤ 4 }
        ensures { Reads (many_at (number_at 2) count) self.old self.new result }
    {
        let mut args = Args::new();
        for _ in 0..count {
            args.push(self.half()?);
        }
        Some(args)
    }

    /// Arguments, or a key.
    fn args(&mut self) -> Option<Args>
        ensures { Reads args_at self.old self.new result }
    {
        let count = self.below(5)?;
        self.args_of(count)
    }

    fn span(&mut self) -> Option<Span>
        ensures { Reads span_at self.old self.new result }
    {
        let lo = self.half()?;
        let hi = self.half()?;
        if lo <= hi {
            Some(Span { lo, hi })
        } else {
            None
        }
    }

    fn spans_of(&mut self, count: u32) -> Option<Spans>
        requires { count ≤ 4 }
        ensures { Reads (many_at span_at count) self.old self.new result }
    {
        let mut spans = Spans::new();
        for _ in 0..count {
            spans.push(self.span()?);
        }
        Some(spans)
    }

    fn past_of(&mut self, replicas: u32) -> Option<Cut>
        requires { replicas ≤ 8 }
        ensures { Reads (many_at (number_at 4) replicas) self.old self.new result }
    {
        let mut deps = Cut::new();
        for _ in 0..replicas {
            deps.push(self.word()?);
        }
        Some(deps)
    }

    fn right(&mut self) -> Option<Right>
        ensures { Reads right_at self.old self.new result }
    {
        let tag = self.byte()?;
        let number = self.half()?;
        let args = self.args()?;
        match tag {
            1 => Some(Right::Low(Cell { num: number, args })),
            2 => Some(Right::High(Cell { num: number, args })),
            3 => Some(Right::Lock {
                lock: number,
                key: args,
            }),
            4 => Some(Right::Entry {
                clause: number,
                args,
                literal: self.byte()?,
            }),
            5 => Some(Right::Part {
                part: number,
                key: args,
            }),
            _ => None,
        }
    }

    fn count(&mut self) -> Option<Piece>
        ensures { Reads count_at self.old self.new result }
    {
        let count = self.long()?;
        if count >= 1 {
            Some(Piece::Count(count))
        } else {
            None
        }
    }

    fn mode(&mut self) -> Option<Mode>
        ensures { Reads mode_at self.old self.new result }
    {
        match self.byte()? {
            0 => Some(Mode::Forbid),
            1 => Some(Mode::Allow),
            _ => None,
        }
    }

    fn shares(&mut self) -> Option<Piece>
        ensures { Reads shares_at self.old self.new result }
    {
        let shares = self.byte()?;
        if shares < 1 {
            return None;
        }
        let mode = self.mode()?;
        Some(Piece::Shares { shares, mode })
    }

    /// A piece of a right.
    fn piece(&mut self, right: &Right) -> Option<Piece>
        ensures { Reads (piece_at right.now) self.old self.new result }
    {
        match right {
            Right::Low(_) | Right::High(_) => self.count(),
            Right::Lock { .. } | Right::Entry { .. } => self.shares(),
            Right::Part { .. } => Some(Piece::Points(self.span()?)),
        }
    }

    fn act(&mut self) -> Option<Body>
        ensures { Reads act_at self.old self.new result }
    {
        let op = self.half()?;
        let count = self.below(5)?;
        let args = self.spans_of(count)?;
        Some(Body::Act(Inst { op, args }))
    }

    fn out(&mut self, replicas: u32) -> Option<Body>
        ensures { Reads (out_at replicas) self.old self.new result }
    {
        let to = self.below(replicas)?;
        let right = self.right()?;
        let piece = self.piece(&right)?;
        Some(Body::Out { to, right, piece })
    }

    fn accept(&mut self, replicas: u32) -> Option<Body>
        ensures { Reads (accept_at replicas) self.old self.new result }
    {
        let from = self.below(replicas)?;
        let index = self.word()?;
        Some(Body::Accept { from, index })
    }

    fn body(&mut self, replicas: u32) -> Option<Body>
        ensures { Reads (body_at replicas) self.old self.new result }
    {
        match self.byte()? {
            1 => self.act(),
            2 => self.out(replicas),
            3 => self.accept(replicas),
            _ => None,
        }
    }

    /// An item of one of so many replicas.
    fn item(&mut self, replicas: u32) -> Option<LogItem>
        requires { replicas ≤ 8 }
        ensures { Reads (item_at replicas) self.old self.new result }
    {
        let origin = self.below(replicas)?;
        let index = self.word()?;
        let deps = self.past_of(replicas)?;
        if !is_own(index, deps.get(origin as usize)) {
            return None;
        }
        let body = self.body(replicas)?;
        Some(LogItem {
            origin,
            index,
            deps,
            body,
        })
    }

    /// How many items there are, and how many replicas.
    fn counts(&mut self) -> Option<(u32, u32)>
        ensures { Reads counts_at self.old self.new result }
    {
        let items = self.half()?;
        let replicas = self.byte()?;
        if items >= 1 && items <= 40 && replicas >= 1 && replicas <= 8 {
            Some((items, replicas))
        } else {
            None
        }
    }
}

fn items_of(
    alloc: Global,
    cursor: &mut Cursor,
    count: u32,
    replicas: u32,
) -> Result<Option<Vec<LogItem>>, NoMemory>
    requires { replicas ≤ 8 }
    ensures { IfOk result (λ read. Reads (many_at (item_at replicas) count) cursor.old cursor.new (option_map (λ v. v.items) read)) }
{
    let mut items = Vec::with_capacity(alloc, count as usize)?;
    for _ in 0..count {
        let Some(item) = cursor.item(replicas) else {
            return Ok(None);
        };
        let _so_far = items.as_slice();
        items.push(item)?;
    }
    Ok(Some(items))
}

fn read_all(alloc: Global, bytes: &[u8]) -> Result<Option<Batch>, NoMemory>
    ensures { IfOk result (λ read. option_map (λ b. b.items) read ≡ batch_at bytes.now) }
{
    let mut cursor = Cursor::new(bytes);
    let Some((count, replicas)) = cursor.counts() else {
        return Ok(None);
    };
    let Some(items) = items_of(alloc, &mut cursor, count, replicas)? else {
        return Ok(None);
    };
    if !cursor.is_empty() {
        return Ok(None);
    }
    Ok(Some(Batch {
        items: Items::from_vec(items),
    }))
}

/// The batch that the bytes spell; `None` where they spell none.
pub fn decode_items(alloc: Global, bytes: &[u8]) -> Result<Option<Batch>, NoMemory>
    ensures some { IfOk result (λ read. IfSome read (λ batch. Spells bytes.now batch.items)) }
    ensures none { IfOk result (λ read. IfNone read ((items : List LogItem) → Spells bytes.now items → ⊥)) }
{
    read_all(alloc, bytes)
}

impl<'a> Cursor<'a> {
    /// Whether these counts are read next.
    fn has_counts(&mut self, counts: &[u32]) -> bool
        ensures { IsTrue result → many_at (number_at 4) (length counts.now) self.old ≡ Some (counts.now, self.new) }
    {
        for count in counts {
            match self.word() {
                Some(read) => {
                    if read != *count {
                        return false;
                    }
                }
                None => return false,
            }
        }
        true
    }

    /// Whether this origin and index are read next.
    fn has_number(&mut self, replicas: u32, item: &LogItem) -> bool
        ensures { IsTrue result → both_at (below_at replicas) (number_at 4) self.old ≡ Some ((item.now.origin, item.now.index), self.new) }
    {
        match self.below(replicas) {
            Some(origin) => match self.word() {
                Some(index) => origin == item.origin && index == item.index,
                None => false,
            },
            None => false,
        }
    }

    /// Whether the place of this item is read next.
    fn has_place(&mut self, replicas: u32, item: &LogItem) -> bool
        ensures { IsTrue result → place_at replicas self.old ≡ Some (((item.now.origin, item.now.index), item.now.deps), self.new) }
    {
        item.deps.len() == replicas as usize
            && is_own(item.index, item.deps.get(item.origin as usize))
            && self.has_number(replicas, item)
            && self.has_counts(item.deps.as_slice())
    }

    /// Whether this item of one of so many replicas is read next.
    fn has_item(&mut self, replicas: u32, item: &LogItem) -> bool
        ensures { IsTrue result → item_at replicas self.old ≡ Some (item.now, self.new) }
    {
        if !self.has_place(replicas, item) {
            return false;
        }
        match self.body(replicas) {
            Some(body) => same_body(&body, &item.body),
            None => false,
        }
    }
}

/// Whether the next items that are read are these.
fn reads_items(cursor: &mut Cursor, replicas: u32, items: &[LogItem]) -> bool
    ensures { IsTrue result → many_at (item_at replicas) (length items.now) cursor.old ≡ Some (items.now, cursor.new) }
{
    for item in items {
        if !cursor.has_item(replicas, item) {
            return false;
        }
    }
    true
}

fn reads_all(bytes: &[u8], items: &[LogItem]) -> bool
    ensures { IsTrue result → batch_at bytes.now ≡ Some items.now }
{
    let mut cursor = Cursor::new(bytes);
    let Some((count, replicas)) = cursor.counts() else {
        return false;
    };
    if count as usize != items.len() || !reads_items(&mut cursor, replicas, items) {
        return false;
    }
    cursor.is_empty()
}

/// Whether the bytes spell this batch. It takes no memory.
pub fn is_spelled(batch: &Batch, bytes: &[u8]) -> bool
    ensures { IsTrue result → Spells bytes.now batch.now.items }
{
    reads_all(bytes, batch.items.as_slice())
}
