//! Names and what they stand for.

ghost use Rattle.std.specs.Prelude.{◌≡◌, ◌≤◌, length, IfOk};
ghost use Rattle.spec_language.specs.Names as names;

use ind_base::NoMemory;
use line_text::same;
use spec_lines::{NamedParam, NamedVar};
use spec_model::{Num, Op, Pred, Sort, Var};
use std::alloc::Global;
use std::collections::BTreeSet;

/// What has a name.
pub trait Named: Sized {
    ghost use Rattle.std.specs.Prelude.{◌≡◌, ℕ, List};

    /// The name.
    ghost name_of: { Self → List ℕ };

    /// The name.
    fn name(&self) -> &[u8]
        ensures { result.now ≡ Self.name_of self.now };
}

impl Named for Sort {
    ghost name_of = { λ x. x.name };

    fn name(&self) -> &[u8] {
        self.name.as_slice()
    }
}

impl Named for Pred {
    ghost name_of = { λ x. x.name };

    fn name(&self) -> &[u8] {
        self.name.as_slice()
    }
}

impl Named for Num {
    ghost name_of = { λ x. x.name };

    fn name(&self) -> &[u8] {
        self.name.as_slice()
    }
}

impl Named for Op {
    ghost name_of = { λ x. x.name };

    fn name(&self) -> &[u8] {
        self.name.as_slice()
    }
}

impl Named for Var {
    ghost name_of = { λ x. x.name };

    fn name(&self) -> &[u8] {
        self.name.as_slice()
    }
}

impl Named for NamedVar {
    ghost name_of = { λ x. x.name };

    fn name(&self) -> &[u8] {
        self.name.as_slice()
    }
}

impl Named for NamedParam {
    ghost name_of = { λ x. x.name };

    fn name(&self) -> &[u8] {
        self.name.as_slice()
    }
}

fn is_line_word(word: &[u8]) -> bool
    ensures { result ≡ names.is_line_word word.now }
{
    same(word, b"sort")
        || same(word, b"pred")
        || same(word, b"num")
        || same(word, b"clause")
        || same(word, b"op")
        || same(word, b"set")
        || same(word, b"clear")
        || same(word, b"add")
        || same(word, b"sub")
        || same(word, b"free")
        || same(word, b"replicas")
        || same(word, b"stop")
}

fn is_run_word(word: &[u8]) -> bool
    ensures { result ≡ names.is_run_word word.now }
{
    same(word, b"do")
        || same(word, b"send")
        || same(word, b"take")
        || same(word, b"crash")
        || same(word, b"recover")
        || same(word, b"turns")
        || same(word, b"client")
        || same(word, b"at")
        || same(word, b"ask")
}

fn is_inner_word(word: &[u8]) -> bool
    ensures { result ≡ names.is_inner_word word.now }
{
    same(word, b"init")
        || same(word, b"min")
        || same(word, b"max")
        || same(word, b"and")
        || same(word, b"or")
        || same(word, b"mask")
        || same(word, b"interval")
        || same(word, b"true")
        || same(word, b"add_wins")
        || same(word, b"remove_wins")
        || same(word, b"locked")
}

fn is_report_word(word: &[u8]) -> bool
    ensures { result ≡ names.is_report_word word.now }
{
    same(word, b"drop")
        || same(word, b"twice")
        || same(word, b"late")
        || same(word, b"plan")
        || same(word, b"certificate")
}

/// Whether a word is reserved, so that it is no name.
#[tactic(auto, unfolding(crate::specs::Names::is_reserved))]
pub fn is_reserved(word: &[u8]) -> bool
    ensures { result ≡ names.is_reserved word.now }
{
    is_line_word(word) || is_run_word(word) || is_inner_word(word) || is_report_word(word)
}

/// Whether one of them has this name.
pub fn has_name<T: Named>(items: &[T], name: &[u8]) -> bool
    ensures { result ≡ names.is_known T.name_of items.now name.now }
{
    items.iter().any(|x| same(x.name(), name))
}

/// The place of the first one with this name; how many there are, where none has it.
pub fn place_of<T: Named>(items: &[T], name: &[u8]) -> u32
    requires { length items.now ≤ 64 }
    ensures { result ≡ names.place_in T.name_of items.now name.now }
{
    for (at, x) in items.iter().enumerate() {
        if same(x.name(), name) {
            return at as u32;
        }
    }
    items.len() as u32
}

/// Whether the place that was found for a name is that of one of them.
pub fn is_placed<T: Named>(items: &[T], name: &[u8], place: u32) -> bool
    requires { place ≡ names.place_in T.name_of items.now name.now }
    ensures { result ≡ names.is_known T.name_of items.now name.now }
{
    let _name = name;
    (place as usize) < items.len()
}

/// Whether no name is reserved and none stands twice. The names behind a place stand in a set, since
/// a line may have very many.
pub(crate) fn are_free<T: Named>(alloc: Global, items: &[T]) -> Result<bool, NoMemory>
    ensures { IfOk result (λ free. free ≡ names.are_free T.name_of items.now) }
{
    let mut behind = BTreeSet::new(alloc);
    let mut front = items;
    'going: while let Some((last, others)) = front.split_last() {
        let name = last.name();
        if is_reserved(name) || !behind.insert(name)? {
            return Ok(false);
        }
        front = others;
    }
    Ok(true)
}
