//! Tests of whether what a message brings fits the setup.

ghost use Rattle.std.specs.Prelude.{◌≡◌, ◌↔◌, IfOk, IsTrue};
ghost use Rattle.run_model.specs.Fitting.{AskFits, BodyFits, ItemFits, PieceFits, PointsFit, SetupFits, WantFits};
ghost use Rattle.run_model.specs.Rights as rights;
ghost use Rattle.message_laws.specs.Heeded.{AreFitting};

use effect_model::{inst_fits, right_fits};
use ind_base::{List, NoMemory, Span};
use rights_table::points_all;
use spec_model::{Body, LogItem, Piece, Right, Setup, Want, WantAsk};
use std::alloc::Global;

/// Whether it is a right to lower or raise a cell.
fn is_escrow(right: &Right) -> bool
    ensures { result ≡ rights.is_escrow right.now }
{
    match right {
        Right::Low(_) => true,
        Right::High(_) => true,
        _ => false,
    }
}

/// Whether it is a right that is held in shares.
fn is_shared(right: &Right) -> bool
    ensures { result ≡ rights.is_shared right.now }
{
    match right {
        Right::Lock { .. } => true,
        Right::Entry { .. } => true,
        _ => false,
    }
}

/// Whether these are points of a partition, in ascending order.
fn points_fit(setup: &Setup, right: &Right, span: &Span) -> bool
    ensures { IsTrue result ↔ PointsFit setup.now right.now span.now }
{
    match right {
        Right::Part { part, .. } => span.lo <= span.hi && span.hi < points_all(setup, *part),
        _ => false,
    }
}

/// Whether a piece is one of a right of the setup.
fn piece_fits(setup: &Setup, right: &Right, piece: &Piece) -> bool
    ensures { IsTrue result ↔ PieceFits setup.now right.now piece.now }
{
    match piece {
        Piece::Count(count) => is_escrow(right) && 1 <= *count && *count <= u64::MAX,
        Piece::Shares { shares, .. } => {
            is_shared(right) && 1 <= *shares && *shares <= setup.replicas
        }
        Piece::Points(span) => points_fit(setup, right, span),
    }
}

/// Whether an ask is one for a right of the setup.
fn ask_fits(setup: &Setup, right: &Right, ask: &WantAsk) -> bool
    ensures { IsTrue result ↔ AskFits setup.now right.now ask.now }
{
    match ask {
        WantAsk::Count(count) => is_escrow(right) && *count <= u64::MAX,
        WantAsk::Level(_) => is_shared(right),
        WantAsk::Points(span) => points_fit(setup, right, span),
    }
}

fn body_fits(setup: &Setup, body: &Body) -> bool
    requires setup { SetupFits setup.now }
    ensures { IsTrue result ↔ BodyFits setup.now body.now }
{
    match body {
        Body::Act(inst) => inst_fits(&setup.spec, inst),
        Body::Out { to, right, piece } => {
            *to < setup.replicas && right_fits(setup, right) && piece_fits(setup, right, piece)
        }
        Body::Accept { from, index } => *from < setup.replicas && *index < u32::MAX,
    }
}

/// Whether an item fits the setup.
pub(crate) fn item_fits(setup: &Setup, item: &LogItem) -> bool
    requires setup { SetupFits setup.now }
    ensures { IsTrue result ↔ ItemFits setup.now item.now }
{
    item.origin < setup.replicas
        && item.index < u32::MAX
        && item.deps.len() == setup.replicas as usize
        && body_fits(setup, &item.body)
}

/// Whether a want fits the setup.
fn want_fits(setup: &Setup, want: &Want) -> bool
    requires setup { SetupFits setup.now }
    ensures { IsTrue result ↔ WantFits setup.now want.now }
{
    right_fits(setup, &want.right) && ask_fits(setup, &want.right, &want.ask)
}

/// The wants that fit, in their order.
pub(crate) fn fitting_wants(
    alloc: Global,
    setup: &Setup,
    wants: &[Want],
) -> Result<List<Want>, NoMemory>
    requires setup { SetupFits setup.now }
    ensures { IfOk result (AreFitting setup.now wants.now) }
{
    let mut fitting = List::from_vec(Vec::with_capacity(alloc, wants.len())?);
    for want in wants {
        if want_fits(setup, want) {
            let _so_far = fitting.as_slice();
            fitting.push(*want)?;
        }
    }
    Ok(fitting)
}
