//! What a store keeps of each atom: its live tags.

ghost use Rattle.std.specs.Prelude.{◌≡◌, ◌<◌, ◌≤◌, ◌+◌, ◌^◌, length, replicate, IfOk};
ghost use Rattle.spec_model.specs.Fits.{IsWellFormed};
ghost use Rattle.spec_model.specs.Truths.{wins};
ghost use Rattle.spec_model.specs.Truths as truths;
ghost use Rattle.spec_model.specs.Universe.{atoms};
ghost use Rattle.effect_model.specs.Visits.{done_all};
ghost use Rattle.causal_store.specs.Keeping.{CanTag, item_sets, joined, no_tags, some_above, tag_by, tags_after};

use effect_model::{Visiting, atom_place, inst_sets, lines_of, next_set, sort_sizes, visit_all};
use ind_base::{Args, Cut, List, NoMemory};
use spec_model::{Atom, Body, Inst, LogItem, Rule, Spec};
use std::alloc::Global;

/// Of an atom, for each log one more than the place of the last setter of the winning value, what
/// the setters of the other value have in their pasts, and whether there is one. A last setter that
/// lies in none of those pasts is a live tag.
#[derive(Clone, Copy)]
pub(crate) struct Tags {
    pub(crate) last: Cut,
    pub(crate) past: Cut,
    pub(crate) followed: bool,
}

/// So many zeros.
fn zeros(replicas: u32) -> Cut
    requires { replicas ≤ 16 }
    ensures { result ≡ replicate replicas 0 }
{
    let mut counts = Cut::new();
    for _i in 0..replicas {
        counts.push(0);
    }
    counts
}

/// Makes each count at least that of the other cut.
fn join(cut: &mut Cut, other: &Cut)
    requires { length other.now ≤ length cut.old }
    ensures { cut.new ≡ joined cut.old other.now }
{
    for (at, count) in other.as_slice().iter().enumerate() {
        if *count > cut.as_slice()[at] {
            cut.set(at, *count);
        }
    }
}

/// Whether some count is above the other's.
fn any_above(counts: &[u32], others: &[u32]) -> bool
    requires { length counts.now ≤ length others.now }
    ensures { result ≡ some_above counts.now others.now }
{
    for (at, count) in counts.iter().enumerate() {
        if others[at] < *count {
            return true;
        }
    }
    false
}

/// The value that wins of two concurrent ones.
pub(crate) fn winning_value(spec: &Spec, pred: u32) -> bool
    ensures { result ≡ wins spec.now pred }
{
    match spec.preds.get(pred as usize) {
        Some(pred) => match pred.rule {
            Rule::AddWins => true,
            Rule::RemoveWins => false,
            Rule::Locked => true,
        },
        None => true,
    }
}

impl Tags {
    /// Of an atom that nothing has set.
    pub(crate) fn new(replicas: u32) -> Tags
        requires { replicas ≤ 16 }
        ensures { result ≡ no_tags replicas }
    {
        Tags {
            last: zeros(replicas),
            past: zeros(replicas),
            followed: false,
        }
    }

    /// Whether a live tag is left, besides the first value.
    pub(crate) fn is_live(&self) -> bool
        requires { length self.now.last ≤ length self.now.past }
        ensures { result ≡ some_above self.now.last self.now.past }
    {
        any_above(self.last.as_slice(), self.past.as_slice())
    }

    /// With one more setter, of the winning value or of the other.
    fn after(&self, item: &LogItem, winning: bool) -> Tags
        requires origin { item.now.origin < length self.now.last }
        requires past { length item.now.deps ≤ length self.now.past }
        requires small { item.now.index + 1 < 2 ^ 32 }
        ensures { result ≡ tags_after item.now winning self.now }
    {
        let mut last = self.last;
        let mut past = self.past;
        if winning {
            let origin = item.origin as usize;
            let before = last.as_slice()[origin];
            if before < item.index + 1 {
                last.set(origin, item.index + 1);
            }
            Tags {
                last,
                past,
                followed: self.followed,
            }
        } else {
            join(&mut past, &item.deps);
            Tags {
                last,
                past,
                followed: true,
            }
        }
    }
}

/// What an act makes of the tags of the atoms of one predicate.
#[derive(Clone, Copy)]
struct Tagging<'a> {
    spec: &'a Spec,
    item: &'a LogItem,
    inst: &'a Inst,
    pred: u32,
}

impl Visiting for Tagging<'_> {
    ghost use Rattle.std.specs.Prelude.{◌+◌, ◌<◌, ◌^◌};
    ghost use Rattle.spec_model.specs.declared.instance.Atom.{Atom as AtomWith};
    ghost use Rattle.spec_model.specs.Fits.{IsWellFormed as IsFormed};
    ghost use Rattle.spec_model.specs.Truths.{inst_sets as sets_to};
    ghost use Rattle.effect_model.specs.Places.{AtomFits};
    ghost use Rattle.causal_store.specs.Keeping.{CanTag as MayTag, tag_by as tagged_by};

    type Kept = List<Tags>;

    ghost knows = { λ s xs. AtomFits s.spec.now (record { pred = s.pred; args = xs }) };

    ghost fits = { λ s tags. IsFormed s.spec.now × (s.item.now.index + 1 < 2 ^ 32) × MayTag s.spec.now s.item.now tags };

    ghost done = { λ s xs tags. tagged_by s.spec.now s.item.now (λ atom. sets_to s.spec.now s.inst.now atom.pred atom.args) (record { pred = s.pred; args = xs }) tags };

    fn next(&self, front: &[u32], from: u32) -> u32 {
        next_set(
            self.inst,
            lines_of(self.spec, self.inst),
            self.pred,
            front,
            from,
        )
    }

    fn visit(&self, args: &Args, kept: &mut List<Tags>) {
        let atom = Atom {
            pred: self.pred,
            args: *args,
        };
        match inst_sets(self.spec, self.inst, &atom) {
            Some(truth) => {
                let place = atom_place(self.spec, &atom);
                let winning = winning_value(self.spec, self.pred);
                let before = kept.as_slice()[place];
                let after = before.after(self.item, truth == winning);
                kept.set(place, after);
            }
            None => {}
        }
    }
}

/// What an act makes of all tags.
fn tag_act(spec: &Spec, item: &LogItem, inst: &Inst, tags: &mut List<Tags>)
    requires formed { IsWellFormed spec.now }
    requires small { item.now.index + 1 < 2 ^ 32 }
    requires fits { CanTag spec.now item.now tags.old }
    ensures { tags.new ≡ done_all (tag_by spec.now item.now (λ atom. truths.inst_sets spec.now inst.now atom.pred atom.args)) (atoms spec.now) tags.old }
{
    for (at, pred) in spec.preds.as_slice().iter().enumerate() {
        let tagging = Tagging {
            spec,
            item,
            inst,
            pred: at as u32,
        };
        let sizes = sort_sizes(spec, pred.sorts.as_slice());
        visit_all(&tagging, Args::new(), sizes.as_slice(), tags);
    }
}

/// What an item makes of all tags: it takes no memory, and looks at the atoms that it sets alone.
pub(crate) fn tag_item(spec: &Spec, item: &LogItem, tags: &mut List<Tags>)
    requires formed { IsWellFormed spec.now }
    requires small { item.now.index + 1 < 2 ^ 32 }
    requires fits { CanTag spec.now item.now tags.old }
    ensures { tags.new ≡ done_all (tag_by spec.now item.now (item_sets spec.now item.now)) (atoms spec.now) tags.old }
{
    match &item.body {
        Body::Act(inst) => tag_act(spec, item, inst, tags),
        Body::Out { .. } => {}
        Body::Accept { .. } => {}
    }
}

/// The tags of so many atoms that nothing has set.
pub(crate) fn first_tags(alloc: Global, replicas: u32, count: usize) -> Result<List<Tags>, NoMemory>
    requires { replicas ≤ 16 }
    ensures { IfOk result (λ tags. tags ≡ replicate count (no_tags replicas)) }
{
    let mut tags = List::new(alloc);
    for _done in 0..count {
        tags.push(Tags::new(replicas))?;
    }
    Ok(tags)
}
