//! The variables of a clause by their names. A line may have very many of them, and name each in very
//! many literals, so that they aren't looked for one after the other.

ghost use Rattle.std.specs.Prelude.{◌≡◌, IfOk};
ghost use Rattle.std.specs.List.{list_all};
ghost use Rattle.spec_language.specs.Draft as drafts;
ghost use Rattle.spec_language.specs.Directory.{IsDirectory, found};

use ind_base::{NoMemory, Text};
use spec_model::Var;
use std::alloc::Global;
use std::collections::BTreeMap;

/// What the name of a variable stands for.
#[derive(Clone, Copy)]
pub(crate) struct Known {
    pub(crate) sort: u32,
    pub(crate) interval: bool,
}

/// What each name stands for: the first variable that has it.
pub(crate) fn directory(alloc: Global, vars: &[Var]) -> Result<BTreeMap<&[u8], Known>, NoMemory>
    ensures { IfOk result (λ m. IsDirectory m vars.now) }
{
    let mut by_name = BTreeMap::new(alloc);
    let mut front = vars;
    'going: while let Some((last, others)) = front.split_last() {
        let known = Known {
            sort: last.sort,
            interval: last.interval,
        };
        by_name.insert(last.name.as_slice(), known)?;
        front = others;
    }
    Ok(by_name)
}

fn find<'a>(vars: &[Var], by_name: &BTreeMap<&'a [u8], Known>, name: &'a [u8]) -> Option<Known>
    requires { IsDirectory by_name.now vars.now }
    ensures { result ≡ found vars.now name.now }
{
    let _vars = vars;
    by_name.get(&name).copied()
}

/// Whether it is the name of a variable.
pub(crate) fn is_in<'a>(vars: &[Var], by_name: &BTreeMap<&'a [u8], Known>, name: &'a [u8]) -> bool
    requires { IsDirectory by_name.now vars.now }
    ensures { result ≡ drafts.is_var vars.now name.now }
{
    find(vars, by_name, name).is_some()
}

/// The sort of the variable with this name.
pub(crate) fn sort_in<'a>(vars: &[Var], by_name: &BTreeMap<&'a [u8], Known>, name: &'a [u8]) -> u32
    requires { IsDirectory by_name.now vars.now }
    ensures { result ≡ drafts.sort_of_var vars.now name.now }
{
    match find(vars, by_name, name) {
        Some(known) => known.sort,
        None => 0,
    }
}

fn is_interval_in<'a>(vars: &[Var], by_name: &BTreeMap<&'a [u8], Known>, name: &'a [u8]) -> bool
    requires { IsDirectory by_name.now vars.now }
    ensures { result ≡ drafts.is_interval vars.now name.now }
{
    match find(vars, by_name, name) {
        Some(known) => known.interval,
        None => false,
    }
}

#[tactic(auto, unfolding(crate::specs::Draft::is_plain))]
fn is_plain_in<'a>(
    vars: &[Var],
    by_name: &BTreeMap<&'a [u8], Known>,
    name: &'a [u8],
    sort: u32,
) -> bool
    requires { IsDirectory by_name.now vars.now }
    ensures { result ≡ drafts.is_plain vars.now name.now sort }
{
    sort_in(vars, by_name, name) == sort && !is_interval_in(vars, by_name, name)
}

/// Whether all of them are names of variables.
pub(crate) fn are_in<'a>(
    vars: &[Var],
    by_name: &BTreeMap<&'a [u8], Known>,
    names: &'a [Text],
) -> bool
    requires { IsDirectory by_name.now vars.now }
    ensures { result ≡ list_all (drafts.is_var vars.now) names.now }
{
    for x in names {
        if !is_in(vars, by_name, x.as_slice()) {
            return false;
        }
    }
    true
}

/// Whether there are as many names as sorts, each of a plain variable of its sort.
pub(crate) fn fit_in<'a>(
    vars: &[Var],
    by_name: &BTreeMap<&'a [u8], Known>,
    names: &'a [Text],
    sorts: &[u32],
) -> bool
    requires { IsDirectory by_name.now vars.now }
    ensures { result ≡ drafts.fit_all (drafts.is_plain vars.now) names.now sorts.now }
{
    let mut xs = names;
    let mut ss = sorts;
    'fitting: while !xs.is_empty() {
        if ss.is_empty() {
            return false;
        }
        let (x, others) = xs.split_at(1);
        let (s, sorts_behind) = ss.split_at(1);
        if !is_plain_in(vars, by_name, x[0].as_slice(), s[0]) {
            return false;
        }
        xs = others;
        ss = sorts_behind;
    }
    ss.is_empty()
}
