ghost use Rattle.std.specs.Prelude.{◌≡◌};
ghost use Rattle.std.specs.List.{list_any};
ghost use Rattle.pc_desk_run.specs.Endings.{ended_of, ended_of_draft, ended_of_reasons, ended_of_trial, ended_of_widths, finds_impossible, has_impossible, has_outer, is_impossible, is_open, is_outer, stands_impossible};

use crate::ended::Ended;
use pc_desk_schema::Draft;
use pc_desk_table::{End, Entry, Mark, Range, Said, SaidLack};
use pc_desk_try::Trial;
use pc_desk_weigh::Weighed;
use pc_desk_why::{Explained, Found};

/// How much of what is shown is settled.
pub(crate) fn ended_of(entries: &[Entry]) -> Ended
    ensures ended { result ≡ ended_of entries.now }
{
    if has_impossible_entry(entries) {
        return Ended::Impossible;
    }
    if has_open(entries) {
        return Ended::Open;
    }
    Ended::Settled
}

/// How much of what is explained is settled.
pub(crate) fn ended_of_reasons(all: &[Explained]) -> Ended
    ensures ended { result ≡ ended_of_reasons all.now }
{
    if has_impossible(all) {
        return Ended::Impossible;
    }
    if has_open_reason(all) {
        return Ended::Open;
    }
    Ended::Settled
}

/// Whether some answer says that no lost rows are possible.
pub(crate) fn has_impossible(all: &[Explained]) -> bool
    ensures { result ≡ has_impossible all.now }
{
    all.iter().any(|told| finds_impossible(&told.found))
}

fn finds_impossible(found: &Found) -> bool
    ensures { result ≡ finds_impossible found.now }
{
    matches!(found, Found::Impossible)
}

fn has_open_reason(all: &[Explained]) -> bool
    ensures { result ≡ list_any (λ told. told.open) all.now }
{
    all.iter().any(|told| told.open)
}

/// How much of what is weighed is settled.
pub(crate) fn ended_of_widths(all: &[Weighed]) -> Ended
    ensures ended { result ≡ ended_of_widths all.now }
{
    if stands_impossible(all) {
        return Ended::Impossible;
    }
    if has_open_change(all) {
        return Ended::Open;
    }
    Ended::Settled
}

// As constraints stand; that a change would make them impossible is a finding.
fn stands_impossible(all: &[Weighed]) -> bool
    ensures { result ≡ stands_impossible all.now }
{
    match all.first() {
        Some(standing) => has_impossible_entry(standing.entries.as_slice()),
        None => false,
    }
}

fn has_open_change(all: &[Weighed]) -> bool
    ensures { result ≡ list_any (λ weighed. list_any is_open weighed.entries) all.now }
{
    all.iter()
        .any(|weighed| has_open(weighed.entries.as_slice()))
}

/// Whether a table keeps constraints.
pub(crate) fn ended_of_trial(trial: &Trial) -> Ended
    ensures ended { result ≡ ended_of_trial trial.now }
{
    if trial.is_kept() {
        Ended::Settled
    } else {
        Ended::Open
    }
}

/// Whether all columns that are wanted are drafted.
pub(crate) fn ended_of_draft(draft: &Draft) -> Ended
    ensures ended { result ≡ ended_of_draft draft.now }
{
    if draft.is_whole() {
        Ended::Settled
    } else {
        Ended::Open
    }
}

fn has_impossible_entry(entries: &[Entry]) -> bool
    ensures { result ≡ list_any is_impossible entries.now }
{
    entries.iter().any(|entry| is_impossible(entry))
}

fn has_open(entries: &[Entry]) -> bool
    ensures { result ≡ list_any is_open entries.now }
{
    entries.iter().any(|entry| is_open(entry))
}

fn is_impossible(entry: &Entry) -> bool
    ensures { result ≡ is_impossible entry.now }
{
    matches!(entry.relation, Said::Impossible)
}

fn is_open(entry: &Entry) -> bool
    ensures { result ≡ is_open entry.now }
{
    if matches!(entry.relation, Said::Undecided) {
        return true;
    }
    if matches!(entry.lack, Some(SaidLack::Undecided)) {
        return true;
    }
    has_outer(&entry.range)
}

fn has_outer(range: &Option<Range>) -> bool
    ensures { result ≡ has_outer range.now }
{
    match range {
        Some(range) => is_outer(&range.low) || is_outer(&range.high),
        None => false,
    }
}

fn is_outer(end: &End) -> bool
    ensures { result ≡ is_outer end.now.mark }
{
    matches!(end.mark, Mark::Outer)
}
