//! Judges a trace, and writes the lines that explain the verdict.

ghost use Rattle.std.specs.Prelude.{◌≡◌, [], IfOk, Some};
ghost use Rattle.needs.specs.Unmatched.{unmatched_lines};
ghost use Rattle.std.specs.String.{string_bytes};
ghost use Rattle.velodrome.specs.Specification.{Specification};
ghost use Rattle.judge.specs.Judgement.{IsJudgement};
ghost use Rattle.program_runs.specs.Judgements.{IsJudgementBy, MayBeFed};
ghost use Rattle.explaining.specs.Explanations.{verdict_part};

use crate::event_places::put_event_places;
use crate::event_turns::{EventTurn, turns_of};
use atom_graph::Checker;
use atom_spec::Spec;
use jvms_machine::trace::Item;
use needs::unmatched_text;
use program::Program;
use program_runs::{Judgement, feed_items, judgement_of};
use report::explain;
use source_lines::SourceFiles;
use std::alloc::{AllocError, Global};

/// A judgement, and the lines that explain its cycle.
#[derive(Debug, Drop)]
pub(crate) struct Explained {
    pub(crate) judgement: Option<Judgement>,
    pub(crate) text: String,
}

/// Feeds items to a checker, and explains its verdict. `events` are those of the items, and `unmatched` the lines that
/// match no method.
fn explain_fed(
    alloc: Global,
    program: &Program,
    sources: &SourceFiles,
    checker: &mut Checker,
    items: &[Item],
    events: &[EventTurn],
    unmatched: &str,
) -> Result<Explained, AllocError>
    requires fresh { checker.old.items ≡ [] }
    requires fed { MayBeFed checker.old.lines items.now }
    requires unmatched { unmatched.now ≡ unmatched_lines program.now checker.old.lines }
    ensures judged { IfOk result
        (λ e. IsJudgement (Some checker.old.lines) items.now e.judgement) }
    ensures text { IfOk result (λ e. string_bytes e.text ≡ verdict_part program.now
        sources.now.first sources.now.files.now (Some checker.old.lines) e.judgement items.now
        events.now) }
{
    let turns = turns_of(alloc, events)?;
    feed_items(checker, items)?;
    let judgement = judgement_of(checker)?;
    let mut text = explain(alloc, checker, turns.as_slice(), &judgement.verdict)?;
    put_event_places(
        alloc,
        &mut text,
        program,
        sources,
        &judgement.verdict,
        events,
    )?;
    text.push_str(unmatched)?;
    Ok(Explained {
        judgement: Some(judgement),
        text,
    })
}

/// Judges items by a specification, and explains the verdict. `events` are those of the items.
fn explain_by(
    alloc: Global,
    program: &Program,
    sources: &SourceFiles,
    spec: Spec,
    items: &[Item],
    events: &[EventTurn],
) -> Result<Explained, AllocError>
    requires { MayBeFed spec items.now }
    ensures judged { IfOk result (λ e. IsJudgement (Some spec) items.now e.judgement) }
    ensures text { IfOk result (λ e. string_bytes e.text ≡ verdict_part program.now
        sources.now.first sources.now.files.now (Some spec) e.judgement items.now events.now) }
{
    let unmatched = unmatched_text(alloc, program, spec.lines())?;
    let mut checker = Checker::new(alloc, spec)?;
    let explained = explain_fed(
        alloc,
        program,
        sources,
        &mut checker,
        items,
        events,
        unmatched.as_str(),
    );
    drop(checker);
    explained
}

/// Judges items, if there is a specification, and explains the verdict.
pub(crate) fn explain_items(
    alloc: Global,
    program: &Program,
    sources: &SourceFiles,
    spec: Option<Spec>,
    items: &[Item],
    events: &[EventTurn],
) -> Result<Explained, AllocError>
    requires { (lines : Specification) → MayBeFed lines items.now }
    ensures judged { IfOk result (λ e. IsJudgement spec items.now e.judgement) }
    ensures text { IfOk result (λ e. string_bytes e.text ≡ verdict_part program.now
        sources.now.first sources.now.files.now spec e.judgement items.now events.now) }
{
    match spec {
        Some(spec) => explain_by(alloc, program, sources, spec, items, events),
        None => Ok(Explained {
            judgement: None,
            text: String::new(alloc),
        }),
    }
}
