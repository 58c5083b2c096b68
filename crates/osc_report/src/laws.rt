//! What the definitions say of entries that are shown in pieces. A call takes no time and gives
//! nothing: its clauses are the law.
ghost use Rattle.std.specs.Prelude.{ℕ, List, ◌++◌};
ghost use Rattle.osc_model.specs.Events.{Entry};
ghost use Rattle.osc_story.specs.Standings.{Standing, seen_all};
ghost use Rattle.osc_report.specs.declared.options.Options.{Options};
ghost use Rattle.osc_report.specs.Reports.{AddsShown};
ghost use Rattle.osc_report.specs.Runs.{Progress};
ghost use Rattle.osc_report.specs.Stretches.{IsStretch};

/// What is shown of a stretch, and then of what follows it, is what is shown of all.
pub fn stretches_make_the_whole()
    ensures { (options : Options) (standing : Standing) (old between now : Progress)
        (entries others : List Entry) (before mid after : List ℕ) → IsStretch entries
        → AddsShown options standing old entries before mid between
        → AddsShown options (seen_all standing entries) between others mid after now
        → AddsShown options standing old (entries ++ others) before after now }
{}
