//! A law of the definitions that the contracts cite. A call takes no time and gives nothing: its
//! clause is the law.
ghost use Rattle.std.specs.Prelude.{◌≡◌, List};
ghost use Rattle.osc_runs.specs.Gathering.{Plain, none, gather_all};
ghost use Rattle.osc_runs.specs.Telling.{rows_text};
ghost use Rattle.osc_runs.specs.Listed.{run_text};

/// What is told of lines that were taken one after another is what is told of their list.
pub fn a_run_is_told_by_all_its_lines()
    ensures { (plains : List Plain) → rows_text (gather_all none plains).rows ≡ run_text plains }
{}
