// The theorems, each demanded by a contract: those of crate `rules`, of the runs of the cabinets themselves, whose counts have an end.
ghost use Rattle.law.specs.Laws.{RulesHold};
ghost use Rattle.law.specs.Safety.{EveryRunOneRight, EveryRunSafe};
ghost use Rattle.law.specs.Trials.{BenchTrials, NotEmpty};

// Every run of a section is safe: one direction at a time, no paper lost or closed twice, the interval kept.
pub fn safety_stands() -> bool
    ensures { EveryRunSafe }
{
    true
}

// In every run at most one station has the right, and while a paper of one is live the other lacks it.
pub fn one_right_stands() -> bool
    ensures { EveryRunOneRight }
{
    true
}

// Refusals, and what they leave.
pub fn rules_stand() -> bool
    ensures { RulesHold }
{
    true
}

// The bench trials come out as they should.
pub fn bench_trials_stand() -> bool
    ensures { BenchTrials }
{
    true
}

// There are runs in which each law has something to say.
pub fn laws_not_empty() -> bool
    ensures { NotEmpty }
{
    true
}
