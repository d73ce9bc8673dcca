ghost use Rattle.std.specs.Prelude.{◌≡◌, ◌≢◌, ◌+◌, ◌<◌, ◌^◌, ◌++◌, ◌∷◌, All, Contains, List, length, map, true};
ghost use Rattle.std.specs.List.{AllPairs};
ghost use Rattle.conda_refute.specs.LogText.{is_log};
ghost use Rattle.conda_refute.specs.Refutation.{refuted};
ghost use Rattle.conda_refute.specs.declared.log.Log.{Log};
ghost use Rattle.conda_encode.specs.Clauses.{Reason};
ghost use Rattle.conda_explain.specs.Renumbered.{shown_log};
ghost use Rattle.conda_explain.specs.Shown.{StandsBefore, shown, used};

/// What a report shows. Of a refutation over clauses of a request it shows a refutation, whose
/// inputs are the clauses that the first one's steps name: all of them, each once, in the order of
/// the request's clauses and with the first reason of each. The steps that are shown name each of
/// them. The text that is shown can be read.
pub fn report_laws()
    ensures refuted { (reasons : List Reason) (log : Log) →
        All (Contains (map (λ r. r.1) reasons)) log.inputs →
        refuted log ≡ true → refuted (shown_log reasons log) ≡ true }
    ensures covers { (reasons : List Reason) (log : Log) →
        All (Contains (map (λ r. r.1) reasons)) log.inputs →
        All (Contains (shown_log reasons log).inputs) (used log) }
    ensures only { (reasons : List Reason) (log : Log) →
        All (Contains (used log)) (shown_log reasons log).inputs }
    ensures named { (reasons : List Reason) (log : Log) →
        All (Contains (used (shown_log reasons log))) (shown_log reasons log).inputs }
    ensures order { (reasons : List Reason) (log : Log) →
        AllPairs (StandsBefore reasons) (shown reasons log) }
    ensures once { (reasons : List Reason) (log : Log) →
        AllPairs (λ r s. r.1 ≢ s.1) (shown reasons log) }
    ensures first { (reasons : List Reason) (log : Log) (r : Reason) →
        Contains (shown reasons log) r →
        (front back : List Reason) × (reasons ≡ front ++ r ∷ back)
        × All (λ s. s.1 ≢ r.1) front }
    ensures numbers { (reasons : List Reason) (log : Log) →
        length reasons + length log.steps + 1 < 2 ^ 64 →
        is_log log ≡ true → is_log (shown_log reasons log) ≡ true }
{}
