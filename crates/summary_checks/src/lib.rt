// Tests of the summary over address prefixes: runs that were worked out by hand, tables that fill up, the edges of
// totals and settings, the two sweeps of one table, and a long run beside a second summary that is written straight from
// the rules.
#![tactic(auto)]

ghost use Rattle.std.specs.Prelude.{◌≡◌, Ok};
ghost use Rattle.octets.specs.Octets.{net};
ghost use Rattle.summary_checks.specs.Worked.{WorkedRun, bounds_then};

#[cfg(test)]
mod alike;
#[cfg(test)]
mod edges;
#[cfg(test)]
mod plain;
#[cfg(test)]
mod room;
#[cfg(test)]
mod steps;
#[cfg(test)]
mod sweeps;
#[cfg(test)]
mod worked;

// The definitions that the contracts cite compute the worked run as it is done by hand. Answers the bounds that 10.2/16 has by
// them in the end, when it has been folded and made anew: its true count is 3, and only its slack tells.
#[tactic(auto, using(crate::proofs::Computed::worked_run, crate::proofs::Computed::bounds_remade))]
pub fn definitions_give_the_worked_run() -> (u64, u64)
    ensures run { WorkedRun }
    ensures remade { bounds_then (net 10 2 0 0 16) ≡ Ok result }
{
    (1, 3)
}
