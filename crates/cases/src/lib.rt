// A case as lent numbers, read by the names that the rules give its parts (rules, Case).
#![tactic(auto)]

ghost use Rattle.std.specs.Prelude.{◌≡◌, ◌<◌};
ghost use Rattle.rules.specs.Case.{task_count, period, execution, deadline, release_count, time_of, name_of};

use rules::{RELEASE_WIDTH, TASK_WIDTH};
use std::marker::Model;

// ---- a case

// Processors, policy, task numbers, end and release numbers: any at all, as they are lent. A contract sees the case that they are.
#[derive(Drop)]
pub struct Case<'a> {
    pub procs: u32,
    pub policy: u32,
    pub table: &'a [u32],
    pub end: u32,
    pub trace: &'a [u32],
}

impl<'a> Model for Case<'a> {
    ghost use Rattle.rules.specs.Case.{Case, case_of};

    ghost Value = { Case };

    ghost view = { λ c. case_of c.procs c.policy c.table.now c.end c.trace.now };
}

impl<'a> Case<'a> {
    // The same case once more. With lent slices in it a case is not `Copy`, and to lend them again costs nothing.
    pub fn again(&self) -> Case<'a>
        ensures { result ≡ self.now }
    {
        Case {
            procs: self.procs,
            policy: self.policy,
            table: self.table,
            end: self.end,
            trace: self.trace,
        }
    }
}

// A case at which nothing is at fault: whoever makes one shows that it is accepted (crate checks, `accept`).
#[derive(Drop)]
pub struct AcceptedCase<'a> {
    pub case: Case<'a>,
}

impl<'a> Model for AcceptedCase<'a> {
    ghost use Rattle.rules.specs.Case.{Case};
    ghost use Rattle.rules.specs.Refusals.{Accepted};

    ghost Value = { Case };

    ghost view = { λ c. c.case };

    ghost invariant = { λ c. Accepted c.case };
}

// ---- its table

// How many tasks a table has.
pub fn task_count(table: &[u32]) -> usize
    ensures { result ≡ task_count table.now }
{
    table.len() / TASK_WIDTH
}

// T of a task, its least separation.
pub fn period_of(table: &[u32], i: usize) -> u32
    requires { i < task_count table.now }
    ensures { result ≡ period table.now i }
{
    table[i * TASK_WIDTH]
}

// C of a task, its execution time.
pub fn execution_of(table: &[u32], i: usize) -> u32
    requires { i < task_count table.now }
    ensures { result ≡ execution table.now i }
{
    table[i * TASK_WIDTH + 1]
}

// D of a task, its relative deadline.
pub fn deadline_of(table: &[u32], i: usize) -> u32
    requires { i < task_count table.now }
    ensures { result ≡ deadline table.now i }
{
    table[i * TASK_WIDTH + 2]
}

// ---- its trace

// How many releases a trace has.
pub fn release_count(trace: &[u32]) -> usize
    ensures { result ≡ release_count trace.now }
{
    trace.len() / RELEASE_WIDTH
}

// The time of a release.
pub fn time_of(trace: &[u32], j: usize) -> u32
    requires { j < release_count trace.now }
    ensures { result ≡ time_of trace.now j }
{
    trace[j * RELEASE_WIDTH]
}

// The task that a release names, by its number from 1.
pub fn name_of(trace: &[u32], j: usize) -> u32
    requires { j < release_count trace.now }
    ensures { result ≡ name_of trace.now j }
{
    trace[j * RELEASE_WIDTH + 1]
}
